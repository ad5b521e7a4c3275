//! Laws of rounds over clients: what they are to the journal, to each client, and to what each link gave and took.

ghost use Rattle.std.specs.Prelude.{ℕ, Bool, List, IsSome};
ghost use Rattle.dl_bytes.specs.declared.moment.Moment.{Moment};
ghost use Rattle.dl_bytes.specs.declared.user.UserMsg.{UserMsg};
ghost use Rattle.dl_hub.specs.State.{Hub, outbox_of};
ghost use Rattle.dl_outside.specs.Told.{LinkTold};
ghost use Rattle.dl_turns.specs.Gone.{TellTheEnd};
ghost use Rattle.dl_turns.specs.State.{Side};
ghost use Rattle.dl_rounds.specs.Clients.{Client, Clients, VisitsAll};
ghost use Rattle.dl_rounds.specs.Greetings.{AreGreeted, GreetsEach};
ghost use Rattle.dl_rounds.specs.Partings.{AreShut, ShutsGone};
ghost use Rattle.dl_rounds.specs.Passing.{AreLater, EachOpen, IsVisit, StayAsNoted, WasRead, WasSent, WasVisited};
ghost use Rattle.dl_rounds.specs.Shown.{ShowWhy, TellOvers};
ghost use Rattle.dl_rounds.specs.Visits.{Closed, ClosesAll, Heard, HearsAll, Pumped};

use dl_outside::Link;

/// A visit is the client's events and bytes, whether it was listened to, pumped or closed.
pub fn a_visit_is_its_events<L: Link>()
    ensures heard { (number : ℕ) (moved : Bool) (old new : Client) → Heard number moved old new → IsVisit number old new }
    ensures pumped { (number : ℕ) (moved : Bool) (old new : Client) → Pumped number moved old new → IsVisit number old new }
    ensures closed { (number : ℕ) (moved : Bool) (old new : Client) → Closed (TellTheEnd L.told) number moved old new → IsVisit number old new }
{
    dl_turns::laws::a_turn_is_its_events();
    dl_turns::laws::a_pump_is_its_events();
    dl_turns::laws::a_stop_is_its_events();
    dl_turns::laws::links_show_why_clients_went();
}

/// A round is its events and bytes: journal, core, folder, level words and queues of injections go on by them, and a well-formed journal stays so.
pub fn a_round_is_its_events<L: Link>()
    ensures heard { (moved : Bool) (old new : Clients) → HearsAll moved old new → AreLater old new }
    ensures pumped { (moved : Bool) (old new : Clients) → VisitsAll Pumped moved old new → AreLater old new }
    ensures closed { (old new : Clients) → ClosesAll (TellTheEnd L.told) old new → AreLater old new }
{
    a_visit_is_its_events::<L>();
}

/// Clients that are as a run's events have them are so after a round, where their links tell: of an open one the cutter has cut just what its link
/// gave, and its Request events are the requests of that; of one that has gone all is as the model of a daemon's end says.
pub fn clients_are_as_noted<L: Link>()
    ensures heard { (moved : Bool) (old new : Clients) → HearsAll moved old new → StayAsNoted old new }
    ensures pumped { (moved : Bool) (old new : Clients) → VisitsAll Pumped moved old new → StayAsNoted old new }
    ensures closed { (old new : Clients) → ClosesAll (TellTheEnd L.told) old new → StayAsNoted old new }
{
    a_visit_is_its_events::<L>();
}

/// Each client that is open after a round was visited in it.
pub fn a_round_visits_each_client()
    ensures heard { (moved : Bool) (old new : Clients) → HearsAll moved old new
        → (number : ℕ) → IsSome (outbox_of new.side.core.hub number) → WasVisited Heard number old new }
    ensures pumped { (moved : Bool) (old new : Clients) → VisitsAll Pumped moved old new
        → (number : ℕ) → IsSome (outbox_of new.side.core.hub number) → WasVisited Pumped number old new }
{
    dl_turns::laws::a_turn_is_its_events();
    dl_turns::laws::a_pump_is_its_events();
    dl_turns::laws::links_show_why_clients_went();
}

/// After a round in which all clients were listened to, each that is still open has a link that gave a byte or had nothing to give yet. After
/// one in which all were pumped, nothing is left to send to such a client, or its link takes nothing more.
pub fn why_clients_stay()
    ensures read { (moved : Bool) (old new : Clients) → HearsAll moved old new → EachOpen WasRead old new }
    ensures sent { (moved : Bool) (old new : Clients) → VisitsAll Pumped moved old new → EachOpen WasSent old new }
{
    a_round_visits_each_client();
    dl_turns::laws::why_a_client_stays();
}

/// Clients that are gone show why after a round, too: those that went before it, and those that were closed in it. That the link of one that left is
/// over they show of links that told before the round whether they are.
pub fn gone_clients_show_why<L: Link>()
    ensures heard { (moved : Bool) (old new : Clients) → HearsAll moved old new → (TellTheEnd L.told → TellOvers old.links)
        → ShowWhy (TellTheEnd L.told) old → ShowWhy (TellTheEnd L.told) new }
    ensures pumped { (moved : Bool) (old new : Clients) → VisitsAll Pumped moved old new → ShowWhy (TellTheEnd L.told) old → ShowWhy (TellTheEnd L.told) new }
    ensures closed { (old new : Clients) → ClosesAll (TellTheEnd L.told) old new → ShowWhy (TellTheEnd L.told) old → ShowWhy (TellTheEnd L.told) new }
{
    dl_turns::laws::a_turn_is_its_events();
    dl_turns::laws::a_pump_is_its_events();
    dl_turns::laws::a_stop_is_its_events();
    dl_turns::laws::links_show_why_clients_went();
    dl_turns::laws::counts_show_why_clients_went();
}

/// The links of clients that are gone are shut: they stay so in a round, and one that closes a client shuts its link. Where closed clients' links
/// were shut, those of all that are gone then are.
pub fn links_of_gone_clients_are_shut<L: Link>()
    ensures heard { (moved : Bool) (old new : Clients) → HearsAll moved old new → AreShut old.side.core.hub old.links → AreShut new.side.core.hub new.links }
    ensures pumped { (moved : Bool) (old new : Clients) → VisitsAll Pumped moved old new → AreShut old.side.core.hub old.links → AreShut new.side.core.hub new.links }
    ensures closed { (old new : Clients) → ClosesAll (TellTheEnd L.told) old new → AreShut old.side.core.hub old.links → AreShut new.side.core.hub new.links }
    ensures parted { (hub : Hub) (old new : List LinkTold) → ShutsGone hub old new → AreShut hub new }
{
    a_visit_is_its_events::<L>();
}

/// What the applications of this process tell is its events: User events with just these messages, in order, and levels. The core, the folder and
/// the level words go on by them.
pub fn a_greeting_is_its_events()
    ensures { (moment : Moment) (msgs : List UserMsg) (old new : Side) → GreetsEach moment msgs old new → AreGreeted msgs old new }
{}
