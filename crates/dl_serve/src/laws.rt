//! Laws of serving: what it comes to, and what a status says of it.

ghost use Rattle.std.specs.Prelude.{◌≡◌, Bool, List, Option, Some, false, map, ℕ};
ghost use Rattle.dl_loop.specs.Daemon.{TellTaken};
ghost use Rattle.dl_outside.specs.Told.{FolderTold, SinkTold};
ghost use Rattle.dl_startup.specs.Setup.{IsBegun};
ghost use Rattle.dl_startup.specs.Unchanged.{IsQuiet};
ghost use Rattle.dl_startup.specs.declared.status.Status.{Status};
ghost use Rattle.dl_serve.specs.declared.beginning.Begun.{Begun};
ghost use Rattle.dl_serve.specs.declared.closed.Closed.{Closed};
ghost use Rattle.dl_serve.specs.Admitted.{AllAdmitted, TellGiven};
ghost use Rattle.dl_serve.specs.Comes.{IsComeTo};
ghost use Rattle.dl_serve.specs.Dropped.{HasDropped};
ghost use Rattle.dl_serve.specs.WhoWaited.{HasAcceptedInOrder, NetsStand};
ghost use Rattle.dl_serve.specs.Levels.{AllTookLevels};
ghost use Rattle.dl_serve.specs.Open.{setting};
ghost use Rattle.dl_serve.specs.Program.{Ended, HasOpened, IsServed, IsServing, Says};
ghost use Rattle.dl_serve.specs.Service.{Standing, frames_in};
ghost use Rattle.dl_serve.specs.Shown.{AllShowEnds, TellLeft};
ghost use Rattle.dl_serve.specs.Told.{Told};
ghost use Rattle.dl_serve.specs.Went.{EachCloseHasCause};

use dl_outside::Link;

/// What was served is what its journal says: this is well-formed, each client has its link and is closed, each link took the front of its client's
/// stream, and the trace files are those of the events. The folder may have been looked at before, but it was left alone since the trace was begun
/// over it.
pub fn what_was_served_is_its_journal<L: Link>()
    ensures { (begun : Begun) (old new : Told L) (full : Bool) (closed : Closed L) (first : FolderTold) → IsBegun begun.conf first.files begun.trace
        → IsQuiet first old.folder → HasOpened L.told begun full old new closed → IsComeTo L.told (setting begun) begun first new.folder closed }
{
    dl_server::laws::a_round_is_its_events::<L>();
    dl_server::laws::a_closing_is_its_events::<L>();
    dl_core::client_turns::who_has_an_outbox();
}

/// The User events of each external application are all messages of what its link gave, in their order, each once, however the bytes came; and behind
/// them those of its applications that were there at its end. Where memory ran out for it they are the first of the messages.
pub fn what_programs_sent_is_admitted<L: Link>()
    ensures { (begun : Begun) (old new : Told L) (full : Bool) (closed : Closed L) → HasOpened L.told begun full old new closed → TellGiven L.told
        → AllAdmitted closed.events.events (map L.told closed.users.links) closed.ends }
{}

/// The links of programs that ended show why: nothing is left to read of one that left, where links tell that, and a broken one has counted a fault.
pub fn how_programs_ended<L: Link>()
    ensures { (begun : Begun) (old new : Told L) (full : Bool) (closed : Closed L) → HasOpened L.told begun full old new closed
        → AllShowEnds (TellLeft L.told) (map L.told closed.users.links) closed.ends }
{}

/// Each client has its Close, for a cause that its link and the end of its link show; and where links tell what they gave and took, its Request events
/// are those of what its link gave, as the cause says.
pub fn how_clients_went<L: Link>()
    ensures { (begun : Begun) (old new : Told L) (full : Bool) (closed : Closed L) (first : FolderTold) → IsBegun begun.conf first.files begun.trace
        → HasOpened L.told begun full old new closed → EachCloseHasCause L.told (setting begun) closed }
{
    dl_core::laws::what_links_take();
}

/// Where links tell what they took, that of each external application took the front of the messages that tell the levels of its applications'
/// contexts, one for each of their Level events, and one for each accepted registration of a context that owes none, in the journal's order; and all
/// of them where the channel is open at the end and the link never had to wait. A channel ended as slow only where these messages have more bytes
/// than may wait.
pub fn what_programs_took<L: Link>()
    ensures { (begun : Begun) (old new : Told L) (full : Bool) (closed : Closed L) (first : FolderTold) → IsBegun begun.conf first.files begun.trace
        → HasOpened L.told begun full old new closed
        → AllTookLevels (TellTaken L.told) (setting begun) closed.events.events (map L.told closed.users.links) closed.ends }
{
    dl_rounds::laws::a_round_is_its_events::<L>();
}

/// Links were dropped only where as many clients had come as may be open at once, or as many channels, or memory ran out.
pub fn why_links_were_dropped<L: Link>()
    ensures { (begun : Begun) (old new : Told L) (full : Bool) (closed : Closed L) (first : FolderTold) → IsBegun begun.conf first.files begun.trace
        → HasOpened L.told begun full old new closed → HasDropped closed }
{}

/// Where the journal had room for all rounds, memory was not wanting and the count of faults of neither net rose: each net handed out the first of those
/// that waited, one in each round, or all of them, and each of these came or was dropped. Where none was dropped, each that was not ended before the closing
/// gave at least as many bytes as there were rounds from its own on, or had nothing to give once.
pub fn who_was_handed_out<L: Link>()
    ensures { (begun : Begun) (old new : Told L) (full : Bool) (closed : Closed L) (last : Standing L) → (has : HasOpened L.told begun full old new closed)
        → frames_in (setting begun) last.events ≡ has.run.last.core.hub.admitted → IsServed L.told begun full old.net new.net old.users new.users closed last
        → full ≡ false → closed.memory ≡ false → NetsStand old new → HasAcceptedInOrder L.told begun.rounds last.events old.net new.net old.users new.users closed }
{
    dl_rounds::laws::a_round_is_its_events::<L>();
}

/// Round after round, who was there was served: each acceptor was asked once; the link of each client that is open behind a round was read in it, and was
/// sent all of its stream, or was busy; and so was the link of each program whose channel is open.
pub fn how_each_round_serves<L: Link>()
    ensures { (begun : Begun) (old new : Told L) (full : Bool) (closed : Closed L) (first : FolderTold) → IsBegun begun.conf first.files begun.trace
        → (has : HasOpened L.told begun full old new closed) → (last : Standing L) × (has.run.last.events ≡ Some last.events)
        × (frames_in (setting begun) last.events ≡ has.run.last.core.hub.admitted) × IsServed L.told begun full old.net new.net old.users new.users closed last }
{
    dl_rounds::laws::a_round_is_its_events::<L>();
    dl_rounds::laws::why_clients_stay();
    dl_rounds::laws::links_of_gone_clients_are_shut::<L>();
    dl_turns::laws::a_pump_is_its_events();
}

/// What a status says of serving is what is promised of the whole: the words decide first, and where all is of the form and nothing fails, the report was
/// written whole, or the journal was full, a frame had no name for its file, or memory ran out.
pub fn an_end_is_a_serving<L: Link>()
    ensures { (said : List (List ℕ)) (old new : Told L) (err err_now : SinkTold) (status : Status) (closed : Option (Closed L))
        → Ended L.told said old new status closed → Says status err err_now → IsServing L.told said old new err err_now status closed }
{}
