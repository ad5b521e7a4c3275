//! Laws of the connections that come in rounds.

ghost use Rattle.std.specs.Prelude.{◌≡◌, ◌+◌, ℕ, [], IfSome, count_by, length};
ghost use Rattle.dl_outside.specs.Told.{NetTold};
ghost use Rattle.dl_loop.specs.Coming.{HasWaited, HaveCome, TellsAccept, came_in};
ghost use Rattle.dl_loop.specs.Later.{GoesRound};
ghost use Rattle.dl_model.specs.Journal.{is_connect};
ghost use Rattle.dl_loop.specs.RoundSteps.{IsRound};
ghost use Rattle.dl_loop.specs.Scene.{Scene};
ghost use Rattle.dl_loop.specs.State.{DaemonState};
ghost use Rattle.dl_loop.specs.declared.round.Round.{Round};

use dl_outside::Link;

/// In a round of which the answer says `accepted` one connection came, and in each other one none; and what else the answer tells.
pub fn what_an_answer_tells<L: Link>()
    ensures came { (answer : Round) (net net_now : NetTold L) (old new : Scene L) → IsRound L.told answer net net_now old new
        → HaveCome (came_in answer) net net_now old.daemon new.daemon }
    ensures tells { (answer : Round) (net net_now : NetTold L) (old new : Scene L) → IsRound L.told answer net net_now old new
        → TellsAccept answer net net_now new.daemon }
{
    dl_rounds::laws::a_round_is_its_events::<L>();
}

/// In rounds one after the other the connections of all of them came, and without a round none.
pub fn connections_add_up<L: Link>()
    ensures none { (net : NetTold L) (d : DaemonState L) → HaveCome 0 net net d d }
    ensures both { (came came_then : ℕ) (net net_between net_now : NetTold L) (first second third : DaemonState L)
        → HaveCome came net net_between first second → HaveCome came_then net_between net_now second third
        → HaveCome (came + came_then) net net_now first third }
{}

/// Each connection that came is one of a Connect event or was let go. In rounds that found nobody none came; and where none waits any more, as far as
/// the net tells, just those came that waited.
pub fn who_came<L: Link>()
    ensures connected { (came : ℕ) (net net_now : NetTold L) (old new : Scene L) (come : HaveCome came net net_now old.daemon new.daemon)
        (goes : GoesRound net net_now old new) → count_by is_connect goes.more + come.let_go ≡ came }
    ensures nobody { (times : ℕ) (net : NetTold L) (s : Scene L) → HasWaited L.told times net s
        → (before : NetTold L) × (old : Scene L) × HaveCome 0 before net old.daemon s.daemon }
    ensures all { (came : ℕ) (net net_now : NetTold L) (old new : DaemonState L) → HaveCome came net net_now old new
        → IfSome net_now.waiting (λ links. links ≡ []) → IfSome net.waiting (λ links. came ≡ length links) }
{
    dl_rounds::laws::a_round_is_its_events::<L>();
}
