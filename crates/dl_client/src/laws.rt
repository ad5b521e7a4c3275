//! What holds of all lists of steps.

ghost use Rattle.dl_client.specs.Captured.{IsWrittenAlike};
ghost use Rattle.dl_client.specs.Law.{EachCallIsAccountedFor};

/// What the link took and what waits is what was queued, in order and nothing else. Of each context, the calls that were
/// filtered, queued and lost are those that its accounts tell and those counted since. Each place holds the level that it was
/// told last.
pub fn each_call_is_accounted_for()
    ensures { EachCallIsAccountedFor }
{}

/// A log call is written as libdlt 2.18 writes it, in a message that was captured.
pub fn a_call_is_written_as_by_libdlt()
    ensures { IsWrittenAlike }
{}
