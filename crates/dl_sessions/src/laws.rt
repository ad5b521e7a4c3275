//! Laws of the account: the counters that it finds passed over in a session are those of calls of its writer.

ghost use Rattle.dl_sessions.specs.Laws.{MissingAreCalls};

/// The counters that were passed over in a session are those of the calls of its writer that passed their levels between the first that the stream has and
/// the last, and that it has not: lost at the ring, refused by the buffer, or sent to others. So it is where fewer than 256 of them stand in a row.
pub fn missing_are_calls()
    ensures { MissingAreCalls }
{}
