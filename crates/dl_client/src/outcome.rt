//! What calls answer.

/// What became of a log call.
#[derive(Clone, Copy, PartialEq, Eq)]
pub enum Logged {
    /// Its severity is above the level of its context.
    Filtered,
    /// Its message waits for the link.
    Queued,
    /// The queue had no room for its message, or for an account that has to come before it.
    Lost,
    /// It is no call: no such context or severity, more than 1390 bytes of payload, or a count of its context is at its end.
    Refused,
}

/// What became of a level, a registration, or an account that was asked for.
#[derive(Clone, Copy, PartialEq, Eq)]
pub enum Answer {
    /// It was done.
    Done,
    /// The queue had no room for what has to be queued for it. It can be tried again once the link took bytes.
    Waits,
    /// There is no such context, level or text.
    Refused,
}
