//! Where a stored frame is in the end.

/// Where the stored frame of a log call is in the end.
#[derive(Clone, Copy, PartialEq, Eq)]
pub enum StoredPlace {
    /// It stands in a trace file.
    InFile {
        /// The number of the file.
        number: u64,
    },
    /// It went into a trace file that rotation removed.
    Removed {
        /// The number of the file.
        number: u64,
    },
    /// It was not stored: its file would have needed a number that no name has, so the trace had ended.
    TraceEnded,
}
