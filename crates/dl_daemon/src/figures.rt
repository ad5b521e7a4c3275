//! What a daemon counts.

use dl_events::Closes;

/// What has passed and did not end the daemon.
#[derive(Clone, Copy, PartialEq, Eq)]
pub struct Passed {
    /// Faults of the net of the clients.
    pub client_faults: u64,
    /// Faults of the net of the programs.
    pub program_faults: u64,
    /// How often the trace was begun anew, at most 2^64 - 1.
    pub renewed: u64,
    /// How often a trace file was taken away while it was written, as who looks on knows it; 0 where nobody does.
    pub taken: u64,
    /// How many frames the traces before the one that is kept did not store, at most 2^64 - 1.
    pub unstored: u64,
}

/// How many channels of programs have ended, by cause.
#[derive(Clone, Copy)]
pub struct ChannelEnds {
    /// Those whose program left.
    pub left: u64,
    /// Those whose link failed.
    pub broken: u64,
    /// Those whose program sent what is no user message.
    pub bad: u64,
    /// Those for which more levels waited than a channel holds.
    pub slow: u64,
    /// Those for whose messages there was no memory.
    pub no_memory: u64,
}

/// What a daemon counts, at one moment.
#[derive(Clone, Copy)]
pub struct Figures {
    /// Clients that came.
    pub clients: u64,
    /// Clients that are open.
    pub open_clients: u64,
    /// How clients were closed.
    pub closes: Closes,
    /// Messages that were put into the streams of clients that are gone, and that their links had not taken to their last byte, at most 2^64 - 1.
    pub untaken: u64,
    /// Programs that came.
    pub channels: u64,
    /// Programs whose channel is open.
    pub open_channels: u64,
    /// How channels ended.
    pub ends: ChannelEnds,
    /// Frames that were admitted.
    pub frames: u64,
    /// Bytes that wait for the next client.
    pub waiting: u64,
    /// Frames that found no place among them.
    pub refused: u64,
    /// Links that were dropped, since no more may come, or be open at once.
    pub dropped: u64,
    /// Faults of the net of the clients.
    pub client_faults: u64,
    /// Faults of the net of the programs.
    pub program_faults: u64,
    /// Trace files that stand.
    pub files: u64,
    /// Bytes in them, at most 2^64 - 1.
    pub bytes: u64,
    /// How often the trace was begun anew, at most 2^64 - 1.
    pub renewed: u64,
    /// How often a trace file was taken away while it was written, as who looks on knows it; 0 where nobody does.
    pub taken: u64,
    /// How many frames that were to be stored in trace files are not, at most 2^64 - 1.
    pub unstored: u64,
    /// Whether nothing more is stored in trace files.
    pub ended: bool,
}
