//! What the daemon is configured with: the keys of `dlt.conf` that it reads, and the stored configuration.

ghost use Rattle.std.specs.Prelude.{◌≡◌, ◌≤◌, ◌*◌, true, length};
ghost use Rattle.std.specs.List.{list_all};
ghost use Rattle.dl_bytes.specs.Conf.{is_printable};

use crate::id::Id;
use crate::level::Level;
use crate::list::{Bytes, Sequence};

/// The most bytes of the directory of trace files.
pub const DIRECTORY_LIMIT: usize = 200;

/// A configuration: one value for each key of `dlt.conf` that the daemon reads, each in its range.
#[derive(Drop)]
pub struct Conf {
    /// `ECUId`: the id of the control unit, which each frame of the daemon carries.
    pub ecu: Id,
    /// `ContextLogLevel`: the default level at the start and after a reset.
    pub level: Level,
    /// `RingbufferMaxSize`: the most bytes of the backlog, 10,000 to 50,000,000.
    pub buffer: u32,
    /// `OfflineTraceDirectory`: where the trace files are, at most 200 printable ASCII letters; empty where no trace is
    /// stored.
    pub directory: Bytes,
    /// `OfflineTraceFileSize`: the most bytes of one trace file, 2000 to 100,000,000.
    pub file_size: u32,
    /// `OfflineTraceMaxSize`: the most bytes of all trace files, 4000 to 1,000,000,000, and at least those of two files.
    pub max_size: u32,
    /// `InjectionMode`: whether clients may send data to applications.
    pub injection: bool,
    ghost buffer_least: { 10000 ≤ buffer },
    ghost buffer_most: { buffer ≤ 50000000 },
    ghost directory_size: { length directory ≤ 200 },
    ghost directory_letters: { list_all is_printable directory ≡ true },
    ghost file_size_least: { 2000 ≤ file_size },
    ghost file_size_most: { file_size ≤ 100000000 },
    ghost max_size_most: { max_size ≤ 1000000000 },
    ghost two_files: { 2 * file_size ≤ max_size },
}

/// An own level that was stored for a context.
#[derive(Clone, Copy, PartialEq, Eq)]
pub struct StoredLevel {
    /// The id of the application.
    pub apid: Id,
    /// The id of the context.
    pub ctid: Id,
    /// The level that the context gets when it registers.
    pub level: Level,
}

/// The stored configuration: levels that outlive a run.
#[derive(Drop)]
pub struct Stored {
    /// The default level, where one was stored.
    pub level: Option<Level>,
    /// The own levels of contexts.
    pub own: Sequence<StoredLevel>,
}

/// An application as it is declared before a run.
#[derive(Drop)]
pub struct AppSpec {
    /// The id of the application.
    pub apid: Id,
    /// How many calls its ring holds, 1 to 4096.
    pub capacity: u16,
    /// Its description, at most 255 bytes.
    pub text: Bytes,
}
