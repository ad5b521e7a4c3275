//! The values of `dlt.conf` while its lines are read.

ghost use Rattle.std.specs.Prelude.{◌≡◌, ◌≤◌, true, length};
ghost use Rattle.std.specs.List.{list_all};
ghost use Rattle.dl_bytes.specs.Conf.{is_printable};

use dl_bytes::{Id, Level};

/// The values that the lines so far set, and the defaults of the others; the directory is a part of the text.
#[derive(Drop)]
pub struct Draft<'a> {
    /// `ECUId`
    pub ecu: Id,
    /// `ContextLogLevel`
    pub level: Level,
    /// `RingbufferMaxSize`
    pub buffer: u32,
    /// `OfflineTraceDirectory`
    pub directory: &'a [u8],
    /// `OfflineTraceFileSize`
    pub file_size: u32,
    /// `OfflineTraceMaxSize`
    pub max_size: u32,
    /// `InjectionMode`
    pub injection: bool,
    /// The number of the last line that set one of the two sizes, 0 where none did.
    pub sizes_line: u32,
    ghost buffer_least: { 10000 ≤ buffer },
    ghost buffer_most: { buffer ≤ 50000000 },
    ghost directory_size: { length directory.now ≤ 200 },
    ghost directory_letters: { list_all is_printable directory.now ≡ true },
    ghost file_size_least: { 2000 ≤ file_size },
    ghost file_size_most: { file_size ≤ 100000000 },
    ghost max_size_most: { max_size ≤ 1000000000 },
}
