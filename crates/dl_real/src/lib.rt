//! The real outside of every program: adapters over std's readers and writers, files, and ports that are dialled. They count each fault, and tell no
//! content but where std tells it.
//!
//! Proved: what the traits of `dl_outside` say, where a reader or writer tells what that of std tells; a folder touches plain files alone. Rests on
//! tests: that real files and sockets carry the bytes, and that what is written lies below the folder, but for trace files and pictures (`test_real`,
//! `tests/everyday`).
//!
//! Chosen: names that are only read may lie anywhere; what is written stays below the current folder, but for trace files, known by their names (the
//! `OfflineTraceDirectory` of a real system is absolute), and pictures. A link, a FIFO or a directory of a file's name is a fault of the folder, and
//! nothing is opened; the directories on the way may be links. An empty name is a fault; a missing directory has no names. A picture replaces a
//! picture or an empty file alone. An open trace file that has lost its name is made anew under it. A text is read no further than its limit and a
//! byte, and its reader refuses it by its size.
#![tactic(auto)]

mod answers;
mod dial;
mod directory;
mod manner;
mod once;
mod paths;
mod reading;
mod ready;
mod reasons;
mod taken;
mod troubles;
mod whole;
mod writing;

pub use answers::is_memory;
pub use dial::TcpDial;
pub use directory::Directory;
pub use once::{read_once, write_once};
pub use reading::Reading;
pub use ready::{has_answer, has_room};
pub use reasons::reason;
pub use taken::Taken;
pub use troubles::{Troubles, say_troubles};
pub use whole::write_whole;
pub use writing::Writing;
