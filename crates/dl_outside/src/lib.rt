//! The outside, as traits: where a program's bytes come from and go to, with a count of what failed there.
//!
//! An answer `Failed` comes only where the object's count of faults rose in that call, so a caller can't make one up.
//!
//! Proved: of every object of the outside an answer `Failed` comes only where its count of faults rose in that call, and with every other answer the
//! count stands; `write_text` writes the whole text, or its front where the sink failed; `LinkList` keeps connections by number. What an object tells
//! of its content is one value of its trait, the ghost member `told`: a real file or socket tells nothing, so no promise says that it holds what was
//! written.
//!
//! Chosen: a count of faults stops at the top of its 64 bits; there a further fault leaves it as it is and still counts as risen. After a failed put
//! or remove the named file alone is unknown; after a failed append the file has a front of the piece more; out of memory changed nothing. After
//! `shut`, `recv` answers `NotYet` (or `End`) and `send` answers `Busy`. Once `Link::over` is true it stays so. To rest is a call of its own
//! (`Net::rest`, `Link::rest`), which changes nothing that the object tells.
#![tactic(auto)]

mod client;
mod clock;
mod dial;
mod folder;
mod gate;
mod link;
mod links;
mod name;
mod net;
mod sink;
mod source;
mod writing;

pub use client::ClientScript;
pub use clock::Clock;
pub use dial::{Dial, DialFault};
pub use folder::{Folder, FolderFault};
pub use gate::Gate;
pub use link::{Gave, Link, Sends};
pub use links::LinkList;
pub use name::{Name, NameList};
pub use net::{Accepted, Net, NetFault};
pub use sink::{Sink, Took};
pub use source::{Got, Source};
pub use writing::{WriteError, write_text};
