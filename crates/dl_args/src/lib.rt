//! The arguments of a log message, as AUTOSAR DLT has them in verbose mode: as bytes and back.
//!
//! Proved: the ten `add_` calls add the exact argument or none; `ArgReader`, which borrows the payload, and `read_args`, which is made of it, give
//! exactly what is spelled, or the first fault, with its place and what makes it one. What is written is read again as itself (`written_is_read`).
//!
//! Chosen: a reader stays where it is at a fault, and answers the same fault again. Out of memory comes after every other refusal: faults are looked
//! for first, and then the texts are copied.
#![tactic(auto)]

mod arg;
mod arg_ref;
mod fields;
pub mod laws;
mod read;
mod type_info;
mod width;
mod write;

pub use arg::{Arg, ArgFault, ArgList, PayloadFull};
pub use arg_ref::ArgRef;
pub use dl_bytes::Order;
pub use read::{ArgReader, read_args};
pub use width::{Width, sint_fits, uint_fits};
pub use write::{
    add_bool, add_named_bool, add_named_raw, add_named_sint, add_named_text, add_named_uint,
    add_raw, add_sint, add_text, add_uint,
};
