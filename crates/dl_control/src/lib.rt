//! Control messages as bytes: what a diagnostic client asks, and what the daemon replies.
//!
//! Proved: `read_request` gives the exact request or refusal, in either byte order; `write_reply` writes the body of each reply. Rests on tests:
//! requests of real clients.
//!
//! Chosen: a request is known by MSTP and MTIN of its extended header; its bit VERB, NOAR, MCNT and ids aren't looked at. A control payload of fewer
//! than four bytes is a request of service 0 with bytes missing. Service 14, that of overflow records, is read as *other*. An injection has at most
//! 1390 bytes, a rule of this project: a longer one is `Excess`, also where its bytes are missing. An injected body is raw bytes, and counts no
//! arguments.
#![tactic(auto)]

mod reply;
mod request;

pub use reply::{DAEMON_APID, DAEMON_CTID, Reply, ReplyFault, write_reply};
pub use request::{Request, RequestFault, read_request};
