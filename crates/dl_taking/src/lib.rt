//! Taking: what lies in the rings and loss words of applications is taken, and admitted.
//!
//! While the writers log, the daemon takes some calls and claims of each application in its turn, and then its losses (`take_some`,
//! `report_losses`). Once they are back, it takes all that is left (`drain_all`). A call belongs to the application in whose ring it lay, and so
//! does a claim.
//!
//! Proved: `take_some` takes so many calls and claims at most of an application's ring, fewer only where it was found empty or a claim came, and
//! admits just these, in their order, as the application's own (`TakesSome`); `report_losses` takes its losses once and tells them in one report
//! (`Reports`); `drain_all`, once the writers are back, takes all calls and claims of each application, in batches of at most 64, and then all losses
//! (`DrainsAll`): afterwards every ring is empty and every loss told. A journal that tells just what was taken goes on to do so
//! (`what_is_taken_is_told`, `a_drain_is_its_events`).
//!
//! Not said: how many calls a ring holds, or that one was empty at another moment than the one at which a take found it so.
#![tactic(auto)]

mod batch;
mod call_source;
mod claiming;
mod closing;
mod desk;
mod draining;
mod filling;
pub mod laws;
mod taking;

pub use batch::Batch;
pub use call_source::CallSource;
pub use draining::{Budget, drain_all};
pub use taking::{Got, report_losses, take_some};
