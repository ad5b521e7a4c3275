//! Which program serves.

/// The program that serves its clients, as it tells those that ask for the software's version.
#[derive(Clone, Copy, Drop)]
pub enum Software {
    /// `dlt_run`, and what plays its scripts.
    Run,
    /// `dlt_daemon`.
    Daemon,
}
