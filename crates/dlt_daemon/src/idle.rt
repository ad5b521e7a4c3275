//! Connections that made room for others, since nothing went through them.

use dl_bytes::OPEN_CLIENT_LIMIT;
use dl_daemon::Limits;
use dl_real_daemon::{MadeRoom, SeatRule};

/// After how many milliseconds one makes room that never sent anything.
const SILENT: u64 = 10_000;

/// After how many a client does whatever it has sent.
const IDLE: u64 = 60_000;

/// When a client makes room.
pub fn clients_rule() -> SeatRule {
    SeatRule {
        most: OPEN_CLIENT_LIMIT,
        silent: SILENT,
        idle: Some(IDLE),
    }
}

/// When an external application does: where it has registered nothing, since it has sent nothing.
pub fn programs_rule() -> SeatRule {
    SeatRule {
        most: usize::from(Limits::of_daemon().open_channels),
        silent: SILENT,
        idle: None,
    }
}

/// How many made room.
#[derive(Clone, Copy, PartialEq, Eq)]
pub struct Idle {
    /// Clients.
    pub clients: u64,
    /// External applications.
    pub programs: u64,
}

/// What counts them.
#[derive(Drop)]
pub struct IdleCounts {
    clients: MadeRoom,
    programs: MadeRoom,
}

impl IdleCounts {
    /// Those of these.
    pub fn of(clients: MadeRoom, programs: MadeRoom) -> IdleCounts {
        IdleCounts { clients, programs }
    }

    /// How many made room so far.
    pub fn now(&self) -> Idle {
        Idle {
            clients: self.clients.count(),
            programs: self.programs.count(),
        }
    }
}
