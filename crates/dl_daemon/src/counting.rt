//! What a daemon counts, read off what it is.

ghost use Rattle.std.specs.Prelude.{◌≡◌, ◌++◌, ◌∷◌, [], length, List, Option};
ghost use Rattle.dl_channel.specs.declared.outcome.ChannelEnd.{ChannelEnd};
ghost use Rattle.dl_daemon.specs.Figures.{ends_in, figures_of, files_of, has_ended, sum_of};

use crate::figures::{ChannelEnds, Figures, Passed};
use dl_bytes::{TraceFile, TraceState};
use dl_channel::ChannelEnd;
use dl_channel_turns::open_clients;
use dl_core::Core;
use dl_events::{Unkept, counted};
use dl_outside::Link;
use dl_server::Server;
use dl_socket::Channels;

/// How many channels are open.
pub(crate) fn open_channels(channels: &Channels) -> usize
    ensures { result ≡ length channels.now.inboxes }
{
    channels.are_apart();
    let mut count = 0;
    while let Some(_channel) = channels.at(count) {
        count += 1;
    }
    count
}

impl ChannelEnds {
    /// None has ended.
    fn none() -> ChannelEnds
        ensures { result ≡ ends_in [] }
    {
        ChannelEnds {
            left: 0,
            broken: 0,
            bad: 0,
            slow: 0,
            no_memory: 0,
        }
    }

    /// These, and one more channel that has ended so, or has not.
    #[tactic(auto, using(dl_events::proofs::Closed::counted_more))]
    fn with(self, end: Option<ChannelEnd>) -> ChannelEnds
        ensures { (ends : List (Option ChannelEnd)) → self ≡ ends_in ends → result ≡ ends_in (ends ++ end ∷ []) }
    {
        ChannelEnds {
            left: counted(self.left, matches!(end, Some(ChannelEnd::Left))),
            broken: counted(self.broken, matches!(end, Some(ChannelEnd::Broken))),
            bad: counted(self.bad, matches!(end, Some(ChannelEnd::Bad(_)))),
            slow: counted(self.slow, matches!(end, Some(ChannelEnd::Slow))),
            no_memory: counted(self.no_memory, matches!(end, Some(ChannelEnd::NoMemory))),
        }
    }
}

/// How many of these channels have ended, by cause.
fn ends_in(ends: &[Option<ChannelEnd>]) -> ChannelEnds
    ensures { result ≡ ends_in ends.now }
{
    let mut counts = ChannelEnds::none();
    for end in ends {
        counts = counts.with(*end);
    }
    counts
}

/// How many bytes trace files have together, at most 2^64 - 1.
#[tactic(auto, using(crate::proofs::Counts::sum_more))]
fn sum_of(files: &[TraceFile]) -> u64
    ensures { result ≡ sum_of files.now }
{
    let mut bytes: u64 = 0;
    for file in files {
        bytes = bytes.saturating_add(file.bytes);
    }
    bytes
}

/// The trace files that stand.
fn files_of(core: &Core) -> &[TraceFile]
    ensures { result.now ≡ files_of core.now.trace }
{
    match core.trace_state() {
        Some(state) => state.files.all(),
        None => &[],
    }
}

/// Whether nothing more is stored.
pub(crate) fn has_ended(core: &Core) -> bool
    ensures { result ≡ has_ended core.now.trace }
{
    match core.trace_state() {
        Some(state) => state.end.is_some(),
        None => false,
    }
}

/// What a daemon counts, and what has passed.
pub fn figures_of<L: Link>(server: &Server<Unkept, L>, passed: Passed) -> Figures
    ensures { result ≡ figures_of server.now passed }
{
    let hub = server.core.hub();
    let backlog = hub.backlog();
    let files = files_of(&server.core);
    Figures {
        clients: u64::from(server.clients.len()),
        open_clients: open_clients(hub),
        closes: server.journal.closes(),
        untaken: hub.untaken_messages(),
        channels: u64::from(server.programs.len()),
        open_channels: open_channels(&server.channels) as u64,
        ends: ends_in(&server.ends),
        frames: hub.admitted(),
        waiting: backlog.bytes,
        refused: backlog.refused,
        dropped: u64::from(server.dropped),
        client_faults: passed.client_faults,
        program_faults: passed.program_faults,
        files: files.len() as u64,
        bytes: sum_of(files),
        renewed: passed.renewed,
        taken: passed.taken,
        unstored: passed.unstored.saturating_add(server.core.unstored()),
        ended: has_ended(&server.core),
    }
}
