//! The core as a whole: its parts, and what is read of it.

ghost use Rattle.std.specs.Prelude.{◌≡◌, ◌≤◌, IfOk, IfSome, option_map};
ghost use Rattle.std.specs.Option.{option_map_or};
ghost use Rattle.dl_bytes.specs.Limits.{last_version};
ghost use Rattle.dl_trace.specs.Made.{IsMade};
ghost use Rattle.dl_core.specs.Follows.{Begins};
ghost use Rattle.dl_core.specs.Settings.{begun, begun_for, setting_for, setting_of};
ghost use Rattle.dl_trace.specs.Writer.{trace_in};

use dl_bytes::{CLIENT_LIMIT, Conf, Frame, Id, Level, OutOfMemory, Stored, TraceState};
use dl_hub::Hub;
use dl_model::Software;
use dl_registry::Registry;
use dl_trace::{Trace, TraceWriter};
use std::alloc::Global;
use std::marker::Model;

/// The daemon without its outside: who is registered at which levels, the clients, the backlog, and the trace files.
#[derive(Drop)]
pub struct Core {
    pub(crate) alloc: Global,
    pub(crate) ecu: Id,
    pub(crate) level: Level,
    pub(crate) injection: bool,
    pub(crate) software: Software,
    pub(crate) registry: Registry,
    pub(crate) hub: Hub,
    pub(crate) trace: Option<TraceWriter>,
    /// The frame of the log call that is being admitted. It serves each call in turn, and no contract sees it.
    pub(crate) frame: Frame,
}

impl Model for Core {
    ghost use Rattle.dl_core.specs.State as state;
    ghost use Rattle.dl_trace.specs.Writer.{trace_in};

    ghost Value = { state.Core };

    ghost view = { λ c. record {
      ecu = c.ecu;
      level = c.level;
      injection = c.injection;
      software = c.software;
      registry = c.registry;
      hub = c.hub;
      trace = trace_in c.trace;
    } };
}

impl Core {
    /// The core of a configuration and of what was stored, before its first event, for a run that ends. A trace that is
    /// handed in was made with the same configuration, and has stored nothing yet. Every slot begins at version `first`.
    pub fn make(
        alloc: Global,
        conf: &Conf,
        stored: Stored,
        trace: Option<Trace>,
        first: u64,
    ) -> Result<Core, OutOfMemory>
        requires first { first ≤ last_version }
        requires trace { IfSome trace (IsMade conf.now) }
        ensures value { IfOk result (λ core. core ≡ begun conf.now stored first trace) }
        ensures after { IfOk result (λ core. Begins (setting_of conf.now stored first) trace core) }
    {
        Core::make_for(
            alloc,
            Software::Run,
            conf,
            stored,
            trace,
            first,
            CLIENT_LIMIT,
        )
    }

    /// The same of this program, for a run to which at most this many clients come.
    pub fn make_for(
        alloc: Global,
        software: Software,
        conf: &Conf,
        stored: Stored,
        trace: Option<Trace>,
        first: u64,
        clients: u32,
    ) -> Result<Core, OutOfMemory>
        requires first { first ≤ last_version }
        requires trace { IfSome trace (IsMade conf.now) }
        ensures value { IfOk result (λ core. core ≡ begun_for software conf.now stored first trace clients) }
        ensures after { IfOk result (λ core. Begins (setting_for software conf.now stored first clients) trace core) }
    {
        Ok(Core {
            alloc,
            ecu: conf.ecu,
            level: conf.level,
            injection: conf.injection,
            software,
            registry: Registry::make(alloc, conf.level, stored, first)?,
            hub: Hub::make_for(alloc, conf.ecu, conf.buffer, clients)?,
            trace: writer_of(alloc, trace)?,
            frame: Frame::new(),
        })
    }

    /// The clients and the backlog.
    pub fn hub(&self) -> &Hub
        ensures { result.now ≡ self.now.hub }
    {
        &self.hub
    }

    /// Who is registered, and at which levels.
    pub fn registry(&self) -> &Registry
        ensures { result.now ≡ self.now.registry }
    {
        &self.registry
    }

    /// The trace files that stand, and why nothing more is stored, where that is so. Nothing where no trace was handed in.
    pub fn trace_state(&self) -> Option<&TraceState>
        ensures { option_map (λ r. r.now) result ≡ option_map (λ trace. trace.state) self.now.trace }
    {
        match &self.trace {
            Some(writer) => Some(writer.trace.state()),
            None => None,
        }
    }

    /// How many frames that were to be stored in the trace are not, since it has ended: at most 2^64 - 1. None where no trace was handed in.
    pub fn unstored(&self) -> u64
        ensures { result ≡ option_map_or (λ trace. trace.unstored) self.now.trace 0 }
    {
        match &self.trace {
            Some(writer) => writer.trace.unstored(),
            None => 0,
        }
    }

    /// The trace files that stand, by value.
    pub fn into_trace_state(self) -> Option<TraceState>
        ensures { result ≡ option_map (λ trace. trace.state) self.trace }
    {
        let Core { trace, .. } = self;
        match trace {
            Some(writer) => Some(writer.into_state()),
            None => None,
        }
    }
}

/// What stores frames in a trace, where there is one.
fn writer_of(alloc: Global, trace: Option<Trace>) -> Result<Option<TraceWriter>, OutOfMemory>
    ensures { IfOk result (λ writer. trace_in writer ≡ trace) }
{
    match trace {
        Some(trace) => Ok(Some(TraceWriter::over(alloc, trace)?)),
        None => Ok(None),
    }
}
