//! What a run begins with: the configuration, the stored configuration, and the trace.

ghost use Rattle.std.specs.Prelude.{◌≡◌, IfOk};
ghost use Rattle.dl_outside.specs.Outside.{Stays};
ghost use Rattle.dl_conf.specs.Outcome.{values_of};
ghost use Rattle.dl_trace.specs.Made.{HasFailed};
ghost use Rattle.dl_startup.specs.Setup.{IsBegun, HasCause, Says, conf_in, stored_in};

use dl_bytes::Sequence;
use dl_conf::{
    Conf, ConfError, ConfKind, Stored, StoredError, StoredKind, default_conf, read_conf,
    read_stored,
};
use dl_outside::{Folder, FolderFault};
use dl_trace::{Trace, TraceFault};
use std::alloc::Global;

/// The name of the configuration, where no other is asked for.
pub const CONF_NAME: &str = "dlt.conf";

/// The name of the stored configuration.
pub const STORED_NAME: &str = "dlt_stored.cfg";

/// Why there is no configuration, or no stored one.
#[derive(Clone, Copy, Debug, PartialEq, Eq)]
pub enum SetupError<K> {
    /// Its text isn't of the form.
    Fault {
        /// The number of the first line at fault, counted from 1; 0 for the whole text.
        line: u32,
        /// What is wrong with it.
        kind: K,
    },
    /// The folder failed.
    Folder,
    /// Memory ran out.
    OutOfMemory,
}

/// The configuration of this name. Where there is none, it is the default one.
pub fn conf_in<F: Folder>(
    alloc: Global,
    folder: &mut F,
    name: &str,
) -> Result<Conf, SetupError<ConfKind>>
    ensures said { Says values_of (F.told folder.old).files (conf_in name.now) result }
    ensures stays { Stays (F.told folder.old).files (F.told folder.new).files }
    ensures cause { HasCause (F.told folder.old).faults (F.told folder.new).faults result }
    ensures unchanged { (F.told folder.new).changes ≡ (F.told folder.old).changes }
    ensures unappended { (F.told folder.new).appends ≡ (F.told folder.old).appends }
{
    let text = match folder.read(name) {
        Ok(Some(text)) => text,
        Ok(None) => return Ok(default_conf(alloc)),
        Err(FolderFault::Failed) => return Err(SetupError::Folder),
        Err(FolderFault::OutOfMemory) => return Err(SetupError::OutOfMemory),
    };
    match read_conf(alloc, text.all()) {
        Ok(conf) => Ok(conf),
        Err(ConfError::Fault { line, kind }) => Err(SetupError::Fault { line, kind }),
        Err(ConfError::OutOfMemory) => Err(SetupError::OutOfMemory),
    }
}

/// The stored configuration. Where there is none, nothing is stored.
pub fn stored_in<F: Folder>(alloc: Global, folder: &mut F) -> Result<Stored, SetupError<StoredKind>>
    ensures said { Says (λ stored. stored) (F.told folder.old).files stored_in result }
    ensures stays { Stays (F.told folder.old).files (F.told folder.new).files }
    ensures cause { HasCause (F.told folder.old).faults (F.told folder.new).faults result }
    ensures unchanged { (F.told folder.new).changes ≡ (F.told folder.old).changes }
    ensures unappended { (F.told folder.new).appends ≡ (F.told folder.old).appends }
{
    let text = match folder.read(STORED_NAME) {
        Ok(Some(text)) => text,
        Ok(None) => {
            return Ok(Stored {
                level: None,
                own: Sequence::over(Vec::new(alloc)),
            });
        }
        Err(FolderFault::Failed) => return Err(SetupError::Folder),
        Err(FolderFault::OutOfMemory) => return Err(SetupError::OutOfMemory),
    };
    match read_stored(alloc, text.all()) {
        Ok(stored) => Ok(stored),
        Err(StoredError::Fault { line, kind }) => Err(SetupError::Fault { line, kind }),
        Err(StoredError::OutOfMemory) => Err(SetupError::OutOfMemory),
    }
}

/// The trace of a configuration, over the trace files that stand. There is none where no directory is named.
pub fn trace_over<F: Folder>(
    alloc: Global,
    folder: &mut F,
    conf: &Conf,
) -> Result<Option<Trace>, TraceFault>
    ensures begun { IfOk result (IsBegun conf.now (F.told folder.old).files) }
    ensures stays { Stays (F.told folder.old).files (F.told folder.new).files }
    ensures cause { HasFailed (F.told folder.old).faults (F.told folder.new).faults result }
    ensures unchanged { (F.told folder.new).changes ≡ (F.told folder.old).changes }
    ensures unappended { (F.told folder.new).appends ≡ (F.told folder.old).appends }
{
    if conf.directory.all().is_empty() {
        return Ok(None);
    }
    match Trace::make(alloc, folder, conf) {
        Ok(trace) => Ok(Some(trace)),
        Err(fault) => Err(fault),
    }
}
