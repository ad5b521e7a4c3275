//! A run that was played is concluded: what passes its filters is stored, and then its report is written.

ghost use Rattle.std.specs.Prelude.{◌≡◌};
ghost use Rattle.dl_model.specs.Setting.{Setting};
ghost use Rattle.dl_storage.specs.Storing.{ChangesFiltersFiles};
ghost use Rattle.dl_ending.specs.Ending.{CanReport, IsSettingOf};
ghost use Rattle.dl_ending.specs.Storage.{IsConcluded};

use crate::finishing::finish;
use dl_account::Account;
use dl_bytes::Conf;
use dl_outside::{Folder, Sink};
use dl_startup::{Failures, Status};
use dl_storage::{FilterList, StoreEnds, store};
use std::alloc::Global;

/// How a run was concluded.
#[derive(Drop)]
pub struct Concluded {
    /// The status of the run.
    pub status: Status,
    /// What its filters stored; none where there was no memory to store anything.
    pub storage: Option<StoreEnds>,
}

/// Stores the messages of an account that pass the filters, of a run with this configuration, writes its report with what was
/// stored, and finds the status of the run. A filter that ends before all was stored is one failure more. Where there is no memory to
/// store anything, the folder is as it was and nothing is written.
pub fn conclude<F: Folder, O: Sink>(
    alloc: Global,
    account: &Account,
    conf: &Conf,
    filters: &FilterList,
    failures: Failures,
    folder: &mut F,
    out: &mut O,
) -> Concluded
    requires { CanReport account.now }
    ensures concludes { (setting : Setting) → IsSettingOf conf.now setting →
        IsConcluded setting account.now filters.now failures (F.told folder.old) (F.told folder.new) (O.told out.old) (O.told out.new) result }
    ensures others { ChangesFiltersFiles filters.now (F.told folder.old).files (F.told folder.new).files }
{
    let stored = store(
        alloc,
        folder,
        conf.ecu,
        filters,
        account.records(),
        account.events(),
    );
    match stored {
        Ok(ends) => Concluded {
            status: finish(alloc, account, conf, filters, &ends, failures, out),
            storage: Some(ends),
        },
        Err(_) => Concluded {
            status: Status::OutOfMemory,
            storage: None,
        },
    }
}
