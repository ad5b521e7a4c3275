//! The report of an account is written, with the lines on its log storage, and the status of its run found.

ghost use Rattle.std.specs.Prelude.{◌≡◌, IfOk};
ghost use Rattle.dl_model.specs.Setting.{Setting};
ghost use Rattle.dl_ending.specs.Ending.{CanReport, IsTextOf, IsSettingOf};
ghost use Rattle.dl_ending.specs.Storage.{Reports};

use crate::failing::{failures_with, with_storage};
use dl_account::Account;
use dl_bytes::{Bytes, Conf, OutOfMemory};
use dl_outside::Sink;
use dl_report::left_laws::{clients_come_and_go, records_account_for_a_journal};
use dl_report::{left_of, report};
use dl_startup::{Failures, Status, write_pieces};
use dl_storage::{FilterList, StoreEnds, storage_lines};
use std::alloc::Global;

/// The report of an account, of a run with this configuration.
fn report_of(alloc: Global, account: &Account, conf: &Conf) -> Result<Bytes, OutOfMemory>
    requires { CanReport account.now }
    ensures { IfOk result (IsTextOf conf.now account.now) }
{
    clients_come_and_go();
    records_account_for_a_journal();
    let records = account.records();
    let events = account.events();
    let apps = account.apps();
    let backlog = left_of(records, events, apps, conf.ecu, conf.buffer);
    report(alloc, records, events, apps, account.ends(), backlog, None)
}

/// Writes the report of an account, of a run with this configuration, and behind it what its filters stored, and finds the status
/// of the run: that of the gravest failure, of these and of those that the account and the filters' ends tell. Where there is no
/// memory for the report or for those lines, nothing is written.
pub fn finish<O: Sink>(
    alloc: Global,
    account: &Account,
    conf: &Conf,
    filters: &FilterList,
    ends: &StoreEnds,
    failures: Failures,
    out: &mut O,
) -> Status
    requires { CanReport account.now }
    ensures { (setting : Setting) → IsSettingOf conf.now setting →
        Reports setting account.now filters.now ends.now.filters failures (O.told out.old) (O.told out.new) result }
{
    let Ok(text) = report_of(alloc, account, conf) else {
        return Status::OutOfMemory;
    };
    let Ok(lines) = storage_lines(alloc, filters, ends) else {
        return Status::OutOfMemory;
    };
    let output = write_pieces(out, &[text.all(), lines.all()]).is_err();
    let failures = with_storage(ends, failures_with(account, failures));
    Failures { output, ..failures }.status()
}
