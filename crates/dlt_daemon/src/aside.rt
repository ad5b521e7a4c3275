//! A stored configuration that isn't of the form doesn't keep the daemon from starting: it is put under another name, and that is said.

use dl_daemon::{BAD_NAME, set_aside};
use dl_outside::Folder;
use dl_startup::STORED_NAME;
use dl_text::SIZE_LIMIT;
use std::fs;

/// Whether what is stored is a file longer than a text may be: of that the folder reads only the front.
fn is_too_long(rt: &HostRuntime) -> bool {
    match fs::symlink_metadata(rt, STORED_NAME) {
        Ok(found) => found.is_file() && found.len() > SIZE_LIMIT as u64,
        Err(_) => false,
    }
}

/// Gives a file that is too long its other name as it is. Where that fails, it stays, and the daemon refuses it.
fn rename_long(rt: &HostRuntime) {
    if fs::rename(rt, STORED_NAME, BAD_NAME).is_ok() {
        let _ = eprintln!(rt; "dlt_daemon: {STORED_NAME}: too long: kept as {BAD_NAME}");
    }
}

/// Puts a stored configuration that isn't of the form under `dlt_stored.cfg.bad`, in the place of an older one, and says which line of it is at fault. A
/// fault is passed over: the daemon meets it again when it reads that file.
pub fn put_aside<F: Folder>(rt: &HostRuntime, folder: &mut F) {
    if is_too_long(rt) {
        rename_long(rt);
        return;
    }
    if let Ok(Some(bad)) = set_aside(rt.alloc(), folder) {
        let number = bad.line;
        let _ = eprintln!(rt;
            "dlt_daemon: {STORED_NAME}: line {number} is not of the form: kept as {BAD_NAME}"
        );
    }
}
