//! A filter of the log storage.

ghost use Rattle.std.specs.Prelude.{◌≡◌, true};
ghost use Rattle.dl_storage.specs.FilterLine.{are_sizes, is_name};

use dl_bytes::{Bytes, Id, Severity};

/// Which messages are stored, and how large their files may be.
#[derive(Drop)]
pub struct Filter {
    /// The name of its files' directory: 1 to 16 letters, digits or `_`.
    pub name: Bytes,
    /// The application whose messages it stores; those of all where there is none.
    pub apid: Option<Id>,
    /// The context whose messages it stores; those of all where there is none.
    pub ctid: Option<Id>,
    /// The least grave severity that it stores.
    pub severity: Severity,
    /// The most bytes of one file, 2000 to 100,000,000.
    pub size: u32,
    /// The most bytes of all its files, at least those of two files, and at most 1,000,000,000.
    pub max: u32,
    ghost name_form: { is_name name ≡ true },
    ghost sizes: { are_sizes size max ≡ true },
}
