//! A filter as its line says it.

use dl_bytes::{Id, Severity};

/// A filter as its line says it; its name is a part of the text.
#[derive(Clone, Copy)]
pub struct LineFilter<'a> {
    /// The name of its files' directory.
    pub name: &'a [u8],
    /// The application, where it names one.
    pub apid: Option<Id>,
    /// The context, where it names one.
    pub ctid: Option<Id>,
    /// The least grave severity that it stores.
    pub severity: Severity,
    /// The most bytes of one file.
    pub size: u32,
    /// The most bytes of all its files.
    pub max: u32,
}
