//! The configuration, read once: each session of a daemon has the one with which it began, whatever becomes of the file meanwhile.

ghost use Rattle.std.specs.Prelude.{◌≡◌, IfErr, None};
ghost use Rattle.dl_outside.specs.Folder.{HasCause};

use dl_bytes::{Bytes, Sequence};
use dl_outside::{Folder, FolderFault, NameList};
use std::alloc::Global;

/// A folder of which one file is read once, and is as it was then from then on. It tells no content.
#[derive(Drop)]
pub struct KeptConf<F> {
    alloc: Global,
    inner: F,
    name: String,
    // nothing until it was read; what there was then
    text: Option<Option<Bytes>>,
}

impl<F> KeptConf<F> {
    /// This folder, of which the file of this name is read once.
    pub fn over(alloc: Global, inner: F, name: String) -> KeptConf<F> {
        KeptConf {
            alloc,
            inner,
            name,
            text: None,
        }
    }

    /// What was read, once more.
    fn kept(&self) -> Result<Option<Bytes>, FolderFault>
        ensures { IfErr result (λ fault. fault ≡ FolderFault.OutOfMemory) }
    {
        match &self.text {
            Some(Some(text)) => match Vec::from_slice(self.alloc, text.all()) {
                Ok(copy) => Ok(Some(Sequence::over(copy))),
                Err(_) => Err(FolderFault::OutOfMemory),
            },
            _ => Ok(None),
        }
    }
}

impl<F: Folder> KeptConf<F> {
    /// Reads the file that is kept, where it was not read yet.
    fn read_first(&mut self) -> Result<(), FolderFault>
        ensures cause { HasCause (F.told self.old.inner).faults (F.told self.new.inner).faults result }
        ensures unchanged { (F.told self.new.inner).changes ≡ (F.told self.old.inner).changes }
        ensures unappended { (F.told self.new.inner).appends ≡ (F.told self.old.inner).appends }
    {
        if self.text.is_some() {
            return Ok(());
        }
        match self.inner.read(self.name.as_str()) {
            Ok(text) => {
                self.text = Some(text);
                Ok(())
            }
            Err(fault) => Err(fault),
        }
    }

    /// What the file had when it was read first.
    fn read_kept(&mut self) -> Result<Option<Bytes>, FolderFault>
        ensures cause { HasCause (F.told self.old.inner).faults (F.told self.new.inner).faults result }
        ensures unchanged { (F.told self.new.inner).changes ≡ (F.told self.old.inner).changes }
        ensures unappended { (F.told self.new.inner).appends ≡ (F.told self.old.inner).appends }
    {
        match self.read_first() {
            Ok(()) => self.kept(),
            Err(fault) => Err(fault),
        }
    }
}

impl<F: Folder> Folder for KeptConf<F> {
    ghost told = { λ f. record {
      files = None;
      faults = (F.told f.inner).faults;
      changes = (F.told f.inner).changes;
      appends = (F.told f.inner).appends;
    } };

    fn read(&mut self, name: &str) -> Result<Option<Bytes>, FolderFault> {
        if name != self.name.as_str() {
            return self.inner.read(name);
        }
        self.read_kept()
    }

    fn size(&mut self, name: &str) -> Result<Option<u64>, FolderFault> {
        self.inner.size(name)
    }

    fn names(&mut self, prefix: &str) -> Result<NameList, FolderFault> {
        self.inner.names(prefix)
    }

    fn put(&mut self, name: &str, bytes: &[u8]) -> Result<(), FolderFault> {
        self.inner.put(name, bytes)
    }

    fn append(&mut self, name: &str, piece: &[u8]) -> Result<(), FolderFault> {
        self.inner.append(name, piece)
    }

    fn remove(&mut self, name: &str) -> Result<(), FolderFault> {
        self.inner.remove(name)
    }

    fn faults(&self) -> u64 {
        self.inner.faults()
    }

    fn changes(&self) -> u64 {
        self.inner.changes()
    }

    fn appends(&self) -> u64 {
        self.inner.appends()
    }
}
