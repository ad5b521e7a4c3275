//! Files by their names from the current folder.

ghost use Rattle.std.specs.Prelude.{◌≡◌, ◌<◌, ◌≤◌, ◌^◌, IfOk, IfSome, None, length};
ghost use Rattle.std.specs.Fs.{IsFile, file_type};
ghost use Rattle.dl_outside.specs.Outside.{HasRisen};

use crate::answers::{found, is_memory};
use crate::manner::{Manner, read_of, replaces, writable};
use crate::once::read_once;
use crate::paths::{is_trace_file, parent, parted};
use crate::taken::Taken;
use crate::troubles::Troubles;
use crate::whole::write_whole;
use dl_bytes::Bytes;
use dl_outside::{Folder, FolderFault, Name, NameList};
use dl_pieces::ReadAt;
use std::alloc::Global;
use std::fs::{DirBuilder, File, Files, Metadata, OpenFile, OpenOptions};
use std::io::{Eprint, Error, ErrorKind, Seek, SeekFrom};
use std::os::unix::fs::{DirBuilderExt, MetadataExt, OpenOptionsExt};
use std::time::{Clock, Duration};
use std::{fs, io};

/// Who may read and write a file that is made: its owner, and its group to read.
const FILE_MODE: u32 = 0o640;

/// The same of a directory that is made.
const DIRECTORY_MODE: u32 = 0o750;

/// Files by their names from the current folder, as `trace/a.dlt`. It tells no content.
///
/// What is only read may lie anywhere: a name may begin with `/`, and go up by `..`. What is written stays below the folder, but for trace files, which
/// are known by their names, and pictures where the program draws some: any other name that is written is refused as a fault. So is an empty one. What is
/// no plain file, looked at without following, is a fault too, and is not opened: a link, a directory, a pipe. The directories of a name may be links;
/// those of a file that is made are made where they are missing. What is made is for its owner, and for its group to read. A file that is put is written
/// beside its name, with `.new` behind it, synced, and renamed: a cut leaves the old one or the new one. The file that was added to last stays open, and so
/// does one that is read in pieces, until its end. `names` looks into one directory, that which stands before the prefix's last slash, and gives the plain files in it; where it isn't there,
/// there are none. A file whose name is no text is passed over. For each fault there is a sentence that names the file and says why.
#[derive(Drop)]
pub struct Directory<R: Files> {
    rt: R,
    manner: Manner,
    last: Option<Last<R::File>>,
    part_read: Option<PartRead<R::File>>,
    taken: Taken,
    troubles: Troubles,
    // a name that was read last and isn't there
    absent: Option<String>,
    faults: u64,
    changes: u64,
    appends: u64,
}

/// A file that is open to be added to.
#[derive(Drop)]
struct Last<F> {
    name: String,
    file: F,
    // how many bytes it has, of whole pieces
    len: u64,
    // when it was looked at, in seconds of the monotonic clock
    looked: u64,
}

/// A file that is open to be read on.
#[derive(Drop)]
struct PartRead<F> {
    name: String,
    file: F,
    // where the bytes stand that are read next
    place: u64,
}

/// The seconds of the monotonic clock; 0 where it can't be read.
fn seconds<R: Clock>(rt: &R) -> u64 {
    rt.monotonic().unwrap_or(Duration::ZERO).as_secs()
}

/// What is known of a plain file, or nothing where there is none.
fn look<R: Files>(rt: &R, name: &str) -> io::Result<Option<Metadata>>
    ensures { IfOk result (λ found. IfSome found (λ file. IsFile (file_type file))) }
{
    if name.is_empty() {
        return Err(Error::from(ErrorKind::InvalidInput));
    }
    match found(fs::symlink_metadata(rt, name))? {
        Some(file) if file.is_file() => Ok(Some(file)),
        Some(_) => Err(Error::from(ErrorKind::InvalidData)),
        None => Ok(None),
    }
}

/// The bytes of a file, or nothing where there is none. Of a text no more is read than a reader of texts takes, and a byte.
fn read_file<R: Files + AllocGlobal>(
    rt: &R,
    manner: Manner,
    name: &str,
) -> io::Result<Option<Vec<u8>>> {
    if look(rt, name)?.is_none() {
        return Ok(None);
    }
    match found(File::open(rt, name))? {
        Some(file) => Ok(Some(read_of(rt.alloc(), manner, file)?)),
        None => Ok(None),
    }
}

/// A file that is open to be read from this place on, or nothing where there is none: the one that is kept open, where it was read up to there.
fn open_at<R: Files + AllocGlobal>(
    rt: &R,
    kept: Option<PartRead<R::File>>,
    name: &str,
    place: u64,
) -> io::Result<Option<PartRead<R::File>>> {
    if let Some(part) = kept {
        if part.name.as_str() == name && part.place == place {
            return Ok(Some(part));
        }
    }
    if look(rt, name)?.is_none() {
        return Ok(None);
    }
    let text = String::from_str(rt.alloc(), name)?;
    let Some(mut file) = found(File::open(rt, name))? else {
        return Ok(None);
    };
    file.seek(SeekFrom::Start(place))?;
    Ok(Some(PartRead {
        name: text,
        file,
        place,
    }))
}

/// Whether something that is no file has a trace file's name.
fn is_obstacle<R: Files>(rt: &R, name: &str) -> bool {
    match fs::symlink_metadata(rt, name) {
        Ok(found) => is_trace_file(name) && !found.is_file(),
        Err(_) => false,
    }
}

/// The size of a file, or nothing where there is none. Beside a daemon, what is no file and has a trace file's name has no bytes.
fn file_size<R: Files>(rt: &R, manner: Manner, name: &str) -> io::Result<Option<u64>>
    ensures { IfOk result (λ size. IfSome size (λ bytes. bytes < 2 ^ 63)) }
{
    if manner.is_daemon() && is_obstacle(rt, name) {
        return Ok(Some(0));
    }
    match look(rt, name)? {
        Some(file) if file.len() < 1 << 63 => Ok(Some(file.len())),
        Some(_) => Err(Error::from(ErrorKind::InvalidData)),
        None => Ok(None),
    }
}

/// Makes a file that is missing, with its directories.
fn create<R: Files>(rt: &R, name: &str) -> io::Result<R::File> {
    if let Some(directory) = parent(name) {
        DirBuilder::new()
            .recursive(true)
            .mode(DIRECTORY_MODE)
            .create(rt, directory)?;
    }
    OpenOptions::new()
        .append(true)
        .create_new(true)
        .mode(FILE_MODE)
        .open(rt, name)
}

/// What a file has behind its name until it is whole and takes that name.
const BESIDE: &str = ".new";

/// Makes or replaces a file: one beside it is written and synced, and takes its name then. Where that fails, the one beside
/// it is taken away, if that can be done.
fn put_file<R: Files + AllocGlobal>(
    rt: &R,
    manner: Manner,
    name: &str,
    bytes: &[u8],
) -> io::Result<()> {
    let name = writable(manner, name)?;
    if look(rt, name)?.is_some() && !replaces(rt, manner, name)? {
        return Err(Error::from(ErrorKind::AlreadyExists));
    }
    let mut beside = String::from_str(rt.alloc(), name)?;
    beside.push_str(BESIDE)?;
    remove_plain(rt, beside.as_str())?;
    let done = write_beside(rt, beside.as_str(), name, bytes);
    if done.is_err() {
        let _gone = remove_plain(rt, beside.as_str());
    }
    done
}

/// Makes a file of these bytes under one name, and gives it another one once they are synced.
fn write_beside<R: Files>(rt: &R, beside: &str, name: &str, bytes: &[u8]) -> io::Result<()> {
    let mut file = create(rt, beside)?;
    write_whole(&mut file, bytes)?;
    file.sync_all()?;
    fs::rename(rt, beside, name)
}

/// Removes a plain file, where one has the name.
fn remove_plain<R: Files>(rt: &R, name: &str) -> io::Result<()> {
    if look(rt, name)?.is_some() {
        let _ = found(fs::remove_file(rt, name))?;
    }
    Ok(())
}

/// Whether a file that is open is still the one of its name.
fn is_there<R: Files>(rt: &R, last: &Last<R::File>) -> bool {
    match (
        fs::symlink_metadata(rt, last.name.as_str()),
        last.file.metadata(),
    ) {
        (Ok(named), Ok(opened)) => named.dev() == opened.dev() && named.ino() == opened.ino(),
        _ => false,
    }
}

/// The file that is kept open, where it has the name. It is looked at once a second, and let go where another one has its name, or none: then it was
/// taken away, and that is counted.
fn kept_open<R: Files>(
    rt: &R,
    taken: &Taken,
    kept: Option<Last<R::File>>,
    name: &str,
    now: u64,
) -> Option<Last<R::File>> {
    let mut last = kept?;
    if last.name.as_str() != name {
        return None;
    }
    if last.looked != now {
        if !is_there(rt, &last) {
            taken.raise();
            return None;
        }
        last.looked = now;
    }
    Some(last)
}

/// A file that is open to be added to: the one that is kept open, where it has the name.
fn opened<R: Files + AllocGlobal + Clock>(
    rt: &R,
    manner: Manner,
    taken: &Taken,
    kept: Option<Last<R::File>>,
    name: &str,
) -> io::Result<Last<R::File>> {
    let now = seconds(rt);
    if let Some(last) = kept_open(rt, taken, kept, name, now) {
        return Ok(last);
    }
    let name = writable(manner, name)?;
    let text = String::from_str(rt.alloc(), name)?;
    let (file, len) = match look(rt, name)? {
        Some(found) => (OpenOptions::new().append(true).open(rt, name)?, found.len()),
        None => (create(rt, name)?, 0),
    };
    Ok(Last {
        name: text,
        file,
        len,
        looked: now,
    })
}

/// Takes a file away, if there is one. Beside a daemon, what is no file and has a trace file's name is left there.
fn remove_file<R: Files>(rt: &R, manner: Manner, name: &str) -> io::Result<()> {
    let name = writable(manner, name)?;
    if manner.is_daemon() && is_obstacle(rt, name) {
        return Ok(());
    }
    remove_plain(rt, name)
}

/// The names of the files that begin with a prefix, in byte order.
fn file_names<R: Files + AllocGlobal + Clone + Drop>(
    rt: &R,
    manner: Manner,
    prefix: &str,
) -> io::Result<Vec<Name>> {
    let mut texts = file_texts(rt, manner, prefix)?;
    texts.sort()?;
    let mut names = Vec::new(rt.alloc());
    for text in texts {
        names.push(Name::over(text))?;
    }
    Ok(names)
}

/// The same names, in the order in which the directory has them. Beside a daemon, what is no file and has a trace file's name is among them, so that the
/// next trace file has a number behind it.
fn file_texts<R: Files + AllocGlobal + Clone + Drop>(
    rt: &R,
    manner: Manner,
    prefix: &str,
) -> io::Result<Vec<String>> {
    let mut names = Vec::new(rt.alloc());
    let (directory, front) = parted(prefix);
    let place = if directory.is_empty() { "." } else { directory };
    let Some(listing) = found(fs::read_dir(rt, place))? else {
        return Ok(names);
    };
    for entry in listing {
        let entry = match entry {
            Ok(entry) => entry,
            Err(error) if error.kind() == ErrorKind::InvalidFilename => continue,
            Err(error) => return Err(error),
        };
        let counts = manner.is_daemon() && is_trace_file(entry.file_name());
        if entry.file_name().starts_with(front) && (counts || entry.file_type()?.is_file()) {
            let mut name = String::from_str(rt.alloc(), directory)?;
            name.push_str(entry.file_name())?;
            names.push(name)?;
        }
    }
    Ok(names)
}

impl<R: Files + AllocGlobal> Directory<R> {
    /// The files of a program that reads texts, with nothing that failed or changed so far.
    pub fn over(rt: R) -> Directory<R>
        ensures faults { result.faults ≡ 0 }
        ensures changes { result.changes ≡ 0 }
        ensures appends { result.appends ≡ 0 }
    {
        Directory::in_manner(rt, Manner::Texts)
    }

    /// The same of a program that reads files of any size, and draws pictures: what it puts may lie anywhere, and is put in the place of another picture
    /// alone.
    pub fn with_pictures(rt: R) -> Directory<R>
        ensures faults { result.faults ≡ 0 }
        ensures changes { result.changes ≡ 0 }
        ensures appends { result.appends ≡ 0 }
    {
        Directory::in_manner(rt, Manner::Pictures)
    }

    /// The same of a daemon of this name, which goes on for long: each fault is said at once on standard error, and what is no file and has a trace
    /// file's name is passed over.
    pub fn of_daemon(rt: R, program: &'static str) -> Directory<R>
        ensures faults { result.faults ≡ 0 }
        ensures changes { result.changes ≡ 0 }
        ensures appends { result.appends ≡ 0 }
    {
        Directory::in_manner(rt, Manner::Daemon(program))
    }

    /// With nothing that failed or changed so far.
    fn in_manner(rt: R, manner: Manner) -> Directory<R>
        ensures faults { result.faults ≡ 0 }
        ensures changes { result.changes ≡ 0 }
        ensures appends { result.appends ≡ 0 }
    {
        let taken = Taken::none(rt.alloc());
        let troubles = Troubles::none(rt.alloc());
        Directory {
            rt,
            manner,
            last: None,
            part_read: None,
            taken,
            troubles,
            absent: None,
            faults: 0,
            changes: 0,
            appends: 0,
        }
    }

    /// What went wrong so far, each sentence with the file's name and the cause; none of them where they were said at once.
    pub fn troubles(&self) -> &[String] {
        match self.manner {
            Manner::Daemon(_) => &[],
            Manner::Texts | Manner::Pictures => self.troubles.all(),
        }
    }

    /// The name that was read last, where nothing has it.
    pub fn absent(&self) -> Option<&str> {
        match &self.absent {
            Some(name) => Some(name.as_str()),
            None => None,
        }
    }

    /// The count of the files that were taken away while they were kept open, which goes on.
    pub fn taken(&self) -> Taken {
        self.taken.shared()
    }

    /// Notes whether a name that was read is there.
    fn note_read(&mut self, name: &str, is_there: bool)
        ensures { self.new ≡ record self.old { absent = self.new.absent } }
    {
        self.absent = if is_there {
            None
        } else {
            String::from_str(self.rt.alloc(), name).ok()
        };
    }
}

impl<R: Files + Eprint> Directory<R> {
    /// Counts an error as a fault, unless it is out of memory, and says or notes what it was.
    fn refused(&mut self, name: &str, error: Error) -> FolderFault
        ensures failed { result ≡ FolderFault.Failed → HasRisen self.old.faults self.new.faults }
        ensures memory { result ≡ FolderFault.OutOfMemory → self.new.faults ≡ self.old.faults }
        ensures changes { self.new.changes ≡ self.old.changes }
        ensures appends { self.new.appends ≡ self.old.appends }
    {
        if is_memory(&error) {
            return FolderFault::OutOfMemory;
        }
        self.faults = self.faults.saturating_add(1);
        match self.manner {
            Manner::Daemon(program) => self.troubles.tell(&self.rt, program, name, &error),
            Manner::Texts | Manner::Pictures => self.troubles.note(name, &error),
        }
        FolderFault::Failed
    }
}

impl<R: Files + AllocGlobal + Clock> Directory<R> {
    /// Adds to a file, which is made where it is missing, and keeps it open unless that failed. What was written of a piece that did not get in whole is cut
    /// off again, so that none is there that nobody counts.
    fn add(&mut self, name: &str, piece: &[u8]) -> io::Result<()>
        ensures faults { self.new.faults ≡ self.old.faults }
        ensures changes { self.new.changes ≡ self.old.changes }
        ensures appends { self.new.appends ≡ self.old.appends }
    {
        let kept = self.last.take();
        let mut last = opened(&self.rt, self.manner, &self.taken, kept, name)?;
        match write_whole(&mut last.file, piece) {
            Ok(()) => {
                last.len = last.len.wrapping_add(piece.len() as u64);
                self.last = Some(last);
                Ok(())
            }
            Err(error) => {
                let _ = last.file.set_len(last.len);
                Err(error)
            }
        }
    }
}

impl<R: Files + AllocGlobal> Directory<R> {
    /// Reads bytes of a file from this place on, and keeps it open where there were some. Answers how many; nothing where there is no such file.
    fn read_part(&mut self, name: &str, place: u64, into: &mut [u8]) -> io::Result<Option<usize>>
        ensures bound { IfOk result (λ read. IfSome read (λ count. count ≤ length into.new)) }
        ensures faults { self.new.faults ≡ self.old.faults }
        ensures changes { self.new.changes ≡ self.old.changes }
        ensures appends { self.new.appends ≡ self.old.appends }
    {
        let kept = self.part_read.take();
        let Some(mut part) = open_at(&self.rt, kept, name, place)? else {
            return Ok(None);
        };
        let count = read_once(&mut part.file, into)?;
        if count > 0 {
            part.place = place.wrapping_add(count as u64);
            self.part_read = Some(part);
        }
        Ok(Some(count))
    }
}

impl<R: Files + AllocGlobal + Clone + Drop + Eprint + Clock> ReadAt for Directory<R> {
    fn read_at(
        &mut self,
        name: &str,
        place: u64,
        into: &mut [u8],
    ) -> Result<Option<usize>, FolderFault> {
        match self.read_part(name, place, into) {
            Ok(count) => {
                self.note_read(name, count.is_some());
                Ok(count)
            }
            Err(error) => Err(self.refused(name, error)),
        }
    }
}

impl<R: Files + AllocGlobal + Clone + Drop + Eprint + Clock> Folder for Directory<R> {
    ghost told = { λ d. record { files = None; faults = d.faults; changes = d.changes; appends = d.appends } };

    fn read(&mut self, name: &str) -> Result<Option<Bytes>, FolderFault> {
        match read_file(&self.rt, self.manner, name) {
            Ok(Some(bytes)) => {
                self.note_read(name, true);
                Ok(Some(Bytes::over(bytes)))
            }
            Ok(None) => {
                self.note_read(name, false);
                Ok(None)
            }
            Err(error) => Err(self.refused(name, error)),
        }
    }

    fn size(&mut self, name: &str) -> Result<Option<u64>, FolderFault> {
        match file_size(&self.rt, self.manner, name) {
            Ok(size) => Ok(size),
            Err(error) => Err(self.refused(name, error)),
        }
    }

    fn names(&mut self, prefix: &str) -> Result<NameList, FolderFault> {
        match file_names(&self.rt, self.manner, prefix) {
            Ok(names) => Ok(NameList::over(names)),
            Err(error) => {
                let (directory, _) = parted(prefix);
                Err(self.refused(directory, error))
            }
        }
    }

    fn put(&mut self, name: &str, bytes: &[u8]) -> Result<(), FolderFault> {
        self.changes = self.changes.saturating_add(1);
        self.last = None;
        match put_file(&self.rt, self.manner, name, bytes) {
            Ok(()) => Ok(()),
            Err(error) => Err(self.refused(name, error)),
        }
    }

    fn append(&mut self, name: &str, piece: &[u8]) -> Result<(), FolderFault> {
        self.changes = self.changes.saturating_add(1);
        self.appends = self.appends.saturating_add(1);
        match self.add(name, piece) {
            Ok(()) => Ok(()),
            Err(error) => Err(self.refused(name, error)),
        }
    }

    fn remove(&mut self, name: &str) -> Result<(), FolderFault> {
        self.changes = self.changes.saturating_add(1);
        self.last = None;
        match remove_file(&self.rt, self.manner, name) {
            Ok(()) => Ok(()),
            Err(error) => Err(self.refused(name, error)),
        }
    }

    fn faults(&self) -> u64 {
        self.faults
    }

    fn changes(&self) -> u64 {
        self.changes
    }

    fn appends(&self) -> u64 {
        self.appends
    }
}
