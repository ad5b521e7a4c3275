//! Faults on purpose, for tests of what a program does then.

ghost use Rattle.std.specs.Prelude.{◌≡◌, ◌+◌, ◌<◌, ◌≤◌, ◌^◌, ◌↔◌, Contains, Err, IfOk, IfSome, IsTrue, Some, false, length, true};
ghost use Rattle.std.specs.FinMap as map;
ghost use Rattle.dl_outside.specs.Dial as dial;
ghost use Rattle.dl_outside.specs.Folder as folder;
ghost use Rattle.dl_outside.specs.Link as link;
ghost use Rattle.dl_outside.specs.Net as net;
ghost use Rattle.dl_outside.specs.Outside.{one_more, HasReadCause, HasRisen, HasWriteCause, Reads, Stays, Takes};
ghost use Rattle.dl_memory.specs.Counted.{Counts, with_faults};
ghost use Rattle.dl_pieces.specs.Pieces.{ReadsAt};
ghost use Rattle.dl_outside.specs.declared.link.Gave.TheVariants as gave;
ghost use Rattle.dl_outside.specs.declared.link.Sends.TheVariants as sends;
ghost use Rattle.dl_outside.specs.declared.sink.Took.TheVariants as took;
ghost use Rattle.dl_outside.specs.declared.source.Got.TheVariants as got;

use dl_bytes::Bytes;
use dl_outside::{
    Accepted, ClientScript, Dial, DialFault, Folder, FolderFault, Gave, Got, Link, NameList, Net,
    NetFault, Sends, Sink, Source, Took,
};
use dl_pieces::ReadAt;

/// Another object, of which chosen calls fail. Its calls are numbered from 1.
#[derive(Drop)]
pub struct Failing<T> {
    /// The object within.
    pub inner: T,
    /// The numbers of the calls that fail on purpose.
    pub chosen: Vec<u64>,
    /// How many calls were made.
    pub calls: u64,
    /// How many of them failed, on purpose or since the object within failed.
    pub faults: u64,
    /// Of a folder: how many calls were to change a file.
    pub changes: u64,
    /// Of a folder: how many calls were to add to one.
    pub appends: u64,
}

impl<T> Failing<T> {
    /// The object `inner`, with the numbers of the calls that are to fail.
    pub fn make(inner: T, chosen: Vec<u64>) -> Failing<T>
        ensures inner { result.inner ≡ inner }
        ensures chosen { result.chosen ≡ chosen }
        ensures calls { result.calls ≡ 0 }
        ensures faults { result.faults ≡ 0 }
        ensures changes { result.changes ≡ 0 }
        ensures appends { result.appends ≡ 0 }
    {
        Failing {
            inner,
            chosen,
            calls: 0,
            faults: 0,
            changes: 0,
            appends: 0,
        }
    }

    /// Counts one more call. A chosen one is counted as a fault too.
    fn begin(&mut self) -> bool
        ensures calls { self.new.calls ≡ one_more self.old.calls }
        ensures chosen { IsTrue result ↔ Contains self.old.chosen.items self.new.calls }
        ensures failed { result ≡ true → HasRisen self.old.faults self.new.faults }
        ensures sound { result ≡ false → self.new.faults ≡ self.old.faults }
        ensures inner { self.new.inner ≡ self.old.inner }
        ensures kept { self.new.chosen ≡ self.old.chosen }
        ensures changes { self.new.changes ≡ self.old.changes }
        ensures appends { self.new.appends ≡ self.old.appends }
    {
        self.calls = self.calls.saturating_add(1);
        let is_chosen = self.chosen.contains(&self.calls);
        if is_chosen {
            self.count();
        }
        is_chosen
    }

    /// Counts a fault.
    fn count(&mut self)
        ensures faults { HasRisen self.old.faults self.new.faults }
        ensures calls { self.new.calls ≡ self.old.calls }
        ensures inner { self.new.inner ≡ self.old.inner }
        ensures kept { self.new.chosen ≡ self.old.chosen }
        ensures changes { self.new.changes ≡ self.old.changes }
        ensures appends { self.new.appends ≡ self.old.appends }
    {
        self.faults = self.faults.saturating_add(1);
    }
}

impl<S: Source> Source for Failing<S> {
    ghost told = { λ s. record { left = (S.told s.inner).left; faults = s.faults } };

    fn read(&mut self, into: &mut [u8]) -> Got
        requires { 0 < length into.old }
        ensures bytes { Reads (S.told self.old.inner).left (S.told self.new.inner).left result into.new }
        ensures cause { HasReadCause self.old.faults self.new.faults result }
        ensures counts { Counts self.old self.new ((result ≡ got.Failed) × (into.new ≡ into.old)) }
        ensures others { ¬ Contains self.old.chosen.items self.new.calls
            → HasReadCause (S.told self.old.inner).faults (S.told self.new.inner).faults result }
    {
        self.calls = self.calls.saturating_add(1);
        if self.chosen.contains(&self.calls) {
            self.faults = self.faults.saturating_add(1);
            return Got::Failed;
        }
        let got = self.inner.read(into);
        if let Got::Failed = got {
            self.faults = self.faults.saturating_add(1);
        }
        got
    }

    fn faults(&self) -> u64 {
        self.faults
    }
}

impl<K: Sink> Sink for Failing<K> {
    ghost told = { λ s. record { held = (K.told s.inner).held; faults = s.faults } };

    fn write(&mut self, piece: &[u8]) -> Took
        requires { 0 < length piece.now }
        ensures bytes { Takes (K.told self.old.inner).held (K.told self.new.inner).held result piece.now }
        ensures cause { HasWriteCause self.old.faults self.new.faults result }
        ensures counts { Counts self.old self.new (result ≡ took.Failed) }
        ensures others { ¬ Contains self.old.chosen.items self.new.calls
            → HasWriteCause (K.told self.old.inner).faults (K.told self.new.inner).faults result }
    {
        self.calls = self.calls.saturating_add(1);
        if self.chosen.contains(&self.calls) {
            self.faults = self.faults.saturating_add(1);
            return Took::Failed;
        }
        let took = self.inner.write(piece);
        if let Took::Failed = took {
            self.faults = self.faults.saturating_add(1);
        }
        took
    }

    fn faults(&self) -> u64 {
        self.faults
    }
}

impl<F: Folder> Folder for Failing<F> {
    ghost told = { λ f. record { files = (F.told f.inner).files; faults = f.faults; changes = f.changes; appends = f.appends } };

    fn read(&mut self, name: &str) -> Result<Option<Bytes>, FolderFault>
        ensures found { folder.Answers (F.told self.old.inner).files result (λ all. map.get all name.now) }
        ensures stays { Stays (F.told self.old.inner).files (F.told self.new.inner).files }
        ensures cause { folder.HasCause self.old.faults self.new.faults result }
        ensures unchanged { self.new.changes ≡ self.old.changes }
        ensures unappended { self.new.appends ≡ self.old.appends }
        ensures counts { Counts self.old self.new (result ≡ Err FolderFault.Failed) }
        ensures others { ¬ Contains self.old.chosen.items self.new.calls
            → folder.HasCause (F.told self.old.inner).faults (F.told self.new.inner).faults result }
    {
        if self.begin() {
            return Err(FolderFault::Failed);
        }
        let found = self.inner.read(name);
        if let Err(FolderFault::Failed) = found {
            self.count();
        }
        found
    }

    fn size(&mut self, name: &str) -> Result<Option<u64>, FolderFault>
        ensures found { folder.Answers (F.told self.old.inner).files result (λ all. folder.size_in all name.now) }
        ensures small { IfOk result (λ size. IfSome size (λ bytes. bytes < 2 ^ 63)) }
        ensures stays { Stays (F.told self.old.inner).files (F.told self.new.inner).files }
        ensures cause { folder.HasCause self.old.faults self.new.faults result }
        ensures unchanged { self.new.changes ≡ self.old.changes }
        ensures unappended { self.new.appends ≡ self.old.appends }
        ensures counts { Counts self.old self.new (result ≡ Err FolderFault.Failed) }
        ensures others { ¬ Contains self.old.chosen.items self.new.calls
            → folder.HasCause (F.told self.old.inner).faults (F.told self.new.inner).faults result }
    {
        if self.begin() {
            return Err(FolderFault::Failed);
        }
        let found = self.inner.size(name);
        if let Err(FolderFault::Failed) = found {
            self.count();
        }
        found
    }

    fn names(&mut self, prefix: &str) -> Result<NameList, FolderFault>
        ensures found { folder.Answers (F.told self.old.inner).files result (folder.names_with prefix.now) }
        ensures stays { Stays (F.told self.old.inner).files (F.told self.new.inner).files }
        ensures cause { folder.HasCause self.old.faults self.new.faults result }
        ensures unchanged { self.new.changes ≡ self.old.changes }
        ensures unappended { self.new.appends ≡ self.old.appends }
        ensures counts { Counts self.old self.new (result ≡ Err FolderFault.Failed) }
        ensures others { ¬ Contains self.old.chosen.items self.new.calls
            → folder.HasCause (F.told self.old.inner).faults (F.told self.new.inner).faults result }
    {
        if self.begin() {
            return Err(FolderFault::Failed);
        }
        let found = self.inner.names(prefix);
        if let Err(FolderFault::Failed) = found {
            self.count();
        }
        found
    }

    fn put(&mut self, name: &str, bytes: &[u8]) -> Result<(), FolderFault>
        ensures files { folder.Puts (F.told self.old.inner).files (F.told self.new.inner).files result name.now bytes.now }
        ensures whole { folder.IsOldOrNew (F.told self.old.inner).files (F.told self.new.inner).files result name.now bytes.now }
        ensures cause { folder.HasCause self.old.faults self.new.faults result }
        ensures changed { self.new.changes ≡ one_more self.old.changes }
        ensures unappended { self.new.appends ≡ self.old.appends }
        ensures counts { Counts self.old self.new (result ≡ Err FolderFault.Failed) }
        ensures others { ¬ Contains self.old.chosen.items self.new.calls
            → folder.HasCause (F.told self.old.inner).faults (F.told self.new.inner).faults result }
    {
        self.changes = self.changes.saturating_add(1);
        if self.begin() {
            return Err(FolderFault::Failed);
        }
        let done = self.inner.put(name, bytes);
        if let Err(FolderFault::Failed) = done {
            self.count();
        }
        done
    }

    fn append(&mut self, name: &str, piece: &[u8]) -> Result<(), FolderFault>
        ensures files { folder.Appends (F.told self.old.inner).files (F.told self.new.inner).files result name.now piece.now }
        ensures cause { folder.HasCause self.old.faults self.new.faults result }
        ensures changed { self.new.changes ≡ one_more self.old.changes }
        ensures appends { self.new.appends ≤ self.old.appends + 1 }
        ensures later { self.old.appends ≤ self.new.appends }
        ensures counts { Counts self.old self.new (result ≡ Err FolderFault.Failed) }
        ensures others { ¬ Contains self.old.chosen.items self.new.calls
            → folder.HasCause (F.told self.old.inner).faults (F.told self.new.inner).faults result }
    {
        self.changes = self.changes.saturating_add(1);
        self.appends = self.appends.saturating_add(1);
        if self.begin() {
            return Err(FolderFault::Failed);
        }
        let done = self.inner.append(name, piece);
        if let Err(FolderFault::Failed) = done {
            self.count();
        }
        done
    }

    fn remove(&mut self, name: &str) -> Result<(), FolderFault>
        ensures files { folder.Removes (F.told self.old.inner).files (F.told self.new.inner).files result name.now }
        ensures cause { folder.HasCause self.old.faults self.new.faults result }
        ensures changed { self.new.changes ≡ one_more self.old.changes }
        ensures unappended { self.new.appends ≡ self.old.appends }
        ensures counts { Counts self.old self.new (result ≡ Err FolderFault.Failed) }
        ensures others { ¬ Contains self.old.chosen.items self.new.calls
            → folder.HasCause (F.told self.old.inner).faults (F.told self.new.inner).faults result }
    {
        self.changes = self.changes.saturating_add(1);
        if self.begin() {
            return Err(FolderFault::Failed);
        }
        let done = self.inner.remove(name);
        if let Err(FolderFault::Failed) = done {
            self.count();
        }
        done
    }

    fn faults(&self) -> u64 {
        self.faults
    }

    fn changes(&self) -> u64 {
        self.changes
    }

    fn appends(&self) -> u64 {
        self.appends
    }
}

impl<F: ReadAt> ReadAt for Failing<F> {
    fn read_at(
        &mut self,
        name: &str,
        place: u64,
        into: &mut [u8],
    ) -> Result<Option<usize>, FolderFault>
        requires { 0 < length into.old }
        ensures found { ReadsAt (F.told self.old.inner).files name.now place into.new result }
        ensures stays { Stays (F.told self.old.inner).files (F.told self.new.inner).files }
        ensures cause { folder.HasCause self.old.faults self.new.faults result }
        ensures unchanged { self.new.changes ≡ self.old.changes }
        ensures unappended { self.new.appends ≡ self.old.appends }
        ensures counts { Counts self.old self.new (result ≡ Err FolderFault.Failed) }
        ensures others { ¬ Contains self.old.chosen.items self.new.calls
            → folder.HasCause (F.told self.old.inner).faults (F.told self.new.inner).faults result }
    {
        if self.begin() {
            return Err(FolderFault::Failed);
        }
        let count = self.inner.read_at(name, place, into);
        if let Err(FolderFault::Failed) = count {
            self.count();
        }
        count
    }
}

impl<L: Link> Link for Failing<L> {
    ghost told = { λ l. record {
      left = (L.told l.inner).left;
      over = (L.told l.inner).over;
      given = (L.told l.inner).given;
      taken = (L.told l.inner).taken;
      faults = l.faults;
      idles = (L.told l.inner).idles;
      waits = (L.told l.inner).waits;
      is_shut = (L.told l.inner).is_shut;
    } };

    fn recv(&mut self, into: &mut [u8]) -> Gave
        requires { 0 < length into.old }
        ensures bytes { link.Receives (L.told self.old.inner).left (L.told self.new.inner).left result into.new }
        ensures given { link.Gives (L.told self.old.inner).given (L.told self.new.inner).given result into.new }
        ensures end { link.EndsRightly (L.told self.old.inner) result }
        ensures cause { link.HasReceiveCause (with_faults (L.told self.old.inner) self.old.faults) (with_faults (L.told self.new.inner) self.new.faults) result }
        ensures over { link.StaysOver (L.told self.old.inner) (L.told self.new.inner) }
        ensures untaken { Stays (L.told self.old.inner).taken (L.told self.new.inner).taken }
        ensures waits { (L.told self.new.inner).waits ≡ (L.told self.old.inner).waits }
        ensures shut { (L.told self.new.inner).is_shut ≡ (L.told self.old.inner).is_shut }
        ensures closed { IsTrue (L.told self.old.inner).is_shut → link.NothingCame result }
        ensures counts { Counts self.old self.new ((result ≡ gave.Failed) × (into.new ≡ into.old)) }
        ensures others { ¬ Contains self.old.chosen.items self.new.calls
            → link.HasReceiveCause (L.told self.old.inner) (L.told self.new.inner) result }
    {
        if self.begin() {
            return Gave::Failed;
        }
        let gave = self.inner.recv(into);
        if let Gave::Failed = gave {
            self.count();
        }
        gave
    }

    fn send(&mut self, piece: &[u8]) -> Sends
        requires { 0 < length piece.now }
        ensures bytes { link.Sent (L.told self.old.inner).taken (L.told self.new.inner).taken result piece.now }
        ensures cause { link.HasSendCause (with_faults (L.told self.old.inner) self.old.faults) (with_faults (L.told self.new.inner) self.new.faults) result }
        ensures left { Stays (L.told self.old.inner).left (L.told self.new.inner).left }
        ensures over { link.StaysOver (L.told self.old.inner) (L.told self.new.inner) }
        ensures ungiven { Stays (L.told self.old.inner).given (L.told self.new.inner).given }
        ensures idles { (L.told self.new.inner).idles ≡ (L.told self.old.inner).idles }
        ensures shut { (L.told self.new.inner).is_shut ≡ (L.told self.old.inner).is_shut }
        ensures closed { IsTrue (L.told self.old.inner).is_shut → link.NothingWent result }
        ensures counts { Counts self.old self.new (result ≡ sends.Failed) }
        ensures others { ¬ Contains self.old.chosen.items self.new.calls
            → link.HasSendCause (L.told self.old.inner) (L.told self.new.inner) result }
    {
        if self.begin() {
            return Sends::Failed;
        }
        let sent = self.inner.send(piece);
        if let Sends::Failed = sent {
            self.count();
        }
        sent
    }

    fn shut(&mut self) {
        self.inner.shut();
    }

    fn rest(&mut self) {
        self.inner.rest();
    }

    fn faults(&self) -> u64 {
        self.faults
    }

    fn idles(&self) -> u64 {
        self.inner.idles()
    }

    fn waits(&self) -> u64 {
        self.inner.waits()
    }
}

impl<N: Net> Net for Failing<N> {
    type L = N::L;

    ghost told = { λ n. record {
      listens_on = (N.told n.inner).listens_on;
      launched = (N.told n.inner).launched;
      waiting = (N.told n.inner).waiting;
      faults = n.faults;
    } };

    fn listen(&mut self, port: u16) -> Result<(), NetFault>
        ensures port { net.Listens (N.told self.old.inner).listens_on (N.told self.new.inner).listens_on result port }
        ensures launched { Stays (N.told self.old.inner).launched (N.told self.new.inner).launched }
        ensures waiting { Stays (N.told self.old.inner).waiting (N.told self.new.inner).waiting }
        ensures cause { net.HasCause self.old.faults self.new.faults result }
        ensures counts { Counts self.old self.new (result ≡ Err NetFault.Failed) }
        ensures others { ¬ Contains self.old.chosen.items self.new.calls
            → net.HasCause (N.told self.old.inner).faults (N.told self.new.inner).faults result }
    {
        if self.begin() {
            return Err(NetFault::Failed);
        }
        let done = self.inner.listen(port);
        if let Err(NetFault::Failed) = done {
            self.count();
        }
        done
    }

    fn launch(&mut self, script: &ClientScript) -> Result<(), NetFault>
        ensures launched { net.Launches (N.told self.old.inner).launched (N.told self.new.inner).launched result script.now }
        ensures waiting { net.Queues (N.told self.old.inner).waiting (N.told self.new.inner).waiting result }
        ensures port { Stays (N.told self.old.inner).listens_on (N.told self.new.inner).listens_on }
        ensures cause { net.HasCause self.old.faults self.new.faults result }
        ensures counts { Counts self.old self.new (result ≡ Err NetFault.Failed) }
        ensures others { ¬ Contains self.old.chosen.items self.new.calls
            → net.HasCause (N.told self.old.inner).faults (N.told self.new.inner).faults result }
    {
        if self.begin() {
            return Err(NetFault::Failed);
        }
        let done = self.inner.launch(script);
        if let Err(NetFault::Failed) = done {
            self.count();
        }
        done
    }

    fn accept(&mut self) -> Accepted<N::L>
        ensures waiting { net.Accepts (N.told self.old.inner).waiting (N.told self.new.inner).waiting result }
        ensures fresh { (l : _) → result ≡ Accepted.Link l → link.IsFresh (N.L.told l) }
        ensures launched { Stays (N.told self.old.inner).launched (N.told self.new.inner).launched }
        ensures port { Stays (N.told self.old.inner).listens_on (N.told self.new.inner).listens_on }
        ensures cause { net.HasAcceptCause self.old.faults self.new.faults result }
        ensures counts { Counts self.old self.new (result ≡ Accepted.Failed) }
        ensures others { ¬ Contains self.old.chosen.items self.new.calls
            → net.HasAcceptCause (N.told self.old.inner).faults (N.told self.new.inner).faults result }
    {
        if self.begin() {
            return Accepted::Failed;
        }
        let accepted = self.inner.accept();
        if let Accepted::Failed = accepted {
            self.count();
        }
        accepted
    }

    fn rest(&mut self) {
        self.inner.rest();
    }

    fn faults(&self) -> u64 {
        self.faults
    }
}

impl<D: Dial> Dial for Failing<D> {
    type S = D::S;

    ghost told = { λ d. record { serves = (D.told d.inner).serves; faults = d.faults } };

    fn dial(&mut self, port: u16) -> Result<D::S, DialFault>
        ensures sound { IfOk result (λ source. (D.S.told source).faults ≡ 0) }
        ensures bytes { IfOk result (λ source. IfSome (D.told self.old.inner).serves (λ bytes. (D.S.told source).left ≡ Some (bytes port))) }
        ensures serves { (D.told self.new.inner).serves ≡ (D.told self.old.inner).serves }
        ensures cause { dial.HasCause self.old.faults self.new.faults result }
        ensures counts { Counts self.old self.new (result ≡ Err DialFault.Failed) }
        ensures others { ¬ Contains self.old.chosen.items self.new.calls
            → dial.HasCause (D.told self.old.inner).faults (D.told self.new.inner).faults result }
    {
        if self.begin() {
            return Err(DialFault::Failed);
        }
        let dialled = self.inner.dial(port);
        if let Err(DialFault::Failed) = dialled {
            self.count();
        }
        dialled
    }

    fn faults(&self) -> u64 {
        self.faults
    }
}
