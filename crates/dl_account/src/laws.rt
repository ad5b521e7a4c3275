//! Laws on an account.

ghost use Rattle.std.specs.Prelude.{◌≡◌, ℕ, List, Option, length, map, All};
ghost use Rattle.std.specs.List.{range_with_len};
ghost use Rattle.dl_bytes.specs.Context.{Context};
ghost use Rattle.dl_bytes.specs.declared.item.Injection.{Injection};
ghost use Rattle.dl_events.specs.declared.event.Event.{Event};
ghost use Rattle.dl_events.specs.declared.record.Record.{Record};
ghost use Rattle.dl_cells.specs.declared.level_history.Read.{Read};
ghost use Rattle.dl_model.specs.WholeAccounts.{IsAccounted};
ghost use Rattle.dl_desk.specs.Made.{IsLater, IsMadeWith, MakesWriter};
ghost use Rattle.dl_desk.specs.QueuedInjections.{rest_of};
ghost use Rattle.dl_desk.specs.State.{DeskState};
ghost use Rattle.dl_writer.specs.Calls.{after, with_empty, with_injection, with_read};
ghost use Rattle.dl_writer.specs.Claiming.{Announces, IsTableFull, Registers};
ghost use Rattle.dl_writer.specs.State.{BookState, IsWhole, WriterState, numbers};
ghost use Rattle.dl_account.specs.Known.{IsDrained};
ghost use Rattle.dl_account.specs.Making.{AreInOrder, AreMadeWith, SameBases};
ghost use Rattle.dl_account.specs.Settled.{IsAccountOf, IsJournalOf, IsSettled, refusals_of};
ghost use Rattle.dl_account.specs.State.{AccountState, ClosingState};

/// Where all books are whole, the records and the claims of an account and a journal that says what the daemon did are the account
/// of all writers.
pub fn records_are_an_account()
    ensures { (events : List Event) (s : AccountState) → IsSettled s → All IsWhole s.books → IsJournalOf events s → IsAccountOf events s }
{}

/// So these records and claims and such a journal are accounted, with no loss pending, in the words that runs of steps have for it:
/// the places that were claimed of an application differ.
pub fn an_account_is_accounted()
    ensures { (events : List Event) (s : AccountState) → IsSettled s → All IsWhole s.books → IsJournalOf events s →
        IsAccounted s.handles.levels.first events (λ app. 0) (refusals_of s.books) (map (λ b. b.claims) s.books) (map (λ b. b.records) s.books) }
{}

/// The books in the order of their numbers are whole where all books are.
pub fn whole_in_order()
    ensures { (books ordered : List BookState) → AreInOrder books ordered → All IsWhole books → All IsWhole ordered }
{}

/// Books whose numbers came in order stay as they were.
pub fn books_in_order_stay()
    ensures { (books ordered : List BookState) → numbers books ≡ range_with_len 1 (length books) → AreInOrder books ordered → ordered ≡ books }
{}

/// Books of a desk's writers whose numbers came in order, and of which those of one application have the same base, can be taken
/// back: no two of them have one number.
pub fn books_in_order_are_apart()
    ensures { (desk : DeskState) (books : List BookState) → All (λ b. IsMadeWith desk b.writer) books → numbers books ≡ range_with_len 1 (length books) → SameBases books →
        AreMadeWith desk books }
{}

/// Books whose writers have the base that goes with their application have the same bases.
pub fn bases_are_same()
    ensures { (base : ℕ → ℕ) (books : List BookState) → All (λ b. b.writer.base ≡ base b.writer.app) books → SameBases books }
{}

/// A writer that was made with a desk stays one that was, whatever it calls, looks up, claims or announces and whatever other writers
/// are made.
pub fn made_stays()
    ensures logged { (desk : DeskState) (w : WriterState) (r : Record) → IsMadeWith desk w → IsMadeWith desk (after w r) }
    ensures looked { (desk : DeskState) (w : WriterState) (r : Read) → IsMadeWith desk w → IsMadeWith desk (record w { reader = with_read w.reader r }) }
    ensures given { (desk : DeskState) (w : WriterState) (number : ℕ) (injection : Injection) → IsMadeWith desk w → IsMadeWith desk (with_injection w number injection) }
    ensures none { (desk : DeskState) (w : WriterState) → IsMadeWith desk w → IsMadeWith desk (with_empty w) }
    ensures registered { (desk : DeskState) (w new : WriterState) (ctid : List ℕ) (level : Option ℕ) (text : List ℕ) (ctx : Context) → Registers w ctid level text ctx new →
        IsMadeWith desk w → IsMadeWith desk new }
    ensures full { (desk : DeskState) (w new : WriterState) → IsTableFull w new → IsMadeWith desk w → IsMadeWith desk new }
    ensures announced { (desk : DeskState) (w new : WriterState) (waits : ℕ) → Announces w new waits → IsMadeWith desk w → IsMadeWith desk new }
    ensures another { (app : ℕ) (old new : DeskState) → MakesWriter app old new → IsLater old new }
{}

/// A call that sets a level or injects leaves what was drained drained.
pub fn drained_stays()
    ensures { (old new : ClosingState) → (record new { handles = rest_of new.handles }) ≡ (record old { handles = rest_of old.handles }) → IsDrained old → IsDrained new }
{}
