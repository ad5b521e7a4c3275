//! Laws on the records and the claims of a whole book.

ghost use Rattle.std.specs.Prelude.{◌≡◌, ℕ, List, length, map, All};
ghost use Rattle.std.specs.List.{filter};
ghost use Rattle.dl_bytes.specs.Claim.{Claimed};
ghost use Rattle.dl_events.specs.declared.event.Event.{Event};
ghost use Rattle.dl_events.specs.declared.record.Answer.TheVariants.{Lost};
ghost use Rattle.dl_events.specs.declared.record.Record.{Record};
ghost use Rattle.dl_cells.specs.Losses.{counted_of};
ghost use Rattle.dl_ring.specs.Items.{calls_in, claims_in};
ghost use Rattle.dl_model.specs.Accounts.{order, of_writer, claims, claimed_by, name_of, with_answer, WriterAccount};
ghost use Rattle.dl_writer.specs.Records.{IsHeld, TellAll};
ghost use Rattle.dl_writer.specs.State.{WriterState};

/// The records and claims of a whole book are the account of its writer: where each level that it read is one that the journal
/// gave the slot, at its version, and the journal admits the writer's calls, and its claims, as the ring took them, the book
/// and the journal say the same of each call and of each claim.
pub fn records_are_an_account()
    ensures { (first : ℕ) (events : List Event) (w : WriterState) (records : List Record) (claimed : List Claimed) → TellAll w records claimed →
        All (IsHeld first events) w.reader.reads →
        filter (of_writer w.push.number) (order w.app events) ≡ map name_of (calls_in w.push.pushed) →
        filter (claimed_by w.push.number) (claims w.app events) ≡ claims_in w.push.pushed →
        WriterAccount first events w.app w.push.number w.push.refusals claimed records }
{}

/// What the writer of a whole book counted of its application are its lost calls.
pub fn losses_are_lost_calls()
    ensures { (w : WriterState) (records : List Record) (claimed : List Claimed) → TellAll w records claimed →
        counted_of w.app w.losses.counted ≡ length (with_answer Lost records) }
{}
