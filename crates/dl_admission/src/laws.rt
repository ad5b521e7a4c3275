//! Laws of admissions: what their events tell.

ghost use Rattle.std.specs.Prelude.{◌≡◌, ◌∷◌, [], ℕ, List, map};
ghost use Rattle.std.specs.List.{AllByRecursion};
ghost use Rattle.dl_bytes.specs.declared.item.Item.{Item};
ghost use Rattle.dl_bytes.specs.declared.moment.Moment.{Moment};
ghost use Rattle.dl_bytes.specs.declared.user.UserMsg.{UserMsg};
ghost use Rattle.dl_events.specs.declared.event.Event.{Event};
ghost use Rattle.dl_model.specs.Accounts.{name_of, order};
ghost use Rattle.dl_model.specs.Report.{reported};
ghost use Rattle.dl_admission.specs.Admission.{AreNoted, call_entry, loss_entries, message_entry};
ghost use Rattle.dl_admission.specs.Telling.{TellOf};

/// Log calls of one application, as they are noted behind the Closes of slow clients, tell of it just these calls, in their order.
pub fn what_calls_tell()
    ensures { (ecu : List ℕ) (moment : Moment) (app : ℕ) (items : List Item) (noted : List Event) → AllByRecursion (λ item. item.app ≡ app) items
        → AreNoted (map (call_entry ecu moment) items) noted → TellOf app (map name_of items) 0 noted }
{}

/// A report of lost calls tells of its application just so many.
pub fn what_losses_tell()
    ensures { (ecu : List ℕ) (moment : Moment) (app : ℕ) (apid : List ℕ) (count : ℕ) (noted : List Event)
        → AreNoted (loss_entries ecu moment app apid count) noted → TellOf app [] count noted }
{}

/// User messages tell of no calls and of no losses of the daemon's own applications.
pub fn what_messages_tell()
    ensures { (ecu : List ℕ) (moment : Moment) (channel : ℕ) (msgs : List UserMsg) (noted : List Event) (app : ℕ)
        → AreNoted (map (message_entry ecu moment channel) msgs) noted → (order app noted ≡ []) × (reported app noted ≡ 0) }
{}
