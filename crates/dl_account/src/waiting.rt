//! What waits in the rings, in the queues and in the loss words once all writers are back, and what the claim words hold.

ghost use Rattle.std.specs.Prelude.{◌≡◌, ◌+◌, ◌<◌, ◌≤◌, ◌^◌, ℕ, List, length, slice_index, vec_len};
ghost use Rattle.dl_cells.specs.Losses.{counted_of, reported_of};
ghost use Rattle.dl_cells.specs.Views.{all_shares};
ghost use Rattle.dl_ring.specs.declared.item.RingItem.{RingItem as ring_item};
ghost use Rattle.dl_desk.specs.Handles.{QueueHolds, RingHolds};
ghost use Rattle.dl_desk.specs.Lists.{At};
ghost use Rattle.dl_account.specs.Books.{items_pushed_of};
ghost use Rattle.dl_account.specs.Joining.{AreGiven};

use dl_desk::DaemonHandles;
use dl_writer::BookList;

/// How many calls and claims wait in the ring of each application: of those that its writers pushed, all that were not taken.
pub fn items_waiting(handles: &DaemonHandles, books: &BookList, apps: u8) -> [u64; 16]
    requires there { (apps ≤ 16) × (apps ≤ length handles.now.apps) }
    requires few { length books.now ≤ 32 }
    ensures { (app : ℕ) → app < apps → At handles.now.apps app (λ e. length e.ring.taken ≤ items_pushed_of app books.now
        → length e.ring.taken + slice_index result app ≡ items_pushed_of app books.now) }
{
    let mut items = [0; 16];
    for app in 0..apps {
        items[usize::from(app)] = items_pushed_by(books, app).wrapping_sub(handles.taken(app));
    }
    items
}

/// How many calls and claims the ring of an application took of its writers.
fn items_pushed_by(books: &BookList, app: u8) -> u64
    requires { length books.now ≤ 32 }
    ensures value { result ≡ items_pushed_of app books.now }
    ensures range { result ≤ 2 ^ 46 }
{
    let mut pushed = 0u64;
    for place in 0..books.len() {
        let book = books.of(place);
        if book.app() == app {
            pushed += book.pushed();
        }
    }
    pushed
}

/// How many losses wait in the word of each application.
pub fn losses_waiting(handles: &mut DaemonHandles, apps: u8) -> [u64; 16]
    requires there { (apps ≤ 16) × (apps ≤ length handles.old.apps) }
    requires shares { handles.old.losses.shares ≡ all_shares }
    ensures same { handles.new ≡ handles.old }
    ensures each { (app : ℕ) → app < apps → reported_of app handles.new.losses.reported + slice_index result app ≡ counted_of app handles.new.losses.counted }
{
    let mut losses = [0; 16];
    for app in 0..apps {
        losses[usize::from(app)] = handles.pending(app);
    }
    losses
}

/// Looks at the ring, the queue and the claim word of each application.
pub fn look_at_handles(handles: &mut DaemonHandles, apps: u8)
    requires there { (apps ≤ 16) × (apps ≤ length handles.old.apps) }
    requires shares { handles.old.levels.shares ≡ all_shares }
    ensures same { handles.new ≡ handles.old }
    ensures rings { (app : ℕ) → app < apps → (contents : List ring_item) × RingHolds handles.new app contents }
    ensures queues { (app : ℕ) → app < apps → (left : ℕ) × QueueHolds handles.new app left }
    ensures range { (app : ℕ) → app < apps → At handles.new.apps app (λ e. length e.queue.pushed < 2 ^ 64) }
    ensures given { (app : ℕ) → app < apps → (count : ℕ) × AreGiven app count handles.new.levels }
{
    for app in 0..apps {
        handles.look(app);
        handles.given(app);
    }
}
