//! Calls that were taken together, and are noted at one moment.

ghost use Rattle.std.specs.Prelude.{◌≡◌, ◌≢◌, ◌<◌, [], length, IfOk};
ghost use Rattle.dl_ring.specs.declared.item.Taken.TheVariants.{Nothing};
ghost use Rattle.dl_taking.specs.Filling.{FillsOne};
ghost use Rattle.dl_taking.specs.Took.{with_empty};

use crate::call_source::CallSource;
use dl_bytes::{BATCH_LIMIT, Id, Item, OutOfMemory, Payload, Severity};
use dl_desk::Taken;
use std::alloc::Global;
use std::marker::Model;
use std::sync::Wait;

/// At most 64 calls. Their memory is taken once, when the batch is made, and a call is copied into it where it is to lie.
#[derive(Drop)]
pub struct Batch {
    // the first ones are the calls, and whatever lies in the others is no call yet
    items: Vec<Item>,
    count: usize,
}

impl Model for Batch {
    ghost use Rattle.std.specs.Prelude.{◌≡◌, ◌≤◌, List, length, take};
    ghost use Rattle.dl_bytes.specs.declared.item.Item.{Item as item_type};

    ghost Value = { List item_type };

    ghost view = { λ b. take b.count b.items.items };

    ghost invariant = { λ b. (length b.items.items ≡ 64) × (b.count ≤ 64) };
}

impl Batch {
    /// A batch without calls.
    pub fn make(alloc: Global) -> Result<Batch, OutOfMemory>
        ensures { IfOk result (λ batch. batch ≡ []) }
    {
        let mut items = Vec::with_capacity(alloc, BATCH_LIMIT)?;
        for _place in 0..BATCH_LIMIT {
            items.push(no_item()).unwrap();
        }
        Ok(Batch { items, count: 0 })
    }

    /// The calls, the first one first.
    pub fn items(&self) -> &[Item]
        ensures { result.now ≡ self.now }
    {
        &self.items[..self.count]
    }

    /// How many there are.
    pub fn len(&self) -> usize
        ensures { result ≡ length self.now }
    {
        self.count
    }

    /// Lets go of all.
    pub fn clear(&mut self)
        ensures { self.new ≡ [] }
    {
        self.count = 0;
    }

    /// Takes the oldest of an application's ring: a call to the end of the batch, as the application's own, and a claim into the answer. Nothing
    /// came only where the ring was found empty.
    pub fn take<R: Wait, D: CallSource>(&mut self, rt: &R, desk: &mut D, app: u8) -> Taken
        requires app { app < length (D.specs desk.old) }
        requires room { length self.old < 64 }
        ensures takes { FillsOne app result (D.took desk.old) (D.took desk.new) self.old self.new }
        ensures full { result ≢ Nothing → D.empties desk.new ≡ D.empties desk.old }
        ensures empty { result ≡ Nothing → D.empties desk.new ≡ with_empty app (D.empties desk.old) }
        ensures given { result ≡ Nothing → D.has_given desk.new app }
        ensures told { D.told desk.new ≡ D.told desk.old }
        ensures rest { D.same_but_taken desk.old desk.new }
    {
        let item = &mut self.items[self.count];
        let taken = desk.take_into(rt, app, item);
        if let Taken::Call = taken {
            item.app = app;
            self.count += 1;
        }
        taken
    }
}

/// What lies where no call was taken to.
fn no_item() -> Item {
    Item {
        app: 0,
        writer: 0,
        severity: Severity::Info,
        mcnt: 0,
        at: 0,
        apid: Id::from_bytes([0; 4]),
        ctid: Id::from_bytes([0; 4]),
        call: 0,
        payload: Payload::new(),
    }
}
