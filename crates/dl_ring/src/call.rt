//! A log call without its payload.

ghost use Rattle.std.specs.Prelude.{◌≡◌};
ghost use Rattle.dl_ring.specs.Items.{call_of, item_with};
ghost use Rattle.dl_ring.specs.declared.item.RingItem.TheVariants as ring_item;

use crate::item::RingItem;
use dl_bytes::{Id, Item, Payload, Severity};

/// What a call says of itself beside its payload, as in `Item`.
#[derive(Clone, Copy)]
pub struct Call {
    /// The application's number.
    pub app: u8,
    /// The writer's number.
    pub writer: u8,
    /// How grave it is.
    pub severity: Severity,
    /// The message counter.
    pub mcnt: u8,
    /// The timestamp.
    pub at: u32,
    /// The application's id.
    pub apid: Id,
    /// The context's id.
    pub ctid: Id,
    /// The call's number among those of its writer.
    pub number: u64,
}

impl Call {
    /// The call of an item.
    pub fn of(item: &Item) -> Call
        ensures { result ≡ call_of item.now }
    {
        Call {
            app: item.app,
            writer: item.writer,
            severity: item.severity,
            mcnt: item.mcnt,
            at: item.at,
            apid: item.apid,
            ctid: item.ctid,
            number: item.call,
        }
    }

    /// The call with this payload, whose bytes are copied. Those that the payload doesn't have are blank in the item.
    pub fn item(&self, payload: &Payload) -> Item
        ensures { result ≡ item_with self.now payload.now }
    {
        Item {
            app: self.app,
            writer: self.writer,
            severity: self.severity,
            mcnt: self.mcnt,
            at: self.at,
            apid: self.apid,
            ctid: self.ctid,
            call: self.number,
            payload: Payload::of(payload.bytes(), payload.args()),
        }
    }

    /// Makes an item the call with this payload. The bytes are copied; those that the payload doesn't have stay as they
    /// lie there, unseen.
    pub fn fill(&self, item: &mut Item, payload: &Payload)
        ensures { item.new ≡ item_with self.now payload.now }
    {
        item.app = self.app;
        item.writer = self.writer;
        item.severity = self.severity;
        item.mcnt = self.mcnt;
        item.at = self.at;
        item.apid = self.apid;
        item.ctid = self.ctid;
        item.call = self.number;
        item.payload.clear();
        item.payload.extend_from_slice(payload.bytes());
        for _argument in 0..payload.args() {
            item.payload.count_argument();
        }
    }

    /// Makes what lies in a box the call with this payload. A call that lies there is filled where it lies; only a claim is
    /// replaced by a new item.
    pub(crate) fn fill_box(&self, full: &mut RingItem, payload: &Payload)
        ensures { full.new ≡ ring_item.Log (item_with self.now payload.now) }
    {
        match full {
            RingItem::Log(item) => self.fill(item, payload),
            RingItem::Register(_) => self.replace(full, payload),
        }
    }

    // Puts the call with this payload in the place of a claim. It is a function of its own, so that a push into a box that
    // holds a call has none of its cost.
    #[cold]
    #[inline(never)]
    fn replace(&self, full: &mut RingItem, payload: &Payload)
        ensures { full.new ≡ ring_item.Log (item_with self.now payload.now) }
    {
        *full = RingItem::Log(self.item(payload));
    }
}
