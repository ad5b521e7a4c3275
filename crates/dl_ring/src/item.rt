//! What lies in a ring: a log call, or a writer's claim on a context.

ghost use Rattle.std.specs.Prelude.{◌≡◌, false, Some};
ghost use Rattle.dl_ring.specs.Items.{took, is_call};

use crate::call::Call;
use dl_bytes::{Claim, Item};

/// One push of a writer, as it lies in a ring.
#[derive(Drop)]
pub enum RingItem {
    /// A log call.
    Log(Item),
    /// A claim on a context.
    Register(Claim),
}

/// What a take gave, where a call is copied into an item of the caller's.
#[derive(Drop)]
pub enum Taken {
    /// A log call, which is in the caller's item.
    Call,
    /// A claim.
    Claim(Claim),
    /// The ring was empty.
    Nothing,
}

impl RingItem {
    /// The same once more: its bytes are copied, with no memory taken.
    pub fn copy(&self) -> RingItem
        ensures { result ≡ self.now }
    {
        match self {
            RingItem::Log(item) => RingItem::Log(item.copy()),
            RingItem::Register(claim) => RingItem::Register(claim.copy()),
        }
    }

    /// Copies a call into the caller's item, once; a claim comes in the answer, and the caller's item stays.
    pub fn copy_into(&self, item: &mut Item) -> Taken
        ensures took { took result item.new ≡ Some self.now }
        ensures kept { is_call result ≡ false → item.new ≡ item.old }
    {
        match self {
            RingItem::Log(call) => {
                Call::of(call).fill(item, &call.payload);
                Taken::Call
            }
            RingItem::Register(claim) => Taken::Claim(claim.copy()),
        }
    }
}
