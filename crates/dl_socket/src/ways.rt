//! The ways that levels take to the programs that have their contexts.

ghost use Rattle.std.specs.Prelude.{◌≡◌, ◌<◌};
ghost use Rattle.dl_socket.specs.Ways.{way_of};

use dl_registry::Registry;

/// Whom the level of a slot is told.
#[derive(Clone, Copy, PartialEq, Eq)]
pub struct Way {
    /// The channel of the application that has the slot.
    pub channel: u16,
    /// The position of the context in its program's own table.
    pub position: u32,
}

/// The way of a slot, where it has a context.
pub fn way_in(registry: &Registry, slot: u16) -> Option<Way>
    requires { slot < 1024 }
    ensures { result ≡ way_of registry.now.registry slot }
{
    let _filtered = registry.effective(slot)?;
    let channel = registry.channel_of((slot / 64) as u8)?;
    let position = registry.position(slot)?;
    Some(Way { channel, position })
}
