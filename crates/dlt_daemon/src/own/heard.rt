//! The levels that the daemon tells its own program.

/// How many bytes a message has that tells a level.
const LENGTH: usize = 14;

/// What such a message begins with: the marker, version 1, and kind 6.
const FRONT: &[u8] = b"DUH\x01\x06\0\0\0";

/// A level that was told.
#[derive(Clone, Copy)]
pub struct Told {
    /// The context's place.
    pub place: usize,
    /// The level.
    pub level: u8,
}

/// The bytes of a message that isn't whole yet.
#[derive(Clone, Copy)]
pub struct Heard {
    bytes: [u8; LENGTH],
    len: usize,
}

impl Heard {
    /// Nothing came yet.
    pub fn nothing() -> Heard {
        Heard {
            bytes: [0; LENGTH],
            len: 0,
        }
    }

    /// What a whole message tells, where it tells a level.
    fn told(&self) -> Option<Told> {
        if !self.bytes.starts_with(FRONT) {
            return None;
        }
        let [_, _, _, _, _, _, _, _, level, _, a, b, c, d] = self.bytes;
        Some(Told {
            place: u32::from_le_bytes([a, b, c, d]) as usize,
            level,
        })
    }

    /// One byte more. Answers the level that it makes whole.
    pub fn take(&mut self, byte: u8) -> Option<Told> {
        if let Some(place) = self.bytes.get_mut(self.len) {
            *place = byte;
        }
        self.len = self.len.saturating_add(1);
        if self.len < LENGTH {
            return None;
        }
        self.len = 0;
        self.told()
    }
}
