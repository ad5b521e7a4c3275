//! A context, as it stands in the registry.

ghost use Rattle.std.specs.Prelude.{◌≡◌, ◌<◌, ◌++◌, ◌∷◌, [], length};

use crate::description::Description;
use arrayvec::ArrayVec;
use dl_bytes::OwnLevel;
use std::marker::Model;

/// A context, as it stands in the registry under its id.
#[derive(Drop)]
pub struct Context {
    /// Its place among those of its application, 0 to 63: the one at which its stay began.
    pub place: u8,
    /// The places that it got by claims since.
    pub further: Places,
    /// The level of its own; without one it follows the default level.
    pub own: OwnLevel,
    /// Its place in its application's own table, as the application told it last.
    pub position: u32,
    /// Its description.
    pub text: Description,
}

/// Places in order, kept in place.
#[derive(Drop)]
pub struct Places {
    places: ArrayVec<u8, 63>,
}

impl Model for Places {
    ghost use Rattle.std.specs.Prelude.{List, ℕ};

    ghost Value = { List ℕ };

    ghost view = { λ p. p.places.items };
}

impl Places {
    /// No place.
    pub fn none() -> Places
        ensures { result ≡ [] }
    {
        Places {
            places: ArrayVec::new(),
        }
    }

    /// All of them.
    pub fn all(&self) -> &[u8]
        ensures { result.now ≡ self.now }
    {
        self.places.as_slice()
    }

    /// Adds one at the end.
    pub fn add(&mut self, place: u8)
        requires { length self.old < 63 }
        ensures { self.new ≡ self.old ++ place ∷ [] }
    {
        self.places.try_push(place).unwrap();
    }
}
