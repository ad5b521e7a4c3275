//! The claims that the rings of a run took.

ghost use Rattle.std.specs.Prelude.{◌≡◌, ◌<◌, ◌≤◌, ◌-◌, ◌++◌, ◌∷◌, [], Some, length, slice_get};

use arrayvec::ArrayVec;
use dl_bytes::{Claim, Sequence};
use std::marker::Model;

/// The claims of at most 32 writers, by the writers' numbers. It takes no memory beside the lists that it is given.
#[derive(Drop)]
pub struct ClaimList {
    writers: ArrayVec<Option<Sequence<Claim>>, 32>,
}

impl Model for ClaimList {
    ghost use Rattle.std.specs.Prelude.{List, ◌≡◌, map, Some};
    ghost use Rattle.dl_bytes.specs.Claim.{Claimed};
    ghost use Rattle.dl_events.specs.Records.{given};

    ghost Value = { List (List Claimed) };

    ghost view = { λ c. given c.writers.items };

    ghost invariant = { λ c. c.writers.items ≡ map Some (given c.writers.items) };
}

impl ClaimList {
    /// No writer's claims.
    pub fn none() -> ClaimList
        ensures { result ≡ [] }
    {
        ClaimList {
            writers: ArrayVec::new(),
        }
    }

    /// Adds the claims of the next writer, in the order in which its ring took them.
    pub fn add(&mut self, claims: Vec<Claim>)
        requires { length self.old < 32 }
        ensures { self.new ≡ self.old ++ claims.items ∷ [] }
    {
        self.writers.try_push(Some(Sequence::over(claims))).unwrap();
    }

    /// How many writers there are.
    pub fn writers(&self) -> u8
        ensures { result ≡ length self.now }
    {
        self.writers.len() as u8
    }

    /// The claims of one writer, from 1.
    pub fn of(&self, writer: u8) -> &[Claim]
        requires first { 1 ≤ writer }
        requires known { writer ≤ length self.now }
        ensures { slice_get self.now (writer - 1) ≡ Some result.now }
    {
        match &self.writers[writer as usize - 1] {
            Some(claims) => claims.all(),
            None => &[],
        }
    }
}
