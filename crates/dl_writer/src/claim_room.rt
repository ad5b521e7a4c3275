//! Room for the claims of a writer.

ghost use Rattle.std.specs.Prelude.{◌≡◌, ◌<◌, ◌≤◌, ◌++◌, ◌∷◌, [], List, length, IfOk, IfSome, IfNone};
ghost use Rattle.dl_bytes.specs.Claim.{Claimed};

use dl_bytes::{CONTEXT_LIMIT, Claim, OutOfMemory};
use std::alloc::Global;
use std::marker::Model;

/// At most 64 claims, in order: as many as an application has places. All memory for them is taken when it is made.
#[derive(Drop)]
pub struct ClaimRoom {
    claims: Vec<Claim>,
}

impl Model for ClaimRoom {
    ghost use Rattle.std.specs.Prelude.{List, ◌≤◌, vec_len, vec_capacity};
    ghost use Rattle.dl_bytes.specs.Claim.{Claimed};

    ghost Value = { List Claimed };

    ghost view = { λ r. r.claims.items };

    ghost invariant = { λ r. (vec_len r.claims ≤ 64) × (64 ≤ vec_capacity r.claims) };
}

impl ClaimRoom {
    /// No claim, and room for 64.
    pub fn make(alloc: Global) -> Result<ClaimRoom, OutOfMemory>
        ensures { IfOk result (λ room. room ≡ []) }
    {
        let claims = Vec::with_capacity(alloc, CONTEXT_LIMIT)?;
        Ok(ClaimRoom { claims })
    }

    /// Its claims, in order.
    pub fn all(&self) -> &[Claim]
        ensures value { result.now ≡ self.now }
        ensures range { length self.now ≤ 64 }
    {
        &self.claims
    }

    /// How many they are.
    pub fn len(&self) -> u8
        ensures value { result ≡ length self.now }
        ensures range { result ≤ 64 }
    {
        self.claims.len() as u8
    }

    /// The claims as a list.
    pub fn into_list(self) -> Vec<Claim>
        ensures { result.items ≡ self }
    {
        self.claims
    }
}

impl ClaimRoom {
    // The first claim once more, if there is one.
    pub(crate) fn first(&self) -> Option<Claim>
        ensures first { IfSome result (λ claim. (left : List Claimed) × (self.now ≡ claim ∷ left)) }
        ensures none { IfNone result (self.now ≡ []) }
    {
        Some(self.claims.first()?.copy())
    }

    // Adds a claim behind the others.
    pub(crate) fn add(&mut self, claim: Claim)
        requires { length self.old < 64 }
        ensures { self.new ≡ self.old ++ claim ∷ [] }
    {
        self.claims.push(claim).unwrap();
    }

    // Takes the first claim out.
    pub(crate) fn take_first(&mut self) -> Claim
        requires { 0 < length self.old }
        ensures { self.old ≡ result ∷ self.new }
    {
        self.claims.remove(0)
    }
}
