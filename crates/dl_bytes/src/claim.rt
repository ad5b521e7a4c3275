//! A context that a writer claims while the daemon runs.

ghost use Rattle.std.specs.Prelude.{◌≡◌, ◌≢◌, ◌<◌, ◌≤◌, length};
ghost use Rattle.std.specs.Option.{SomeIff};
ghost use Rattle.dl_bytes.specs.Claim.{Claimed};
ghost use Rattle.dl_bytes.specs.Id.{zero_id};

use crate::id::Id;
use crate::level::OwnLevel;
use std::marker::Model;

/// The description of a context that is claimed, kept in place.
#[derive(Drop)]
pub struct ClaimText {
    bytes: [u8; 48],
    len: u8,
}

impl Model for ClaimText {
    ghost use Rattle.std.specs.Prelude.{List, ℕ, ◌≤◌, take};

    ghost Value = { List ℕ };

    ghost view = { λ t. take t.len t.bytes };

    ghost invariant = { λ t. t.len ≤ 48 };
}

impl ClaimText {
    /// The description of these bytes; none where they are more than 48. No memory is taken.
    pub fn of(bytes: &[u8]) -> Option<ClaimText>
        ensures { SomeIff result (length bytes.now ≤ 48) bytes.now }
    {
        if bytes.len() > 48 {
            return None;
        }
        let mut text = [0; 48];
        text[..bytes.len()].copy_from_slice(bytes);
        Some(ClaimText {
            bytes: text,
            len: bytes.len() as u8,
        })
    }

    /// Its bytes.
    pub fn bytes(&self) -> &[u8]
        ensures value { result.now ≡ self.now }
        ensures limit { length self.now ≤ 48 }
    {
        &self.bytes[..self.len as usize]
    }

    /// The same description once more: the bytes are copied, with no memory taken.
    pub fn copy(&self) -> ClaimText
        ensures { result ≡ self.now }
    {
        ClaimText {
            bytes: self.bytes,
            len: self.len,
        }
    }
}

/// A claim of a writer: the place that it took among its application's contexts, and the context that is to have it.
#[derive(Drop)]
pub struct Claim {
    app: u8,
    writer: u8,
    place: u8,
    ctid: Id,
    level: OwnLevel,
    text: ClaimText,
}

impl Model for Claim {
    ghost use Rattle.std.specs.Prelude.{◌≢◌, ◌<◌};
    ghost use Rattle.dl_bytes.specs.Claim.{Claimed};
    ghost use Rattle.dl_bytes.specs.Id.{zero_id};

    ghost Value = { Claimed };

    ghost view = { λ c. record { app = c.app; writer = c.writer; place = c.place; ctid = c.ctid; level = c.level; text = c.text } };

    ghost invariant = { λ c. (c.place < 64) × (c.ctid ≢ zero_id) };
}

impl Claim {
    /// The claim of this writer on a place of its application, for the context of this id.
    pub fn of(app: u8, writer: u8, place: u8, ctid: Id, level: OwnLevel, text: ClaimText) -> Claim
        requires place { place < 64 }
        requires named { ctid ≢ zero_id }
        ensures { result ≡ record { app = app; writer = writer; place = place; ctid = ctid; level = level; text = text } }
    {
        Claim {
            app,
            writer,
            place,
            ctid,
            level,
            text,
        }
    }

    /// The application's number.
    pub fn app(&self) -> u8
        ensures { result ≡ self.now.app }
    {
        self.app
    }

    /// The writer's number.
    pub fn writer(&self) -> u8
        ensures { result ≡ self.now.writer }
    {
        self.writer
    }

    /// The place among the application's contexts, 0 to 63.
    pub fn place(&self) -> u8
        ensures value { result ≡ self.now.place }
        ensures range { self.now.place < 64 }
    {
        self.place
    }

    /// The context's id, which isn't zero.
    pub fn ctid(&self) -> Id
        ensures value { result ≡ self.now.ctid }
        ensures named { self.now.ctid ≢ zero_id }
    {
        self.ctid
    }

    /// The level that the context asks for; none to follow the default level.
    pub fn level(&self) -> OwnLevel
        ensures { result ≡ self.now.level }
    {
        self.level
    }

    /// The context's description.
    pub fn text(&self) -> &ClaimText
        ensures { result.now ≡ self.now.text }
    {
        &self.text
    }

    /// The same claim once more, with no memory taken.
    pub fn copy(&self) -> Claim
        ensures { result ≡ self.now }
    {
        Claim {
            app: self.app,
            writer: self.writer,
            place: self.place,
            ctid: self.ctid,
            level: self.level,
            text: self.text.copy(),
        }
    }
}
