//! The handle of a context that a program logs under.

ghost use Rattle.std.specs.Prelude.{◌≡◌, ◌<◌};
ghost use Rattle.dl_bytes.specs.Context.{slot_of};

use crate::id::Id;
use std::marker::Model;

/// A context of an application: their numbers and their ids.
#[derive(Clone, Copy)]
pub struct Ctx {
    app: u8,
    place: u8,
    apid: Id,
    ctid: Id,
}

impl Model for Ctx {
    ghost use Rattle.std.specs.Prelude.{◌<◌};
    ghost use Rattle.dl_bytes.specs.Context.{Context};

    ghost Value = { Context };

    ghost view = { λ c. record { app = c.app; place = c.place; apid = c.apid; ctid = c.ctid } };

    ghost invariant = { λ c. (c.app < 16) × (c.place < 64) };

    ghost inverse = { λ v. record { app = v.app; place = v.place; apid = v.apid; ctid = v.ctid } };
}

impl Ctx {
    /// The context at this place of this application.
    pub fn of(app: u8, place: u8, apid: Id, ctid: Id) -> Ctx
        requires app { app < 16 }
        requires place { place < 64 }
        ensures { result ≡ record { app = app; place = place; apid = apid; ctid = ctid } }
    {
        Ctx {
            app,
            place,
            apid,
            ctid,
        }
    }

    /// The application's number, 0 to 15.
    pub fn app(&self) -> u8
        ensures value { result ≡ self.now.app }
        ensures range { result < 16 }
    {
        self.app
    }

    /// Its place among the application's contexts, 0 to 63.
    pub fn place(&self) -> u8
        ensures value { result ≡ self.now.place }
        ensures range { result < 64 }
    {
        self.place
    }

    /// Its slot among those of all applications: 64 to each of them, in the order of their numbers.
    pub fn slot(&self) -> u16
        ensures value { result ≡ slot_of self.now }
        ensures range { result < 1024 }
    {
        64 * u16::from(self.app) + u16::from(self.place)
    }

    /// The application's id.
    pub fn apid(&self) -> Id
        ensures { result ≡ self.now.apid }
    {
        self.apid
    }

    /// The context's id.
    pub fn ctid(&self) -> Id
        ensures { result ≡ self.now.ctid }
    {
        self.ctid
    }
}
