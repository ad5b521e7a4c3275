//! How many injections wait for each application. What they hold nobody sees in a script.

ghost use Rattle.std.specs.Prelude.{◌≡◌, ◌<◌, ℕ, [], List, slice_index};
ghost use Rattle.dl_script_model.specs.Marks as marks;
ghost use Rattle.dl_script_model.specs.Marks.{Mark, Injected, Handed};
ghost use Rattle.dl_script_model.specs.Steps.{just};
ghost use Rattle.dl_world_calls.specs.Injections.{AreAfter, Counts};

use dl_bytes::APP_LIMIT;
use std::marker::Model;

/// How many injections wait for each of 16 applications, by their numbers.
#[derive(Drop)]
pub struct Injections {
    waiting: [u8; 16],
}

impl Model for Injections {
    ghost use Rattle.std.specs.Prelude.{List, ℕ};

    ghost Value = { List ℕ };

    ghost view = { λ i. i.waiting };
}

impl Injections {
    /// None waits.
    pub fn none() -> Injections
        ensures { AreAfter [] result }
    {
        Injections {
            waiting: [0; APP_LIMIT],
        }
    }

    /// How many wait for an application.
    pub fn waiting(&self, app: u8) -> u8
        requires { app < 16 }
        ensures value { result ≡ slice_index self.now app }
        ensures tells { (done : List Mark) → AreAfter done self.now → result ≡ marks.injections app done }
    {
        self.waiting[app as usize]
    }

    /// One comes for an application.
    pub fn come(&mut self, app: u8)
        requires known { app < 16 }
        requires few { slice_index self.old app < 255 }
        ensures { Counts (just (Injected app)) self.old self.new }
    {
        self.waiting[app as usize] += 1;
    }

    /// An application takes the first that waits for it.
    pub fn go(&mut self, app: u8)
        requires known { app < 16 }
        requires some { 0 < slice_index self.old app }
        ensures { Counts (just (Handed app)) self.old self.new }
    {
        self.waiting[app as usize] -= 1;
    }
}
