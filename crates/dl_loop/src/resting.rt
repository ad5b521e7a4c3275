//! The rest of a round in which nothing moved.
//!
//! What a net tells stays as it is while it rests, so no clause over that shows a rest. Here a net is anything that can rest: all that is known of one
//! after a rest is that it rested, and the only call by which it can is `rest_once`.

ghost use Rattle.std.specs.Prelude.{◌≡◌, true, false};

use dl_outside::Net;

/// What can rest.
pub trait Rests {
    /// The second is the first behind one rest.
    ghost has_rested: { Self → Self → Type 0 };

    /// Rests a while, once.
    fn rest_once(&mut self)
        ensures { has_rested self.old self.new };
}

impl<N: Net> Rests for N {
    ghost has_rested = { λ old new. N.told new ≡ N.told old };

    fn rest_once(&mut self) {
        self.rest();
    }
}

/// Rests once where nothing moved, and else doesn't touch the net. Answers whether anything moved.
pub fn rest_if_idle<N: Rests>(net: &mut N, moved: bool) -> bool
    ensures answer { result ≡ moved }
    ensures rests { moved ≡ false → N.has_rested net.old net.new }
    ensures leaves { moved ≡ true → net.new ≡ net.old }
{
    if !moved {
        net.rest_once();
    }
    moved
}
