//! How often the outside has failed.

ghost use Rattle.std.specs.Prelude.{◌≡◌};
ghost use Rattle.dl_serve.specs.Faults.{counted};

use dl_outside::{Folder, Net};

/// How often folder and nets have failed.
#[derive(Clone, Copy, Debug, PartialEq, Eq)]
pub struct Faults {
    /// The folder.
    pub folder: u64,
    /// The net of the clients.
    pub net: u64,
    /// The net of the programs.
    pub users: u64,
}

/// What they count now.
pub fn count<F: Folder, N: Net>(folder: &F, net: &N, users: &N) -> Faults
    ensures { result ≡ counted (F.told folder.now) (N.told net.now) (N.told users.now) }
{
    Faults {
        folder: folder.faults(),
        net: net.faults(),
        users: users.faults(),
    }
}
