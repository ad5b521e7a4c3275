//! Clients are launched in order.

ghost use Rattle.std.specs.Prelude.{◌<◌, ◌^◌, IfOk, OnErr, length};
ghost use Rattle.dl_launch.specs.Launching.{Launched, LaunchedFront};

use dl_bytes::OutOfMemory;
use dl_outside::{ClientScript, Net, NetFault};

/// Launches these clients, one after the other, and tells how many were started. One at which the net fails is left out. Where
/// memory runs out, those before were launched, and no more are.
pub fn launch_all<N: Net>(net: &mut N, scripts: &[ClientScript]) -> Result<u32, OutOfMemory>
    requires { length scripts.now < 2 ^ 32 }
    ensures all { IfOk result (Launched scripts.now (N.told net.old) (N.told net.new)) }
    ensures front { OnErr result (LaunchedFront scripts.now (N.told net.old) (N.told net.new)) }
{
    let mut started = 0;
    for script in scripts {
        match net.launch(script) {
            Ok(()) => started += 1,
            Err(NetFault::Failed) => {}
            Err(NetFault::OutOfMemory) => return Err(OutOfMemory),
        }
    }
    Ok(started)
}
