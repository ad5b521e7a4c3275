//! The address to listen on, from the environment.

ghost use Rattle.std.specs.Prelude.{◌≡◌, IfErr, IfOk};
ghost use Rattle.std.specs.Net.Grammar.{IsIpText};

use std::env;
use std::env::VarError;
use std::net::{IpAddr, Ipv4Addr};
use std::rt::Env;

/// The word of the environment that has the address to listen on.
pub const BIND_ADDRESS: &str = "DLT_BIND_ADDRESS";

/// The word of the environment that has the address to listen on for external applications.
pub const USERS_ADDRESS: &str = "DLT_USERS_ADDRESS";

/// Why there is no address to listen on.
#[derive(Clone, Copy, Debug, PartialEq, Eq)]
pub enum BindFault {
    /// The text is no IPv4 or IPv6 address.
    NoAddress,
    /// Memory ran out.
    OutOfMemory,
}

/// The address that a text stands for.
fn address_of(text: &str) -> Result<IpAddr, BindFault>
    ensures address { IfOk result (λ address. IsIpText text.now address) }
    ensures none { IfErr result (λ fault. (fault ≡ BindFault.NoAddress) × ((address : _) → ¬ IsIpText text.now address)) }
{
    match text.parse::<IpAddr>() {
        Ok(address) => Ok(address),
        Err(_) => Err(BindFault::NoAddress),
    }
}

/// The address that a word of the environment gives, or loopback where it gives none.
fn address_in<R: Env + AllocGlobal>(rt: &R, word: &str) -> Result<IpAddr, BindFault> {
    match env::var(rt, word) {
        Ok(text) => address_of(text.as_str()),
        Err(VarError::NotPresent) => Ok(IpAddr::V4(Ipv4Addr::LOCALHOST)),
        Err(VarError::NotUnicode) => Err(BindFault::NoAddress),
        Err(VarError::OutOfMemory) => Err(BindFault::OutOfMemory),
    }
}

/// The address to listen on: the one that the environment gives, or loopback where it gives none.
pub fn bind_address<R: Env + AllocGlobal>(rt: &R) -> Result<IpAddr, BindFault> {
    address_in(rt, BIND_ADDRESS)
}

/// The same for external applications.
pub fn users_address<R: Env + AllocGlobal>(rt: &R) -> Result<IpAddr, BindFault> {
    address_in(rt, USERS_ADDRESS)
}
