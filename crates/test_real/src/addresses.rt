//! The address to listen on, as the environment has it.

use dl_real_daemon::{BIND_ADDRESS, BindFault, bind_address};
use std::alloc::Global;
use std::env::FillError;
use std::net::{IpAddr, Ipv4Addr, Ipv6Addr};
use std::rt::Env;

/// An environment with one word or none.
#[derive(Drop)]
struct Word<'a> {
    text: Option<&'a str>,
}

impl Env for Word<'_> {
    fn arg(&self, _i: usize, _buf: &mut [u8]) -> Result<usize, FillError> {
        Err(FillError::NotPresent)
    }

    fn var(&self, name: &str, buf: &mut [u8]) -> Result<usize, FillError> {
        let Some(text) = self.text else {
            return Err(FillError::NotPresent);
        };
        if name != BIND_ADDRESS {
            return Err(FillError::NotPresent);
        }
        let bytes = text.as_bytes();
        if bytes.len() > buf.len() {
            return Err(FillError::TooLong);
        }
        buf[..bytes.len()].copy_from_slice(bytes);
        Ok(bytes.len())
    }

    fn var_at(&self, _i: usize, _buf: &mut [u8]) -> Result<usize, FillError> {
        Err(FillError::NotPresent)
    }
}

const LOOPBACK: IpAddr = IpAddr::V4(Ipv4Addr::LOCALHOST);

/// A word of the environment, or none, and the address that it says.
type Row = (Option<&'static str>, Result<IpAddr, BindFault>);

const ROWS: [Row; 8] = [
    (None, Ok(LOOPBACK)),
    (Some("127.0.0.1"), Ok(LOOPBACK)),
    (Some("0.0.0.0"), Ok(IpAddr::V4(Ipv4Addr::UNSPECIFIED))),
    (Some("::1"), Ok(IpAddr::V6(Ipv6Addr::LOCALHOST))),
    (Some("localhost"), Err(BindFault::NoAddress)),
    (Some("127.0.0.1:3490"), Err(BindFault::NoAddress)),
    (Some("127.0.0"), Err(BindFault::NoAddress)),
    (Some(""), Err(BindFault::NoAddress)),
];

/// The address that a word says.
fn address(alloc: Global, text: Option<&str>) -> Result<IpAddr, BindFault> {
    bind_address(&(Word { text }, alloc))
}

/// The place of the first of these that says another one.
fn other(alloc: Global, rows: &[Row]) -> Option<usize> {
    for (place, (text, wanted)) in rows.iter().enumerate() {
        if address(alloc, *text) != *wanted {
            return Some(place);
        }
    }
    None
}

#[test]
fn addresses(rt: HostRuntime) {
    assert!(rt; other(rt.alloc(), &ROWS).is_none());
}
