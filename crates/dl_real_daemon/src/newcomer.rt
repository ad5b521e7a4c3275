//! A connection that has just come, of which nobody knows yet whether it stays.

use crate::answers::is_pause;
use crate::known::Known;
use std::net::TcpStream;
use std::time::{Clock, Duration};

/// For how many milliseconds a connection is looked at that sends nothing.
const TRIAL: u64 = 50;

/// What a connection shows that has just come.
#[derive(Clone, Copy, PartialEq, Eq)]
pub enum FirstSign {
    /// It has sent something, or has stayed for long enough.
    Stays,
    /// It is over, or has failed.
    Gone,
    /// Neither yet.
    Nothing,
}

/// A connection that has just come.
#[derive(Drop)]
pub struct Newcomer {
    pub stream: TcpStream,
    pub known: Known,
    // when it came, by the monotonic clock
    came: Duration,
}

/// The time by the monotonic clock. A clock that can't be read stands at 0.
fn now<R: Clock>(rt: &R) -> Duration {
    rt.monotonic().unwrap_or(Duration::ZERO)
}

impl Newcomer {
    /// One that came now.
    pub fn over<R: Clock>(rt: &R, stream: TcpStream, known: Known) -> Newcomer {
        Newcomer {
            stream,
            known,
            came: now(rt),
        }
    }

    /// Whether it has been here for long enough, though it sent nothing.
    fn has_stayed<R: Clock>(&self, rt: &R) -> bool {
        now(rt).saturating_sub(self.came) >= Duration::from_millis(TRIAL)
    }

    /// What it shows now. What it has sent stays to be read.
    pub fn shows<R: Clock>(&self, rt: &R) -> FirstSign {
        let mut first = [0; 1];
        match self.stream.peek(&mut first) {
            Ok(0) => FirstSign::Gone,
            Ok(_) => FirstSign::Stays,
            Err(error) if is_pause(&error) => {
                if self.has_stayed(rt) {
                    FirstSign::Stays
                } else {
                    FirstSign::Nothing
                }
            }
            Err(_) => FirstSign::Gone,
        }
    }
}
