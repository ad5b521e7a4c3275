//! What a client over TCP does in its thread.

use dl_real::{read_once, write_whole};
use std::io::Read;
use std::net::TcpStream;

/// Reads so many bytes at least, or to the end, and tells how many came.
fn read_on<S: Read>(stream: &mut S, leave: Option<u64>) -> u64 {
    let mut piece = [0; 4096];
    let mut read = 0u64;
    for _ in 0..u64::MAX {
        if leave.is_some_and(|bytes| bytes <= read) {
            break;
        }
        match read_once(stream, &mut piece) {
            Ok(n) if n > 0 => read = read.saturating_add(n as u64),
            _ => break,
        }
    }
    read
}

/// Sends the client's bytes, and reads until it leaves. Where the connection fails, the client has ended. It tells how
/// many bytes it read.
pub fn attend(mut stream: TcpStream, sends: Vec<u8>, leave: Option<u64>) -> u64 {
    match write_whole(&mut stream, &sends) {
        Ok(()) => read_on(&mut stream, leave),
        Err(_) => 0,
    }
}
