//! Connections whose other end has gone without a word: a cable that was pulled, a machine that was switched off.

ghost use Rattle.libc.specs.Net.{SockOption};

use libc::net::{
    IPPROTO_TCP, SO_KEEPALIVE, SOL_SOCKET, TCP_KEEPCNT, TCP_KEEPIDLE, TCP_KEEPINTVL,
    TCP_USER_TIMEOUT, setsockopt,
};

/// After how many seconds of silence the system asks the other end for the first time.
const SILENCE: i32 = 15;

/// How many seconds it waits before it asks again.
const INTERVAL: i32 = 5;

/// After how many questions without an answer the connection is broken.
const QUESTIONS: i32 = 3;

/// How many milliseconds bytes that were sent may stay unacknowledged before the connection is broken.
const PATIENCE: i32 = 30_000;

/// Has the system break this socket's connection where the other end has answered nothing for half a minute. Where the system refuses that, such a
/// connection stays as long as it would have.
pub fn keep_alive(fd: i32) {
    set(fd, SOL_SOCKET, SO_KEEPALIVE, 1);
    set(fd, IPPROTO_TCP, TCP_KEEPIDLE, SILENCE);
    set(fd, IPPROTO_TCP, TCP_KEEPINTVL, INTERVAL);
    set(fd, IPPROTO_TCP, TCP_KEEPCNT, QUESTIONS);
    set(fd, IPPROTO_TCP, TCP_USER_TIMEOUT, PATIENCE);
}

/// Sets an option of a socket.
fn set(fd: i32, level: i32, name: i32, value: i32)
    requires { SockOption level name }
{
    let mut bytes = [0; 16];
    bytes[..4].copy_from_slice(&value.to_ne_bytes());
    // The kernel reads the four bytes and keeps none of them.
    let _ = unsafe { setsockopt(fd, level, name, &bytes, 4) };
}
