//! Whether a standard stream takes or gives bytes at once, asked without waiting.

use libc::net::{POLLERR, POLLHUP, POLLIN, POLLOUT, poll};
use libc::types::pollfd;

/// What is there now of the events of a descriptor, without waiting: none where the system doesn't say it.
fn events(fd: i32, wanted: i16) -> i16 {
    let mut asked = [pollfd {
        fd,
        events: wanted,
        revents: 0,
    }];
    if poll(&mut asked, 0) <= 0 {
        return 0;
    }
    asked[0].revents
}

/// Whether a short line may be written to this descriptor at once: there is room for it, and somebody may read it.
pub fn has_room(fd: i32) -> bool {
    let now = events(fd, POLLOUT);
    now & POLLOUT != 0 && now & POLLERR == 0
}

/// Whether a read of this descriptor is answered at once: with bytes, with the end, or with an error.
pub fn has_answer(fd: i32) -> bool {
    events(fd, POLLIN) & (POLLIN | POLLHUP | POLLERR) != 0
}
