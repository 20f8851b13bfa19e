//! What the system is asked to do for a connection.

use libc::net as c;
use mio::net::TcpStream;
use std::os::fd::AsRawFd;

/// After how many seconds in which nothing came the system asks the other end whether it is there.
const IDLE: i32 = 30;

/// How many seconds it waits before it asks again.
const INTERVAL: i32 = 10;

/// For how many milliseconds it asks in vain, or sends in vain, until it gives the connection up.
const UNANSWERED: i32 = 60_000;

/// Has the system notice where the other end is gone without a word, as one whose machine lost its power. A
/// read tells of it then.
pub(crate) fn watch_over(stream: &TcpStream) {
    let fd = stream.as_raw_fd();
    let (on, idle) = (value(1), value(IDLE));
    let (interval, unanswered) = (value(INTERVAL), value(UNANSWERED));
    // Where one fails, what the system does by itself stands.
    unsafe {
        c::setsockopt(fd, c::SOL_SOCKET, c::SO_KEEPALIVE, &on, 4);
        c::setsockopt(fd, c::IPPROTO_TCP, c::TCP_KEEPIDLE, &idle, 4);
        c::setsockopt(fd, c::IPPROTO_TCP, c::TCP_KEEPINTVL, &interval, 4);
        c::setsockopt(fd, c::IPPROTO_TCP, c::TCP_USER_TIMEOUT, &unanswered, 4);
    }
}

/// The value of an option that is a number, with room for others.
fn value(number: i32) -> [u8; 16] {
    let mut value = [0u8; 16];
    value[..4].copy_from_slice(&number.to_ne_bytes());
    value
}
