//! The standard descriptors.
use libc::net::{POLLNVAL, poll};
use libc::types::pollfd;

/// What holds the place of a standard descriptor that was closed.
const NOTHING: &[u8] = b"/dev/null";

/// Has the numbers of the standard input, output and error be no other's. Each that was closed at the start is `/dev/null`
/// from then on, to be read alone: so what is written there fails, as it would to a closed one. It comes before anything is
/// opened, and is called once.
/// Source: the library reference, `sys.stdin`; `Python/pylifecycle.c`, `init_sys_streams`.
pub fn hold_standard() {
    for number in 0..3 {
        if is_closed(number) {
            // The lowest number that is free is this one. It is never closed.
            let _held = os::open_read(NOTHING);
        }
    }
}

// Whether no descriptor has this number.
fn is_closed(number: i32) -> bool {
    let mut asked = [pollfd {
        fd: number,
        events: 0,
        revents: 0,
    }];
    poll(&mut asked, 0) > 0 && asked[0].revents & POLLNVAL != 0
}
