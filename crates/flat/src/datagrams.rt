// The answers of crates/receive as hosts have them.
// Proved: each conversion is that of specs/Datagrams.antt.
ghost use Rattle.std.specs.Prelude.{◌≡◌};
ghost use Rattle.refusal.specs.Said.{read_says};
ghost use Rattle.flat.specs.Datagrams.{acks_received_of};

use crate::packets::Parsed;
use packet::Indexed;
use window::SlidingWindow;

#[repr(C)]
#[derive(Clone, Copy, Debug, PartialEq, Eq)]
pub struct AcksReceived {
    pub window: SlidingWindow,
    pub packets: usize,
    pub cursor: usize,
    pub refusal: u8,
}

impl AcksReceived {
    pub fn new(window: SlidingWindow, received: Indexed) -> Self
        ensures { result ≡ acks_received_of window (read_says (λ n. n) received.answer) received.cells }
    {
        let Parsed {
            packets,
            cursor,
            refusal,
        } = Parsed::from(received);
        Self {
            window,
            packets,
            cursor,
            refusal,
        }
    }
}
