// The answers of crates/ring_buffer, and of packing acks, as hosts have them: each beside the ring to go on with, which is the view's after the call.
// Proved: each conversion is that of specs/Ring.antt.
ghost use Rattle.std.specs.Prelude.{◌≡◌};
ghost use Rattle.refusal.specs.Said.{says};
ghost use Rattle.ring_buffer.specs.Views.{given_back};
ghost use Rattle.flat.specs.Ring.{pushed_of, popped_of, cleared_of, acks_of};

use refusal::Refusal;
use ring_buffer::{AckData, RingBuffer};
use writer::acks;

#[repr(C)]
#[derive(Clone, Copy, Debug, PartialEq, Eq, Default)]
pub struct Pushed {
    pub ring: RingBuffer,
    pub given_back: AckData,
    pub full: bool,
    pub refusal: u8,
}

#[repr(C)]
#[derive(Clone, Copy, Debug, PartialEq, Eq, Default)]
pub struct Popped {
    pub ring: RingBuffer,
    pub ack: AckData,
    pub refusal: u8,
}

#[repr(C)]
#[derive(Clone, Copy, Debug, PartialEq, Eq)]
pub struct Cleared {
    pub ring: RingBuffer,
    pub refusal: u8,
}

#[repr(C)]
#[derive(Clone, Copy, Debug, PartialEq, Eq, Default)]
pub struct AcksPacked {
    pub ring: RingBuffer,
    pub acks: usize,
    pub to_send: bool,
    pub refusal: u8,
}

impl Pushed {
    pub fn new(ring: RingBuffer, answer: Result<Option<AckData>, Refusal>) -> Self
        ensures { result ≡ pushed_of ring (says given_back answer) }
    {
        match answer {
            Ok(None) => Self {
                ring,
                ..Self::default()
            },
            Ok(Some(a)) => Self {
                ring,
                given_back: a,
                full: true,
                refusal: 0,
            },
            Err(refusal) => Self {
                ring,
                refusal: refusal.number(),
                ..Self::default()
            },
        }
    }
}

impl Popped {
    // Of a record popped, or only looked at: then the ring is the one that came in.
    pub fn new(ring: RingBuffer, answer: Result<AckData, Refusal>) -> Self
        ensures { result ≡ popped_of ring (says (λ a. a) answer) }
    {
        match answer {
            Ok(ack) => Self {
                ring,
                ack,
                refusal: 0,
            },
            Err(refusal) => Self {
                ring,
                refusal: refusal.number(),
                ..Self::default()
            },
        }
    }
}

impl Cleared {
    pub fn new(ring: RingBuffer, answer: Result<(), Refusal>) -> Self
        ensures { result ≡ cleared_of ring (says (λ u. u) answer) }
    {
        Self {
            ring,
            refusal: refusal::refusal_in(answer),
        }
    }
}

impl AcksPacked {
    pub fn new(ring: RingBuffer, answer: Result<acks::AcksPacked, Refusal>) -> Self
        ensures { result ≡ acks_of ring (says (λ p. p) answer) }
    {
        match answer {
            Ok(packed) => Self {
                ring,
                acks: packed.acks,
                to_send: packed.to_send,
                refusal: 0,
            },
            Err(refusal) => Self {
                ring,
                refusal: refusal.number(),
                ..Self::default()
            },
        }
    }
}
