// The answers of crates/ordered_bytes as hosts have them: the state to go on with stands in each that may change it, refused or not.
// Proved: each conversion is that of specs/Buffer.antt.
ghost use Rattle.std.specs.Prelude.{◌≡◌};
ghost use Rattle.refusal.specs.Said.{says};
ghost use Rattle.ordered_bytes.specs.Calls.{accepted_says, accepted_ack, consumed_says, consumed_bytes_says};
ghost use Rattle.flat.specs.Buffer.{no_buffer, started_of, accepted_of, consumed_of, consumed_bytes_of};

use ordered_bytes::{AcceptError, ConsumeResult, OrderedBytes};
use refusal::Refusal;

#[repr(C)]
#[derive(Clone, Copy, Debug, PartialEq, Eq)]
pub struct Started {
    pub state: OrderedBytes,
    pub refusal: u8,
}

// The ack is refusal 5's: its base and its count are 0 with every other answer.
#[repr(C)]
#[derive(Clone, Copy, Debug, PartialEq, Eq, Default)]
pub struct Accepted {
    pub ack_base: u64,
    pub ack_count: usize,
    pub refusal: u8,
}

#[repr(C)]
#[derive(Clone, Copy, Debug, PartialEq, Eq, Default)]
pub struct Consumed {
    pub state: OrderedBytes,
    pub num_packets_consumed: usize,
    pub base_packet_number: u64,
    pub bytes_consumed: u64,
    pub refusal: u8,
}

#[repr(C)]
#[derive(Clone, Copy, Debug, PartialEq, Eq, Default)]
pub struct ConsumedBytes {
    pub state: OrderedBytes,
    pub num_packets_consumed: usize,
    pub base_packet_number: u64,
    pub bytes_consumed: u64,
    pub pieces: usize,
    pub refusal: u8,
}

impl Started {
    // Of a call that makes a buffer. Where it refuses there is none to go on with, and the state is all 0.
    pub fn created(answer: Result<OrderedBytes, Refusal>) -> Self
        ensures { result ≡ started_of no_buffer (says (λ o. o) answer) }
    {
        Self::new(OrderedBytes::default(), answer)
    }

    // `before` is the state to go on with where the call refuses.
    pub fn new(before: OrderedBytes, answer: Result<OrderedBytes, Refusal>) -> Self
        ensures { result ≡ started_of before (says (λ o. o) answer) }
    {
        match answer {
            Ok(state) => Self { state, refusal: 0 },
            Err(refusal) => Self {
                state: before,
                refusal: refusal.number(),
            },
        }
    }
}

impl From<Result<(), AcceptError>> for Accepted {
    ghost from_gives = { λ answer accepted. accepted ≡ accepted_of (accepted_says answer) (accepted_ack answer) };

    fn from(answer: Result<(), AcceptError>) -> Self {
        match answer {
            Ok(()) => Self::default(),
            Err(AcceptError::Below(ack)) => Self {
                ack_base: ack.base_packet_number,
                ack_count: ack.num_packets_consumed,
                refusal: Refusal::Below.number(),
            },
            Err(AcceptError::Refused(refusal)) => Self {
                refusal: refusal.number(),
                ..Self::default()
            },
        }
    }
}

impl Consumed {
    pub fn new(state: OrderedBytes, answer: Result<ConsumeResult, Refusal>) -> Self
        ensures { result ≡ consumed_of state (consumed_says answer) }
    {
        match answer {
            Ok(given) => Self {
                state,
                num_packets_consumed: given.num_packets_consumed,
                base_packet_number: given.base_packet_number,
                bytes_consumed: given.bytes_consumed,
                refusal: 0,
            },
            Err(refusal) => Self {
                state,
                refusal: refusal.number(),
                ..Self::default()
            },
        }
    }
}

impl ConsumedBytes {
    pub fn new(state: OrderedBytes, answer: Result<(ConsumeResult, usize), Refusal>) -> Self
        ensures { result ≡ consumed_bytes_of state (consumed_bytes_says answer) }
    {
        match answer {
            Ok((given, pieces)) => Self {
                state,
                num_packets_consumed: given.num_packets_consumed,
                base_packet_number: given.base_packet_number,
                bytes_consumed: given.bytes_consumed,
                pieces,
                refusal: 0,
            },
            Err(refusal) => Self {
                state,
                refusal: refusal.number(),
                ..Self::default()
            },
        }
    }
}
