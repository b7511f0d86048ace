// The answers of crates/writer as hosts have them, but for those of acks: the store's state to go on with stands in packing's, refused or not.
// Proved: each conversion is that of specs/Sending.antt.
ghost use Rattle.std.specs.Prelude.{◌≡◌};
ghost use Rattle.refusal.specs.Said.{says};
ghost use Rattle.flat.specs.Sending.{data_packed_of, reserved_of};

use outstanding::Outstanding;
use refusal::Refusal;
use writer::Reservation;

#[repr(C)]
#[derive(Clone, Copy, Debug, PartialEq, Eq, Default)]
pub struct DataPacked {
    pub bytes: usize,
    pub packets: usize,
    pub next_packet_num: u64,
    pub entries_removed: usize,
    pub bytes_cut: usize,
    pub outstanding: Outstanding,
    pub refusal: u8,
}

#[repr(C)]
#[derive(Clone, Copy, Debug, PartialEq, Eq, Default)]
pub struct Reserved {
    pub number: u64,
    pub next_packet_num: u64,
    pub refusal: u8,
}

impl DataPacked {
    pub fn new(outstanding: Outstanding, answer: Result<writer::DataPacked, Refusal>) -> Self
        ensures { result ≡ data_packed_of outstanding (says (λ d. d) answer) }
    {
        match answer {
            Ok(packed) => Self {
                bytes: packed.bytes,
                packets: packed.packets,
                next_packet_num: packed.next_packet_num,
                entries_removed: packed.entries_removed,
                bytes_cut: packed.bytes_cut,
                outstanding,
                refusal: 0,
            },
            Err(refusal) => Self {
                outstanding,
                refusal: refusal.number(),
                ..Self::default()
            },
        }
    }
}

impl From<Result<Reservation, Refusal>> for Reserved {
    ghost from_gives = { λ answer reserved. reserved ≡ reserved_of (says (λ v. (v.number, v.next_packet_num)) answer) };

    fn from(answer: Result<Reservation, Refusal>) -> Self {
        match answer {
            Ok(reservation) => Self {
                number: reservation.number,
                next_packet_num: reservation.next_packet_num,
                refusal: 0,
            },
            Err(refusal) => Self {
                refusal: refusal.number(),
                ..Self::default()
            },
        }
    }
}
