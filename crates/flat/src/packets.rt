// The answers of crates/packet as hosts have them.
// Proved: each conversion is that of specs/Packets.antt. Where bytes are written, the answer is one of headers.rt.
ghost use Rattle.std.specs.Prelude.{◌≡◌};
ghost use Rattle.refusal.specs.Said.{read_says};
ghost use Rattle.flat.specs.Packets.{parsed_of, indexed_of};

use packet::Indexed;
use refusal::ReadError;

// `packets` is how many stand in the index, refused or not.
#[repr(C)]
#[derive(Clone, Copy, Debug, PartialEq, Eq, Default)]
pub struct Parsed {
    pub packets: usize,
    pub cursor: usize,
    pub refusal: u8,
}

// Of a call that leaves the index as it was where it refuses.
impl From<Result<usize, ReadError>> for Parsed {
    ghost from_gives = { λ answer p. p ≡ parsed_of (read_says (λ n. n) answer) };

    fn from(answer: Result<usize, ReadError>) -> Self {
        match answer {
            Ok(packets) => Self {
                packets,
                ..Self::default()
            },
            Err(error) => Self {
                cursor: error.cursor.unwrap_or(0),
                refusal: error.refusal.number(),
                ..Self::default()
            },
        }
    }
}

// Of a call that keeps the packets before a refusal.
impl From<Indexed> for Parsed {
    ghost from_gives = { λ indexed p. p ≡ indexed_of (read_says (λ n. n) indexed.answer) indexed.cells };

    fn from(indexed: Indexed) -> Self {
        Self {
            packets: indexed.cells,
            ..indexed.answer.into()
        }
    }
}
