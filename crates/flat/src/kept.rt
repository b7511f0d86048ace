// The answers of crates/outstanding as hosts have them: the store's state to go on with stands in dropping's, refused or not.
// Proved: each conversion is that of specs/Kept.antt.
ghost use Rattle.std.specs.Prelude.{◌≡◌};
ghost use Rattle.refusal.specs.Said.{says};
ghost use Rattle.flat.specs.Kept.{listed_of, dropped_of};

use outstanding::Outstanding;
use refusal::Refusal;

#[repr(C)]
#[derive(Clone, Copy, Debug, PartialEq, Eq, Default)]
pub struct Listed {
    pub packets: usize,
    pub refusal: u8,
}

#[repr(C)]
#[derive(Clone, Copy, Debug, PartialEq, Eq)]
pub struct Dropped {
    pub outstanding: Outstanding,
    pub refusal: u8,
}

impl From<Result<usize, Refusal>> for Listed {
    ghost from_gives = { λ answer listed. listed ≡ listed_of (says (λ n. n) answer) };

    fn from(answer: Result<usize, Refusal>) -> Self {
        match answer {
            Ok(packets) => Self {
                packets,
                refusal: 0,
            },
            Err(refusal) => Self {
                refusal: refusal.number(),
                ..Self::default()
            },
        }
    }
}

impl Dropped {
    pub fn new(outstanding: Outstanding, answer: Result<(), Refusal>) -> Self
        ensures { result ≡ dropped_of outstanding (says (λ u. u) answer) }
    {
        Self {
            outstanding,
            refusal: refusal::refusal_in(answer),
        }
    }
}
