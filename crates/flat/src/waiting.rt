// The answers of crates/rtt as hosts have them: the estimator to go on with stands in a sample's, refused or not.
// Proved: each conversion is that of specs/Waiting.antt.
ghost use Rattle.std.specs.Prelude.{◌≡◌};
ghost use Rattle.refusal.specs.Said.{says};
ghost use Rattle.flat.specs.Waiting.{sampled_of, wait_of};

use refusal::Refusal;
use rtt::RttEstimator;

#[repr(C)]
#[derive(Clone, Copy, Debug, PartialEq, Eq)]
pub struct Sampled {
    pub estimator: RttEstimator,
    pub refusal: u8,
}

#[repr(C)]
#[derive(Clone, Copy, Debug, PartialEq, Eq, Default)]
pub struct Wait {
    pub micros: u64,
    pub refusal: u8,
}

impl Sampled {
    pub fn new(estimator: RttEstimator, answer: Result<(), Refusal>) -> Self
        ensures { result ≡ sampled_of (says (λ x. x) answer, estimator) }
    {
        Self {
            estimator,
            refusal: refusal::refusal_in(answer),
        }
    }
}

impl From<Result<u64, Refusal>> for Wait {
    ghost from_gives = { λ answer w. w ≡ wait_of (says (λ n. n) answer) };

    fn from(answer: Result<u64, Refusal>) -> Self {
        match answer {
            Ok(micros) => Self { micros, refusal: 0 },
            Err(refusal) => Self {
                refusal: refusal.number(),
                ..Self::default()
            },
        }
    }
}
