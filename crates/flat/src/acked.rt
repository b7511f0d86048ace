// The answers of crates/window as hosts have them: the window to go on with stands in each, refused or not.
// Proved: each conversion is that of specs/Acked.antt.
ghost use Rattle.std.specs.Prelude.{◌≡◌};
ghost use Rattle.refusal.specs.Said.{says};
ghost use Rattle.window.specs.View.{run_in};
ghost use Rattle.flat.specs.Acked.{inserted_of, run_of};

use refusal::Refusal;
use window::SlidingWindow;

#[repr(C)]
#[derive(Clone, Copy, Debug, PartialEq, Eq)]
pub struct Inserted {
    pub window: SlidingWindow,
    pub refusal: u8,
}

impl Inserted {
    pub fn new(window: SlidingWindow, answer: Result<(), Refusal>) -> Self
        ensures { result ≡ inserted_of (says (λ x. x) answer) window }
    {
        Self {
            window,
            refusal: refusal::refusal_in(answer),
        }
    }
}

// A length of 0 says that the smallest expected number is absent.
#[repr(C)]
#[derive(Clone, Copy, Debug, PartialEq, Eq, Default)]
pub struct Run {
    pub window: SlidingWindow,
    pub last: u64,
    pub length: u64,
    pub refusal: u8,
}

impl Run {
    pub fn new(window: SlidingWindow, answer: Result<Option<window::Run>, Refusal>) -> Self
        ensures { result ≡ run_of (says run_in answer) window }
    {
        match answer {
            Ok(Some(window::Run { last, length })) => Self {
                window,
                last,
                length,
                refusal: 0,
            },
            Ok(None) => Self {
                window,
                ..Self::default()
            },
            Err(refusal) => Self {
                window,
                refusal: refusal.number(),
                ..Self::default()
            },
        }
    }
}
