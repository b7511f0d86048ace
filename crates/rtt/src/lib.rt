// How long to wait before sending again: RFC 6298's smoothing of measured round trips, in whole microseconds (document 02, §2). The Rust has none.
// Proved: each call says and leaves what the definition does, for every estimator and every sample. How far a step lies from the RFC's exact one is specs/Exact.antt.
#![tactic(auto)]

ghost use Rattle.std.specs.Prelude.{◌≡◌, true, ◌≤◌};
ghost use Rattle.refusal.specs.Said.{says};
ghost use Rattle.rtt.specs.Rtt.{longest_sample, well_formed, fresh, after, sampling, waiting};

use refusal::Refusal;

const LONGEST_SAMPLE: u64 = 60000000;

const LARGEST_SMOOTHED: u64 = 480000000;

const LARGEST_VARIATION: u64 = 240000000;

// RFC 6298's clock granularity.
const GRANULARITY: u64 = 1000;

const SHORTEST_WAIT: u64 = 1000000;

const LONGEST_WAIT: u64 = 60000000;

const FIRST_WAIT: u64 = 1000000;

// RFC 6298's SRTT in eighths of a microsecond, and its RTTVAR in quarters. That no sample has come needs a mark of its own: a sample of 0 leaves two zeros too,
// and the next one then counts for an eighth.
#[repr(C)]
#[derive(Clone, Copy, Debug, Default, PartialEq, Eq)]
pub struct RttEstimator {
    pub smoothed: u64,
    pub variation: u64,
    pub sampled: bool,
}

impl RttEstimator {
    pub fn new() -> Self
        ensures { result ≡ fresh }
    {
        Self::default()
    }

    fn well_formed(&self) -> bool
        ensures { result ≡ well_formed self.now }
    {
        self.smoothed <= LARGEST_SMOOTHED && self.variation <= LARGEST_VARIATION
    }

    // The error is signed, off the S from before the step; S never falls below 0 by it.
    fn take_sample(&mut self, micros: u64)
        requires well_formed { well_formed self.old ≡ true }
        requires short_enough { micros ≤ longest_sample }
        ensures { self.new ≡ after self.old micros }
    {
        if self.sampled {
            let error = micros as i64 - (self.smoothed / 8) as i64;
            self.smoothed = self.smoothed.strict_add_signed(error);
            self.variation = self.variation + error.unsigned_abs() - self.variation / 4;
        } else {
            *self = Self {
                smoothed: 8 * micros,
                variation: 2 * micros,
                sampled: true,
            };
        }
    }

    // A round trip that took so many microseconds.
    #[tactic(auto, unfolding(crate::specs::Rtt::sampling))]
    pub fn sample(&mut self, micros: u64) -> Result<(), Refusal>
        ensures { (says (λ x. x) result, self.new) ≡ sampling self.old micros }
    {
        if micros > LONGEST_SAMPLE {
            return Err(Refusal::SampleTooLong);
        }
        if !self.well_formed() {
            return Err(Refusal::Malformed);
        }
        self.take_sample(micros);
        Ok(())
    }

    // RFC 6298's RTO.
    #[tactic(auto, unfolding(crate::specs::Rtt::waiting))]
    pub fn wait_time(&self) -> Result<u64, Refusal>
        ensures { says (λ x. x) result ≡ waiting self.now }
    {
        if !self.well_formed() {
            return Err(Refusal::Malformed);
        }
        if !self.sampled {
            return Ok(FIRST_WAIT);
        }
        let wait = self.smoothed / 8 + self.variation.max(GRANULARITY);
        Ok(wait.clamp(SHORTEST_WAIT, LONGEST_WAIT))
    }
}
