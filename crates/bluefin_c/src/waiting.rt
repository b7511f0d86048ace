// How long to wait before sending again: the trip estimator for hosts. It goes by value.
// Proved: what each call answers is the flat form of the definition in crates/rtt.
ghost use Rattle.std.specs.Prelude.{◌≡◌};
ghost use Rattle.rtt.specs.Rtt.{fresh, sampling, waiting};
ghost use Rattle.flat.specs.Waiting.{sampled_of, wait_of};

use flat::waiting::{Sampled, Wait};
use rtt::RttEstimator;

#[unsafe(no_mangle)]
pub extern "C" fn bluefin_rtt_new() -> RttEstimator
    ensures { result ≡ fresh }
{
    RttEstimator::new()
}

#[unsafe(no_mangle)]
pub extern "C" fn bluefin_rtt_sample(t: RttEstimator, micros: u64) -> Sampled
    ensures { result ≡ sampled_of (sampling t micros) }
{
    let mut estimator = t;
    let answer = estimator.sample(micros);
    Sampled::new(estimator, answer)
}

#[unsafe(no_mangle)]
pub extern "C" fn bluefin_rtt_wait_time(t: RttEstimator) -> Wait
    ensures { result ≡ wait_of (waiting t) }
{
    t.wait_time().into()
}
