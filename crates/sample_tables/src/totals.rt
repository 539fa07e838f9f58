ghost use Rattle.std.specs.Prelude.{◌≡◌, ◌≤◌, ◌^◌, sum_by};

use crate::sample::Sample;

/// The totals of some tracks.
#[derive(Clone, Copy)]
pub struct Totals {
    /// How many samples they have.
    pub samples: u128,
    /// How many bytes these samples have.
    pub bytes: u128,
}

/// How many bytes samples have.
pub(crate) fn bytes_of(samples: &[Sample]) -> u128
    ensures value { result ≡ sum_by (λ s. s.size) samples.now }
    ensures small { result ≤ 2 ^ 96 }
{
    let mut bytes = 0;
    for sample in samples {
        bytes += u128::from(sample.size);
    }
    bytes
}
