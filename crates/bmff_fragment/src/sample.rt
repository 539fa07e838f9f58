ghost use Rattle.std.specs.Prelude.{◌≡◌, ◌*◌, ◌≤◌, ◌^◌, length, vec_len, IfOk, Some};
ghost use Rattle.bmff_fragment.specs.Headers.{run_header_of};
ghost use Rattle.bmff_fragment.specs.Samples.{run_samples_of, sample_with_defaults, header_flags};
ghost use Rattle.bmff_fragment.specs.Times.{data_len, duration_of};
ghost use Rattle.bmff_boxes.specs.Reading.{need};
ghost use Rattle.bmff_boxes.specs.Reading.{Gives};

use crate::fault::{MoofError, MoofFault};
use crate::header::{Defaults, RunHeader};
use bmff_boxes::{TrunSample, run_fields, run_sample};
use std::alloc::Global;

/// A sample of a track fragment run, with what it has by default.
#[derive(Clone, Copy, Debug)]
pub struct FragmentSample {
    /// How long it lasts, in the media's timescale.
    pub duration: u32,
    /// How many bytes it has.
    pub size: u32,
    /// Its sample flags.
    pub flags: u32,
    /// How much later than it is decoded it is presented, in the media's timescale.
    pub offset: i64,
}

fn header_flags(header: &RunHeader, i: u32) -> Option<u32>
    ensures { result ≡ header_flags header.now i }
{
    if i == 0 { header.first_flags } else { None }
}

/// A sample as the run tells it, with the defaults for what it does not tell.
fn sample_with_defaults(
    defaults: &Defaults,
    first_flags: Option<u32>,
    sample: TrunSample,
) -> FragmentSample
    ensures { result ≡ sample_with_defaults defaults.now first_flags sample }
{
    let flags = sample.flags.unwrap_or(defaults.flags);
    FragmentSample {
        duration: sample.duration.unwrap_or(defaults.duration),
        size: sample.size.unwrap_or(defaults.size),
        flags: first_flags.unwrap_or(flags),
        offset: sample.offset.unwrap_or(0),
    }
}

/// The samples of a run whose header was read.
pub(crate) fn read_samples(
    alloc: Global,
    defaults: &Defaults,
    header: &RunHeader,
    trun: &[u8],
) -> Result<Vec<FragmentSample>, MoofError>
    requires { Some header.now ≡ run_header_of trun.now }
    ensures value { Gives (λ v. v.items) result
        (need MoofFault.Size (run_samples_of defaults.now header.now trun.now)) }
    ensures count { IfOk result (λ v. vec_len v ≡ header.now.count) }
{
    let Some(fields) = run_fields(trun, header.count) else {
        return Err(MoofError::Fault(MoofFault::Size));
    };
    let mut samples = Vec::with_capacity(alloc, header.count as usize)?;
    for i in 0..header.count {
        let sample = run_sample(trun, &fields, i);
        let first_flags = header_flags(header, i);
        samples.push_reserved(sample_with_defaults(defaults, first_flags, sample));
    }
    Ok(samples)
}

/// The length of the data of samples, in bytes.
pub(crate) fn data_len(samples: &[FragmentSample]) -> u64
    requires { length samples.now ≤ 2 ^ 20 }
    ensures value { result ≡ data_len samples.now }
    ensures bound { result ≤ length samples.now * 2 ^ 32 }
{
    let mut len = 0;
    for sample in samples {
        len += u64::from(sample.size);
    }
    len
}

/// How long samples last, in the media's timescale.
pub(crate) fn duration(samples: &[FragmentSample]) -> u64
    requires { length samples.now ≤ 2 ^ 20 }
    ensures value { result ≡ duration_of samples.now }
    ensures bound { result ≤ length samples.now * 2 ^ 32 }
{
    let mut time = 0;
    for sample in samples {
        time += u64::from(sample.duration);
    }
    time
}
