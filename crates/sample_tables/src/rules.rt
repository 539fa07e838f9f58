ghost use Rattle.std.specs.Prelude.{◌≡◌, ◌*◌, ◌/◌, ◌≤◌, ◌^◌, ◌==◌, ◌||◌, nat_le, length, sum, sum_by, IsTrue};
ghost use Rattle.std.specs.List.{list_all};
ghost use Rattle.sample_tables.specs.Samples.{sample_count, sizes_of, offsets_by, offsets_of, chunk_behind, chunk_counts};
ghost use Rattle.sample_tables.specs.Rules.{are_numbers, are_chunk_runs, has_first_chunk, is_chunk_table, is_offset_table, is_sync_table, are_consistent, is_short_offset, lag_of, is_in_range, are_few};
ghost use Rattle.mse_base.specs.Presentation.{IsReadable};
ghost use Rattle.mse_base.specs.Time.{SECOND as ticks_in_a_second};

use crate::entries::{ChunkRun, DurationRun, OffsetRun, SampleSizes};
use crate::tables::SampleTables;
use crate::totals::Totals;
use mse_base::{OwnedList, TrackInfo};

/// How many ticks a second has.
const SECOND: u128 = 141_120_000_000;

/// The greatest media shift and composition offset that can be written.
const MOST_SHIFT: i64 = 0x7FFF_FFFF;

/// The greatest lag.
const MOST_LAG: u128 = 1 << 62;

/// The most bytes of a sample description box.
const MOST_DESCRIPTION: usize = 1 << 16;

/// The most samples of all tracks, bytes of all samples, and bytes of one sample.
const MOST_SAMPLES: u128 = 1 << 22;

const MOST_BYTES: u128 = 1 << 30;

const MOST_SAMPLE_BYTES: u32 = 1 << 26;

/// How many samples a track has.
pub(crate) fn sample_count(sizes: &SampleSizes) -> usize
    ensures { result ≡ sample_count sizes.now }
{
    match sizes {
        SampleSizes::Same { count, .. } => *count as usize,
        SampleSizes::Each(sizes) => sizes.len(),
    }
}

fn duration_total(runs: &[DurationRun]) -> u128
    ensures { result ≡ sum_by (λ r. r.count) runs.now }
{
    runs.iter().map(|run| u128::from(run.count)).sum()
}

fn offset_total(runs: &[OffsetRun]) -> u128
    ensures { result ≡ sum_by (λ r. r.count) runs.now }
{
    runs.iter().map(|run| u128::from(run.count)).sum()
}

/// Whether a table of composition offsets, if there is one, is of `n` samples.
fn is_offset_table(n: usize, offsets: &Option<OwnedList<OffsetRun>>) -> bool
    ensures { result ≡ is_offset_table n offsets.now }
{
    match offsets {
        None => true,
        Some(runs) => offset_total(runs.as_slice()) == n as u128,
    }
}

/// Whether numbers of samples ascend strictly from 1 to `n`.
fn are_numbers(n: usize, numbers: &[u32]) -> bool
    ensures { result ≡ are_numbers 0 n numbers.now }
{
    let mut before = 0;
    for number in numbers {
        if *number <= before {
            return false;
        }
        if *number as usize > n {
            return false;
        }
        before = *number;
    }
    true
}

/// Whether a table of sync samples, if there is one, is of `n` samples.
fn is_sync_table(n: usize, sync: &Option<OwnedList<u32>>) -> bool
    ensures { result ≡ is_sync_table n sync.now }
{
    match sync {
        None => true,
        Some(numbers) => are_numbers(n, numbers.as_slice()),
    }
}

/// Whether the first chunks of runs ascend strictly up to the number of chunks, and each chunk has a sample.
fn are_chunk_runs(chunks: usize, runs: &[ChunkRun]) -> bool
    ensures { result ≡ are_chunk_runs 0 chunks runs.now }
{
    let mut before = 0;
    for run in runs {
        if run.first <= before {
            return false;
        }
        if run.first as usize > chunks {
            return false;
        }
        if run.samples < 1 {
            return false;
        }
        before = run.first;
    }
    true
}

/// Whether the first run begins with the first chunk.
fn has_first_chunk(chunks: usize, runs: &[ChunkRun]) -> bool
    ensures { result ≡ has_first_chunk chunks runs.now }
{
    match runs {
        [] => chunks == 0,
        [run, ..] => run.first == 1,
    }
}

/// The chunk behind a run, where these are the runs behind it.
pub(crate) fn chunk_behind(chunks: usize, behind: &[ChunkRun]) -> u64
    requires { chunks ≤ 2 ^ 32 }
    ensures { result ≡ chunk_behind chunks behind.now }
{
    match behind {
        [] => chunks as u64 + 1,
        [run, ..] => u64::from(run.first),
    }
}

/// How many samples so many chunks have.
fn run_total(chunks: u64, samples: u32) -> u128
    ensures value { result ≡ chunks * samples }
    ensures small { result ≤ chunks * 2 ^ 32 }
{
    u128::from(chunks) * u128::from(samples)
}

/// How many samples all chunks have.
#[tactic(auto, using(crate::proofs::RuleLaws::total_next))]
fn chunk_total(chunks: usize, runs: &[ChunkRun]) -> u128
    requires few { chunks ≤ 2 ^ 32 }
    requires runs { IsTrue (are_chunk_runs 0 chunks runs.now) }
    ensures { result ≡ sum (chunk_counts chunks runs.now) }
{
    let mut total = 0;
    let mut rest = runs;
    'runs: while let [run, behind @ ..] = rest {
        let len = chunk_behind(chunks, behind) - u64::from(run.first);
        total += run_total(len, run.samples);
        rest = behind;
    }
    total
}

/// Whether the runs of chunks are of so many chunks, which have `n` samples in all.
fn is_chunk_table(n: usize, chunks: usize, runs: &[ChunkRun]) -> bool
    requires { chunks ≤ 2 ^ 32 }
    ensures { result ≡ is_chunk_table n chunks runs.now }
{
    has_first_chunk(chunks, runs)
        && are_chunk_runs(chunks, runs)
        && chunk_total(chunks, runs) == n as u128
}

/// Whether all tables are of as many samples as the table of sizes.
#[tactic(auto, unfolding(crate::specs::Rules::are_consistent))]
pub(crate) fn are_consistent(tables: &SampleTables) -> bool
    requires { length tables.now.chunk_offsets ≤ 2 ^ 32 }
    ensures { result ≡ are_consistent tables.now }
{
    let n = sample_count(&tables.sizes);
    duration_total(tables.durations.as_slice()) == n as u128
        && is_offset_table(n, &tables.offsets)
        && is_sync_table(n, &tables.sync)
        && is_chunk_table(n, tables.chunk_offsets.len(), tables.chunk_runs.as_slice())
}

/// So many ticks in whole units of which `scale` make a second.
#[tactic(auto, using(crate::proofs::RuleLaws::lag_is))]
fn lag_by(shift: u128, scale: u32) -> u128
    requires { shift ≤ 2 ^ 110 }
    ensures { result ≡ shift * scale / ticks_in_a_second }
{
    let scale = u128::from(scale);
    // The shift itself times the scale can pass 128 bits.
    shift / SECOND * scale + shift % SECOND * scale / SECOND
}

/// How much later than the movie a track begins, in whole units of its media time.
pub(crate) fn lag_of(track: &TrackInfo) -> u128
    requires { IsReadable track.now }
    ensures { result ≡ lag_of track.now }
{
    lag_by(track.empty_shift.get().unsigned_abs(), track.scale)
}

/// Whether a composition offset fits a signed number of 32 bits.
fn is_short_offset(offset: i64) -> bool
    ensures { result ≡ is_short_offset offset }
{
    -MOST_SHIFT - 1 <= offset && offset <= MOST_SHIFT
}

/// Whether the composition offset of a run is that of no sample, or fits.
fn is_short_run(run: &OffsetRun) -> bool
    ensures { result ≡ (run.now.count == 0 || is_short_offset run.now.offset) }
{
    run.count == 0 || is_short_offset(run.offset)
}

fn are_short_runs(runs: &[OffsetRun]) -> bool
    ensures { result ≡ list_all is_short_offset (offsets_by runs.now) }
{
    for run in runs {
        if !is_short_run(run) {
            return false;
        }
    }
    true
}

#[tactic(auto, using(crate::proofs::RuleLaws::short_zeros))]
fn are_short_offsets(n: usize, offsets: &Option<OwnedList<OffsetRun>>) -> bool
    ensures { result ≡ list_all is_short_offset (offsets_of offsets.now n) }
{
    match offsets {
        None => true,
        Some(runs) => are_short_runs(runs.as_slice()),
    }
}

/// Whether what is told of a track can be written.
#[tactic(auto, unfolding(crate::specs::Rules::is_in_range))]
pub(crate) fn is_in_range(track: &TrackInfo, stsd: &[u8], tables: &SampleTables) -> bool
    requires { IsReadable track.now }
    ensures { result ≡ is_in_range track.now stsd.now tables.now }
{
    track.id >= 1
        && track.id <= u32::MAX - 1
        && track.media_shift <= MOST_SHIFT
        && lag_of(track) <= MOST_LAG
        && stsd.len() <= MOST_DESCRIPTION
        && are_short_offsets(sample_count(&tables.sizes), &tables.offsets)
}

/// How many bytes all samples have.
#[tactic(auto, using(crate::proofs::RuleLaws::sum_replicate))]
fn size_total(sizes: &SampleSizes) -> u128
    ensures value { result ≡ sum (sizes_of sizes.now) }
    ensures small { result ≤ 2 ^ 96 }
{
    match sizes {
        SampleSizes::Same { size, count } => u128::from(*size) * u128::from(*count),
        SampleSizes::Each(sizes) => sum_of(sizes.as_slice()),
    }
}

fn sum_of(sizes: &[u32]) -> u128
    ensures value { result ≡ sum sizes.now }
    ensures small { result ≤ 2 ^ 96 }
{
    let mut total = 0;
    for size in sizes {
        total += u128::from(*size);
    }
    total
}

#[tactic(auto, using(crate::proofs::RuleLaws::short_sizes))]
fn are_short(sizes: &SampleSizes) -> bool
    ensures { result ≡ list_all (λ size. nat_le size (2 ^ 26)) (sizes_of sizes.now) }
{
    match sizes {
        SampleSizes::Same { size, count } => *count == 0 || *size <= MOST_SAMPLE_BYTES,
        SampleSizes::Each(sizes) => sizes
            .as_slice()
            .iter()
            .all(|size| *size <= MOST_SAMPLE_BYTES),
    }
}

/// Whether the samples of a track and of those before it are few, and none of them is long.
#[tactic(auto, unfolding(crate::specs::Rules::are_few))]
pub(crate) fn are_few(before: &Totals, tables: &SampleTables) -> bool
    requires samples { before.now.samples ≤ 2 ^ 22 }
    requires bytes { before.now.bytes ≤ 2 ^ 30 }
    ensures { result ≡ are_few before.now tables.now }
{
    before.samples + sample_count(&tables.sizes) as u128 <= MOST_SAMPLES
        && before.bytes + size_total(&tables.sizes) <= MOST_BYTES
        && are_short(&tables.sizes)
}
