ghost use Rattle.std.specs.Prelude.{◌≡◌, ◌++◌, ◌+◌, ◌<◌, ◌≤◌, ◌^◌, length, vec_len, take, sum, sum_by, replicate, true, false, IfOk, IsTrue, OnOk, IfErr};
ghost use Rattle.std.specs.List.{list_all, AllByRecursion};
ghost use Rattle.bmff_boxes.specs.Reading.{Gives};
ghost use Rattle.sample_tables.specs.Samples.{sample_count, sizes_of, durations_of, offsets_by, offsets_of, sync_by, sync_of, chunk_counts, places_from, places_of, sample_at, samples_of, AreComplete};
ghost use Rattle.sample_tables.specs.Rules.{is_offset_table, are_numbers, is_sync_table, are_consistent, are_chunk_runs, is_short_offset, is_inside, are_inside, places_inside, IsPlaceRefusal};
ghost use Rattle.sample_tables.specs.Movies.{columns_inside};

use crate::entries::{ChunkRun, DurationRun, OffsetRun, SampleSizes};
use crate::fault::{MovieError, MovieFault};
use crate::rules::{chunk_behind, sample_count};
use crate::sample::Sample;
use crate::tables::SampleTables;
use mse_base::OwnedList;
use std::alloc::{AllocError, Global};

/// What the tables of a track tell of its samples, a list for each field.
#[derive(Drop)]
pub struct SampleColumns {
    /// How long each lasts, in the media's timescale (8.6.1.2).
    pub durations: OwnedList<u32>,
    /// How much later than it is decoded each is presented, in the media's timescale (8.6.1.3).
    pub offsets: OwnedList<i32>,
    /// Whether each is a sync sample (8.6.2).
    pub sync: OwnedList<bool>,
    /// How many bytes each has (8.7.3).
    pub sizes: OwnedList<u32>,
    /// Where the bytes of each begin, from the start of the file (8.7.4 and 8.7.5).
    pub places: OwnedList<u64>,
}

fn sizes_of(alloc: Global, sizes: SampleSizes) -> Result<Vec<u32>, AllocError>
    ensures { IfOk result (λ v. v.items ≡ sizes_of sizes) }
{
    match sizes {
        SampleSizes::Same { size, count } => {
            let mut each = Vec::new(alloc);
            each.resize(count as usize, size)?;
            Ok(each)
        }
        SampleSizes::Each(sizes) => Ok(sizes.into_vec()),
    }
}

fn durations_of(alloc: Global, n: usize, runs: &[DurationRun]) -> Result<Vec<u32>, AllocError>
    requires { sum_by (λ r. r.count) runs.now ≡ n }
    ensures { IfOk result (λ v. v.items ≡ durations_of runs.now) }
{
    let mut each = Vec::with_capacity(alloc, n)?;
    for run in runs {
        each.resize(each.len() + run.count as usize, run.duration)?;
    }
    Ok(each)
}

/// Appends the composition offset of a run for each of its samples.
fn push_offsets(each: &mut Vec<i32>, run: &OffsetRun) -> Result<(), AllocError>
    requires short { 0 < run.now.count → IsTrue (is_short_offset run.now.offset) }
    requires few { vec_len each.old ≤ 2 ^ 32 }
    ensures { OnOk result
        (each.new.items ≡ each.old.items ++ replicate run.now.count run.now.offset) }
{
    if run.count > 0 {
        each.resize(each.len() + run.count as usize, run.offset as i32)?;
    }
    Ok(())
}

/// The composition offset of each sample by a table.
fn offsets_by(alloc: Global, n: usize, runs: &[OffsetRun]) -> Result<Vec<i32>, AllocError>
    requires few { n ≤ 2 ^ 32 }
    requires total { sum_by (λ r. r.count) runs.now ≡ n }
    requires short { IsTrue (list_all is_short_offset (offsets_by runs.now)) }
    ensures { IfOk result (λ v. v.items ≡ offsets_by runs.now) }
{
    let mut each = Vec::with_capacity(alloc, n)?;
    for run in runs {
        push_offsets(&mut each, run)?;
    }
    Ok(each)
}

fn offsets_of(
    alloc: Global,
    n: usize,
    offsets: &Option<OwnedList<OffsetRun>>,
) -> Result<Vec<i32>, AllocError>
    requires few { n ≤ 2 ^ 32 }
    requires total { IsTrue (is_offset_table n offsets.now) }
    requires short { IsTrue (list_all is_short_offset (offsets_of offsets.now n)) }
    ensures { IfOk result (λ v. v.items ≡ offsets_of offsets.now n) }
{
    match offsets {
        None => {
            let mut each = Vec::new(alloc);
            each.resize(n, 0)?;
            Ok(each)
        }
        Some(runs) => offsets_by(alloc, n, runs.as_slice()),
    }
}

/// Whether the number of each sample is in a table.
fn sync_by(alloc: Global, n: usize, numbers: &[u32]) -> Result<Vec<bool>, AllocError>
    requires { IsTrue (are_numbers 0 n numbers.now) }
    ensures { IfOk result (λ v. v.items ≡ sync_by numbers.now n) }
{
    let mut each = Vec::new(alloc);
    each.resize(n, false)?;
    for number in numbers {
        each[*number as usize - 1] = true;
    }
    Ok(each)
}

fn sync_of(alloc: Global, n: usize, sync: &Option<OwnedList<u32>>) -> Result<Vec<bool>, AllocError>
    requires { IsTrue (is_sync_table n sync.now) }
    ensures { IfOk result (λ v. v.items ≡ sync_of sync.now n) }
{
    match sync {
        None => {
            let mut each = Vec::new(alloc);
            each.resize(n, true)?;
            Ok(each)
        }
        Some(numbers) => sync_by(alloc, n, numbers.as_slice()),
    }
}

fn chunk_counts(alloc: Global, chunks: usize, runs: &[ChunkRun]) -> Result<Vec<u32>, AllocError>
    requires few { chunks ≤ 2 ^ 32 }
    requires runs { IsTrue (are_chunk_runs 0 chunks runs.now) }
    ensures { IfOk result (λ v. v.items ≡ chunk_counts chunks runs.now) }
{
    let mut counts = Vec::with_capacity(alloc, chunks)?;
    let mut rest = runs;
    'runs: while let [run, behind @ ..] = rest {
        let len = chunk_behind(chunks, behind) - u64::from(run.first);
        counts.resize(counts.len() + len as usize, run.samples)?;
        rest = behind;
    }
    Ok(counts)
}

/// Whether a sample lies inside a file of this length.
fn is_inside(len: u64, at: u64, size: u64) -> bool
    ensures value { result ≡ is_inside len (at, size) }
    ensures fits { IsTrue result → at + size ≤ len }
{
    size <= len && at <= len - size
}

/// Appends where the samples of a chunk begin, if all of them lie inside a file of this length.
fn push_places(places: &mut Vec<u64>, len: u64, start: u64, sizes: &[u32]) -> Result<(), MovieError>
    ensures ok { OnOk result
        (places.new.items ≡ places.old.items ++ places_from start sizes.now) }
    ensures inside { OnOk result (are_inside len (places_from start sizes.now) sizes.now ≡ true) }
    ensures err { IfErr result (IsPlaceRefusal
        (are_inside len (places_from start sizes.now) sizes.now)) }
{
    let mut at = start;
    for size in sizes {
        let size = u64::from(*size);
        if !is_inside(len, at, size) {
            return Err(MovieError::Fault(MovieFault::Place));
        }
        places.push(at)?;
        at += size;
    }
    Ok(())
}

/// Where the samples begin, if all of them lie inside a file of this length.
fn places_of(
    alloc: Global,
    len: u64,
    offsets: &[u64],
    counts: &[u32],
    sizes: &[u32],
) -> Result<Vec<u64>, MovieError>
    requires counts { length counts.now ≡ length offsets.now }
    requires total { sum counts.now ≡ length sizes.now }
    ensures { Gives (λ v. v.items) result
        (places_inside len sizes.now (places_of offsets.now counts.now sizes.now)) }
{
    let mut places = Vec::with_capacity(alloc, sizes.len())?;
    let mut rest = sizes;
    for i in 0..offsets.len() {
        let (chunk, behind) = rest.split_at(counts[i] as usize);
        match push_places(&mut places, len, offsets[i], chunk) {
            Ok(()) => {}
            Err(error) => return Err(error),
        }
        rest = behind;
    }
    Ok(places)
}

/// What the tables tell of the samples, all of which have to lie inside a file of this length.
pub(crate) fn read_columns(
    alloc: Global,
    len: u64,
    tables: SampleTables,
) -> Result<SampleColumns, MovieError>
    requires consistent { IsTrue (are_consistent tables) }
    requires short { IsTrue
        (list_all is_short_offset (offsets_of tables.offsets (sample_count tables.sizes))) }
    requires few { sample_count tables.sizes ≤ 2 ^ 22 }
    requires chunks { length tables.chunk_offsets ≤ 2 ^ 32 }
    ensures { Gives (λ c. c) result (columns_inside len tables) }
{
    let n = sample_count(&tables.sizes);
    let chunks = tables.chunk_offsets.len();
    let counts = chunk_counts(alloc, chunks, tables.chunk_runs.as_slice())?;
    let sizes = sizes_of(alloc, tables.sizes)?;
    let places = match places_of(
        alloc,
        len,
        tables.chunk_offsets.as_slice(),
        counts.as_slice(),
        sizes.as_slice(),
    ) {
        Ok(places) => places,
        Err(error) => return Err(error),
    };
    let durations = durations_of(alloc, n, tables.durations.as_slice())?;
    let offsets = offsets_of(alloc, n, &tables.offsets)?;
    let sync = sync_of(alloc, n, &tables.sync)?;
    Ok(SampleColumns {
        durations: OwnedList::from_vec(durations),
        offsets: OwnedList::from_vec(offsets),
        sync: OwnedList::from_vec(sync),
        sizes: OwnedList::from_vec(sizes),
        places: OwnedList::from_vec(places),
    })
}

/// Sample `i`, the first being 0, which is decoded at `decode`.
fn sample_at(columns: &SampleColumns, i: usize, decode: u64) -> Sample
    requires complete { AreComplete columns.now }
    requires there { i < length columns.now.sizes }
    requires decoded { decode ≡ sum (take i columns.now.durations) }
    ensures { result ≡ sample_at columns.now i }
{
    Sample {
        decode,
        place: columns.places.as_slice()[i],
        size: columns.sizes.as_slice()[i],
        duration: columns.durations.as_slice()[i],
        offset: columns.offsets.as_slice()[i],
        sync: columns.sync.as_slice()[i],
    }
}

/// The samples in order.
#[tactic(auto, unfolding(crate::specs::Samples::samples_of))]
pub(crate) fn samples_of(alloc: Global, columns: &SampleColumns) -> Result<Vec<Sample>, AllocError>
    requires { AreComplete columns.now }
    ensures value { IfOk result (λ v. v.items ≡ samples_of columns.now) }
    ensures times { IfOk result (λ v. AllByRecursion (λ s. s.decode ≤ 2 ^ 54) v.items) }
{
    let n = columns.sizes.len();
    let mut samples = Vec::with_capacity(alloc, n)?;
    let mut decode = 0;
    for i in 0..n {
        let sample = sample_at(columns, i, decode);
        decode += u64::from(sample.duration);
        samples.push_reserved(sample);
    }
    Ok(samples)
}
