ghost use Rattle.std.specs.Prelude.{◌≡◌, ◌+◌, ◌*◌, ◌≤◌, ◌^◌, length, map, IfOk};
ghost use Rattle.std.specs.Option.{option_copied};
ghost use Rattle.std.specs.List.{range_with_len};
ghost use Rattle.bmff_boxes.specs.FragmentFields.{composition_offset};
ghost use Rattle.bmff_boxes.specs.Reading.{Gives};
ghost use Rattle.sample_tables.specs.Tables.{number_at, entry_total, duration_run_at, duration_runs_of, offset_run_at, each_size_of, sample_sizes_of, chunk_run_at, chunk_runs_of, chunk_offsets_of, offsets_if_there, sync_if_there, tables_of};

use crate::entries::{ChunkRun, DurationRun, OffsetRun, SampleSizes};
use crate::numbers::{i32_at, u32_at, u64_at};
use crate::tables::SampleTables;
use bmff_boxes::{Row, entry_count};
use bmff_init::{InitError, InitFault};
use mse_base::OwnedList;
use std::alloc::{AllocError, Global};

/// How many entries of `len` bytes a table has.
fn entry_total(p: &[u8], len: usize) -> Result<u32, InitFault>
    requires { len ≤ 12 }
    ensures value { result ≡ entry_total len p.now }
    ensures fits { IfOk result (λ count. 8 + count * len ≤ length p.now) }
{
    let count = entry_count(p).ok_or(InitFault::Size)?;
    if p.len() < 8 + count as usize * len {
        return Err(InitFault::Size);
    }
    Ok(count)
}

/// The entry of a decoding time to sample box (8.6.1.2) at a place.
fn duration_run_at(p: &[u8], at: usize) -> DurationRun
    requires { at + 8 ≤ length p.now }
    ensures { result ≡ duration_run_at p.now at }
{
    DurationRun {
        count: u32_at(p, at),
        duration: u32_at(p, at + 4),
    }
}

/// The entries of a decoding time to sample box.
fn duration_entries(alloc: Global, p: &[u8], count: u32) -> Result<Vec<DurationRun>, AllocError>
    requires { 8 + count * 8 ≤ length p.now }
    ensures { IfOk result (λ v. v.items
        ≡ map (λ i. duration_run_at p.now (8 + i * 8)) (range_with_len 0 count)) }
{
    let mut runs = Vec::with_capacity(alloc, count as usize)?;
    for i in 0..count {
        runs.push_reserved(duration_run_at(p, 8 + i as usize * 8));
    }
    Ok(runs)
}

fn read_durations(alloc: Global, stts: &[u8]) -> Result<OwnedList<DurationRun>, InitError>
    ensures { Gives (λ l. l) result (duration_runs_of stts.now) }
{
    let count = entry_total(stts, 8)?;
    let runs = duration_entries(alloc, stts, count)?;
    Ok(OwnedList::from_vec(runs))
}

/// A composition offset (8.6.1.3): unsigned in version 0.
fn offset_at(p: &[u8], at: usize) -> i64
    requires { at + 4 ≤ length p.now }
    ensures { result ≡ composition_offset p.now (number_at 4 at p.now) }
{
    match p {
        [0, ..] => i64::from(u32_at(p, at)),
        _ => i64::from(i32_at(p, at)),
    }
}

/// The entry of a composition time to sample box (8.6.1.3) at a place.
fn offset_run_at(p: &[u8], at: usize) -> OffsetRun
    requires { at + 8 ≤ length p.now }
    ensures { result ≡ offset_run_at p.now at }
{
    OffsetRun {
        count: u32_at(p, at),
        offset: offset_at(p, at + 4),
    }
}

/// The entries of a composition time to sample box.
fn offset_entries(alloc: Global, p: &[u8], count: u32) -> Result<Vec<OffsetRun>, AllocError>
    requires { 8 + count * 8 ≤ length p.now }
    ensures { IfOk result (λ v. v.items
        ≡ map (λ i. offset_run_at p.now (8 + i * 8)) (range_with_len 0 count)) }
{
    let mut runs = Vec::with_capacity(alloc, count as usize)?;
    for i in 0..count {
        runs.push_reserved(offset_run_at(p, 8 + i as usize * 8));
    }
    Ok(runs)
}

/// A composition time to sample box, if there is one.
fn read_offsets(
    alloc: Global,
    ctts: Option<&[u8]>,
) -> Result<Option<OwnedList<OffsetRun>>, InitError>
    ensures { Gives (λ l. l) result (offsets_if_there (option_copied ctts.entry)) }
{
    let Some(ctts) = ctts else {
        return Ok(None);
    };
    let count = entry_total(ctts, 8)?;
    let runs = offset_entries(alloc, ctts, count)?;
    Ok(Some(OwnedList::from_vec(runs)))
}

/// So many numbers of four bytes, one behind the other from a place on.
fn numbers_from(alloc: Global, p: &[u8], first: usize, count: u32) -> Result<Vec<u32>, AllocError>
    requires { first + count * 4 ≤ length p.now }
    ensures { IfOk result (λ v. v.items
        ≡ map (λ i. number_at 4 (first + i * 4) p.now) (range_with_len 0 count)) }
{
    let mut numbers = Vec::with_capacity(alloc, count as usize)?;
    for i in 0..count {
        numbers.push_reserved(u32_at(p, first + i as usize * 4));
    }
    Ok(numbers)
}

/// A sync sample box (8.6.2), if there is one.
fn read_sync(alloc: Global, stss: Option<&[u8]>) -> Result<Option<OwnedList<u32>>, InitError>
    ensures { Gives (λ l. l) result (sync_if_there (option_copied stss.entry)) }
{
    let Some(stss) = stss else {
        return Ok(None);
    };
    let count = entry_total(stss, 4)?;
    let numbers = numbers_from(alloc, stss, 8, count)?;
    Ok(Some(OwnedList::from_vec(numbers)))
}

/// The sizes of a sample size box that has one for each sample.
fn read_each_size(alloc: Global, stsz: &[u8], count: u32) -> Result<SampleSizes, InitError>
    ensures { Gives (λ s. s) result (each_size_of count stsz.now) }
{
    if stsz.len() < 12 + count as usize * 4 {
        return Err(InitError::Fault(InitFault::Size));
    }
    let sizes = numbers_from(alloc, stsz, 12, count)?;
    Ok(SampleSizes::Each(OwnedList::from_vec(sizes)))
}

/// A sample size box (8.7.3).
#[tactic(auto, unfolding(bmff_boxes::specs::Fields::field))]
fn read_sizes(alloc: Global, stsz: &[u8]) -> Result<SampleSizes, InitError>
    ensures { Gives (λ s. s) result (sample_sizes_of stsz.now) }
{
    if stsz.len() < 12 {
        return Err(InitError::Fault(InitFault::Size));
    }
    let size = u32_at(stsz, 4);
    let count = u32_at(stsz, 8);
    if size == 0 {
        read_each_size(alloc, stsz, count)
    } else {
        Ok(SampleSizes::Same { size, count })
    }
}

/// The entry of a sample to chunk box (8.7.4) at a place.
fn chunk_run_at(p: &[u8], at: usize) -> ChunkRun
    requires { at + 12 ≤ length p.now }
    ensures { result ≡ chunk_run_at p.now at }
{
    ChunkRun {
        first: u32_at(p, at),
        samples: u32_at(p, at + 4),
    }
}

/// The entries of a sample to chunk box.
fn chunk_entries(alloc: Global, p: &[u8], count: u32) -> Result<Vec<ChunkRun>, AllocError>
    requires { 8 + count * 12 ≤ length p.now }
    ensures { IfOk result (λ v. v.items
        ≡ map (λ i. chunk_run_at p.now (8 + i * 12)) (range_with_len 0 count)) }
{
    let mut runs = Vec::with_capacity(alloc, count as usize)?;
    for i in 0..count {
        runs.push_reserved(chunk_run_at(p, 8 + i as usize * 12));
    }
    Ok(runs)
}

fn read_chunk_runs(alloc: Global, stsc: &[u8]) -> Result<OwnedList<ChunkRun>, InitError>
    ensures { Gives (λ l. l) result (chunk_runs_of stsc.now) }
{
    let count = entry_total(stsc, 12)?;
    let runs = chunk_entries(alloc, stsc, count)?;
    Ok(OwnedList::from_vec(runs))
}

/// The entries of a chunk offset box (8.7.5) of type `stco`.
fn short_offsets(alloc: Global, p: &[u8], count: u32) -> Result<Vec<u64>, AllocError>
    requires { 8 + count * 4 ≤ length p.now }
    ensures { IfOk result (λ v. v.items
        ≡ map (λ i. number_at 4 (8 + i * 4) p.now) (range_with_len 0 count)) }
{
    let mut offsets = Vec::with_capacity(alloc, count as usize)?;
    for i in 0..count {
        offsets.push_reserved(u64::from(u32_at(p, 8 + i as usize * 4)));
    }
    Ok(offsets)
}

/// The entries of a chunk offset box of type `co64`.
fn long_offsets(alloc: Global, p: &[u8], count: u32) -> Result<Vec<u64>, AllocError>
    requires { 8 + count * 8 ≤ length p.now }
    ensures { IfOk result (λ v. v.items
        ≡ map (λ i. number_at 8 (8 + i * 8) p.now) (range_with_len 0 count)) }
{
    let mut offsets = Vec::with_capacity(alloc, count as usize)?;
    for i in 0..count {
        offsets.push_reserved(u64_at(p, 8 + i as usize * 8));
    }
    Ok(offsets)
}

/// Where the chunks begin, by a box `stco`, or `co64` where there is none.
fn read_chunk_offsets(
    alloc: Global,
    stco: Option<&[u8]>,
    co64: Option<&[u8]>,
) -> Result<OwnedList<u64>, InitError>
    ensures value { Gives (λ l. l) result
        (chunk_offsets_of (option_copied stco.entry) (option_copied co64.entry)) }
    ensures few { IfOk result (λ l. length l ≤ 2 ^ 32) }
{
    if let Some(stco) = stco {
        let count = entry_total(stco, 4)?;
        let short = short_offsets(alloc, stco, count)?;
        return Ok(OwnedList::from_vec(short));
    }
    let Some(co64) = co64 else {
        return Err(InitError::Fault(InitFault::Missing(*b"stco")));
    };
    let count = entry_total(co64, 8)?;
    let long = long_offsets(alloc, co64, count)?;
    Ok(OwnedList::from_vec(long))
}

/// The tables among the boxes of a sample table box (8.5.1).
#[tactic(auto, unfolding(crate::specs::Tables::tables_of))]
pub(crate) fn read_tables(alloc: Global, stbl: &Row<'_>) -> Result<SampleTables, InitError>
    ensures value { Gives (λ t. t) result (tables_of stbl.now) }
    ensures few { IfOk result (λ t. length t.chunk_offsets ≤ 2 ^ 32) }
{
    let stts = stbl.first(*b"stts").ok_or(InitFault::Missing(*b"stts"))?;
    let stsz = stbl.first(*b"stsz").ok_or(InitFault::Missing(*b"stsz"))?;
    let stsc = stbl.first(*b"stsc").ok_or(InitFault::Missing(*b"stsc"))?;
    let chunk_offsets = read_chunk_offsets(alloc, stbl.first(*b"stco"), stbl.first(*b"co64"))?;
    let durations = read_durations(alloc, stts)?;
    let offsets = read_offsets(alloc, stbl.first(*b"ctts"))?;
    let sync = read_sync(alloc, stbl.first(*b"stss"))?;
    let sizes = read_sizes(alloc, stsz)?;
    let chunk_runs = read_chunk_runs(alloc, stsc)?;
    Ok(SampleTables {
        durations,
        offsets,
        sync,
        sizes,
        chunk_runs,
        chunk_offsets,
    })
}
