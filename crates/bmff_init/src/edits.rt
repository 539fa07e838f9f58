ghost use Rattle.std.specs.Prelude.{◌≡◌, ◌≤◌, ◌^◌, ◌+◌, ◌*◌, pos, length, drop, List, [], ◌∷◌, Ok, Some, IfOk};
ghost use Rattle.std.specs.Option.{option_copied};
ghost use Rattle.std.specs.List.{prefix_len};
ghost use Rattle.bmff_boxes.specs.declared.entries.EditEntry.{EditEntry};
ghost use Rattle.bmff_init.specs.Edits.{edit_len, edits_from, is_empty_edit, is_media_edit, media_time_of, empty_duration, empty_shift_of, both_shifts, shifts_of, edit_count_of, shifts_in, shifts_in_list};

use crate::fault::InitFault;
use bmff_boxes::{EditEntry, elst_entry, entry_count, open};
use mse_base::{Ticks, convert};

/// The greatest number of edits that a track may have.
const MOST_EDITS: u32 = 1000;

/// The greatest number of ticks that a track may begin later than the movie.
const MOST_SHIFT: i128 = 1 << 109;

/// Where the presentation of a track begins.
#[derive(Clone, Copy, Debug, PartialEq, Eq)]
pub struct Shifts {
    /// The time of its media.
    pub media: i64,
    /// How much later than the movie.
    pub empty: Ticks,
}

/// Where a track begins that has no edits.
fn no_shift() -> Shifts
    ensures { result ≡ record { media = pos 0; empty = pos 0 } }
{
    Shifts {
        media: 0,
        empty: Ticks::zero(),
    }
}

/// The bytes of an entry of an edit list.
fn edit_len(elst: &[u8]) -> usize
    ensures { result ≡ edit_len elst.now }
{
    match elst {
        [1, ..] => 20,
        _ => 12,
    }
}

fn is_empty_edit(edit: &EditEntry) -> bool
    ensures { result ≡ is_empty_edit edit.now }
{
    edit.media_time == -1
}

fn is_media_edit(edit: &EditEntry) -> bool
    ensures { result ≡ is_media_edit edit.now }
{
    edit.media_time >= 0 && edit.rate == 1 && edit.fraction == 0
}

/// How many empty edits an edit list begins with, and how long they last.
fn empty_edits(elst: &[u8], count: u32) -> (u32, u128)
    requires { count ≤ 1000 }
    ensures value { (edits : List EditEntry) → edits_from elst.now 0 count ≡ Ok edits
        → (result.0 ≡ prefix_len is_empty_edit edits) × (result.1 ≡ empty_duration edits) }
    ensures few { result.0 ≤ count }
    ensures small { result.1 ≤ result.0 * 2 ^ 64 }
{
    let mut len = 0;
    let mut duration = 0;
    while len < count {
        let Some(edit) = elst_entry(elst, len) else {
            break;
        };
        if !is_empty_edit(&edit) {
            break;
        }
        duration += u128::from(edit.duration);
        len += 1;
    }
    (len, duration)
}

/// How much later than the movie a track begins whose empty edits last so long, in the movie's timescale.
fn empty_shift(scale: u32, duration: u128) -> Result<Ticks, InitFault>
    requires positive { 1 ≤ scale }
    requires small { duration ≤ 1000 * 2 ^ 64 }
    ensures { result ≡ empty_shift_of scale duration }
{
    match convert(duration as i128, scale) {
        Some(shift) if shift.get() <= MOST_SHIFT => Ok(shift),
        _ => Err(InitFault::EditList),
    }
}

/// The media time of an edit, which has to present the media.
fn media_time_in(edit: &EditEntry) -> Result<i64, InitFault>
    ensures { result ≡ media_time_of (edit.now ∷ []) }
{
    if is_media_edit(edit) {
        Ok(edit.media_time)
    } else {
        Err(InitFault::EditList)
    }
}

/// The media time of the edit at a place, which has to be the last, and to present the media.
fn media_time(elst: &[u8], count: u32, place: u32) -> Result<i64, InitFault>
    requires within { place ≤ count }
    requires few { count ≤ 1000 }
    ensures { (edits : List EditEntry) → edits_from elst.now 0 count ≡ Ok edits
        → result ≡ media_time_of (drop place edits) }
{
    if place + 1 != count {
        return Err(InitFault::EditList);
    }
    match elst_entry(elst, place) {
        Some(edit) => media_time_in(&edit),
        None => Err(InitFault::EditList),
    }
}

/// Both shifts, or the fault of the first that has one.
fn both_shifts(
    media: Result<i64, InitFault>,
    empty: Result<Ticks, InitFault>,
) -> Result<Shifts, InitFault>
    ensures { result ≡ both_shifts media empty }
{
    let media = media?;
    let empty = empty?;
    Ok(Shifts { media, empty })
}

/// How many entries an edit list (8.6.6) has.
#[tactic(auto, unfolding(crate::specs::Edits::edit_count_of))]
fn read_edit_count(elst: &[u8]) -> Result<u32, InitFault>
    ensures value { result ≡ edit_count_of elst.now }
    ensures entries_there { IfOk result (λ count. 8 + count * edit_len elst.now ≤ length elst.now) }
    ensures few { IfOk result (λ count. count ≤ 1000) }
{
    let count = entry_count(elst).ok_or(InitFault::Size)?;
    if elst.len() < 8 + count as usize * edit_len(elst) {
        return Err(InitFault::Size);
    }
    if count > MOST_EDITS {
        return Err(InitFault::EditList);
    }
    Ok(count)
}

/// Reads the entries of an edit list.
fn read_edits(scale: u32, elst: &[u8], count: u32) -> Result<Shifts, InitFault>
    requires positive { 1 ≤ scale }
    requires entries_there { 8 + count * edit_len elst.now ≤ length elst.now }
    requires few { count ≤ 1000 }
    ensures { result ≡ shifts_of scale (edits_from elst.now 0 count) }
{
    if count == 0 {
        return Ok(no_shift());
    }
    let (place, duration) = empty_edits(elst, count);
    both_shifts(media_time(elst, count, place), empty_shift(scale, duration))
}

/// Reads an edit list (8.6.6).
fn read_list(scale: u32, elst: &[u8]) -> Result<Shifts, InitFault>
    requires { 1 ≤ scale }
    ensures { result ≡ shifts_in_list scale (Some elst.now) }
{
    let count = read_edit_count(elst)?;
    read_edits(scale, elst, count)
}

/// Where a track begins by its edit box (8.6.5), if it has one, in a movie of this timescale. There is no shift
/// without an edit box, without an edit list in it, and by a list of no entries. `Size` comes where the boxes or
/// the entries do not fit, and `EditList` where there are more than 1000 entries or they are no empty edits and
/// then one that presents the media at their own rate, at most 2^109 ticks late.
pub fn read_shifts(scale: u32, edts: Option<&[u8]>) -> Result<Shifts, InitFault>
    requires { 1 ≤ scale }
    ensures { result ≡ shifts_in scale (option_copied edts.entry) }
{
    let Some(edts) = edts else {
        return Ok(no_shift());
    };
    let boxes = open(edts).ok_or(InitFault::Size)?;
    match boxes.first(*b"elst") {
        Some(elst) => read_list(scale, elst),
        None => Ok(no_shift()),
    }
}
