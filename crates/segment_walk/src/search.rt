ghost use Rattle.std.specs.Prelude.{◌≡◌, is_some, IfSome};
ghost use Rattle.std.specs.List.{prefix_len};
ghost use Rattle.segment_walk.specs.Moves.{is_in_ranges, is_ready};
ghost use Rattle.segment_walk.specs.Ranges.{IsCoveredRange, AreRangesAscending};

use crate::kinds::DataRange;
use bmff_fragment::Slot;

/// The data range in which a slot lies, by binary search.
fn range_of(known: &[DataRange], slot: &Slot) -> Option<DataRange>
    requires { AreRangesAscending known.now }
    ensures found { is_some result ≡ is_in_ranges known.now slot.now }
    ensures among { IfSome result (IsCoveredRange known.now) }
{
    let begun_count = known.partition_point(|range| range.start <= slot.start);
    if begun_count == 0 {
        return None;
    }
    let range = known[begun_count - 1];
    if slot.end <= range.end {
        Some(range)
    } else {
        None
    }
}

/// As `range_of`; the range `near` is looked at first.
fn range_near(near: DataRange, known: &[DataRange], slot: &Slot) -> Option<DataRange>
    requires ascending { AreRangesAscending known.now }
    requires among { IsCoveredRange known.now near }
    ensures found { is_some result ≡ is_in_ranges known.now slot.now }
    ensures among { IfSome result (IsCoveredRange known.now) }
{
    if near.start <= slot.start && slot.end <= near.end {
        return Some(near);
    }
    range_of(known, slot)
}

/// Whether a slot lies inside one of the data ranges.
pub(crate) fn is_in_ranges(known: &[DataRange], slot: &Slot) -> bool
    requires { AreRangesAscending known.now }
    ensures { result ≡ is_in_ranges known.now slot.now }
{
    range_of(known, slot).is_some()
}

/// How many of the slots in front lie inside one of the data ranges and end within the first `there` bytes. Mostly
/// they lie in one range.
pub fn count_ready(slots: &[Slot], known: &[DataRange], there: u64) -> usize
    requires { AreRangesAscending known.now }
    ensures { result ≡ prefix_len (is_ready there known.now) slots.now }
{
    let Some(first) = known.first() else {
        return 0;
    };
    let mut near = *first;
    let mut count = 0;
    for slot in slots {
        let Some(range) = range_near(near, known, slot) else {
            return count;
        };
        if there < slot.end {
            return count;
        }
        near = range;
        count += 1;
    }
    count
}
