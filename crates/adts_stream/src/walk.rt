ghost use Rattle.std.specs.Prelude.{◌≡◌, ◌+◌, ◌-◌, ◌<◌, ◌≤◌, ◌^◌, take, drop, length, false, true, Some};
ghost use Rattle.std.specs.List.{concat};
ghost use Rattle.parser_loop.specs.Walk.{settled_state};
ghost use Rattle.adts_stream.specs.declared.position.ParsePoint.TheVariants.{InTag};
ghost use Rattle.adts_stream.specs.Headers.{found_at};
ghost use Rattle.adts_stream.specs.Frames.{has_rate};
ghost use Rattle.adts_stream.specs.Walk.{adts};
ghost use Rattle.adts_stream.specs.Values.{IsNextItem, IsMoveTo, state_of};
ghost use Rattle.adts_stream.specs.Streams.{kept_with};

use crate::header::{Found, MOST, judge};
use crate::position::{NextItem, ParsePoint, ParsePosition};
use input_chunks::Chunks;
use mse_base::Presentation;

/// What stands at the front of the input.
pub(crate) fn found_in(input: &Chunks) -> Found
    ensures { result ≡ found_at (concat input.now) }
{
    let mut front = [0; MOST];
    let len = input.len();
    if len >= MOST {
        input.read(0, &mut front);
        return judge(&front);
    }
    let (part, _) = front.split_at_mut(len);
    input.read(0, part);
    judge(part)
}

/// Whether there is a presentation whose track has this many samples in a second.
fn has_rate(last: &Option<Presentation>, rate: u32) -> bool
    ensures { result ≡ has_rate last.now rate }
{
    let Some(last) = last else {
        return false;
    };
    match last.tracks.as_slice().first() {
        Some(track) => track.scale == rate,
        None => false,
    }
}

/// Passes over the bytes of a tag that are there; `false` where none is.
fn pass_tag(position: &mut ParsePosition, len_left: u64, input: &mut Chunks) -> bool
    requires in_tag { position.old.point ≡ InTag len_left }
    requires unfailed { position.old.failed ≡ false }
    requires bounded { position.old.offset + length (concat input.old) < 2 ^ 62 }
    ensures one_move { (last : _) →
        IsMoveTo (state_of last position.old (concat input.old))
        (state_of last position.new (concat input.new)) result }
    ensures total { position.new.offset + length (concat input.new)
        ≡ position.old.offset + length (concat input.old) }
    ensures unfailed { position.new.failed ≡ false }
{
    let there = input.len() as u64;
    if len_left <= there {
        input.drop_front(len_left as usize);
        position.offset += len_left;
        position.point = ParsePoint::AtHeader;
        return true;
    }
    if there == 0 {
        return false;
    }
    input.drop_front(there as usize);
    position.offset += there;
    position.point = ParsePoint::InTag(len_left - there);
    true
}

/// One move of the parser on its way to the next item; `false` where there is none.
fn move_on(last: &Option<Presentation>, position: &mut ParsePosition, input: &mut Chunks) -> bool
    requires unfailed { position.old.failed ≡ false }
    requires bounded { position.old.offset + length (concat input.old) < 2 ^ 62 }
    ensures one_move { IsMoveTo (state_of last.now position.old (concat input.old))
        (state_of last.now position.new (concat input.new)) result }
    ensures total { position.new.offset + length (concat input.new)
        ≡ position.old.offset + length (concat input.old) }
    ensures unfailed { position.new.failed ≡ false }
{
    match position.point {
        ParsePoint::AtHeader => match found_in(input) {
            Found::Tag(len) => {
                position.point = ParsePoint::InTag(len);
                true
            }
            Found::Frame(header) => {
                if !has_rate(last, header.rate) {
                    return false;
                }
                position.point = ParsePoint::AtFrame(header);
                true
            }
            Found::Nothing => false,
            Found::Fault(_) => false,
        },
        ParsePoint::InTag(len_left) => pass_tag(position, len_left, input),
        ParsePoint::AtFrame(_) => false,
        ParsePoint::AtEnd(_) => false,
    }
}

/// Runs the parser on to the next item, or as far as the bytes go. It takes no memory.
pub(crate) fn settle_on(
    last: &Option<Presentation>,
    position: &mut ParsePosition,
    input: &mut Chunks,
)
    requires unfailed { position.old.failed ≡ false }
    requires bounded { position.old.offset + length (concat input.old) < 2 ^ 62 }
    ensures settled { state_of last.now position.new (concat input.new)
        ≡ settled_state adts (state_of last.now position.old (concat input.old)) }
    ensures total { position.new.offset + length (concat input.new)
        ≡ position.old.offset + length (concat input.old) }
{
    'moves: loop {
        let has_moved = move_on(last, position, input);
        if !has_moved {
            return;
        }
    }
}

/// Appends to the string the last `len` bytes of the input; behind a fault they are let go. It takes no memory.
pub(crate) fn accept_on(
    last: &Option<Presentation>,
    position: &mut ParsePosition,
    input: &mut Chunks,
    len: usize,
)
    requires inside { len ≤ length (concat input.old) }
    requires bounded { position.old.offset + length (concat input.old) < 2 ^ 62 }
    ensures kept { state_of last.now position.new (concat input.new)
        ≡ kept_with (state_of last.now position.old
        (take (length (concat input.old) - len) (concat input.old)))
        (drop (length (concat input.old) - len) (concat input.old)) }
    ensures total { position.new.offset + length (concat input.new)
        ≤ position.old.offset + length (concat input.old) }
{
    if position.failed {
        input.drop_back(len);
        return;
    }
    settle_on(last, position, input);
}

/// The next item.
pub(crate) fn next_item_of(
    last: &Option<Presentation>,
    position: ParsePosition,
    input: &Chunks,
) -> NextItem
    ensures { IsNextItem (state_of last.now position (concat input.now)) result }
{
    if position.failed {
        return NextItem::Dry;
    }
    let there = input.len() as u64;
    match position.point {
        ParsePoint::AtHeader => match found_in(input) {
            Found::Frame(header) => if has_rate(last, header.rate) {
                NextItem::Dry
            } else {
                NextItem::Init(header)
            },
            Found::Fault(fault) => NextItem::Fault(fault),
            Found::Nothing => NextItem::Dry,
            Found::Tag(_) => NextItem::Dry,
        },
        ParsePoint::InTag(_) => NextItem::Dry,
        ParsePoint::AtFrame(header) => if there < header.len {
            NextItem::Dry
        } else {
            NextItem::Frame(header)
        },
        ParsePoint::AtEnd(header) => if there < header.len {
            NextItem::Dry
        } else {
            NextItem::End(header)
        },
    }
}
