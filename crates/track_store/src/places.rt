//! Look-ups in a list of frames, for stores that keep one: each goes through the list.

ghost use Rattle.std.specs.Prelude.{◌≡◌};
ghost use Rattle.std.specs.List.{position};
ghost use Rattle.track_store.specs.Frames.{group_start_of, has_serial};

use crate::Stored;

/// The place of the frame of a serial; `None` exactly where no frame has it.
pub fn place_of(frames: &[Stored], serial: u64) -> Option<usize>
    ensures { result ≡ position (has_serial serial) frames.now }
{
    frames.iter().position(|stored| stored.serial == serial)
}

/// The place of the last random access point at or before a place; `None` exactly where there is
/// none.
pub fn group_start(frames: &[Stored], i: usize) -> Option<usize>
    ensures { result ≡ group_start_of i frames.now }
{
    let mut place = frames.len();
    if i < place {
        place = i + 1;
    }
    while place > 0 {
        place -= 1;
        if frames[place].frame.sync {
            return Some(place);
        }
    }
    None
}
