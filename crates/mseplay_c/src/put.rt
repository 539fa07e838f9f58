//! What is printed, in the room of the caller.

ghost use Rattle.std.specs.Prelude.{◌≡◌, ◌++◌, length, take, drop};

/// Puts a text into the room from its start on, as much as there is room for. What lies behind it stays.
pub(crate) fn put(text: &[u8], room: &mut [u8])
    ensures { room.new ≡ take (length room.old) text.now ++ drop (length text.now) room.old }
{
    let count = text.len().min(room.len());
    room[..count].copy_from_slice(&text[..count]);
}
