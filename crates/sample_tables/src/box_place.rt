ghost use Rattle.std.specs.Prelude.{◌≡◌, ◌≤◌, length, IfOk, IfSome};
ghost use Rattle.sample_tables.specs.BoxPlaces.{first_after, first_place};

use bmff_boxes::{Child, children};

/// Where a whole box stands in bytes.
#[derive(Clone, Copy)]
pub struct BoxPlace {
    /// Its type.
    pub kind: [u8; 4],
    /// The place of the first byte of its header.
    pub start: usize,
    /// The place behind its last byte.
    pub end: usize,
}

/// The first box of a type of those before and a next one.
fn first_after(first: Option<BoxPlace>, kind: [u8; 4], next: BoxPlace) -> Option<BoxPlace>
    ensures { result ≡ first_after first kind next }
{
    match first {
        Some(place) => Some(place),
        None => { if next.kind == kind { Some(next) } else { None } }
    }
}

/// Where the first box of a type stands, if there is one; or the first place at which bytes are left that do not
/// begin with a whole box.
pub(crate) fn first_place(bytes: &[u8], kind: [u8; 4]) -> Result<Option<BoxPlace>, usize>
    ensures value { result ≡ first_place kind bytes.now }
    ensures order { IfOk result (λ found. IfSome found (λ place. place.start ≤ place.end)) }
    ensures within { IfOk result (λ found. IfSome found (λ place.
        place.end ≤ length bytes.now)) }
{
    let mut walk = children(bytes);
    let mut first = None;
    'boxes: loop {
        let start = bytes.len() - walk.rest.len();
        match walk.next() {
            Child::Found {
                kind: child_kind,
                ..
            } => {
                let end = bytes.len() - walk.rest.len();
                let next = BoxPlace {
                    kind: child_kind,
                    start,
                    end,
                };
                first = first_after(first, kind, next);
            }
            Child::End => return Ok(first),
            Child::Uneven => return Err(start),
        }
    }
}
