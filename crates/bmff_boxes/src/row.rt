ghost use Rattle.std.specs.Prelude.{◌≡◌, ◌+◌, [], ◌∷◌, length, IfNone, IfSome, IsSome, is_some};
ghost use Rattle.std.specs.Option.{option_copied};
ghost use Rattle.bmff_boxes.specs.Rows.{row_of, first_of, boxes_in};

use crate::child::Child;
use crate::readers::children;
use std::marker::Model;

/// A box of a row.
#[derive(Clone, Copy, Debug)]
pub struct BoxIn<'a> {
    /// Its type.
    pub kind: [u8; 4],
    /// The bytes behind its header.
    pub payload: &'a [u8],
}

/// The boxes that are left of a row of whole boxes.
#[derive(Debug, Drop)]
pub struct Row<'a> {
    rest: &'a [u8],
}

impl<'a> Model for Row<'a> {
    ghost use Rattle.std.specs.Prelude.{List, IsSome};
    ghost use Rattle.bmff_boxes.specs.Rows.{BoxView, row_of, boxes_in};

    ghost Value = { List BoxView };

    ghost view = { λ r. boxes_in r.rest.now };

    ghost invariant = { λ r. IsSome (row_of r.rest.now) };
}

/// Whether the bytes are a row of whole boxes.
fn is_row(bytes: &[u8]) -> bool
    ensures { result ≡ is_some (row_of bytes.now) }
{
    let mut walk = children(bytes);
    'boxes: loop {
        match walk.next() {
            Child::Found { .. } => {}
            Child::End => return true,
            Child::Uneven => return false,
        }
    }
}

/// The row of boxes that a payload is, or `None` exactly where it is no row of whole boxes. It goes over the
/// payload once.
pub fn open<'a>(payload: &'a [u8]) -> Option<Row<'a>>
    ensures { result ≡ row_of payload.now }
{
    if is_row(payload) {
        Some(Row { rest: payload })
    } else {
        None
    }
}

impl<'a> Row<'a> {
    /// The next box, which leaves the row, or `None` exactly where no box is left.
    pub fn next(&mut self) -> Option<BoxIn<'a>>
        ensures none { IfNone result ((self.old ≡ []) × (self.new ≡ [])) }
        ensures some { IfSome result (λ b. self.old
            ≡ (record { kind = b.kind; payload = b.payload.now }) ∷ self.new) }
        ensures shorter { IfSome result (λ b. length self.old ≡ length self.new + 1) }
    {
        let mut walk = children(self.rest);
        match walk.next() {
            Child::Found { kind, payload } => {
                self.rest = walk.rest;
                Some(BoxIn { kind, payload })
            }
            Child::End => None,
            Child::Uneven => None,
        }
    }

    /// The payload of the first box of a type, or `None` exactly where the row has none.
    pub fn first(&self, kind: [u8; 4]) -> Option<&'a [u8]>
        ensures { option_copied result ≡ first_of kind self.now }
    {
        first_in(self.rest, kind)
    }
}

fn first_in<'a>(bytes: &'a [u8], kind: [u8; 4]) -> Option<&'a [u8]>
    requires { IsSome (row_of bytes.now) }
    ensures { option_copied result ≡ first_of kind (boxes_in bytes.now) }
{
    let mut walk = children(bytes);
    'boxes: loop {
        match walk.next() {
            Child::Found {
                kind: child_kind,
                payload,
            } => {
                if child_kind == kind {
                    return Some(payload);
                }
            }
            Child::End => return None,
            Child::Uneven => return None,
        }
    }
}
