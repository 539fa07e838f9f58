ghost use Rattle.std.specs.Prelude.{◌≡◌, length};
ghost use Rattle.bmff_boxes.specs.Children.{child_of, child_view, IsRestAfterChild};

use crate::box_header::Header;
use crate::readers::header;

/// What a walker over the boxes of a payload finds.
#[derive(Clone, Copy, Debug)]
pub enum Child<'a> {
    /// A whole box: its type, and the bytes behind its header.
    Found { kind: [u8; 4], payload: &'a [u8] },
    /// No byte is left.
    End,
    /// Bytes are left that do not begin with a whole box.
    Uneven,
}

/// A walker over the boxes of a payload.
#[derive(Clone, Copy, Debug)]
pub struct Children<'a> {
    /// The bytes that are not yet walked over.
    pub rest: &'a [u8],
}

impl<'a> Children<'a> {
    /// The next box. The walker then stands behind it. At `End` and at `Uneven` it stays where it is.
    #[tactic(auto, unfolding(crate::specs::Children::child_of))]
    pub fn next(&mut self) -> Child<'a>
        ensures value { (child_view result, self.new.rest.now) ≡ child_of self.old.rest.now }
        ensures rest_len { IsRestAfterChild (length self.old.rest.now) (length self.new.rest.now)
            result }
    {
        let bytes = self.rest;
        if bytes.is_empty() {
            return Child::End;
        }
        match header(bytes) {
            Header::Whole { kind, head, len } => {
                if (bytes.len() as u64) < len {
                    return Child::Uneven;
                }
                let (whole, rest) = bytes.split_at(len as usize);
                self.rest = rest;
                Child::Found {
                    kind,
                    payload: &whole[head as usize..],
                }
            }
            _ => Child::Uneven,
        }
    }
}
