ghost use Rattle.std.specs.Prelude.{◌≡◌, ℕ, length, ◌≤◌, IfSome};
ghost use Rattle.std.specs.Option.{option_copied};
ghost use Rattle.bmff_boxes.specs.Children.{payload_of};
ghost use Rattle.bmff_boxes.specs.Headers.{header_of, header_of_len, IsHeaderWithin};

use crate::box_header::{HeadFault, Header};
use crate::child::{Child, Children};
use byteorder::{BigEndian, ByteOrder};

fn whole_header(kind: [u8; 4], head: u64, len: u64) -> Header
    requires { 8 ≤ head }
    ensures value { result ≡ header_of_len kind head len }
    ensures within { (n : ℕ) → head ≤ n → IsHeaderWithin n result }
{
    if len < head {
        Header::Bad(HeadFault::BoxSize)
    } else {
        Header::Whole { kind, head, len }
    }
}

/// The header at the front of the bytes. `Short` comes exactly where bytes of the header are missing: fewer
/// than 8, or fewer than 16 where the size 1 announces that the size stands in bytes 8 to 15.
#[tactic(auto, unfolding(crate::specs::Headers::header_of))]
pub fn header(bytes: &[u8]) -> Header
    ensures value { result ≡ header_of bytes.now }
    ensures within { IsHeaderWithin (length bytes.now) result }
{
    if bytes.len() < 8 {
        return Header::Short;
    }
    let kind = [bytes[4], bytes[5], bytes[6], bytes[7]];
    let size = BigEndian::read_u32(bytes);
    if size == 0 {
        return Header::Bad(HeadFault::SizeZero);
    }
    if size == 1 {
        if bytes.len() < 16 {
            return Header::Short;
        }
        let large_size = BigEndian::read_u64(&bytes[8..]);
        return whole_header(kind, 16, large_size);
    }
    whole_header(kind, 8, u64::from(size))
}

/// A walker over the child boxes of a payload, which stands before the first of them.
pub fn children<'a>(payload: &'a [u8]) -> Children<'a>
    ensures { result.rest.now ≡ payload.now }
{
    Children { rest: payload }
}

/// The payload of the box at the front of the bytes, or `None` exactly where no whole box stands there.
pub fn payload<'a>(bytes: &'a [u8]) -> Option<&'a [u8]>
    ensures value { option_copied result ≡ payload_of bytes.now }
    ensures within { IfSome result (λ payload. length payload.now ≤ length bytes.now) }
{
    match children(bytes).next() {
        Child::Found { payload, .. } => Some(payload),
        Child::End => None,
        Child::Uneven => None,
    }
}
