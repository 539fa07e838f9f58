ghost use Rattle.std.specs.Prelude.{◌≡◌, ◌+◌, ◌<◌, ◌≤◌, ◌^◌};
ghost use Rattle.bmff_boxes.specs.Fields.{field, signed_field, version_of, flags_of, is_version, optional_len, optional_field};

use byteorder::{BigEndian, ByteOrder};

/// The four bytes at `at` as a number, or `None` exactly where the payload ends before.
#[tactic(auto, unfolding(crate::specs::Fields::field))]
pub(crate) fn u32_at(p: &[u8], at: usize) -> Option<u32>
    requires { at < 2 ^ 63 }
    ensures { result ≡ field 4 at p.now }
{
    if p.len() < at + 4 {
        return None;
    }
    Some(BigEndian::read_u32(&p[at..]))
}

/// The eight bytes at `at` as a number, or `None` exactly where the payload ends before.
#[tactic(auto, unfolding(crate::specs::Fields::field))]
pub(crate) fn u64_at(p: &[u8], at: usize) -> Option<u64>
    requires { at < 2 ^ 63 }
    ensures { result ≡ field 8 at p.now }
{
    if p.len() < at + 8 {
        return None;
    }
    Some(BigEndian::read_u64(&p[at..]))
}

/// The two bytes at `at` as a signed number, or `None` exactly where the payload ends before.
#[tactic(auto, unfolding(crate::specs::Fields::field))]
pub(crate) fn i16_at(p: &[u8], at: usize) -> Option<i16>
    requires { at < 2 ^ 63 }
    ensures { result ≡ signed_field 2 at p.now }
{
    if p.len() < at + 2 {
        return None;
    }
    Some(BigEndian::read_i16(&p[at..]))
}

/// The four bytes at `at` as a signed number, or `None` exactly where the payload ends before.
#[tactic(auto, unfolding(crate::specs::Fields::field))]
pub(crate) fn i32_at(p: &[u8], at: usize) -> Option<i32>
    requires { at < 2 ^ 63 }
    ensures { result ≡ signed_field 4 at p.now }
{
    if p.len() < at + 4 {
        return None;
    }
    Some(BigEndian::read_i32(&p[at..]))
}

/// The eight bytes at `at` as a signed number, or `None` exactly where the payload ends before.
#[tactic(auto, unfolding(crate::specs::Fields::field))]
pub(crate) fn i64_at(p: &[u8], at: usize) -> Option<i64>
    requires { at < 2 ^ 63 }
    ensures { result ≡ signed_field 8 at p.now }
{
    if p.len() < at + 8 {
        return None;
    }
    Some(BigEndian::read_i64(&p[at..]))
}

/// A field of four bytes as a number of 64 bits.
pub(crate) fn wide_u32_at(p: &[u8], at: usize) -> Option<u64>
    requires { at < 2 ^ 63 }
    ensures { result ≡ field 4 at p.now }
{
    match u32_at(p, at) {
        Some(value) => Some(u64::from(value)),
        None => None,
    }
}

/// The version of a full box, or `None` exactly where the payload is empty.
#[tactic(auto, unfolding(crate::specs::Fields::field))]
pub fn version(p: &[u8]) -> Option<u8>
    ensures { result ≡ version_of p.now }
{
    p.first().copied()
}

/// The flags of a full box, or `None` exactly where the payload has fewer than four bytes.
#[tactic(auto, unfolding(crate::specs::Fields::field))]
pub fn flags(p: &[u8]) -> Option<u32>
    ensures { result ≡ flags_of p.now }
{
    if p.len() < 4 {
        return None;
    }
    Some(BigEndian::read_u24(&p[1..]))
}

/// Whether the payload begins with this version.
pub(crate) fn has_version(p: &[u8], version: u8) -> bool
    ensures { result ≡ is_version version p.now }
{
    match p {
        [first, ..] => *first == version,
        [] => version == 0,
    }
}

/// How many bytes a field of `len` bytes takes that is there where its flag is set.
pub(crate) fn optional_len(flags: u32, flag: u32, len: usize) -> usize
    ensures value { result ≡ optional_len flags flag len }
    ensures at_most { result ≤ len }
{
    if flags & flag == 0 { 0 } else { len }
}

/// A field of four bytes that is there where its flag is set.
pub(crate) fn optional_u32(p: &[u8], flags: u32, flag: u32, at: usize) -> Option<Option<u32>>
    requires { at < 2 ^ 63 }
    ensures { result ≡ optional_field flags flag 4 at p.now }
{
    if flags & flag == 0 {
        return Some(None);
    }
    match u32_at(p, at) {
        Some(value) => Some(Some(value)),
        None => None,
    }
}

/// A field of eight bytes that is there where its flag is set.
pub(crate) fn optional_u64(p: &[u8], flags: u32, flag: u32, at: usize) -> Option<Option<u64>>
    requires { at < 2 ^ 63 }
    ensures { result ≡ optional_field flags flag 8 at p.now }
{
    if flags & flag == 0 {
        return Some(None);
    }
    match u64_at(p, at) {
        Some(value) => Some(Some(value)),
        None => None,
    }
}
