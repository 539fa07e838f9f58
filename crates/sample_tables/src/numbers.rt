ghost use Rattle.std.specs.Prelude.{◌≡◌, ◌+◌, ◌≤◌, length};
ghost use Rattle.bmff_boxes.specs.Fields.{signed_number};
ghost use Rattle.sample_tables.specs.Tables.{number_at};

use byteorder::{BigEndian, ByteOrder};

/// The four bytes at `at` as a number.
pub(crate) fn u32_at(p: &[u8], at: usize) -> u32
    requires { at + 4 ≤ length p.now }
    ensures { result ≡ number_at 4 at p.now }
{
    BigEndian::read_u32(&p[at..])
}

/// The four bytes at `at` as a signed number.
pub(crate) fn i32_at(p: &[u8], at: usize) -> i32
    requires { at + 4 ≤ length p.now }
    ensures { result ≡ signed_number 4 (number_at 4 at p.now) }
{
    BigEndian::read_i32(&p[at..])
}

/// The eight bytes at `at` as a number.
pub(crate) fn u64_at(p: &[u8], at: usize) -> u64
    requires { at + 8 ≤ length p.now }
    ensures { result ≡ number_at 8 at p.now }
{
    BigEndian::read_u64(&p[at..])
}
