ghost use Rattle.std.specs.Prelude.{◌≡◌, ◌<◌, ◌+◌, ◌^◌, ◌++◌, OnOk, replicate};
ghost use Rattle.bmff_write.specs.Boxes.{field_bytes, fields_bytes, fields_len, header_bytes, box_of};

use std::alloc::AllocError;

/// A field of a box (ISO/IEC 14496-12, 4.2). Its numbers are written big-endian.
#[derive(Clone, Copy, Debug)]
pub enum Field {
    /// The version of a full box, and its flags, which are below 2^24.
    Full(u8, u32),
    /// A number of 16 bits.
    U16(u16),
    /// A number of 32 bits.
    U32(u32),
    /// A signed number of 32 bits, in two's complement.
    I32(i32),
    /// A number of 64 bits.
    U64(u64),
    /// Four characters.
    Code([u8; 4]),
    /// This many bytes of value 0.
    Zeros(usize),
}

/// Appends bytes of value 0.
fn put_zeros(out: &mut Vec<u8>, n: usize) -> Result<(), AllocError>
    ensures { OnOk result (out.new.items ≡ out.old.items ++ replicate n 0) }
{
    for _i in 0..n {
        out.extend_from_slice(&[0])?;
    }
    Ok(())
}

/// Appends a field.
#[tactic(auto, unfolding(crate::specs::Boxes::field_bytes))]
fn put_field(out: &mut Vec<u8>, field: Field) -> Result<(), AllocError>
    ensures { OnOk result (out.new.items ≡ out.old.items ++ field_bytes field) }
{
    match field {
        Field::Full(version, flags) => {
            let flags = flags.to_be_bytes();
            out.extend_from_slice(&[version, flags[1], flags[2], flags[3]])
        }
        Field::U16(number) => out.extend_from_slice(&number.to_be_bytes()),
        Field::U32(number) => out.extend_from_slice(&number.to_be_bytes()),
        Field::I32(number) => out.extend_from_slice(&number.to_be_bytes()),
        Field::U64(number) => out.extend_from_slice(&number.to_be_bytes()),
        Field::Code(code) => out.extend_from_slice(&code),
        Field::Zeros(n) => put_zeros(out, n),
    }
}

/// Appends fields.
#[tactic(auto, unfolding(crate::specs::Boxes::fields_bytes))]
pub(crate) fn put_fields(out: &mut Vec<u8>, fields: &[Field]) -> Result<(), AllocError>
    ensures { OnOk result (out.new.items ≡ out.old.items ++ fields_bytes fields.now) }
{
    for field in fields {
        put_field(out, *field)?;
    }
    Ok(())
}

/// Appends the header of a box of `len` bytes, which count its header too.
#[tactic(auto, unfolding(crate::specs::Boxes::header_bytes))]
pub(crate) fn put_header(out: &mut Vec<u8>, len: usize, kind: &[u8; 4]) -> Result<(), AllocError>
    requires { len < 2 ^ 32 }
    ensures { OnOk result (out.new.items ≡ out.old.items ++ header_bytes len kind.now) }
{
    let size = len as u32;
    out.extend_from_slice(&size.to_be_bytes())?;
    out.extend_from_slice(kind)
}

/// Appends a box of `len` bytes that consists of fields.
pub(crate) fn put_box(
    out: &mut Vec<u8>,
    len: usize,
    kind: &[u8; 4],
    fields: &[Field],
) -> Result<(), AllocError>
    requires size { len ≡ 8 + fields_len fields.now }
    requires limit { len < 2 ^ 32 }
    ensures { OnOk result (out.new.items ≡ out.old.items ++ box_of kind.now fields.now) }
{
    put_header(out, len, kind)?;
    put_fields(out, fields)
}
