ghost use Rattle.std.specs.Prelude.{◌≡◌, ◌++◌, OnOk, IfOk};
ghost use Rattle.bmff_write.specs.Tracks.{AreTrafsOut};
ghost use Rattle.bmff_write.specs.Fragment.{segment_bytes};

use crate::fragment::{moof_size, payload_size, put_mdat, put_moof};
use crate::traf_out::TrafOut;
use mse_base::{Bytes, OutOfMemory};
use std::alloc::{AllocError, Global};

/// Appends a media segment of one movie fragment.
#[tactic(auto, unfolding(crate::specs::Fragment::segment_bytes))]
pub(crate) fn put_segment(
    out: &mut Vec<u8>,
    sequence: u32,
    trafs: &[TrafOut],
) -> Result<(), AllocError>
    requires { AreTrafsOut trafs.now }
    ensures { OnOk result (out.new.items ≡ out.old.items ++ segment_bytes sequence trafs.now) }
{
    put_moof(out, sequence, trafs)?;
    put_mdat(out, trafs)
}

/// A media segment (ISO BMFF byte stream format, section 4): a movie fragment box of this sequence number and
/// these track fragments, and a media data box with the bytes of their samples in the same order.
///
/// There are 1 to 2^16 track fragments, with at most 2^19 samples and at most 2^26 bytes in all.
pub fn write_segment(alloc: Global, sequence: u32, trafs: &[TrafOut]) -> Result<Bytes, OutOfMemory>
    requires trafs { AreTrafsOut trafs.now }
    ensures { IfOk result (λ bytes. bytes ≡ segment_bytes sequence trafs.now) }
{
    let len = moof_size(trafs) + 8 + payload_size(trafs);
    let mut out = Vec::with_capacity(alloc, len)?;
    put_segment(&mut out, sequence, trafs)?;
    Bytes::from_vec(alloc, out)
}
