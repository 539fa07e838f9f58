ghost use Rattle.std.specs.Prelude.{◌≡◌};
ghost use Rattle.buffer_state.specs.Faults.{init_number, moof_number, stream_number, adts_number, media_number, fault_number, stream_inner, fault_inner, init_missing, stream_missing, fault_missing, fault_view};

use bmff_fragment::MoofFault;
use bmff_init::InitFault;
use byte_stream::{AdtsFault, ByteFault, StreamFault};
use mse_calls::FaultView;
use track_buffers::MediaFault;

/// Why an append breaks off (Media Source Extensions, 3.5.3, append error).
#[derive(Clone, Copy, Debug, PartialEq, Eq)]
pub enum Fault {
    /// The bytes break their byte stream format.
    Bytes(ByteFault),
    /// The media cannot take what they bring.
    Media(MediaFault),
}

/// The number of a fault of a movie box, 1 to 8.
pub fn init_number(fault: InitFault) -> u8
    ensures { result ≡ init_number fault }
{
    match fault {
        InitFault::Size => 1,
        InitFault::Missing(_) => 2,
        InitFault::HasSamples => 3,
        InitFault::NoMvex => 4,
        InitFault::EditList => 5,
        InitFault::ZeroTimescale => 6,
        InitFault::DuplicateTrack => 7,
        InitFault::TooManyTracks => 8,
    }
}

fn moof_number(fault: MoofFault) -> u8
    ensures { result ≡ moof_number fault }
{
    match fault {
        MoofFault::Size => 1,
        MoofFault::NoTraf => 2,
        MoofFault::NoTfhd => 3,
        MoofFault::NoTfdt => 4,
        MoofFault::BaseOffset => 5,
        MoofFault::UnknownTrack => 6,
        MoofFault::TooManySamples => 7,
        MoofFault::Place => 8,
    }
}

fn stream_number(fault: StreamFault) -> u8
    ensures { result ≡ stream_number fault }
{
    match fault {
        StreamFault::SizeZero => 1,
        StreamFault::BoxSize => 2,
        StreamFault::TooLarge => 3,
        StreamFault::MoovPlace => 4,
        StreamFault::MoofPlace => 5,
        StreamFault::NoInit => 6,
        StreamFault::InSegment => 7,
        StreamFault::OutsideMdat => 8,
        StreamFault::Init(_) => 9,
        StreamFault::Moof(_) => 10,
    }
}

fn adts_number(fault: AdtsFault) -> u8
    ensures { result ≡ adts_number fault }
{
    match fault {
        AdtsFault::Sync => 15,
        AdtsFault::Rate => 16,
        AdtsFault::Length => 17,
    }
}

fn media_number(fault: MediaFault) -> u8
    ensures { result ≡ media_number fault }
{
    match fault {
        MediaFault::NoTracks => 11,
        MediaFault::UnknownCodec => 12,
        MediaFault::TracksDiffer => 13,
        MediaFault::TimeRange => 14,
        MediaFault::Counts => 18,
    }
}

fn stream_inner(fault: StreamFault) -> u8
    ensures { result ≡ stream_inner fault }
{
    match fault {
        StreamFault::Init(fault) => init_number(fault),
        StreamFault::Moof(fault) => moof_number(fault),
        _ => 0,
    }
}

const NO_BOX: [u8; 4] = [0, 0, 0, 0];

/// The type of the box that is missing; four zero bytes for another fault.
pub fn init_missing(fault: InitFault) -> [u8; 4]
    ensures { result ≡ init_missing fault }
{
    match fault {
        InitFault::Missing(kind) => kind,
        _ => NO_BOX,
    }
}

fn stream_missing(fault: StreamFault) -> [u8; 4]
    ensures { result ≡ stream_missing fault }
{
    match fault {
        StreamFault::Init(fault) => init_missing(fault),
        _ => NO_BOX,
    }
}

fn fault_number(fault: Fault) -> u8
    ensures { result ≡ fault_number fault }
{
    match fault {
        Fault::Bytes(ByteFault::Segments(fault)) => stream_number(fault),
        Fault::Bytes(ByteFault::Frames(fault)) => adts_number(fault),
        Fault::Media(fault) => media_number(fault),
    }
}

fn fault_inner(fault: Fault) -> u8
    ensures { result ≡ fault_inner fault }
{
    match fault {
        Fault::Bytes(ByteFault::Segments(fault)) => stream_inner(fault),
        _ => 0,
    }
}

fn fault_missing(fault: Fault) -> [u8; 4]
    ensures { result ≡ fault_missing fault }
{
    match fault {
        Fault::Bytes(ByteFault::Segments(fault)) => stream_missing(fault),
        _ => NO_BOX,
    }
}

/// What a view shows of a fault of the buffer of a number, at an offset in its string, in bytes.
pub(crate) fn fault_view(fault: Fault, buffer: u32, offset: u64) -> FaultView
    ensures { result ≡ fault_view fault buffer offset }
{
    FaultView {
        number: fault_number(fault),
        inner: fault_inner(fault),
        missing: fault_missing(fault),
        buffer,
        offset,
    }
}
