ghost use Rattle.std.specs.Prelude.{◌≡◌, ◌+◌, ◌-◌, ◌*◌, ◌/◌, ◌%◌, ◌^◌, ◌<◌, ◌≤◌, pos, length, slice_get};
ghost use Rattle.mse_base.specs.Time.{media_ticks};
ghost use Rattle.adts_stream.specs.Headers.{bits, sampling_frequencies, frame_found, id3_length, found_at};

use crate::next::AdtsFault;
use byteorder::{BigEndian, ByteOrder};
use mse_base::{Ticks, convert};

/// What the header of a frame tells: how many samples make a second, how long its samples last, and how many
/// bytes the frame has, with its header.
#[derive(Clone, Copy, Debug, PartialEq, Eq)]
pub(crate) struct FrameHeader {
    pub(crate) rate: u32,
    pub(crate) duration: Ticks,
    pub(crate) len: u64,
}

/// What stands where a frame or a tag must stand.
#[derive(Clone, Copy, Debug, PartialEq, Eq)]
pub(crate) enum Found {
    /// Bytes are missing.
    Nothing,
    /// A tag of so many bytes.
    Tag(u64),
    /// Neither a tag nor a frame that can be read.
    Fault(AdtsFault),
    /// A frame, whether or not it is whole.
    Frame(FrameHeader),
}

/// How many bytes of a tag or a frame tell what it is.
pub(crate) const MOST: usize = 10;

const SYNC_WORD: u64 = 0xfff;

/// Samples in a second, by the index of the sampling frequency.
const RATES: [u32; 13] = [
    96000, 88200, 64000, 48000, 44100, 32000, 24000, 22050, 16000, 12000, 11025, 8000, 7350,
];

/// The number in the `width` bits from bit `at` on of the 56 of a header, the highest first.
fn bits(header: u64, at: u32, width: u32) -> u64
    requires { at + width ≤ 56 }
    ensures { result ≡ bits at width header }
{
    (header >> (56 - (at + width))) % (1 << width)
}

/// The sampling frequency of an index.
fn rate(index: u64) -> Option<u32>
    ensures { result ≡ slice_get sampling_frequencies index }
{
    RATES.get(index as usize).copied()
}

/// How long so many raw data blocks of 1024 samples last.
fn duration(blocks: u64, rate: u32) -> Ticks
    requires four { blocks ≤ 4 }
    requires positive { 1 ≤ rate }
    ensures { result ≡ media_ticks (pos (1024 * blocks)) rate }
{
    convert(i128::from(1024 * blocks), rate).unwrap()
}

/// The frame of a header, or what is wrong with it.
#[tactic(auto, unfolding(crate::specs::Headers::frame_found))]
fn frame_found(header: u64) -> Found
    ensures { result ≡ frame_found header }
{
    if bits(header, 0, 12) != SYNC_WORD || bits(header, 13, 2) != 0 {
        return Found::Fault(AdtsFault::Sync);
    }
    let Some(rate) = rate(bits(header, 18, 4)) else {
        return Found::Fault(AdtsFault::Rate);
    };
    let blocks = bits(header, 54, 2) + 1;
    let is_protected = bits(header, 15, 1) == 0;
    let head = if is_protected {
        9 + 2 * (blocks - 1)
    } else {
        7
    };
    let len = bits(header, 30, 13);
    if len < head {
        return Found::Fault(AdtsFault::Length);
    }
    Found::Frame(FrameHeader {
        rate,
        duration: duration(blocks, rate),
        len,
    })
}

/// How many bytes an ID3v2 tag has, by the ten of its header.
#[tactic(auto, unfolding(crate::specs::Headers::id3_length))]
fn id3_length(bytes: &[u8]) -> u64
    requires { 10 ≤ length bytes.now }
    ensures value { result ≡ id3_length bytes.now }
    ensures bound { result < 2 ^ 29 }
{
    let high = u64::from(bytes[6] % 128) * 128 + u64::from(bytes[7] % 128);
    let size = (high * 128 + u64::from(bytes[8] % 128)) * 128 + u64::from(bytes[9] % 128);
    let footer = if bytes[5] / 16 % 2 == 1 { 10 } else { 0 };
    10 + size + footer
}

/// What stands at the front of the bytes: no more than ten of them matter.
#[tactic(auto, unfolding(crate::specs::Headers::found_at))]
pub(crate) fn judge(bytes: &[u8]) -> Found
    ensures { result ≡ found_at bytes.now }
{
    if bytes.len() < 3 {
        return Found::Nothing;
    }
    let first = [bytes[0], bytes[1], bytes[2]];
    if first == *b"ID3" {
        if bytes.len() < 10 {
            return Found::Nothing;
        }
        return Found::Tag(id3_length(bytes));
    }
    if first == *b"TAG" {
        return Found::Tag(128);
    }
    if bytes.len() < 7 {
        return Found::Nothing;
    }
    frame_found(BigEndian::read_uint(bytes, 7))
}
