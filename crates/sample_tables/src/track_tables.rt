ghost use Rattle.std.specs.Prelude.{◌≡◌, ◌≤◌, ◌^◌, [], length, IfOk, IfSome};
ghost use Rattle.std.specs.Option.{option_copied};
ghost use Rattle.std.specs.Result.{result_map_both};
ghost use lib.Chars.{codes};
ghost use Rattle.bmff_boxes.specs.Children.{Box, child_of};
ghost use Rattle.bmff_boxes.specs.Reading.{Gives};
ghost use Rattle.sample_tables.specs.Facts.{IsDescription};
ghost use Rattle.sample_tables.specs.Movies.{sample_table_in, description_in, description_payload, description_codec, track_tables};

use crate::box_place::first_place;
use crate::reading::read_tables;
use crate::tables::SampleTables;
use bmff_boxes::{Child, Row, children, open};
use bmff_init::{InitError, InitFault, read_codec, read_media};
use mse_base::Bytes;
use std::alloc::Global;

/// The payload of the sample table box (ISO/IEC 14496-12, 8.5.1) in a media box.
fn sample_table_in<'a>(media: &Row<'a>) -> Result<&'a [u8], InitFault>
    ensures { result_map_both (λ s. s.now) (λ fault. fault) result ≡ sample_table_in media.now }
{
    let minf = media.first(*b"minf").ok_or(InitFault::Missing(*b"minf"))?;
    let information = open(minf).ok_or(InitFault::Size)?;
    information
        .first(*b"stbl")
        .ok_or(InitFault::Missing(*b"stbl"))
}

/// The sample description box (8.5.2) in a sample table box, with its header.
fn description_in<'a>(stbl: &'a [u8]) -> Result<&'a [u8], InitFault>
    ensures { result_map_both (λ s. s.now) (λ fault. fault) result ≡ description_in stbl.now }
{
    match first_place(stbl, *b"stsd") {
        Ok(Some(place)) => Ok(&stbl[place.start..place.end]),
        Ok(None) => Err(InitFault::Missing(*b"stsd")),
        Err(_) => Err(InitFault::Missing(*b"stsd")),
    }
}

/// The payload of a whole sample description box.
fn description_payload<'a>(stsd: &'a [u8]) -> Option<&'a [u8]>
    ensures value { option_copied result ≡ description_payload (child_of stsd.now) }
    ensures whole { IfSome result
        (λ payload. child_of stsd.now ≡ (Box (codes "stsd") payload.now, [])) }
{
    let mut walk = children(stsd);
    match walk.next() {
        Child::Found { kind, payload } => {
            if walk.rest.is_empty() && kind == *b"stsd" {
                Some(payload)
            } else {
                None
            }
        }
        Child::End => None,
        Child::Uneven => None,
    }
}

/// The type of the first sample entry of a whole sample description box.
fn description_codec(stsd: &[u8]) -> Result<[u8; 4], InitFault>
    ensures value { result ≡ description_codec stsd.now }
    ensures described { IfOk result (λ codec. IsDescription codec stsd.now) }
{
    let payload = description_payload(stsd).ok_or(InitFault::Size)?;
    read_codec(payload)
}

/// What is read of the sample table box of a track.
#[derive(Drop)]
pub struct TrackTables {
    /// The sample description box with its header.
    pub stsd: Bytes,
    /// The type of its first sample entry.
    pub codec: [u8; 4],
    /// The tables.
    pub tables: SampleTables,
}

/// Reads the sample table box of a track box.
#[tactic(auto, unfolding(crate::specs::Movies::track_tables))]
pub(crate) fn read_track_tables(alloc: Global, trak: &[u8]) -> Result<TrackTables, InitError>
    ensures value { Gives (λ read. read) result (track_tables trak.now) }
    ensures few { IfOk result (λ read. length read.tables.chunk_offsets ≤ 2 ^ 32) }
    ensures described { IfOk result (λ read. IsDescription read.codec read.stsd) }
{
    let track = open(trak).ok_or(InitFault::Size)?;
    let media = read_media(&track)?;
    let stbl = sample_table_in(&media)?;
    let boxes = open(stbl).ok_or(InitFault::Size)?;
    let tables = read_tables(alloc, &boxes)?;
    let whole = description_in(stbl)?;
    let codec = description_codec(whole)?;
    let Ok(stsd) = Bytes::copy_of(alloc, whole) else {
        return Err(InitError::OutOfMemory);
    };
    Ok(TrackTables {
        stsd,
        codec,
        tables,
    })
}
