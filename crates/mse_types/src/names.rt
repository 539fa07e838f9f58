ghost use Rattle.std.specs.Prelude.{◌≡◌, Option};
ghost use Rattle.std.specs.Str.{str_to_ascii_lowercase};
ghost use Rattle.mse_types.specs.Names.{container_of, codec_names, sample_entries, is_among};

use crate::answer::Container;

const CODECS: [[u8; 4]; 13] = [
    *b"avc1", *b"avc3", *b"hvc1", *b"hev1", *b"av01", *b"vp09", *b"mp4a", *b"Opus", *b"opus",
    *b"fLaC", *b"flac", *b"ac-3", *b"ec-3",
];

const SAMPLE_ENTRIES: [[u8; 4]; 11] = [
    *b"avc1", *b"avc3", *b"hvc1", *b"hev1", *b"av01", *b"vp09", *b"mp4a", *b"Opus", *b"fLaC",
    *b"ac-3", *b"ec-3",
];

/// Whether a source buffer takes tracks with this sample entry (ISO/IEC 14496-12, 8.5.2).
pub fn codec_known(codec: [u8; 4]) -> bool
    ensures { result ≡ is_among sample_entries codec }
{
    SAMPLE_ENTRIES.iter().any(|entry| *entry == codec)
}

/// Whether a codecs parameter may name this codec.
pub(crate) fn is_codec_name(name: &[u8]) -> bool
    ensures { result ≡ is_among codec_names name.now }
{
    CODECS.iter().any(|codec| name == codec.as_slice())
}

/// The container of a media type, which may be written in letters of either case.
pub(crate) fn container(essence: &[u8]) -> Option<Container>
    ensures { result ≡ container_of (str_to_ascii_lowercase essence.now) }
{
    if essence.eq_ignore_ascii_case(b"video/mp4") || essence.eq_ignore_ascii_case(b"audio/mp4") {
        Some(Container::Mp4)
    } else if essence.eq_ignore_ascii_case(b"audio/aac") {
        Some(Container::Adts)
    } else {
        None
    }
}
