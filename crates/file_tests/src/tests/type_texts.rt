use super::rows::{expect, expect_at};
use mse_types::*;

/// Each text without quotes, with its answer.
static TEXTS: [(&str, TypeAnswer); 42] = [
    ("", TypeAnswer::Empty),
    ("video/mp4", TypeAnswer::Supported(Container::Mp4)),
    ("audio/mp4", TypeAnswer::Supported(Container::Mp4)),
    ("audio/aac", TypeAnswer::Supported(Container::Adts)),
    ("VIDEO/mP4", TypeAnswer::Supported(Container::Mp4)),
    ("Audio/AAC", TypeAnswer::Supported(Container::Adts)),
    (" video/mp4", TypeAnswer::Unsupported),
    ("video/mp4 ", TypeAnswer::Unsupported),
    ("video/mp", TypeAnswer::Unsupported),
    ("video/mp42", TypeAnswer::Unsupported),
    ("video/webm", TypeAnswer::Unsupported),
    ("video/aac", TypeAnswer::Unsupported),
    ("text/mp4", TypeAnswer::Unsupported),
    ("video/mp4;", TypeAnswer::Unsupported),
    ("video/mp4; ", TypeAnswer::Unsupported),
    (
        "video/mp4;codecs=avc1",
        TypeAnswer::Supported(Container::Mp4),
    ),
    (
        "video/mp4  ;   codecs=avc1",
        TypeAnswer::Supported(Container::Mp4),
    ),
    ("video/mp4;\tcodecs=avc1", TypeAnswer::Unsupported),
    ("video/mp4\t;codecs=avc1", TypeAnswer::Unsupported),
    ("video/mp4 codecs=avc1", TypeAnswer::Unsupported),
    ("video/mp4;;codecs=avc1", TypeAnswer::Unsupported),
    ("video/mp4; Codecs=avc1", TypeAnswer::Unsupported),
    ("video/mp4; codecs =avc1", TypeAnswer::Unsupported),
    ("video/mp4; codecs= avc1", TypeAnswer::Unsupported),
    ("video/mp4; codecs", TypeAnswer::Unsupported),
    ("video/mp4; codecs=", TypeAnswer::Unsupported),
    ("video/mp4; codecs=avc1 ", TypeAnswer::Unsupported),
    (
        "video/mp4; codecs=avc1.4d401e",
        TypeAnswer::Supported(Container::Mp4),
    ),
    (
        "video/mp4; codecs=avc1.",
        TypeAnswer::Supported(Container::Mp4),
    ),
    (
        "video/mp4; codecs=avc1..1",
        TypeAnswer::Supported(Container::Mp4),
    ),
    ("video/mp4; codecs=.avc1", TypeAnswer::Unsupported),
    ("video/mp4; codecs=avc1;", TypeAnswer::Unsupported),
    ("video/mp4; codecs=avc1,mp4a", TypeAnswer::Unsupported),
    ("video/mp4; codecs='avc1'", TypeAnswer::Unsupported),
    ("video/mp4; codecs=AVC1", TypeAnswer::Unsupported),
    ("video/mp4; codecs=avc2", TypeAnswer::Unsupported),
    ("video/mp4; codecs=avc12", TypeAnswer::Unsupported),
    ("video/mp4; codecs=encv", TypeAnswer::Unsupported),
    (
        "audio/mp4; codecs=opus",
        TypeAnswer::Supported(Container::Mp4),
    ),
    (
        "audio/aac; codecs=mp4a",
        TypeAnswer::Supported(Container::Adts),
    ),
    ("video/mp4; codecs=\u{e9}", TypeAnswer::Unsupported),
    ("vid\u{e9}o/mp4", TypeAnswer::Unsupported),
];

#[test]
fn types(rt: HostRuntime) {
    for (text, answer) in &TEXTS {
        expect(&rt, text, read_type(text) == *answer);
    }
}

/// Each text with quotes, with its answer.
static QUOTED: [(&str, TypeAnswer); 24] = [
    ("video/mp4; codecs=\"\"", TypeAnswer::Unsupported),
    ("video/mp4; codecs=\"", TypeAnswer::Unsupported),
    (
        "video/mp4; codecs=\"avc1\"",
        TypeAnswer::Supported(Container::Mp4),
    ),
    (
        "video/mp4; codecs=\"avc1,mp4a\"",
        TypeAnswer::Supported(Container::Mp4),
    ),
    (
        "video/mp4; codecs=\"avc1.4d401e, mp4a.40.2\"",
        TypeAnswer::Supported(Container::Mp4),
    ),
    (
        "video/mp4; codecs=\"  avc1.4d401e  ,  mp4a  \"",
        TypeAnswer::Supported(Container::Mp4),
    ),
    (
        "video/mp4; codecs=\"avc1. 4d,mp4a\"",
        TypeAnswer::Supported(Container::Mp4),
    ),
    ("video/mp4; codecs=\"avc1 .4d\"", TypeAnswer::Unsupported),
    ("video/mp4; codecs=\"av c1\"", TypeAnswer::Unsupported),
    ("video/mp4; codecs=\"avc1\t\"", TypeAnswer::Unsupported),
    ("video/mp4; codecs=\"avc1,,mp4a\"", TypeAnswer::Unsupported),
    ("video/mp4; codecs=\"avc1,\"", TypeAnswer::Unsupported),
    ("video/mp4; codecs=\",avc1\"", TypeAnswer::Unsupported),
    ("video/mp4; codecs=\" \"", TypeAnswer::Unsupported),
    ("video/mp4; codecs=\"avc1\" ", TypeAnswer::Unsupported),
    ("video/mp4; codecs=\"avc1\";a=b", TypeAnswer::Unsupported),
    ("video/mp4; codecs=\"avc1\"\"", TypeAnswer::Unsupported),
    (
        "video/mp4; codecs=\"avc1\",\"mp4a\"",
        TypeAnswer::Unsupported,
    ),
    ("video/mp4; codecs=avc1\"", TypeAnswer::Unsupported),
    (
        "video/mp4; codecs=\"avc1, theora\"",
        TypeAnswer::Unsupported,
    ),
    (
        "video/mp4; codecs=\"theora, avc1\"",
        TypeAnswer::Unsupported,
    ),
    (
        "video/mp4; codecs=\"avc3,hvc1.1,hev1,av01.0,vp09,Opus,opus,fLaC,flac,ac-3,ec-3\"",
        TypeAnswer::Supported(Container::Mp4),
    ),
    ("video/mp4; codecs=\"Flac\"", TypeAnswer::Unsupported),
    (
        "audio/aac; codecs=\"mp4a.40.2\"",
        TypeAnswer::Supported(Container::Adts),
    ),
];

#[test]
fn types_with_quotes(rt: HostRuntime) {
    for (text, answer) in &QUOTED {
        expect(&rt, text, read_type(text) == *answer);
    }
}

/// Types of sample entries, and whether they are known.
static SAMPLE_ENTRIES: [([u8; 4], bool); 5] = [
    (*b"avc1", true),
    (*b"Opus", true),
    (*b"opus", false),
    (*b"flac", false),
    (*b"encv", false),
];

#[test]
fn sample_entries(rt: HostRuntime) {
    for (i, (codec, known)) in SAMPLE_ENTRIES.iter().enumerate() {
        expect_at(&rt, i, codec_known(*codec) == *known);
    }
}
