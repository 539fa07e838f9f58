//! Movie fragment boxes.

use super::super::boxes::{DEPENDS, FROM_MOOF, Part, RUN, SYNC, V1};
use bmff_fragment::MoofFault;

/// Five samples of 1000 units and 4 bytes.
pub(super) const FIVE_FRAMES: &[Part] = &[
    Part::Box(168, b"moof", &[]),
    Part::Box(16, b"mfhd", &[0, 1]),
    Part::Box(144, b"traf", &[]),
    Part::Box(16, b"tfhd", &[FROM_MOOF, 1]),
    Part::Box(20, b"tfdt", &[V1, 0, 0]),
    Part::Box(100, b"trun", &[RUN, 5, 176]),
    Part::Numbers(&[1000, 4, SYNC, 0]),
    Part::Numbers(&[1000, 4, DEPENDS, 0]),
    Part::Numbers(&[1000, 4, DEPENDS, 0]),
    Part::Numbers(&[1000, 4, DEPENDS, 0]),
    Part::Numbers(&[1000, 4, DEPENDS, 0]),
];

/// One sample of 400000 units at decode time 17672256000000000.
pub(super) const FAR_AWAY: &[Part] = &[
    Part::Box(104, b"moof", &[]),
    Part::Box(16, b"mfhd", &[0, 1]),
    Part::Box(80, b"traf", &[]),
    Part::Box(16, b"tfhd", &[FROM_MOOF, 1]),
    Part::Box(20, b"tfdt", &[V1, 0x003E_C8D2, 0xBD42_8000]),
    Part::Box(36, b"trun", &[RUN, 1, 112, 400_000, 4, SYNC, 0]),
];

/// The composition offset -100.
const EARLIER: u32 = 0xFFFF_FF9C;

/// Six samples of 100 units, with composition offsets; the first and the fifth are sync samples.
pub(super) const REORDERED: &[Part] = &[
    Part::Box(184, b"moof", &[]),
    Part::Box(16, b"mfhd", &[0, 1]),
    Part::Box(160, b"traf", &[]),
    Part::Box(16, b"tfhd", &[FROM_MOOF, 1]),
    Part::Box(20, b"tfdt", &[V1, 0, 0]),
    Part::Box(116, b"trun", &[RUN, 6, 192]),
    Part::Numbers(&[100, 4, SYNC, 0]),
    Part::Numbers(&[100, 4, DEPENDS, 200]),
    Part::Numbers(&[100, 4, DEPENDS, EARLIER]),
    Part::Numbers(&[100, 4, DEPENDS, EARLIER]),
    Part::Numbers(&[100, 4, SYNC, 0]),
    Part::Numbers(&[100, 4, DEPENDS, 0]),
];

/// One sample of 100 units at decode time 300.
pub(super) const ONE_LATER_FRAME: &[Part] = &[
    Part::Box(104, b"moof", &[]),
    Part::Box(16, b"mfhd", &[0, 1]),
    Part::Box(80, b"traf", &[]),
    Part::Box(16, b"tfhd", &[FROM_MOOF, 1]),
    Part::Box(20, b"tfdt", &[V1, 0, 300]),
    Part::Box(36, b"trun", &[RUN, 1, 112, 100, 4, SYNC, 0]),
];

/// Two samples of 1000 units from decode time 4000 on.
pub(super) const TWO_LONG_FRAMES: &[Part] = &[
    Part::Box(120, b"moof", &[]),
    Part::Box(16, b"mfhd", &[0, 1]),
    Part::Box(96, b"traf", &[]),
    Part::Box(16, b"tfhd", &[FROM_MOOF, 1]),
    Part::Box(20, b"tfdt", &[V1, 0, 4000]),
    Part::Box(52, b"trun", &[RUN, 2, 128]),
    Part::Numbers(&[1000, 4, SYNC, 0]),
    Part::Numbers(&[1000, 4, DEPENDS, 0]),
];

/// Two sync samples of 1024 units.
pub(super) const TWO_SYNC_FRAMES: &[Part] = &[
    Part::Box(120, b"moof", &[]),
    Part::Box(16, b"mfhd", &[0, 1]),
    Part::Box(96, b"traf", &[]),
    Part::Box(16, b"tfhd", &[FROM_MOOF, 1]),
    Part::Box(20, b"tfdt", &[V1, 0, 0]),
    Part::Box(52, b"trun", &[RUN, 2, 128]),
    Part::Numbers(&[1024, 4, SYNC, 0]),
    Part::Numbers(&[1024, 4, SYNC, 0]),
];

/// One sync sample of 1024 units at decode time 512.
pub(super) const ONE_AUDIO_FRAME: &[Part] = &[
    Part::Box(104, b"moof", &[]),
    Part::Box(16, b"mfhd", &[0, 1]),
    Part::Box(80, b"traf", &[]),
    Part::Box(16, b"tfhd", &[FROM_MOOF, 1]),
    Part::Box(20, b"tfdt", &[V1, 0, 512]),
    Part::Box(36, b"trun", &[RUN, 1, 112, 1024, 4, SYNC, 0]),
];

/// Three samples of 3000 units, each with the composition offset 3000.
pub(super) const SHIFTED: &[Part] = &[
    Part::Box(136, b"moof", &[]),
    Part::Box(16, b"mfhd", &[0, 1]),
    Part::Box(112, b"traf", &[]),
    Part::Box(16, b"tfhd", &[FROM_MOOF, 1]),
    Part::Box(20, b"tfdt", &[V1, 0, 0]),
    Part::Box(68, b"trun", &[RUN, 3, 144]),
    Part::Numbers(&[3000, 4, SYNC, 3000]),
    Part::Numbers(&[3000, 4, DEPENDS, 3000]),
    Part::Numbers(&[3000, 4, DEPENDS, 3000]),
];

/// A run of version 0 with first sample flags, and two samples with flags and the composition offset 0xFFFFFFFF.
pub(super) const UNSIGNED_OFFSETS: &[Part] = &[
    Part::Box(104, b"moof", &[]),
    Part::Box(96, b"traf", &[]),
    Part::Box(28, b"tfhd", &[0x0002_0038, 1, 7, 3, 0x10000]),
    Part::Box(20, b"tfdt", &[V1, 0, 0]),
    Part::Box(40, b"trun", &[0x0000_0C05, 2, 256, SYNC]),
    Part::Numbers(&[0x10000, 0xFFFF_FFFF]),
    Part::Numbers(&[0x10000, 0xFFFF_FFFF]),
];

/// The same run in version 1.
pub(super) const SIGNED_OFFSETS: &[Part] = &[
    Part::Box(104, b"moof", &[]),
    Part::Box(96, b"traf", &[]),
    Part::Box(28, b"tfhd", &[0x0002_0038, 1, 7, 3, 0x10000]),
    Part::Box(20, b"tfdt", &[V1, 0, 0]),
    Part::Box(40, b"trun", &[0x0100_0C05, 2, 256, SYNC]),
    Part::Numbers(&[0x10000, 0xFFFF_FFFF]),
    Part::Numbers(&[0x10000, 0xFFFF_FFFF]),
];

/// Five track fragments: two of track 1 whose places count from the data before; one of track 2 at 100 from there; one
/// of track 1 with three runs; and one of track 1 whose places count from the moof.
pub(super) const BASES: &[Part] = &[
    Part::Box(352, b"moof", &[]),
    Part::Box(60, b"traf", &[]),
    Part::Box(16, b"tfhd", &[0, 1]),
    Part::Box(20, b"tfdt", &[V1, 0, 100]),
    Part::Box(16, b"trun", &[0, 2]),
    Part::Box(60, b"traf", &[]),
    Part::Box(16, b"tfhd", &[0, 1]),
    Part::Box(20, b"tfdt", &[V1, 0, 100]),
    Part::Box(16, b"trun", &[0, 1]),
    Part::Box(64, b"traf", &[]),
    Part::Box(16, b"tfhd", &[0, 2]),
    Part::Box(20, b"tfdt", &[V1, 0, 0]),
    Part::Box(20, b"trun", &[1, 2, 100]),
    Part::Box(100, b"traf", &[]),
    Part::Box(16, b"tfhd", &[0, 1]),
    Part::Box(20, b"tfdt", &[V1, 0, 200]),
    Part::Box(20, b"trun", &[1, 1, 10]),
    Part::Box(16, b"trun", &[0, 1]),
    Part::Box(20, b"trun", &[1, 1, 0xFFFF_FFE7]),
    Part::Box(60, b"traf", &[]),
    Part::Box(16, b"tfhd", &[FROM_MOOF, 1]),
    Part::Box(20, b"tfdt", &[V1, 0, 0]),
    Part::Box(16, b"trun", &[0, 1]),
];

/// A run of `2^20` samples without fields.
pub(super) static MOST_SAMPLES: &[Part] = &[
    Part::Box(84, b"moof", &[]),
    Part::Box(16, b"mfhd", &[0, 1]),
    Part::Box(60, b"traf", &[]),
    Part::Box(16, b"tfhd", &[FROM_MOOF, 1]),
    Part::Box(20, b"tfdt", &[V1, 0, 0]),
    Part::Box(16, b"trun", &[0, 1 << 20]),
];

/// An empty run at -8, and a run at 0.
pub(super) const EMPTY_RUN_BEFORE: &[Part] = &[
    Part::Box(92, b"moof", &[]),
    Part::Box(84, b"traf", &[]),
    Part::Box(16, b"tfhd", &[FROM_MOOF, 1]),
    Part::Box(20, b"tfdt", &[V1, 0, 0]),
    Part::Box(20, b"trun", &[1, 0, 0xFFFF_FFF8]),
    Part::Box(20, b"trun", &[1, 1, 0]),
];

/// Movie fragments and their first fault, in the order of reading; many have another fault that would come later.
pub(super) static FAULTS: [(&[Part], MoofFault); 20] = [
    (&[Part::Box(12, b"moof", &[0])], MoofFault::Size),
    (
        &[
            Part::Box(19, b"moof", &[]),
            Part::Box(11, b"traf", &[]),
            Part::Bytes(&[0; 3]),
        ],
        MoofFault::Size,
    ),
    (
        &[
            Part::Box(32, b"moof", &[]),
            Part::Box(24, b"traf", &[]),
            Part::Box(16, b"tfhd", &[1, 9]),
        ],
        MoofFault::Size,
    ),
    (
        &[
            Part::Box(48, b"moof", &[]),
            Part::Box(40, b"traf", &[]),
            Part::Box(16, b"tfhd", &[FROM_MOOF, 1]),
            Part::Box(16, b"tfdt", &[V1, 0]),
        ],
        MoofFault::Size,
    ),
    (
        &[
            Part::Box(68, b"moof", &[]),
            Part::Box(60, b"traf", &[]),
            Part::Box(16, b"tfhd", &[FROM_MOOF, 1]),
            Part::Box(20, b"tfdt", &[V1, 0, 0]),
            Part::Box(16, b"trun", &[1, 0]),
        ],
        MoofFault::Size,
    ),
    (
        &[
            Part::Box(76, b"moof", &[]),
            Part::Box(68, b"traf", &[]),
            Part::Box(16, b"tfhd", &[FROM_MOOF, 1]),
            Part::Box(20, b"tfdt", &[V1, 0, 0]),
            Part::Box(24, b"trun", &[0x201, 2, 0xFFFF_FFFF, 4]),
        ],
        MoofFault::Size,
    ),
    (&[Part::Box(8, b"moof", &[])], MoofFault::NoTraf),
    (
        &[Part::Box(24, b"moof", &[]), Part::Box(16, b"mfhd", &[0, 1])],
        MoofFault::NoTraf,
    ),
    (
        &[Part::Box(16, b"moof", &[]), Part::Box(8, b"traf", &[])],
        MoofFault::NoTfhd,
    ),
    (
        &[
            Part::Box(36, b"moof", &[]),
            Part::Box(28, b"traf", &[]),
            Part::Box(20, b"tfdt", &[V1, 0, 0]),
        ],
        MoofFault::NoTfhd,
    ),
    (
        &[
            Part::Box(32, b"moof", &[]),
            Part::Box(24, b"traf", &[]),
            Part::Box(16, b"tfhd", &[FROM_MOOF, 1]),
        ],
        MoofFault::NoTfdt,
    ),
    (
        &[
            Part::Box(40, b"moof", &[]),
            Part::Box(32, b"traf", &[]),
            Part::Box(24, b"tfhd", &[1, 9, 0, 0]),
        ],
        MoofFault::BaseOffset,
    ),
    (
        &[
            Part::Box(32, b"moof", &[]),
            Part::Box(24, b"traf", &[]),
            Part::Box(16, b"tfhd", &[FROM_MOOF, 9]),
        ],
        MoofFault::UnknownTrack,
    ),
    // 2^32 - 1 samples without fields, in 84 bytes
    (
        &[
            Part::Box(84, b"moof", &[]),
            Part::Box(16, b"mfhd", &[0, 1]),
            Part::Box(60, b"traf", &[]),
            Part::Box(16, b"tfhd", &[FROM_MOOF, 1]),
            Part::Box(20, b"tfdt", &[V1, 0, 0]),
            Part::Box(16, b"trun", &[0, 0xFFFF_FFFF]),
        ],
        MoofFault::TooManySamples,
    ),
    // one sample more than 2^20
    (
        &[
            Part::Box(84, b"moof", &[]),
            Part::Box(16, b"mfhd", &[0, 1]),
            Part::Box(60, b"traf", &[]),
            Part::Box(16, b"tfhd", &[FROM_MOOF, 1]),
            Part::Box(20, b"tfdt", &[V1, 0, 0]),
            Part::Box(16, b"trun", &[0, 0x10_0001]),
        ],
        MoofFault::TooManySamples,
    ),
    (
        &[
            Part::Box(68, b"moof", &[]),
            Part::Box(60, b"traf", &[]),
            Part::Box(16, b"tfhd", &[FROM_MOOF, 1]),
            Part::Box(20, b"tfdt", &[V1, 0, 0]),
            Part::Box(16, b"trun", &[0x200, 0xFFFF_FFFF]),
        ],
        MoofFault::TooManySamples,
    ),
    // 2^20 samples of track 2, an empty run of track 1, and a run of one sample
    (
        &[
            Part::Box(144, b"moof", &[]),
            Part::Box(60, b"traf", &[]),
            Part::Box(16, b"tfhd", &[FROM_MOOF, 2]),
            Part::Box(20, b"tfdt", &[V1, 0, 0]),
            Part::Box(16, b"trun", &[0, 1 << 20]),
            Part::Box(76, b"traf", &[]),
            Part::Box(16, b"tfhd", &[FROM_MOOF, 1]),
            Part::Box(20, b"tfdt", &[V1, 0, 0]),
            Part::Box(16, b"trun", &[0, 0]),
            Part::Box(16, b"trun", &[0, 1]),
        ],
        MoofFault::TooManySamples,
    ),
    (
        &[
            Part::Box(72, b"moof", &[]),
            Part::Box(64, b"traf", &[]),
            Part::Box(16, b"tfhd", &[FROM_MOOF, 1]),
            Part::Box(20, b"tfdt", &[V1, 0, 0]),
            Part::Box(20, b"trun", &[1, 1, 0xFFFF_FFFF]),
        ],
        MoofFault::Place,
    ),
    (
        &[
            Part::Box(72, b"moof", &[]),
            Part::Box(64, b"traf", &[]),
            Part::Box(16, b"tfhd", &[FROM_MOOF, 2]),
            Part::Box(20, b"tfdt", &[V1, 0, 0]),
            Part::Box(20, b"trun", &[1, 1, 0xFFFF_FFFF]),
        ],
        MoofFault::Place,
    ),
    (
        &[
            Part::Box(88, b"moof", &[]),
            Part::Box(80, b"traf", &[]),
            Part::Box(16, b"tfhd", &[FROM_MOOF, 1]),
            Part::Box(20, b"tfdt", &[V1, 0, 0]),
            Part::Box(20, b"trun", &[1, 0, 0xFFFF_FFF8]),
            Part::Box(16, b"trun", &[0, 1]),
        ],
        MoofFault::Place,
    ),
];
