//! Tags at their edges: letters and their neighbours, bytes 0 and 255, weights at the stop.
use kinds::{EntryKind, Log, Tags, filled_bytes, folded_tag};

/// A tag, what it folds to, and how many of its bytes aren't zero.
const SPELLINGS: [(u64, u64, u32); 10] = [
    (0, 0, 0),
    (u64::MAX, u64::MAX, 8),
    // A and Z, first and last
    (0x4100_0000_0000_005a, 0x6100_0000_0000_007a, 2),
    // @ and [, a and z
    (0x405b_405b_405b_405b, 0x405b_405b_405b_405b, 8),
    (0x617a_617a_617a_617a, 0x617a_617a_617a_617a, 8),
    // ABCDEFGH
    (0x4142_4344_4546_4748, 0x6162_6364_6566_6768, 8),
    // letters between bytes 0 and 255
    (0xff41_00ff_41ff_005a, 0xff61_00ff_61ff_007a, 6),
    // A and Z, 128 higher
    (0xc1da_c1da_c1da_c1da, 0xc1da_c1da_c1da_c1da, 8),
    // bytes 1, 127, 128 and 129
    (0x0100_8000_7f00_8100, 0x0100_8000_7f00_8100, 4),
    (0x8000_0000_0000_0001, 0x8000_0000_0000_0001, 2),
];

/// Two tags, and whether they are the same.
const PAIRS: [(u64, u64, bool); 6] = [
    (0x4100_0000_0000_0000, 0x6100_0000_0000_0000, true),
    (0x5a, 0x7a, true),
    (0x40, 0x60, false),
    (0x5b, 0x7b, false),
    (0xc1, 0xe1, false),
    (0x4100, 0x41, false),
];

/// A tag, a log's length, and their weight.
const WEIGHTS: [(u64, u32, u32); 6] = [
    (0, 0, 0),
    (0x4100, 5, 6),
    (0x4142_4344_4546_4748, u32::MAX - 9, u32::MAX - 1),
    (0x4142_4344_4546_4748, u32::MAX - 8, u32::MAX),
    (0x4142_4344_4546_4748, u32::MAX - 7, u32::MAX),
    (0x4142_4344_4546_4748, u32::MAX, u32::MAX),
];

#[test]
fn tags_fold_and_count_byte_by_byte(rt: HostRuntime) {
    for (tag, folded, filled) in SPELLINGS {
        assert_eq!(rt; folded_tag(tag), folded);
        assert_eq!(rt; Tags::hash(&tag), folded);
        assert_eq!(rt; filled_bytes(tag), filled);
    }
}

#[test]
fn capitals_make_the_same_tag(rt: HostRuntime) {
    for (k, l, same) in PAIRS {
        assert_eq!(rt; Tags::same(&k, &l), same);
    }
}

#[test]
fn logs_weigh_until_the_stop(rt: HostRuntime) {
    for (tag, length, weight) in WEIGHTS {
        assert_eq!(rt; Tags::weight(&tag, &Log { length, place: 7 }), weight);
    }
    assert!(rt; Tags::WEIGHED);
}
