//! The other two kinds at their edges.
use crate::{Rooms, Size};
use kinds::{EntryKind, Reading, Serials};

#[test]
fn a_serial_is_its_own_hash_and_counts_as_one(rt: HostRuntime) {
    let reading = Reading {
        descents: 3,
        day: 20,
    };
    for serial in [0, 65, u64::MAX] {
        assert_eq!(rt; Serials::hash(&serial), serial);
        assert_eq!(rt; Serials::same(&serial, &97), serial == 97);
        assert_eq!(rt; Serials::weight(&serial, &reading), 1);
    }
    assert!(rt; !Serials::WEIGHED);
}

#[test]
fn rooms_of_a_hall_are_the_same(rt: HostRuntime) {
    assert!(rt; Rooms::same(&16, &31));
    assert!(rt; !Rooms::same(&15, &16));
    assert_eq!(rt; Rooms::weight(&16, &Size::Large), 4);
}
