//! Instants and durations at their edges: 2^62 and one more, a span's end and a nanosecond before.
use std::test::Fail;
use times::{Duration, Instant, Refusal, is_expired, is_expired_since};

const MOST: u64 = 4611686018427387904;

/// A span, an instant that it begins at, an instant later, and whether it is over then.
const SPANS: [(u64, u64, u64, bool); 8] = [
    (10, 90, 99, false),
    (10, 90, 100, true),
    (10, 90, 101, true),
    (10, 90, 0, false),
    (0, 90, 90, true),
    (MOST, 0, MOST, true),
    (MOST, 1, MOST, false),
    (MOST, MOST, MOST, false),
];

#[test]
fn the_largest_number_is_taken(rt: HostRuntime) -> Result<(), Fail> {
    for nanos in [0, 1, MOST] {
        assert_eq!(rt; Instant::try_from(nanos)?.nanos(), nanos);
        assert_eq!(rt; Duration::try_from(nanos)?.nanos(), nanos);
    }
    Ok(())
}

#[test]
fn one_more_is_refused_by_its_number(rt: HostRuntime) {
    for nanos in [MOST + 1, u64::MAX] {
        assert_eq!(rt;
            Instant::try_from(nanos).err().map(Refusal::number),
            Some(6)
        );
        assert!(rt; Duration::try_from(nanos).is_err());
    }
}

#[test]
fn a_span_is_over_at_its_end(rt: HostRuntime) -> Result<(), Fail> {
    for (nanos, begun, later, over) in SPANS {
        let span = Duration::try_from(nanos)?;
        let from = Instant::try_from(begun)?;
        let now = Instant::try_from(later)?;
        assert_eq!(rt; span.is_over(from, now), over);
        assert_eq!(rt; is_expired(Some(span), from, now), over);
        assert_eq!(rt; is_expired_since(Some(span), begun, now), over);
    }
    Ok(())
}

#[test]
fn without_a_span_nothing_expires(rt: HostRuntime) -> Result<(), Fail> {
    let most = Instant::try_from(MOST)?;
    assert!(rt; !is_expired(None, Instant::try_from(0)?, most));
    assert!(rt; !is_expired_since(None, 0, most));
    assert!(rt; !is_expired_since(Some(Duration::try_from(10)?), u64::MAX, most));
    Ok(())
}
