//! Ticks on both sides of the wrap.

use crate::{ETERNITY, add, add_ifset, first, is_expired, is_lt, is_set};
use std::test::Fail;

#[test]
fn ticks_wrap_and_skip_zero(rt: HostRuntime) -> Result<(), Fail> {
    assert!(rt; !is_set(ETERNITY) && is_set(1));
    for (now, delay, tick) in [(4_294_967_290, 10, 4), (4_294_967_290, 6, 1), (7, 3, 10)] {
        assert_eq!(rt; add(now, delay), tick);
        assert_eq!(rt; add_ifset(now, delay), tick);
    }
    assert_eq!(rt; add_ifset(7, 0), 0);
    for (t, now, expired) in [
        (4_294_967_295, 5, true),
        (5, 4_294_967_295, false),
        (0, 77, false),
        (2_147_483_648, 0, true),
    ] {
        assert_eq!(rt; is_expired(t, now), expired);
    }
    for (a, b, before) in [
        (4_294_967_295, 5, true),
        (5, 4_294_967_295, false),
        (5, 5, false),
    ] {
        assert_eq!(rt; is_lt(a, b), before);
    }
    for (a, b, earlier) in [
        (0, 9, 9),
        (9, 0, 9),
        (4_294_967_295, 5, 4_294_967_295),
        (5, 5, 5),
    ] {
        assert_eq!(rt; first(a, b), earlier);
    }
    Ok(())
}
