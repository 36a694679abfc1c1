//! Promises of cubes, and the cube that a wish gets.
use rina_cube::{Cube, Kind, Want, pick};

const DATAGRAM: Cube = Cube {
    id: 1,
    kind: Kind::Datagram,
    mpl: 40,
    r: 0,
    a: 0,
    retry: 0,
    window: 16,
    largest: 80,
};

const LOOSE: Cube = Cube {
    id: 2,
    kind: Kind::Loose,
    mpl: 40,
    r: 0,
    a: 0,
    retry: 0,
    window: 16,
    largest: 240,
};

const RELIABLE: Cube = Cube {
    id: 3,
    kind: Kind::Reliable,
    mpl: 40,
    r: 30,
    a: 2,
    retry: 10,
    window: 4,
    largest: 240,
};

#[test]
fn a_reliable_cube_has_time_to_send_again(rt: HostRuntime) {
    assert!(rt;
        LOOSE.promise() == 40
            && LOOSE.delta() == 40
            && RELIABLE.promise() == 70
            && RELIABLE.delta() == 72
    );
}

/// A wish for a flow: ordered, reliable, within some ticks, for SDUs of a size in bytes. It gets a cube of the three, or none.
type Wish = (bool, bool, u32, u32, Option<u8>);

static WISHES: [Wish; 8] = [
    (false, false, u32::MAX, 0, Some(1)),
    (true, false, u32::MAX, 0, Some(2)),
    (false, true, u32::MAX, 0, Some(3)),
    (false, false, 40, 81, Some(2)),
    (false, true, 70, 240, Some(3)),
    (false, true, 69, 0, None),
    (false, false, 39, 0, None),
    (false, false, 40, 241, None),
];

/// Whether each wish gets its cube.
fn all_get_theirs() -> bool {
    for (ordered, reliable, within, size, id) in &WISHES {
        let want = Want {
            ordered: *ordered,
            reliable: *reliable,
            within: *within,
            size: *size,
        };
        if pick(&[DATAGRAM, LOOSE, RELIABLE], &want) != *id {
            return false;
        }
    }
    true
}

#[test]
fn the_first_cube_that_meets_a_wish_is_picked(rt: HostRuntime) {
    assert!(rt; all_get_theirs());
}
