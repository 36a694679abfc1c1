//! Which id is drawn.
use rina_ids::{Ids, NoIds};
use std::alloc::Global;

/// Whether the least ids are drawn. Id 2 rests until tick 16 then, and id 1 until tick 17.
fn least_are_drawn(alloc: Global, ids: &mut Ids) -> bool {
    let Ok(one) = ids.draw(alloc, 0) else {
        return false;
    };
    let Ok(two) = ids.draw(alloc, 0) else {
        return false;
    };
    let Ok(three) = ids.draw(alloc, 0) else {
        return false;
    };
    ids.give_back(10, two, 6);
    ids.give_back(12, one, 5);
    one == 1 && two == 2 && three == 3
}

/// Whether an id that was given back is free when it has rested.
fn rested_are_free(ids: &Ids) -> bool {
    ids.free(15) == Some(4) && ids.free(16) == Some(2) && ids.free(17) == Some(1)
}

fn rested_are_drawn(alloc: Global, ids: &mut Ids) -> bool {
    ids.draw(alloc, 16) == Ok(2)
        && ids.draw(alloc, 16) == Ok(4)
        && ids.draw(alloc, 17) == Ok(1)
        && ids.draw(alloc, 17) == Ok(5)
}

/// Whether each id of one byte is drawn once.
fn all_are_drawn(alloc: Global, ids: &mut Ids) -> bool {
    for id in 1u32..256 {
        if ids.draw(alloc, 3) != Ok(id) {
            return false;
        }
    }
    ids.draw(alloc, 3) == Err(NoIds::Used { used: 255 })
}

fn least_goes(alloc: Global, ids: &mut Ids) -> bool {
    least_are_drawn(alloc, ids) && rested_are_free(ids) && rested_are_drawn(alloc, ids)
}

#[test]
fn the_least_free_id_is_drawn_and_one_byte_has_255(rt: HostRuntime) {
    let mut ids = Ids::new(rt.alloc(), 4);
    let mut short = Ids::new(rt.alloc(), 1);
    assert!(rt; least_goes(rt.alloc(), &mut ids) && all_are_drawn(rt.alloc(), &mut short));
}
