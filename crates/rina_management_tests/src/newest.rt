//! Which item of a key is kept.
use rina_base::Memory;
use rina_newest::{Item, Newest, Version, newest_of_all_takes};
use std::alloc::Global;

/// The tick, the count and the origin of versions of one item, and whether each is news.
static VERSIONS: [(u32, u32, u32, bool); 6] = [
    (3, 1, 2, true),
    (2, 9, 9, false),
    (3, 1, 2, false),
    (3, 1, 4, true),
    (3, 1, 3, false),
    (3, 2, 1, true),
];

/// Whether each version is taken as the table says.
fn are_taken(alloc: Global, newest: &mut Newest) -> bool {
    for (tick, count, origin, news) in &VERSIONS {
        let version = Version {
            tick: *tick,
            count: *count,
            origin: *origin,
        };
        if newest.take(alloc, b"/dir/a", version, Some(b"7")) != Ok(*news) {
            return false;
        }
    }
    true
}

fn is_kept(newest: &Newest, key: &[u8], value: Option<&[u8]>) -> bool {
    newest.get(key) == value
}

#[test]
fn the_greatest_version_is_kept(rt: HostRuntime) {
    let mut newest = Newest::new(rt.alloc());
    assert!(rt;
        are_taken(rt.alloc(), &mut newest)
            && is_kept(&newest, b"/dir/a", Some(b"7"))
            && is_kept(&newest, b"/dir", None)
    );
}

/// Whether an item of origin 1 at tick 0 is news.
fn takes(alloc: Global, newest: &mut Newest, key: &[u8], count: u32, value: Option<&[u8]>) -> bool {
    let version = Version {
        tick: 0,
        count,
        origin: 1,
    };
    newest.take(alloc, key, version, value) == Ok(true)
}

/// Whether three items are news, and the deletion of the first is.
fn takes_three(alloc: Global, newest: &mut Newest) -> bool {
    takes(alloc, newest, b"/a", 0, Some(b"x"))
        && takes(alloc, newest, b"/b", 0, Some(b"x"))
        && takes(alloc, newest, b"/c", 0, Some(b"x"))
        && takes(alloc, newest, b"/a", 1, None)
        && is_kept(newest, b"/a", None)
}

/// Whether one item stands under the key that was deleted.
fn is_under(alloc: Global, newest: &Newest) -> bool {
    match newest.under(alloc, b"/a") {
        Ok(items) => items.len() == 1,
        Err(Memory) => false,
    }
}

/// Whether an item is the one that was deleted.
fn is_deleted(item: Option<&Item>) -> bool {
    match item {
        Some(item) => item.key.as_slice() == b"/a".as_slice() && item.value.is_none(),
        None => false,
    }
}

/// Whether the item that was deleted stands last.
fn is_last(alloc: Global, newest: &Newest) -> bool {
    match newest.since(alloc, 2) {
        Ok(items) => is_deleted(items.get(0)),
        Err(Memory) => false,
    }
}

#[test]
fn items_stand_in_the_order_of_their_last_changes(rt: HostRuntime) {
    let mut newest = Newest::new(rt.alloc());
    assert!(rt;
        takes_three(rt.alloc(), &mut newest)
            && is_under(rt.alloc(), &newest)
            && is_last(rt.alloc(), &newest)
    );
    newest_of_all_takes();
}
