//! Keys of directory entries, and what is found.
use rina_base::AppName;
use rina_dir::{LONGEST_KEY, entries_stay, find, write_key};
use rina_newest::Newest;
use std::alloc::Global;

/// Whether an application is not found where nothing is kept.
fn is_nowhere(alloc: Global) -> bool {
    match AppName::read(alloc, b"app") {
        Ok(app) => find(&Newest::new(alloc), &app).is_none(),
        Err(_) => false,
    }
}

#[test]
fn nothing_is_found_where_nothing_is_kept(rt: HostRuntime) {
    entries_stay();
    assert!(rt; is_nowhere(rt.alloc()));
}

#[test]
fn a_slash_is_written_as_another_byte(rt: HostRuntime) {
    let mut key = [0; LONGEST_KEY];
    let len = write_key(b"dif/node", &mut key);
    assert!(rt; &key[..len] == b"/dir/dif!node".as_slice());
}
