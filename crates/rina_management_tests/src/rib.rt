//! Objects that are made, changed, walked and deleted, and each refusal.
use rina_base::{Memory, is_object_name};
use rina_rib::{Caller, Class, Rib, RibError};
use std::alloc::Global;

/// Whether an object is made by CDAP with this instance number, or refused so.
fn made(
    alloc: Global,
    rib: &mut Rib,
    name: &[u8],
    class: Class,
    value: &[u8],
    wanted: Result<u64, RibError>,
) -> bool {
    is_object_name(name) && rib.create(alloc, Caller::Cdap, name, class, value) == wanted
}

/// Whether the process itself makes an object with this instance number.
fn made_own(
    alloc: Global,
    rib: &mut Rib,
    name: &[u8],
    class: Class,
    value: &[u8],
    instance: u64,
) -> bool {
    is_object_name(name) && rib.create(alloc, Caller::Own, name, class, value) == Ok(instance)
}

fn written(
    alloc: Global,
    rib: &mut Rib,
    class: Class,
    value: &[u8],
    wanted: Result<(), RibError>,
) -> bool {
    is_object_name(b"/user/v") && rib.write(alloc, Caller::Cdap, b"/user/v", class, value) == wanted
}

fn deleted(rib: &mut Rib, name: &[u8], wanted: Result<(), RibError>) -> bool {
    is_object_name(name) && rib.delete(Caller::Cdap, name) == wanted
}

fn started(rib: &mut Rib, name: &[u8], wanted: Result<(), RibError>) -> bool {
    is_object_name(name) && rib.start(Caller::Cdap, name) == wanted
}

fn stopped(rib: &mut Rib, name: &[u8]) -> bool {
    is_object_name(name) && rib.stop(Caller::Cdap, name).is_ok()
}

/// Whether there is such an object of instance number 7.
fn has(rib: &Rib, name: &[u8], value: &[u8]) -> bool {
    if !is_object_name(name) {
        return false;
    }
    match rib.read(name) {
        Ok(object) => object.instance == 7 && object.value == value,
        Err(_) => false,
    }
}

fn service_goes(alloc: Global, rib: &mut Rib) -> bool {
    made(alloc, rib, b"/user/s", Class::Service, b"x", Ok(7))
        && has(rib, b"/user/s", b"off")
        && started(rib, b"/user/s", Ok(()))
        && has(rib, b"/user/s", b"on")
        && stopped(rib, b"/user/s")
        && has(rib, b"/user/s", b"off")
        && deleted(rib, b"/user/s", Ok(()))
        && !has(rib, b"/user/s", b"off")
}

fn value_goes(alloc: Global, rib: &mut Rib) -> bool {
    let other = RibError::WrongClass { kept: Class::Value };
    made_own(alloc, rib, b"/user/v", Class::Value, b"old", 7)
        && has(rib, b"/user/v", b"old")
        && written(alloc, rib, Class::Cube, b"", Err(other))
        && written(alloc, rib, Class::Value, b"new", Ok(()))
        && has(rib, b"/user/v", b"new")
}

/// Whether each object that may not be made is refused.
fn none_is_made(alloc: Global, rib: &mut Rib) -> bool {
    let denied = Err(RibError::NotAllowed { op: 4 });
    made(
        alloc,
        rib,
        b"/user",
        Class::Cube,
        b"",
        Err(RibError::Exists),
    ) && made(
        alloc,
        rib,
        b"/a/b",
        Class::Value,
        b"",
        Err(RibError::NoParent),
    ) && made(
        alloc,
        rib,
        b"/cube/1/b",
        Class::Value,
        b"",
        Err(RibError::NoParent),
    ) && made(alloc, rib, b"/dir/a", Class::Value, b"", denied)
        && made(alloc, rib, b"/user/f", Class::Flow, b"", denied)
}

/// Whether objects are not deleted or started that may not be.
fn none_is_changed(rib: &mut Rib) -> bool {
    deleted(rib, b"/x", Err(RibError::NoObject))
        && deleted(rib, b"/cube", Err(RibError::HasChildren))
        && deleted(rib, b"/user", Err(RibError::NotAllowed { op: 6 }))
        && started(rib, b"/user", Err(RibError::NotAllowed { op: 14 }))
}

fn refusals_go(alloc: Global, rib: &mut Rib) -> bool {
    made_own(alloc, rib, b"/cube/1", Class::Cube, b"", 7)
        && none_is_made(alloc, rib)
        && none_is_changed(rib)
}

/// Whether a walk passes so many objects.
fn passes(rib: &Rib, under: &[u8], wanted: usize) -> bool {
    if !is_object_name(under) {
        return false;
    }
    let mut count = 0usize;
    for _ in rib.walk(under) {
        count = count.saturating_add(1);
    }
    count == wanted
}

fn folders_are_made(alloc: Global, rib: &mut Rib) -> bool {
    made_own(alloc, rib, b"/user/a", Class::Folder, b"", 7)
        && made_own(alloc, rib, b"/user/a-b", Class::Folder, b"", 8)
        && made_own(alloc, rib, b"/user/a/b", Class::Folder, b"", 9)
}

fn walks_go(rib: &Rib) -> bool {
    passes(rib, b"/", 10)
        && passes(rib, b"/user", 4)
        && passes(rib, b"/user/a", 2)
        && passes(rib, b"/none", 0)
}

/// What is done with a RIB.
#[derive(Clone, Copy)]
enum Case {
    Service,
    Value,
    Refusals,
    Walks,
}

static CASES: [Case; 4] = [Case::Service, Case::Value, Case::Refusals, Case::Walks];

/// Whether a case goes so at a RIB.
fn case_goes(alloc: Global, rib: &mut Rib, case: Case) -> bool {
    match case {
        Case::Service => service_goes(alloc, rib),
        Case::Value => value_goes(alloc, rib),
        Case::Refusals => refusals_go(alloc, rib),
        Case::Walks => folders_are_made(alloc, rib) && walks_go(rib),
    }
}

/// Whether a case goes so at a new RIB.
fn goes(alloc: Global, case: Case) -> bool {
    match Rib::new(alloc) {
        Ok(mut rib) => case_goes(alloc, &mut rib, case),
        Err(Memory) => false,
    }
}

/// Whether each case does.
fn all_go(alloc: Global) -> bool {
    for case in &CASES {
        if !goes(alloc, *case) {
            return false;
        }
    }
    true
}

#[test]
fn objects_are_made_changed_walked_deleted_and_refused(rt: HostRuntime) {
    assert!(rt; all_go(rt.alloc()));
}
