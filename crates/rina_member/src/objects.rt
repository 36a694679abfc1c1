//! The objects that a member shows.
ghost use Rattle.std.specs.Prelude.{◌≡◌, Err, IfOk, OnOk, OnErr, option_copied};
ghost use Rattle.std.specs.List.{fold};
ghost use Rattle.rina_rib.specs.declared.error.RibError.TheVariants as errors;
ghost use Rattle.rina_agent.specs.Neighbours.{link_key};
ghost use Rattle.rina_member.specs.Managements.{with_live};
ghost use Rattle.rina_member.specs.Objects.{cube_told, first_objects, flow_name, item_told, kind_text, removed, shown_as, told};

use rina_agent::numbered;
use rina_base::{Addr, Bytes, Cep, Memory, is_object_name};
use rina_cube::{Cube, Kind};
use rina_newest::{Item, Newest};
use rina_rib::{Caller, Class, Rib, RibError};
use std::alloc::{AllocError, Global};

/// Whether memory was found: any other refusal changed nothing.
fn unless_memory<T: Drop>(done: Result<T, RibError>) -> Result<(), Memory>
    ensures ok { OnOk result (done ≡ Err errors.Memory → ⊥) }
    ensures err { OnErr result (done ≡ Err errors.Memory) }
{
    match done {
        Ok(_) => Ok(()),
        Err(RibError::Memory) => Err(Memory),
        Err(_) => Ok(()),
    }
}

/// Tells an object: it is made, or has another value from now on. Without memory nothing changes.
pub fn tell(
    alloc: Global,
    rib: &mut Rib,
    name: &[u8],
    class: Class,
    value: &[u8],
) -> Result<(), Memory>
    ensures ok { OnOk result (rib.new ≡ told rib.old name.now class value.now) }
    ensures err { OnErr result (rib.new ≡ rib.old) }
{
    if !is_object_name(name) {
        return Ok(());
    }
    if rib.read(name).is_ok() {
        return unless_memory(rib.write(alloc, Caller::Own, name, class, value));
    }
    unless_memory(rib.create(alloc, Caller::Own, name, class, value))
}

/// Deletes an object, where it is there. Takes no memory.
pub fn remove(rib: &mut Rib, name: &[u8])
    ensures { rib.new ≡ removed rib.old name.now }
{
    if is_object_name(name) {
        let _refused = rib.delete(Caller::Own, name);
    }
}

/// Lets the object of a key show the value that is live under the key; where none is, there is no such object.
fn show(alloc: Global, rib: &mut Rib, key: &[u8], value: Option<&[u8]>) -> Result<(), Memory>
    ensures ok { OnOk result (rib.new ≡ shown_as rib.old key.now (option_copied value.entry)) }
    ensures err { OnErr result (rib.new ≡ rib.old) }
{
    match value {
        Some(value) => tell(alloc, rib, key, Class::Value, value),
        None => {
            remove(rib, key);
            Ok(())
        }
    }
}

/// Lets the object of a key show what items hold under it. Without memory nothing changes.
pub(crate) fn show_live(
    alloc: Global,
    rib: &mut Rib,
    items: &Newest,
    key: &[u8],
) -> Result<(), Memory>
    ensures ok { OnOk result (rib.new ≡ with_live rib.old items.now key.now) }
    ensures err { OnErr result (rib.new ≡ rib.old) }
{
    show(alloc, rib, key, items.get(key))
}

/// The key of the link state of an address.
pub(crate) fn state_key(alloc: Global, address: Addr) -> Result<Bytes, Memory>
    ensures { IfOk result (λ key. key ≡ link_key address) }
{
    Ok(numbered(alloc, b"/link/", u64::from(address))?)
}

fn kind_text(kind: Kind) -> &'static [u8]
    ensures { result.now ≡ kind_text kind }
{
    match kind {
        Kind::Datagram => b"datagram",
        Kind::Loose => b"loose",
        Kind::Reliable => b"reliable",
    }
}

/// Tells a cube: its kind.
fn tell_cube(alloc: Global, rib: &mut Rib, cube: &Cube) -> Result<(), Memory>
    ensures { OnOk result (rib.new ≡ cube_told rib.old cube.now) }
{
    let name = numbered(alloc, b"/cube/", u64::from(cube.id))?;
    tell(
        alloc,
        rib,
        name.as_slice(),
        Class::Cube,
        kind_text(cube.kind),
    )
}

/// Tells cubes, one after the other.
fn tell_cubes(alloc: Global, rib: &mut Rib, cubes: &[Cube]) -> Result<(), Memory>
    ensures { OnOk result (rib.new ≡ fold cube_told rib.old cubes.now) }
{
    for cube in cubes {
        tell_cube(alloc, rib, cube)?;
    }
    Ok(())
}

/// Tells an item.
fn tell_item(alloc: Global, rib: &mut Rib, item: &Item) -> Result<(), Memory>
    ensures { OnOk result (rib.new ≡ item_told rib.old item.now) }
{
    show(alloc, rib, item.key.as_slice(), item.live())
}

/// Tells items, one after the other.
fn tell_items(alloc: Global, rib: &mut Rib, items: &[Item]) -> Result<(), Memory>
    ensures { OnOk result (rib.new ≡ fold item_told rib.old items.now) }
{
    for item in items {
        tell_item(alloc, rib, item)?;
    }
    Ok(())
}

/// What a member shows from the start: the seven folders, the cubes, and the items that it holds, in the order in which it
/// took them.
pub fn first_objects(alloc: Global, cubes: &[Cube], items: &Newest) -> Result<Rib, Memory>
    ensures { IfOk result (λ t. t ≡ first_objects cubes.now items.now) }
{
    let mut rib = Rib::new(alloc)?;
    tell_cubes(alloc, &mut rib, cubes)?;
    let all = items.since(alloc, 0)?;
    tell_items(alloc, &mut rib, all.as_slice())?;
    Ok(rib)
}

/// The name of the object of a flow.
pub fn flow_name(alloc: Global, cep: Cep) -> Result<Bytes, AllocError>
    ensures { IfOk result (λ name. name ≡ flow_name cep) }
{
    numbered(alloc, b"/flow/", u64::from(cep))
}
