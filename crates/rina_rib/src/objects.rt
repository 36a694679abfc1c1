//! Objects by name.
ghost use Rattle.std.specs.Prelude.{◌≡◌, option_copied, IfOk, OnOk, OnErr};
ghost use Rattle.std.specs.List.{list_any};
ghost use Rattle.std.specs.BTreeMap.{keys};
ghost use Rattle.rina_rib.specs.Names.{is_child};
ghost use Rattle.rina_rib.specs.Objects.{seen, object_at, with_object, without_object, has_child, has_folder, switched_at, rewritten_at};

use crate::names::{is_child_of, parent};
use crate::object::Kept;
use rina_base::{Bytes, Class, Memory};
use std::alloc::AllocError;
use std::collections::BTreeMap;

/// The objects by name, in the byte order of names.
pub(crate) type Objects = BTreeMap<Vec<u8>, Kept>;

/// A copy of all objects.
pub(crate) fn copy_of(objects: &Objects) -> Result<Objects, AllocError>
    ensures { IfOk result (λ c. seen c.entries ≡ seen objects.now.entries) }
{
    objects.clone()
}

/// The object of a name.
pub(crate) fn find<'a>(objects: &'a Objects, name: &[u8]) -> Option<&'a Kept>
    ensures { option_copied result ≡ object_at (seen objects.now.entries) name.now }
{
    objects.get(name)
}

fn any_child(objects: &Objects, name: &[u8]) -> bool
    ensures { result ≡ list_any (λ k. is_child name.now k.items) (keys objects.now) }
{
    objects.keys().any(|key| is_child_of(name, key.as_slice()))
}

/// Whether an object stands right under a name.
pub(crate) fn has_children(objects: &Objects, name: &[u8]) -> bool
    ensures { result ≡ has_child (seen objects.now.entries) name.now }
{
    any_child(objects, name)
}

/// Whether the name without its last part is a folder.
pub(crate) fn has_parent(objects: &Objects, name: &[u8]) -> bool
    ensures { result ≡ has_folder (seen objects.now.entries) name.now }
{
    let Some(above) = parent(name) else {
        return false;
    };
    match find(objects, above) {
        Some(kept) => matches!(kept.class(), Class::Folder),
        None => false,
    }
}

/// Puts in an object.
pub(crate) fn put(objects: &mut Objects, name: Vec<u8>, kept: Kept) -> Result<(), Memory>
    ensures ok { OnOk result (seen objects.new.entries ≡ with_object (seen objects.old.entries) name.items kept) }
    ensures err { OnErr result (seen objects.new.entries ≡ seen objects.old.entries) }
{
    match objects.insert(name, kept) {
        Ok(_) => Ok(()),
        Err(_) => Err(Memory),
    }
}

/// Takes out the object of a name.
pub(crate) fn take_out(objects: &mut Objects, name: &[u8])
    ensures { seen objects.new.entries ≡ without_object (seen objects.old.entries) name.now }
{
    let _ = objects.remove(name);
}

/// Starts or stops the service of a name.
pub(crate) fn switch(objects: &mut Objects, name: &[u8], on: bool)
    ensures { seen objects.new.entries ≡ switched_at (seen objects.old.entries) name.now on }
{
    if let Some(kept) = objects.get_mut(name) {
        kept.switch(on);
    }
}

/// Gives the object of a name another value.
pub(crate) fn rewrite(objects: &mut Objects, name: &[u8], value: Bytes)
    ensures { seen objects.new.entries ≡ rewritten_at (seen objects.old.entries) name.now value }
{
    if let Some(kept) = objects.get_mut(name) {
        kept.set(value);
    }
}
