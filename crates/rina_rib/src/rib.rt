//! The objects of one IPC process.
ghost use Rattle.std.specs.Prelude.{◌≡◌, true, false, IfErr, IfOk, OnOk, OnErr, MatchResult};
ghost use Rattle.rina_base.specs.ObjectNames.{IsObjectName};
ghost use Rattle.rina_rib.specs.declared.error.RibError.TheVariants as errors;
ghost use Rattle.rina_rib.specs.Things.{thing, made_value};
ghost use Rattle.rina_rib.specs.Objects.{seen, with_object};
ghost use Rattle.rina_rib.specs.Rows.{folder};

use crate::caller::{Caller, is_foreign_to, is_outside_of, is_own_of};
use crate::error::RibError;
use crate::object::{Kept, Object};
use crate::objects::{
    Objects, copy_of, find, has_children, has_parent, put, rewrite, switch, take_out,
};
use crate::walk::Walk;
use rina_base::{Bytes, Class, Memory};
use std::alloc::Global;
use std::collections::BTreeMap;
use std::marker::Model;

/// The objects of one IPC process. A contract sees the objects by name, in the byte order of names, and the number
/// of the next one. Each name that a call takes is an object name.
#[derive(Drop)]
pub struct Rib {
    objects: Objects,
    next: u64,
}

impl Model for Rib {
    ghost use Rattle.rina_rib.specs.Objects.{seen};
    ghost use Rattle.rina_rib.specs.Rows.{Tree};

    ghost Value = { Tree };

    ghost view = { λ r. record { objects = seen r.objects.entries; next = r.next } };
}

/// Makes a folder of the start.
fn put_folder(
    alloc: Global,
    objects: &mut Objects,
    name: &[u8],
    instance: u64,
) -> Result<(), Memory>
    ensures { OnOk result (seen objects.new.entries ≡ with_object (seen objects.old.entries) name.now (folder instance)) }
{
    let name = Vec::from_slice(alloc, name)?;
    put(
        objects,
        name,
        Kept::new(Class::Folder, instance, Bytes::new(alloc)),
    )
}

/// Makes an object, whose parent is there.
fn put_object(
    alloc: Global,
    objects: &mut Objects,
    name: &[u8],
    class: Class,
    instance: u64,
    value: &[u8],
) -> Result<(), Memory>
    ensures ok { OnOk result (seen objects.new.entries ≡ with_object (seen objects.old.entries) name.now (thing class instance (made_value class value.now))) }
    ensures err { OnErr result (seen objects.new.entries ≡ seen objects.old.entries) }
{
    let name = Vec::from_slice(alloc, name)?;
    let value = Bytes::copy_of(alloc, value)?;
    put(objects, name, Kept::new(class, instance, value))
}

impl Rib {
    ghost use Rattle.rina_rib.specs.Things.{thing_of};
    ghost use Rattle.rina_rib.specs.Objects.{object_at, AreInOrder};
    ghost use Rattle.rina_rib.specs.Walks.{within, left_of};
    ghost use Rattle.rina_rib.specs.Rows.{first_tree, created, deleted, written, turned, Does};

    /// Seven folders: `/` is object 0, and then `/cube`, `/dir`, `/flow`, `/link`, `/member` and `/user`.
    pub fn new(alloc: Global) -> Result<Rib, Memory>
        ensures { IfOk result (λ r. r ≡ first_tree) }
    {
        let mut objects = BTreeMap::new(alloc);
        put_folder(alloc, &mut objects, b"/", 0)?;
        put_folder(alloc, &mut objects, b"/cube", 1)?;
        put_folder(alloc, &mut objects, b"/dir", 2)?;
        put_folder(alloc, &mut objects, b"/flow", 3)?;
        put_folder(alloc, &mut objects, b"/link", 4)?;
        put_folder(alloc, &mut objects, b"/member", 5)?;
        put_folder(alloc, &mut objects, b"/user", 6)?;
        Ok(Rib { objects, next: 7 })
    }

    /// A copy: the same objects, with the same numbers.
    pub fn copy(&self) -> Result<Rib, Memory>
        ensures { IfOk result (λ r. r ≡ self.now) }
    {
        let objects = copy_of(&self.objects)?;
        Ok(Rib {
            objects,
            next: self.next,
        })
    }

    /// Makes an object, and answers its number: objects are counted on from 7, and the count stays at the greatest
    /// u64. A service is `off`, whatever the value. Refused: `Exists`; `NoParent`; `NotAllowed` (4) to CDAP where the
    /// name is not under `/user`, or the class is cube or flow.
    #[tactic(auto, unfolding(crate::specs::Rows::created))]
    pub fn create(
        &mut self,
        alloc: Global,
        by: Caller,
        name: &[u8],
        class: Class,
        value: &[u8],
    ) -> Result<u64, RibError>
        requires { IsObjectName name.now }
        ensures exact { Does result self.old self.new (created self.old by name.now class value.now) }
        ensures instance { IfOk result (λ n. n ≡ self.old.next) }
    {
        if find(&self.objects, name).is_some() {
            return Err(RibError::Exists);
        }
        if !has_parent(&self.objects, name) {
            return Err(RibError::NoParent);
        }
        if is_foreign_to(by, name) || is_own_of(by, class) {
            return Err(RibError::NotAllowed { op: 4 });
        }
        let instance = self.next;
        if put_object(alloc, &mut self.objects, name, class, instance, value).is_err() {
            return Err(RibError::Memory);
        }
        self.next = instance.saturating_add(1);
        Ok(instance)
    }

    /// Deletes an object. Refused: `NoObject`; `HasChildren`; `NotAllowed` (6) to CDAP where the name is not under
    /// `/user`, as `/user` itself is not. Takes no memory.
    #[tactic(auto, unfolding(crate::specs::Rows::deleted))]
    pub fn delete(&mut self, by: Caller, name: &[u8]) -> Result<(), RibError>
        requires { IsObjectName name.now }
        ensures exact { Does result self.old self.new (deleted self.old by name.now) }
        ensures sure { IfErr result (λ e. e ≡ errors.Memory → ⊥) }
    {
        if find(&self.objects, name).is_none() {
            return Err(RibError::NoObject);
        }
        if has_children(&self.objects, name) {
            return Err(RibError::HasChildren);
        }
        if is_foreign_to(by, name) {
            return Err(RibError::NotAllowed { op: 6 });
        }
        take_out(&mut self.objects, name);
        Ok(())
    }

    /// The object of a name. Refused: `NoObject`. Takes no memory.
    pub fn read(&self, name: &[u8]) -> Result<Object<'_>, RibError>
        requires { IsObjectName name.now }
        ensures { MatchResult result (λ o. object_at self.now.objects name.now ≡ Some (thing_of o)) (λ e. (e ≡ errors.NoObject) × (object_at self.now.objects name.now ≡ None)) }
    {
        match find(&self.objects, name) {
            Some(kept) => Ok(kept.lend()),
            None => Err(RibError::NoObject),
        }
    }

    /// Gives an object another value. Refused: `NoObject`; `WrongClass` where the object is of another class;
    /// `NotAllowed` (12) on a folder or a service, and to CDAP outside `/user`.
    #[tactic(auto, unfolding(crate::specs::Rows::written))]
    pub fn write(
        &mut self,
        alloc: Global,
        by: Caller,
        name: &[u8],
        class: Class,
        value: &[u8],
    ) -> Result<(), RibError>
        requires { IsObjectName name.now }
        ensures { Does result self.old self.new (written self.old by name.now class value.now) }
    {
        let Some(kept) = find(&self.objects, name) else {
            return Err(RibError::NoObject);
        };
        let is_of = kept.class();
        if !is_of.is(class) {
            return Err(RibError::WrongClass { kept: is_of });
        }
        if matches!(is_of, Class::Folder | Class::Service) || is_outside_of(by, name) {
            return Err(RibError::NotAllowed { op: 12 });
        }
        let value = Bytes::copy_of(alloc, value)?;
        rewrite(&mut self.objects, name, value);
        Ok(())
    }

    /// Starts or stops a service.
    #[tactic(auto, unfolding(crate::specs::Rows::turned))]
    fn turn(&mut self, by: Caller, op: u8, name: &[u8], on: bool) -> Result<(), RibError>
        ensures exact { Does result self.old self.new (turned self.old by op name.now on) }
        ensures sure { IfErr result (λ e. e ≡ errors.Memory → ⊥) }
    {
        let Some(kept) = find(&self.objects, name) else {
            return Err(RibError::NoObject);
        };
        if !matches!(kept.class(), Class::Service) || is_outside_of(by, name) {
            return Err(RibError::NotAllowed { op });
        }
        switch(&mut self.objects, name, on);
        Ok(())
    }

    /// Starts a service, whose value is then `on`. Refused: `NoObject`; `NotAllowed` (14) where it is no service, and
    /// to CDAP outside `/user`. Takes no memory.
    pub fn start(&mut self, by: Caller, name: &[u8]) -> Result<(), RibError>
        requires { IsObjectName name.now }
        ensures exact { Does result self.old self.new (turned self.old by 14 name.now true) }
        ensures sure { IfErr result (λ e. e ≡ errors.Memory → ⊥) }
    {
        self.turn(by, 14, name, true)
    }

    /// Stops a service, whose value is then `off`. Refused: `NoObject`; `NotAllowed` (16) where it is no service, and
    /// to CDAP outside `/user`. Takes no memory.
    pub fn stop(&mut self, by: Caller, name: &[u8]) -> Result<(), RibError>
        requires { IsObjectName name.now }
        ensures exact { Does result self.old self.new (turned self.old by 16 name.now false) }
        ensures sure { IfErr result (λ e. e ≡ errors.Memory → ⊥) }
    {
        self.turn(by, 16, name, false)
    }

    /// The object of a name, and all objects under it, in the byte order of names. Takes no memory.
    pub fn walk<'a>(&'a self, under: &'a [u8]) -> Walk<'a>
        requires { IsObjectName under.now }
        ensures passes { left_of result ≡ within under.now self.now.objects }
        ensures ordered { AreInOrder (left_of result) }
    {
        Walk::new(self.objects.iter(), under)
    }
}
