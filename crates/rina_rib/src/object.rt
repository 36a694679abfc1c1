//! One object.
ghost use Rattle.std.specs.Prelude.{◌≡◌};
ghost use Rattle.rina_rib.specs.Things.{thing, thing_of, switched};

use rina_base::{Bytes, Class};
use std::alloc::AllocError;
use std::marker::Model;

/// An object that is lent: its class, its number, and its value.
#[derive(Clone, Copy)]
pub struct Object<'a> {
    pub class: Class,
    /// Objects are numbered in the order in which they were made.
    pub instance: u64,
    pub value: &'a [u8],
}

/// An object that is kept. A contract sees its class, its number and its value; that of a service is `on` or `off`.
#[derive(Drop)]
pub(crate) struct Kept {
    class: Class,
    instance: u64,
    value: Vec<u8>,
    /// Whether a service runs.
    on: bool,
}

impl Model for Kept {
    ghost use Rattle.rina_rib.specs.Things.{Thing, thing, shown};

    ghost Value = { Thing };

    ghost view = { λ k. thing k.class k.instance (shown k.class k.on k.value.items) };
}

impl Clone for Kept {
    ghost use Rattle.std.specs.Prelude.{◌≡◌};

    ghost is_clone = { λ k c. c ≡ k };

    fn clone(&self) -> Result<Kept, AllocError> {
        Ok(Kept {
            class: self.class,
            instance: self.instance,
            value: Vec::from_slice(*self.value.allocator(), self.value.as_slice())?,
            on: self.on,
        })
    }
}

impl Kept {
    ghost use Rattle.rina_rib.specs.Things.{made_value, with_value};

    /// An object that was just made; a service does not run.
    pub(crate) fn new(class: Class, instance: u64, value: Bytes) -> Kept
        ensures { result ≡ thing class instance (made_value class value) }
    {
        Kept {
            class,
            instance,
            value: value.into_vec(),
            on: false,
        }
    }

    pub(crate) fn class(&self) -> Class
        ensures { result ≡ self.now.class }
    {
        self.class
    }

    pub(crate) fn lend(&self) -> Object<'_>
        ensures { thing_of result ≡ self.now }
    {
        let value = match self.class {
            Class::Service => {
                if self.on {
                    b"on".as_slice()
                } else {
                    b"off".as_slice()
                }
            }
            _ => self.value.as_slice(),
        };
        Object {
            class: self.class,
            instance: self.instance,
            value,
        }
    }

    /// Starts or stops a service.
    pub(crate) fn switch(&mut self, on: bool)
        ensures { self.new ≡ switched self.old on }
    {
        self.on = on;
    }

    /// Gives an object that is no service another value.
    pub(crate) fn set(&mut self, value: Bytes)
        ensures { self.new ≡ with_value self.old value }
    {
        self.value = value.into_vec();
    }
}
