//! The index of ends by their ports.
ghost use Rattle.std.specs.Prelude.{◌≡◌, List, [], ◌∷◌, ◌++◌, OnOk, OnErr};
ghost use Rattle.std.specs.BTreeMap.{get_by};
ghost use Rattle.rina_iface.specs.declared.ends.End.{End};
ghost use Rattle.rina_iface.specs.Index.{IsIndex, port_cmp};

use crate::ends::End;
use rina_base::{Node, Port};
use std::alloc::AllocError;
use std::collections::BTreeMap;

/// A port as the index orders it: by facility, then by node, then by number.
pub(crate) type PortKey = (u16, Node, u32);

/// The place of the first end of each port.
pub(crate) type Places = BTreeMap<PortKey, usize>;

/// The key of a port.
fn key_of(port: Port) -> PortKey
    ensures { result ≡ (port.fac, port.node, port.n) }
{
    (port.fac, port.node, port.n)
}

/// The place of the first end of a port.
pub(crate) fn place_of(places: &Places, port: Port) -> Option<usize>
    ensures { result ≡ get_by (port_cmp port) places.now }
{
    places.get(&key_of(port)).copied()
}

/// Adds an end behind the others.
pub(crate) fn add(ends: &mut Vec<End>, places: &mut Places, end: End) -> Result<(), AllocError>
    requires { IsIndex places.old ends.old.items }
    ensures index { IsIndex places.new ends.new.items }
    ensures ok { OnOk result (ends.new.items ≡ ends.old.items ++ end ∷ []) }
    ensures err { OnErr result (ends.new.items ≡ ends.old.items) }
{
    let port = end.port;
    let place = ends.len();
    ends.push(end)?;
    if place_of(places, port).is_some() {
        return Ok(());
    }
    match places.insert(key_of(port), place) {
        Ok(_) => Ok(()),
        Err(_) => {
            let _ = ends.pop();
            Err(AllocError)
        }
    }
}

/// Takes the last end out again.
pub(crate) fn take_back(ends: &mut Vec<End>, places: &mut Places)
    requires { IsIndex places.old ends.old.items }
    ensures index { IsIndex places.new ends.new.items }
    ensures rest { (before : List End) (last : End) → ends.old.items ≡ before ++ last ∷ [] → ends.new.items ≡ before }
{
    let Some(last) = ends.pop() else {
        return;
    };
    if place_of(places, last.port) == Some(ends.len()) {
        let _ = places.remove(&key_of(last.port));
    }
}
