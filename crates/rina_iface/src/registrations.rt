//! The applications that are registered at a facility.
ghost use Rattle.std.specs.Prelude.{◌≡◌, ◌<◌, length, IfSome};
ghost use Rattle.rina_iface.specs.Seen.{is_registered};
ghost use Rattle.rina_iface.specs.Unregister.{name_place};

use crate::ask::Registered;
use rina_base::{AppName, Node};

/// Whether an application is registered at a node.
pub fn is_registered(names: &[Registered], node: Node, app: &AppName) -> bool
    ensures { result ≡ is_registered names.now node app.now }
{
    names.iter().any(|one| one.node == node && one.app.is(app))
}

/// Where an application stands among the names of a node. None exactly where it is not registered there.
pub fn name_place(names: &[Registered], node: Node, app: &AppName) -> Option<usize>
    ensures at { result ≡ name_place names.now node app.now }
    ensures within { IfSome result (λ i. i < length names.now) }
{
    names
        .iter()
        .position(|one| one.node == node && one.app.is(app))
}
