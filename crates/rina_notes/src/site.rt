//! What the names in a line stand for.
ghost use Rattle.std.specs.Prelude.{◌≡◌, ◌<◌};
ghost use Rattle.rina_stack.specs.Plan.{IsPlan};
ghost use Rattle.rina_notes.specs.Sites.{dif_site_at, site_at, site_of};

use crate::facility::{RankedFac, find_dif, find_fac};
use rina_base::{Name, Node};
use rina_stack::Plan;

/// A facility of a rank, and a node.
#[derive(Clone, Copy)]
pub struct Site {
    pub rank: u16,
    pub fac: u16,
    pub node: Node,
}

fn make_site(at: RankedFac, node: Node) -> Site
    ensures { result ≡ site_of at node }
{
    Site {
        rank: at.rank,
        fac: at.fac,
        node,
    }
}

/// The facility and the node that two fields of a line name, of which `field` is the first; or the
/// first of them that names nothing.
#[tactic(auto, unfolding(crate::specs::Sites::site_at))]
pub fn find_site(plan: &Plan, field: u32, fac: &Name, node: &Name) -> Result<Site, u32>
    requires plan { IsPlan plan.now }
    requires small { field < 4 }
    ensures { result ≡ site_at plan.now field fac.now node.now }
{
    let Some(fac) = find_fac(plan, fac) else {
        return Err(field);
    };
    let Some(node) = plan.node(node) else {
        return Err(field + 1);
    };
    Ok(make_site(fac, node))
}

/// The DIF and the node that the first two fields of a line name, or the first that names nothing.
#[tactic(auto, unfolding(crate::specs::Sites::dif_site_at))]
pub fn find_dif_site(plan: &Plan, dif: &Name, node: &Name) -> Result<Site, u32>
    requires { IsPlan plan.now }
    ensures { result ≡ dif_site_at plan.now dif.now node.now }
{
    let Some(dif) = find_dif(plan.difs.as_slice(), dif) else {
        return Err(1);
    };
    let Some(node) = plan.node(node) else {
        return Err(2);
    };
    Ok(make_site(dif, node))
}
