//! Facilities by their names, and names by their numbers.
ghost use Rattle.std.specs.Prelude.{◌≡◌, ◌<◌, ◌≤◌, Some, IfSome, length, filter, option_map, position, slice_get};
ghost use Rattle.std.specs.Str.{bytes_eq};
ghost use Rattle.rina_plan.specs.declared.dif.DifPlan.{DifPlan};
ghost use Rattle.rina_stack.specs.Plan.{IsPlan};
ghost use Rattle.rina_notes.specs.Sites.{dif_named, fac_at, fac_named, has_rank, names_at};

use rina_base::Name;
use rina_plan::DifPlan;
use rina_stack::Plan;

/// A facility: its rank, 0 for a wire, and its number among those of that rank, counted from 0 in
/// stack order.
#[derive(Clone, Copy, Debug, PartialEq, Eq)]
pub struct RankedFac {
    pub rank: u16,
    pub fac: u16,
}

/// How many of these DIFs have a rank.
#[tactic(auto, using(crate::proofs::Naming::few_pass))]
fn count_at(difs: &[DifPlan], rank: u8) -> usize
    ensures count { result ≡ length (filter (has_rank rank) difs.now) }
    ensures few { result ≤ length difs.now }
{
    difs.iter().filter(|dif| dif.rank == rank).count()
}

/// The name of the DIF of this number among those of a rank.
pub fn name_at(difs: &[DifPlan], rank: u16, fac: u16) -> Option<&Name>
    ensures { option_map (λ n. n.now) result ≡ slice_get (names_at rank difs.now) fac }
{
    let mut left = fac;
    'difs: for dif in difs {
        if u16::from(dif.rank) == rank {
            if left == 0 {
                return Some(&dif.name);
            }
            left -= 1;
        }
    }
    None
}

/// The place of the DIF of that name.
fn place_of(difs: &[DifPlan], name: &Name) -> Option<usize>
    ensures place { result ≡ position (λ (d : DifPlan). bytes_eq d.name name.now) difs.now }
    ensures within { IfSome result (λ i. i < length difs.now) }
{
    difs.iter().position(|dif| dif.name.is(name))
}

/// The facility that is the DIF at a place of the stack.
fn fac_at(difs: &[DifPlan], at: usize) -> Option<RankedFac>
    requires { length difs.now ≤ 16 }
    ensures { result ≡ fac_at difs.now (Some at) }
{
    let dif = difs.get(at)?;
    let (before, _) = difs.split_at(at);
    Some(RankedFac {
        rank: u16::from(dif.rank),
        fac: count_at(before, dif.rank) as u16,
    })
}

/// The DIF of that name.
pub fn find_dif(difs: &[DifPlan], name: &Name) -> Option<RankedFac>
    requires { length difs.now ≤ 16 }
    ensures { result ≡ dif_named difs.now name.now }
{
    match place_of(difs, name) {
        Some(at) => fac_at(difs, at),
        None => None,
    }
}

/// The facility of that name, which is a wire or a DIF.
pub fn find_fac(plan: &Plan, name: &Name) -> Option<RankedFac>
    requires { IsPlan plan.now }
    ensures { result ≡ fac_named plan.now name.now }
{
    if let Some(fac) = plan.wire(name) {
        return Some(RankedFac { rank: 0, fac });
    }
    find_dif(plan.difs.as_slice(), name)
}
