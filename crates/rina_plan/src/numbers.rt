//! The numbers of facilities in their ranks.
ghost use Rattle.std.specs.Prelude.{◌≡◌, ◌==◌, ◌<◌, ◌≤◌, count_by, length};
ghost use Rattle.rina_plan.specs.declared.dif.DifPlan.{DifPlan};
ghost use Rattle.rina_plan.specs.Numbers.{IsLower, facility_number, number_in_rank};

use crate::dif::{DifPlan, Lower};

/// How many DIFs have a rank.
#[tactic(auto, using(std::proofs::lemmas::List::Sums::count_by_more_yes, std::proofs::lemmas::List::Sums::count_by_more_no))]
fn count_of_rank(difs: &[DifPlan], rank: u8) -> usize
    ensures count { result ≡ count_by (λ (d : DifPlan). d.rank == rank) difs.now }
    ensures most { result ≤ length difs.now }
{
    let mut count = 0usize;
    'difs: for dif in difs {
        if dif.rank == rank {
            count += 1;
        }
    }
    count
}

/// The number of the DIF at a place of the stack among those of its rank, counted from 0 in stack order.
pub fn number_in_rank(difs: &[DifPlan], at: usize) -> u16
    requires few { length difs.now ≤ 16 }
    requires at { at < length difs.now }
    ensures { result ≡ number_in_rank difs.now at }
{
    let rank = difs[at].rank;
    count_of_rank(&difs[..at], rank) as u16
}

/// The number in its rank of the wire or DIF that a link is on. Wires are numbered in stack order.
pub fn facility_number(difs: &[DifPlan], on: Lower) -> u16
    requires few { length difs.now ≤ 16 }
    requires there { IsLower 128 (length difs.now) on }
    ensures { result ≡ facility_number difs.now on }
{
    match on {
        Lower::Wire(wire) => wire as u16,
        Lower::Dif(dif) => number_in_rank(difs, dif),
    }
}
