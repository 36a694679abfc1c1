//! The steps of the DIFs, at any rank.
ghost use Rattle.std.specs.Prelude.{◌≡◌, true, false, Err, map};
ghost use Rattle.rina_policy.specs.Slots.{Slot};
ghost use Rattle.rina_data.specs.declared.step.StepError.TheVariants.{Memory};
ghost use Rattle.rina_tower.specs.Bystanders.{Anyone, LeavesNow};
ghost use Rattle.rina_tower.specs.MemoryFailure.{has_failed};
ghost use Rattle.rina_tower.specs.Ranks.{height_of, seen_of};
ghost use Rattle.rina_tower.specs.Stands.{IsTower};
ghost use Rattle.rina_tower.specs.Steps.{ClocksAt, InSteps, OutSteps};

use crate::tower::{Rank, Tower};
use rina_base::Node;
use rina_data::{ClockStep, InStep, OutStep, StepError};
use rina_policy::Picks;
use std::alloc::Global;

impl Tower {
    /// Takes one step at a link of the IPC process at a node of a DIF of rank `r`: the oldest SDU that waits there is
    /// taken. Where there is no such DIF it answers `NoIpc`.
    pub fn in_step(
        &mut self,
        alloc: Global,
        r: u16,
        dif: u16,
        node: Node,
        link: u16,
    ) -> Result<InStep, StepError>
        requires { IsTower self.old }
        ensures valid { IsTower self.new }
        ensures does { has_failed self.old ≡ false → InSteps r dif node link result self.old self.new }
        ensures failed { has_failed self.old ≡ true → (result ≡ Err Memory) × (self.new ≡ self.old) }
        ensures fails { result ≡ Err Memory → has_failed self.new ≡ true }
        ensures quiet { LeavesNow Anyone (seen_of self.old) (seen_of self.new) }
        ensures height { height_of self.new ≡ height_of self.old }
    {
        if self.has_failed() {
            return Err(StepError::Memory);
        }
        self.in_step_at_rank(alloc, r, dif, node, link)
    }

    /// Walks down to rank `r` and takes the step there.
    pub(crate) fn in_step_at_rank(
        &mut self,
        alloc: Global,
        r: u16,
        dif: u16,
        node: Node,
        link: u16,
    ) -> Result<InStep, StepError>
        requires { IsTower self.old }
        ensures valid { IsTower self.new }
        ensures does { InSteps r dif node link result self.old self.new }
        ensures fails { result ≡ Err Memory → has_failed self.new ≡ true }
        ensures quiet { LeavesNow Anyone (seen_of self.old) (seen_of self.new) }
        ensures height { height_of self.new ≡ height_of self.old }
    {
        match self {
            Tower::Wires(_) => Err(StepError::NoIpc),
            Tower::Rank(rank) => {
                let rank: &mut Rank = rank;
                if r == rank.below.height() + 1 {
                    rank.difs.in_step(alloc, &mut rank.below, dif, node, link)
                } else {
                    rank.below.in_step_at_rank(alloc, r, dif, node, link)
                }
            }
        }
    }

    /// Takes one step at a link of the IPC process at a node of a DIF of rank `r`: the PDU that the policy picks of
    /// those that wait is sent below, or written off, or stays. Where there is no such DIF it answers `NoIpc`.
    pub fn out_step<S: Picks>(
        &mut self,
        alloc: Global,
        r: u16,
        dif: u16,
        shelf: &mut S,
        node: Node,
        link: u16,
    ) -> Result<OutStep, StepError>
        requires { IsTower self.old }
        ensures valid { IsTower self.new }
        ensures does { has_failed self.old ≡ false → OutSteps (S.may_answer shelf.old) (S.slots shelf.old) (S.slots shelf.new) r dif node link result self.old self.new }
        ensures failed { has_failed self.old ≡ true → (result ≡ Err Memory) × (shelf.new ≡ shelf.old) × (self.new ≡ self.old) }
        ensures fails { result ≡ Err Memory → has_failed self.new ≡ true }
        ensures quiet { LeavesNow Anyone (seen_of self.old) (seen_of self.new) }
        ensures height { height_of self.new ≡ height_of self.old }
        ensures names { map (λ (x : Slot). x.name) (S.slots shelf.new) ≡ map (λ (x : Slot). x.name) (S.slots shelf.old) }
    {
        if self.has_failed() {
            return Err(StepError::Memory);
        }
        self.out_step_at_rank(alloc, r, dif, shelf, node, link)
    }

    /// Walks down to rank `r` and takes the step there.
    pub(crate) fn out_step_at_rank<S: Picks>(
        &mut self,
        alloc: Global,
        r: u16,
        dif: u16,
        shelf: &mut S,
        node: Node,
        link: u16,
    ) -> Result<OutStep, StepError>
        requires { IsTower self.old }
        ensures valid { IsTower self.new }
        ensures does { OutSteps (S.may_answer shelf.old) (S.slots shelf.old) (S.slots shelf.new) r dif node link result self.old self.new }
        ensures fails { result ≡ Err Memory → has_failed self.new ≡ true }
        ensures quiet { LeavesNow Anyone (seen_of self.old) (seen_of self.new) }
        ensures height { height_of self.new ≡ height_of self.old }
        ensures names { map (λ (x : Slot). x.name) (S.slots shelf.new) ≡ map (λ (x : Slot). x.name) (S.slots shelf.old) }
    {
        match self {
            Tower::Wires(_) => Err(StepError::NoIpc),
            Tower::Rank(rank) => {
                let rank: &mut Rank = rank;
                if r == rank.below.height() + 1 {
                    rank.difs
                        .out_step(alloc, &mut rank.below, shelf, dif, node, link)
                } else {
                    rank.below
                        .out_step_at_rank(alloc, r, dif, shelf, node, link)
                }
            }
        }
    }

    /// Takes one step of the IPC process at a node of a DIF of rank `r` by the clock: the first thing that is due is
    /// done. Where there is no such DIF it answers `NoIpc`.
    pub fn clock_step(
        &mut self,
        alloc: Global,
        r: u16,
        dif: u16,
        node: Node,
    ) -> Result<ClockStep, StepError>
        requires { IsTower self.old }
        ensures valid { IsTower self.new }
        ensures does { has_failed self.old ≡ false → ClocksAt r dif node result self.old self.new }
        ensures failed { has_failed self.old ≡ true → (result ≡ Err Memory) × (self.new ≡ self.old) }
        ensures fails { result ≡ Err Memory → has_failed self.new ≡ true }
        ensures quiet { LeavesNow Anyone (seen_of self.old) (seen_of self.new) }
        ensures height { height_of self.new ≡ height_of self.old }
    {
        if self.has_failed() {
            return Err(StepError::Memory);
        }
        self.clock_step_at_rank(alloc, r, dif, node)
    }

    /// Walks down to rank `r` and takes the step there.
    pub(crate) fn clock_step_at_rank(
        &mut self,
        alloc: Global,
        r: u16,
        dif: u16,
        node: Node,
    ) -> Result<ClockStep, StepError>
        requires { IsTower self.old }
        ensures valid { IsTower self.new }
        ensures does { ClocksAt r dif node result self.old self.new }
        ensures fails { result ≡ Err Memory → has_failed self.new ≡ true }
        ensures quiet { LeavesNow Anyone (seen_of self.old) (seen_of self.new) }
        ensures height { height_of self.new ≡ height_of self.old }
    {
        match self {
            Tower::Wires(_) => Err(StepError::NoIpc),
            Tower::Rank(rank) => {
                let rank: &mut Rank = rank;
                if r == rank.below.height() + 1 {
                    rank.difs.clock_step(alloc, &mut rank.below, dif, node)
                } else {
                    rank.below.clock_step_at_rank(alloc, r, dif, node)
                }
            }
        }
    }
}
