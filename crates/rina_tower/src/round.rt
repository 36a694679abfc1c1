//! Rounds: the steps of all DIFs, each in its turn.
ghost use Rattle.std.specs.Prelude.{◌≡◌, true, false, Err, List, map, not, OnOk, OnErr, IfOk, IsErr};
ghost use Rattle.rina_policy.specs.Slots.{Slot};
ghost use Rattle.rina_data.specs.declared.step.StepError.TheVariants as errors;
ghost use Rattle.rina_tower.specs.Bystanders.{Anyone, LeavesNow};
ghost use Rattle.rina_tower.specs.MemoryFailure.{has_failed};
ghost use Rattle.rina_tower.specs.Ranks.{height_of, now_of, seen_of};
ghost use Rattle.rina_tower.specs.Rounds.{AllClockSteps, Follows, InTurn, IsRound, AllOutSteps, Runs, AllInSteps, has_left, has_taken, leaves_no_more, links_downward, links_upward, members_upward, none_due, takes_no_more, was_due};
ghost use Rattle.rina_tower.specs.Stands.{IsTower};

use crate::places::{LinkPlace, MemberPlace};
use crate::tower::Tower;
use rina_base::Memory;
use rina_data::{ClockStep, InStep, OutStep, StepError};
use rina_policy::Picks;
use std::alloc::Global;

/// Whether a step took something, so that there may be more. `Memory` is passed on.
fn has_taken(answer: Result<InStep, StepError>) -> Result<bool, Memory>
    ensures tells { IfOk result (λ on. (has_taken answer ≡ on) × (takes_no_more answer ≡ not on)) }
    ensures memory { OnErr result (answer ≡ Err errors.Memory) }
{
    match answer {
        Ok(InStep::Took { key: _, end: _ }) => Ok(true),
        Ok(InStep::Idle) => Ok(false),
        Err(StepError::Memory) => Err(Memory),
        Err(StepError::NoIpc) => Ok(false),
        Err(StepError::NoLink) => Ok(false),
        Err(StepError::CountSpent { .. }) => Ok(false),
    }
}

/// Whether something was due and done, so that there may be more. `Memory` is passed on.
fn was_due(answer: Result<ClockStep, StepError>) -> Result<bool, Memory>
    ensures tells { IfOk result (λ on. (was_due answer ≡ on) × (none_due answer ≡ not on)) }
    ensures memory { OnErr result (answer ≡ Err errors.Memory) }
{
    match answer {
        Ok(ClockStep::Idle) => Ok(false),
        Ok(_) => Ok(true),
        Err(StepError::Memory) => Err(Memory),
        Err(StepError::NoIpc) => Ok(false),
        Err(StepError::NoLink) => Ok(false),
        Err(StepError::CountSpent { .. }) => Ok(false),
    }
}

/// Whether a PDU left its queue, so that the next one may. `Memory` is passed on.
fn has_left(answer: Result<OutStep, StepError>) -> Result<bool, Memory>
    ensures tells { IfOk result (λ on. (has_left answer ≡ on) × (leaves_no_more answer ≡ not on)) }
    ensures memory { OnErr result (answer ≡ Err errors.Memory) }
{
    match answer {
        Ok(OutStep::Sent { key: _ }) => Ok(true),
        Ok(OutStep::Off { key: _, cause: _ }) => Ok(true),
        Ok(OutStep::Idle) => Ok(false),
        Ok(OutStep::Held { why: _ }) => Ok(false),
        Err(StepError::Memory) => Err(Memory),
        Err(StepError::NoIpc) => Ok(false),
        Err(StepError::NoLink) => Ok(false),
        Err(StepError::CountSpent { .. }) => Ok(false),
    }
}

impl Tower {
    /// Takes in-steps at a link, one SDU after the other, until a step takes none.
    fn in_steps(&mut self, alloc: Global, place: LinkPlace) -> Result<(), Memory>
        requires { IsTower self.old }
        ensures follows { Follows self.old self.new }
        ensures does { OnOk result ((slots : List Slot) → Runs (AllInSteps place) slots self.old slots self.new) }
        ensures fails { OnErr result (has_failed self.new ≡ true) }
    {
        'steps: for _ in 0..u64::MAX {
            let answer = self.in_step_at_rank(alloc, place.rank, place.dif, place.node, place.link);
            if !has_taken(answer)? {
                return Ok(());
            }
        }
        // So many SDUs fit into no memory.
        Err(self.remember_memory_failure())
    }

    /// Takes clock steps at an IPC process, one thing after the other, until none is due or one is refused.
    fn clock_steps(&mut self, alloc: Global, place: MemberPlace) -> Result<(), Memory>
        requires { IsTower self.old }
        ensures follows { Follows self.old self.new }
        ensures does { OnOk result ((slots : List Slot) → Runs (AllClockSteps place) slots self.old slots self.new) }
        ensures fails { OnErr result (has_failed self.new ≡ true) }
    {
        'steps: for _ in 0..u64::MAX {
            let answer = self.clock_step_at_rank(alloc, place.rank, place.dif, place.node);
            if !was_due(answer)? {
                return Ok(());
            }
        }
        // So many things fit into no memory.
        Err(self.remember_memory_failure())
    }

    /// Takes out-steps at a link, one PDU after the other, until none waits or one stays.
    fn out_steps<S: Picks>(
        &mut self,
        alloc: Global,
        shelf: &mut S,
        place: LinkPlace,
    ) -> Result<(), Memory>
        requires { IsTower self.old }
        ensures follows { Follows self.old self.new }
        ensures names { map (λ (x : Slot). x.name) (S.slots shelf.new) ≡ map (λ (x : Slot). x.name) (S.slots shelf.old) }
        ensures does { OnOk result (Runs (AllOutSteps place) (S.slots shelf.old) self.old (S.slots shelf.new) self.new) }
        ensures fails { OnErr result (has_failed self.new ≡ true) }
    {
        'steps: for _ in 0..u64::MAX {
            let answer = self.out_step_at_rank(
                alloc, place.rank, place.dif, shelf, place.node, place.link,
            );
            if !has_left(answer)? {
                return Ok(());
            }
        }
        // So many PDUs fit into no memory.
        Err(self.remember_memory_failure())
    }

    /// Takes in-steps at every link, from the lowest rank up.
    fn in_steps_everywhere(&mut self, alloc: Global) -> Result<(), Memory>
        requires { IsTower self.old }
        ensures follows { Follows self.old self.new }
        ensures does { OnOk result ((slots : List Slot) → Runs (InTurn AllInSteps (links_upward self.old)) slots self.old slots self.new) }
        ensures fails { OnErr result (has_failed self.new ≡ true) }
    {
        let Ok(places) = self.links_upward(alloc) else {
            return Err(self.remember_memory_failure());
        };
        for place in places.as_slice() {
            self.in_steps(alloc, *place)?;
        }
        Ok(())
    }

    /// Takes clock steps at every IPC process, from the lowest rank up.
    fn clock_steps_everywhere(&mut self, alloc: Global) -> Result<(), Memory>
        requires { IsTower self.old }
        ensures follows { Follows self.old self.new }
        ensures does { OnOk result ((slots : List Slot) → Runs (InTurn AllClockSteps (members_upward self.old)) slots self.old slots self.new) }
        ensures fails { OnErr result (has_failed self.new ≡ true) }
    {
        let Ok(places) = self.members_upward(alloc) else {
            return Err(self.remember_memory_failure());
        };
        for place in places.as_slice() {
            self.clock_steps(alloc, *place)?;
        }
        Ok(())
    }

    /// Takes out-steps at every link, from the highest rank down.
    fn out_steps_everywhere<S: Picks>(&mut self, alloc: Global, shelf: &mut S) -> Result<(), Memory>
        requires { IsTower self.old }
        ensures follows { Follows self.old self.new }
        ensures names { map (λ (x : Slot). x.name) (S.slots shelf.new) ≡ map (λ (x : Slot). x.name) (S.slots shelf.old) }
        ensures does { OnOk result (Runs (InTurn AllOutSteps (links_downward self.old)) (S.slots shelf.old) self.old (S.slots shelf.new) self.new) }
        ensures fails { OnErr result (has_failed self.new ≡ true) }
    {
        let Ok(places) = self.links_downward(alloc) else {
            return Err(self.remember_memory_failure());
        };
        for place in places.as_slice() {
            self.out_steps(alloc, shelf, *place)?;
        }
        Ok(())
    }

    /// A round: first all that came is taken, at every link from rank 1 upward; then all that is due is done, at every
    /// IPC process; then all that may leave leaves, at every link from the highest rank down. Each place has its turn
    /// until a step there does nothing, or is refused. It ends early only where an allocation fails, which the tower remembers.
    pub fn round<S: Picks>(&mut self, alloc: Global, shelf: &mut S) -> Result<(), Memory>
        requires { IsTower self.old }
        ensures valid { IsTower self.new }
        ensures does { OnOk result (IsRound (S.slots shelf.old) (S.slots shelf.new) self.old self.new) }
        ensures failed { has_failed self.old ≡ true → IsErr result × (shelf.new ≡ shelf.old) × (self.new ≡ self.old) }
        ensures fails { OnErr result (has_failed self.new ≡ true) }
        ensures names { map (λ (x : Slot). x.name) (S.slots shelf.new) ≡ map (λ (x : Slot). x.name) (S.slots shelf.old) }
        ensures quiet { LeavesNow Anyone (seen_of self.old) (seen_of self.new) }
        ensures clock { now_of self.new ≡ now_of self.old }
        ensures height { height_of self.new ≡ height_of self.old }
    {
        if self.has_failed() {
            return Err(Memory);
        }
        self.in_steps_everywhere(alloc)?;
        self.clock_steps_everywhere(alloc)?;
        self.out_steps_everywhere(alloc, shelf)
    }
}
