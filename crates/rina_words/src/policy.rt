//! The word `retire`.
ghost use Rattle.std.specs.Prelude.{◌≡◌};
ghost use Rattle.rina_policy.specs.Slots.{count_of};
ghost use Rattle.rina_words.specs.Step.{HasNames, retire_answer, retired_if};
ghost use Rattle.rina_notes.specs.Told.{retired_told};

use rina_base::Name;
use rina_notes::refused;
use rina_policy::{NoPolicy, Retires};
use rina_report::{Answer, Refusal};

/// The answer to `retire`: done, or there is no live policy of that name.
fn say_retired(answer: Result<(), NoPolicy>) -> Option<Answer>
    ensures { result ≡ retired_told answer }
{
    match answer {
        Ok(()) => Some(Answer::Done),
        Err(NoPolicy) => refused(Some(Refusal::NoPolicy)),
    }
}

/// The word `retire`.
#[tactic(auto, using(crate::proofs::Retiring::said_is, crate::proofs::Retiring::left_is))]
pub fn retire<P: Retires>(shelf: &mut P, policy: &Name) -> Option<Answer>
    ensures said { result ≡ retire_answer (count_of policy.now (P.slots shelf.old)) }
    ensures left { P.slots shelf.new ≡ retired_if (count_of policy.now (P.slots shelf.old)) policy.now (P.slots shelf.old) }
    ensures names { HasNames (P.slots shelf.old) (P.slots shelf.new) }
{
    let answer = shelf.withdraw(policy);
    say_retired(answer)
}
