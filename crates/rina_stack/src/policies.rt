//! The policies that a stack may name.
ghost use Rattle.std.specs.Prelude.{◌≡◌, ℕ, List, Bool, not, position, length, ◌<◌, IfSome};
ghost use Rattle.rina_stack.specs.Policies.{is_built_in, unknown_policy};

use rina_base::Name;
use rina_plan::DifPlan;

/// A set of policies that a stack may name.
pub trait Policies {
    ghost knows: { Self → List ℕ → Bool };

    /// Whether a policy has that name.
    fn has(&self, name: &Name) -> bool
        ensures { result ≡ knows self.now name.now };
}

/// The five built-in policies.
pub struct BuiltIn;

impl Policies for BuiltIn {
    ghost use Rattle.rina_stack.specs.Policies.{is_built_in};

    ghost knows = { λ _ name. is_built_in name };

    #[tactic(auto, unfolding(crate::specs::Policies::is_built_in))]
    fn has(&self, name: &Name) -> bool {
        let text = name.as_bytes();
        text == b"strict".as_slice()
            || text == b"last".as_slice()
            || text == b"first".as_slice()
            || text == b"round".as_slice()
            || text == b"weighted".as_slice()
    }
}

/// The place of the first DIF whose policy is not in the set.
pub(crate) fn first_unknown<P: Policies>(policies: &P, difs: &[DifPlan]) -> Option<usize>
    ensures place { result ≡ unknown_policy (P.knows policies.now) difs.now }
    ensures within { IfSome result (λ i. i < length difs.now) }
{
    difs.iter().position(|dif| !policies.has(&dif.policy))
}
