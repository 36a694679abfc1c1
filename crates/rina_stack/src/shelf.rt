//! A stack may name the policies that were added to a shelf, retired or not.
use crate::policies::Policies;
use rina_base::Name;
use rina_policy::Shelf;

impl Policies for Shelf {
    ghost use Rattle.std.specs.Prelude.{is_some, map, position};
    ghost use Rattle.std.specs.Str.{bytes_eq};

    ghost knows = { λ s name. is_some (position (λ n. bytes_eq n name) (map (λ p. p.name) s.places.items)) };

    #[tactic(auto, using(crate::proofs::Shelves::known))]
    fn has(&self, name: &Name) -> bool {
        Shelf::has(self, name)
    }
}
