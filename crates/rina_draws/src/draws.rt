//! The random generator.
ghost use Rattle.std.specs.Prelude.{◌≡◌, ◌<◌};
ghost use Rattle.rina_draws.specs.Draws.{drawn, seeded};

use rand_core::SeedableRng;
use rand_core::utils::NextWord;
use rand_pcg::Lcg64Xsh32;

/// The generator with this seed.
#[tactic(auto, unfolding(crate::specs::Draws::seeded))]
pub fn seeded(seed: u64) -> Lcg64Xsh32
    ensures { result ≡ seeded seed }
{
    Lcg64Xsh32::seed_from_u64(seed)
}

/// Draws a number below `limit`, the next output of the generator modulo `limit`.
pub fn draw(generator: &mut Lcg64Xsh32, limit: u32) -> u32
    requires { 0 < limit }
    ensures number { result ≡ (drawn limit generator.old).0 }
    ensures after { generator.new ≡ (drawn limit generator.old).1 }
    ensures below { result < limit }
{
    generator.next_word() % limit
}
