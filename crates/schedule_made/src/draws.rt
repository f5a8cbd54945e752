//! The draws of a number.

ghost use Rattle.std.specs.Prelude.{◌≡◌};
ghost use Rattle.schedule_made.specs.Draws.{generator_of, drawn};

use rand_core::SeedableRng;
use rand_core::utils::NextWord;
use rand_pcg::Lcg64Xsh32;

#[tactic(auto, unfolding(crate::specs::Draws::generator_of))]
pub(crate) fn generator_of(number: u64) -> Lcg64Xsh32
    ensures { result ≡ generator_of number }
{
    Lcg64Xsh32::seed_from_u64(number)
}

#[tactic(auto, unfolding(crate::specs::Draws::drawn))]
pub(crate) fn draw(generator: &mut Lcg64Xsh32) -> u32
    ensures value { result ≡ (drawn generator.old).0 }
    ensures after { generator.new ≡ (drawn generator.old).1 }
{
    generator.next_word()
}
