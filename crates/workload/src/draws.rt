//! The generator of the workload, and the transfers that are drawn from it.
ghost use Rattle.std.specs.Prelude.{◌≡◌, ◌+◌, ◌%◌, ◌≤◌};
ghost use Rattle.workload.specs.Draws as spec;

use rand_core::SeedableRng;
use rand_core::utils::NextWord;
use rand_pcg::Lcg64Xsh32;

/// A transfer: from which account to which, and how much.
#[derive(Drop)]
pub(crate) struct Transfer {
    pub(crate) from: u16,
    pub(crate) to: u16,
    pub(crate) amount: u32,
}

/// The generator that a seed gives.
#[tactic(auto, unfolding(crate::specs::Draws::seeded))]
pub(crate) fn seeded(seed: u64) -> Lcg64Xsh32
    ensures { result ≡ spec.seeded seed }
{
    Lcg64Xsh32::seed_from_u64(seed)
}

/// Draws the three numbers of a transfer, one after another.
#[tactic(auto, unfolding(crate::specs::Draws::behind_transfer))]
pub(crate) fn draw_transfer(generator: &mut Lcg64Xsh32) -> Transfer
    ensures from { result.from ≡ 1 + spec.drawn_word generator.old % 100 }
    ensures to { result.to ≡ 1 + spec.drawn_word (spec.moved generator.old) % 100 }
    ensures amount { result.amount ≡ 1 + spec.drawn_word (spec.moved (spec.moved generator.old)) % 9 }
    ensures generator { generator.new ≡ spec.behind_transfer generator.old }
{
    let from = 1 + (draw(generator) % 100) as u16;
    let to = 1 + (draw(generator) % 100) as u16;
    let amount = 1 + draw(generator) % 9;
    Transfer { from, to, amount }
}

/// Draws the next word.
#[tactic(auto, unfolding(crate::specs::Draws::drawn_word, crate::specs::Draws::moved))]
fn draw(generator: &mut Lcg64Xsh32) -> u32
    ensures value { result ≡ spec.drawn_word generator.old }
    ensures generator { generator.new ≡ spec.moved generator.old }
{
    generator.next_word()
}
