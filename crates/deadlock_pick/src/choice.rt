//! The region that gives way.
ghost use Rattle.std.specs.Prelude.{◌≡◌, ◌≤◌, ◌<◌, length};
ghost use Rattle.std.specs.List.{AllByRecursion};
ghost use Rattle.model_data.specs.Cycle.{gives_way, victim_of};
ghost use Rattle.deadlock_pick.specs.Weights.{IsWeighed};

use crate::Weights;
use model_data::Cycle;

/// The region of the ring that gives way: that whose unit has changed fewest records, on a tie the
/// highest region. This takes no memory.
pub fn victim(cycle: &Cycle, weights: &Weights) -> u32
    requires some { 1 ≤ length cycle.now }
    requires weighed { AllByRecursion (IsWeighed weights.now) cycle.now }
    ensures { result ≡ victim_of weights.now cycle.now }
{
    let regions = cycle.as_slice();
    let mut victim = u32::from(regions[0]);
    for region in &regions[1..] {
        victim = gives_way(weights, victim, u32::from(*region));
    }
    victim
}

// The one of two regions that gives way.
fn gives_way(weights: &Weights, a: u32, b: u32) -> u32
    requires a { IsWeighed weights.now a }
    requires b { IsWeighed weights.now b }
    ensures { result ≡ gives_way weights.now a b }
{
    let (first, second) = (weights.of(a), weights.of(b));
    if first < second || (first == second && b < a) {
        a
    } else {
        b
    }
}
