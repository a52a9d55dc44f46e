ghost use Rattle.std.specs.Prelude.{◌≡◌, ℕ, ◌<◌, ◌≤◌, true, bit_and};
ghost use Rattle.bits.specs.Bit.{bit};
ghost use Rattle.propagation.specs.Narrowing.{Halves};

use crate::partial::Partial;
use crate::rule::Rule;
use crate::sides::Sides;
use bits::{highest_index, members_of, without_bit};

// How much open rules ask for a choice to be taken, and to be left. Short rules weigh more.
#[derive(Clone, Copy)]
struct Weight {
    up: u32,
    down: u32,
}

impl Weight {
    fn score(self) -> u64 {
        (u64::from(self.up) + 1).saturating_mul(u64::from(self.down) + 1)
    }
}

// Adds what an open rule asks for.
fn add_rule(weights: &mut [Weight; 64], sides: Sides) {
    let marks = sides
        .ups
        .count_ones()
        .saturating_add(sides.downs.count_ones())
        .min(8);
    let weight = 1 << (2 * (8 - marks));
    for k in members_of(sides.ups) {
        let old = weights[k as usize];
        weights[k as usize].up = old.up.saturating_add(weight);
    }
    for k in members_of(sides.downs) {
        let old = weights[k as usize];
        weights[k as usize].down = old.down.saturating_add(weight);
    }
}

fn weigh(rules: &[Rule], at: Partial) -> [Weight; 64] {
    let mut weights = [Weight { up: 0, down: 0 }; 64];
    for rule in rules {
        if !rule.is_met(at) {
            add_rule(&mut weights, rule.sides.possible(at));
        }
    }
    weights
}

// The open choice that open rules ask for most, by both values.
fn heaviest(weights: &[Weight; 64], among: u64) -> u32
    requires { 0 < among }
    ensures low { result < 64 }
    ensures inside { bit among result ≡ true }
{
    let mut best = highest_index(among);
    let mut most = 0;
    for k in members_of(among) {
        let score = weights[k as usize].score();
        if score > most {
            best = k;
            most = score;
        }
    }
    best
}

// A trial: some open choice with one value, and the same with the other. First comes
// the choice that the shortest open rules name most, with the value that meets more of them; the
// contract leaves that free, and the time of the search hangs on it.
pub fn split(rules: &[Rule], at: Partial) -> (Partial, Partial)
    requires { 0 < bit_and at.up at.down }
    ensures { Halves at result.0 result.1 }
{
    let weights = weigh(rules, at);
    let k = heaviest(&weights, at.up & at.down);
    let left = Partial {
        up: without_bit(at.up, k),
        down: at.down,
    };
    let taken = Partial {
        up: at.up,
        down: without_bit(at.down, k),
    };
    let weight = weights[k as usize];
    if weight.up > weight.down {
        (taken, left)
    } else {
        (left, taken)
    }
}
