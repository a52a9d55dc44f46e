// The judge: what every layer above stands on. It keeps a design's rules and prices, finds plans
// within two bounds and tells a word's costs. Its meaning is published mathematics, in `design`.
#![tactic(auto)]

mod sizes;

ghost use Rattle.std.specs.Prelude.{◌≡◌, ℕ, ◌%◌, ◌^◌, ◌≤◌, length};
ghost use Rattle.std.specs.List.{list_any};
ghost use Rattle.std.specs.Ordering.{int_eq};
ghost use Rattle.design.specs.declared.price.Price.{Price};
ghost use Rattle.design.specs.Fault.{refused_or};
ghost use Rattle.design.specs.Plan.{Scales, Meaning, Table, Sought, cost_a, cost_b};
ghost use Rattle.judge.specs.Calls.{sizes_fault, rule_fault, price_fault, rule_answer, price_a_answer, price_b_answer, Entered, with_rule, with_price_a, with_price_b, price_of};
ghost use Rattle.judge.specs.Made.{sizes_made};

use design::{JudgeFault, Price, all_named, is_named};
use scales::Scale;
pub use sizes::Sizes;

pub trait Judge {
    type CostA: Scale;

    type CostB: Scale;

    ghost scales: { Scales };

    ghost meaning: { Self → Meaning };

    ghost table: { (s : Self) → Table (meaning s) };

    // Appends a rule, or refuses.
    fn rule(&mut self, marks: &[i8]) -> Result<(), JudgeFault>
        ensures answer { result ≡ rule_answer (meaning self.old) marks.now }
        ensures after { Entered meaning self.old (with_rule (meaning self.old) marks.now) result self.new };

    // Appends a price to cost A, or refuses.
    fn price_a(&mut self, mark: i8, place: u8) -> Result<(), JudgeFault>
        ensures answer { result ≡ price_a_answer scales (meaning self.old) mark place }
        ensures after { Entered meaning self.old (with_price_a (meaning self.old) (price_of mark place)) result self.new };

    // Appends a price to cost B, or refuses.
    fn price_b(&mut self, mark: i8, place: u8) -> Result<(), JudgeFault>
        ensures answer { result ≡ price_b_answer scales (meaning self.old) mark place }
        ensures after { Entered meaning self.old (with_price_b (meaning self.old) (price_of mark place)) result self.new };

    // The word of a plan within both bounds, or nothing exactly where there is none.
    fn seek(&mut self, a: u8, b: u8) -> Option<u64>
        ensures answer { Sought scales (meaning self.old) a b result }
        ensures same { meaning self.new ≡ meaning self.old };

    // Both costs of a word, as places. Bits N and above are ignored.
    fn costs(&self, word: u64) -> (u8, u8)
        ensures first { result.0 ≡ cost_a scales (meaning self.now) (word % 2 ^ (meaning self.now).choices) }
        ensures second { result.1 ≡ cost_b scales (meaning self.now) (word % 2 ^ (meaning self.now).choices) };

    ghost tied: { scales ≡ record { a = Self.CostA.Scale.places; b = Self.CostB.Scale.places } };
}

// The check before a making: N from 1 to 64, Q from 1 to 64 and R from 1 to 1,024.
pub fn check_sizes(choices: u8, price_room: u8, rule_room: u16) -> Result<Sizes, JudgeFault>
    ensures { sizes_made choices price_room rule_room result }
{
    if choices < 1 || choices > 64 {
        return Err(JudgeFault::Choices);
    }
    if price_room < 1 || price_room > 64 || rule_room < 1 || rule_room > 1024 {
        return Err(JudgeFault::Capacity);
    }
    Ok(Sizes {
        choices,
        price_room,
        rule_room,
    })
}

// Whether a rule is refused, by the sizes and the units that the rules use.
#[tactic(auto, using(design::proofs::OfMarks::all_by))]
pub fn check_rule(sizes: Sizes, used: u16, marks: &[i8]) -> Result<(), JudgeFault>
    ensures { result ≡ refused_or (rule_fault sizes.choices used sizes.rule_room marks.now) tt }
{
    if marks.len() > 8 {
        return Err(JudgeFault::LongRule);
    }
    if !all_named(marks, u16::from(sizes.choices)) {
        return Err(JudgeFault::BadMark);
    }
    if usize::from(used) + 1 + marks.len() > usize::from(sizes.rule_room) {
        return Err(JudgeFault::Full);
    }
    Ok(())
}

// Whether a price is refused, by the sizes, the scale's top and the prices of this cost.
pub fn check_price(
    sizes: Sizes,
    top: u8,
    prices: &[Price],
    mark: i8,
    place: u8,
) -> Result<(), JudgeFault>
    ensures { result ≡ refused_or (price_fault sizes.choices sizes.price_room top prices.now mark place) tt }
{
    if !is_named(mark, u16::from(sizes.choices)) {
        return Err(JudgeFault::BadMark);
    }
    if place < 1 || place > top {
        return Err(JudgeFault::BadPlace);
    }
    if has_price(prices, mark) {
        return Err(JudgeFault::PricedTwice);
    }
    if prices.len() >= usize::from(sizes.price_room) {
        return Err(JudgeFault::Full);
    }
    Ok(())
}

fn has_price(prices: &[Price], mark: i8) -> bool
    ensures { result ≡ list_any (λ (p : Price). int_eq p.mark mark) prices.now }
{
    prices.iter().any(|price| price.mark == mark)
}
