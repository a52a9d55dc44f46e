ghost use Rattle.std.specs.Prelude.{◌≡◌, ◌≤◌, true, [], vec_capacity};
ghost use Rattle.design.specs.Plan.{rules_kept};
ghost use Rattle.design.specs.Rule.{units_used};
ghost use Rattle.propagation.specs.Held.{rules_of};

use design::Price;
use judge::Sizes;
use pricing::PriceTable;
use propagation::Rule;

// The memory of a plain judge of any sizes, had before its making.
#[derive(Drop)]
pub struct Room {
    pub(crate) rules: Vec<Rule>,
    pub(crate) prices_a: Vec<Price>,
    pub(crate) prices_b: Vec<Price>,
    ghost no_rules: { rules.items ≡ [] },
    ghost no_a: { prices_a.items ≡ [] },
    ghost no_b: { prices_b.items ≡ [] },
    ghost rule_memory: { 1024 ≤ vec_capacity rules },
    ghost a_memory: { 64 ≤ vec_capacity prices_a },
    ghost b_memory: { 64 ≤ vec_capacity prices_b },
}

// A judge that searches settings itself. A is the scale of cost A, and B that of cost B.
#[derive(Drop)]
pub struct Plain<A, B> {
    pub(crate) sizes: Sizes,
    pub(crate) rules: Vec<Rule>,
    // the units of R that the rules take
    pub(crate) used: u16,
    pub(crate) prices_a: PriceTable<A>,
    pub(crate) prices_b: PriceTable<B>,
    ghost units: { used ≡ units_used (rules_of rules.items) },
    ghost rules_fit: { used ≤ sizes.rule_room },
    ghost a_sizes: { prices_a.sizes ≡ sizes },
    ghost b_sizes: { prices_b.sizes ≡ sizes },
    ghost kept_rules: { rules_kept sizes.choices (rules_of rules.items) ≡ true },
    ghost rule_memory: { 1024 ≤ vec_capacity rules },
    ghost a_memory: { 64 ≤ vec_capacity prices_a.list.entries },
    ghost b_memory: { 64 ≤ vec_capacity prices_b.list.entries },
}
