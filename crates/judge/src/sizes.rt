ghost use Rattle.std.specs.Prelude.{◌≤◌};

// The sizes of a judge, in range: N choices, Q prices in each cost, R units of rules.
#[derive(Clone, Copy)]
pub struct Sizes {
    pub choices: u8,
    pub price_room: u8,
    pub rule_room: u16,
    ghost some_choice: { 1 ≤ choices },
    ghost few_choices: { choices ≤ 64 },
    ghost some_prices: { 1 ≤ price_room },
    ghost few_prices: { price_room ≤ 64 },
    ghost some_rules: { 1 ≤ rule_room },
    ghost few_rules: { rule_room ≤ 1024 },
}
