ghost use Rattle.std.specs.Prelude.{◌≤◌};

// M choices and clause room K that a store was found to be large enough for.
#[derive(Clone, Copy)]
pub struct Sizes {
    pub choices: u16,
    pub room: usize,
    ghost some: { 1 ≤ choices },
    ghost few: { choices ≤ 32767 },
}
