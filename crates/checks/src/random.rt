ghost use Rattle.std.specs.Prelude.{◌<◌, ◌≤◌};

// Numbers that look random and are the same in every run (xorshift64*).
#[derive(Drop)]
pub struct Random {
    state: u64,
}

impl Random {
    pub fn new(seed: u64) -> Random {
        Random {
            state: seed.wrapping_mul(2).wrapping_add(1),
        }
    }

    pub fn word(&mut self) -> u64 {
        let mut x = self.state;
        x ^= x >> 12;
        x ^= x << 25;
        x ^= x >> 27;
        self.state = x;
        x.wrapping_mul(0x2545_f491_4f6c_dd1d)
    }

    // A number below n, or 0 where n is 0.
    pub fn below(&mut self, n: u8) -> u8
        ensures { 0 < n → result < n }
    {
        let drawn = (self.word() >> 33) % u64::from(n.max(1));
        u8::try_from(drawn).unwrap_or(0)
    }

    // True once in n times.
    pub fn once_in(&mut self, n: u8) -> bool {
        self.below(n) == 0
    }

    // A mark, of either sign, of one of the highest `span` of the choices.
    pub fn mark(&mut self, choices: u8, span: u8) -> i8 {
        let choice = choices.saturating_sub(self.below(span));
        let mark = i8::try_from(choice).unwrap_or(1);
        if self.once_in(2) {
            mark.wrapping_neg()
        } else {
            mark
        }
    }

    // A place from 1 to the top, more often a low one.
    pub fn place(&mut self, top: u8) -> u8
        ensures { 1 ≤ result }
    {
        if self.once_in(2) {
            self.below(top).saturating_add(1)
        } else {
            self.below(top.min(6)).saturating_add(1)
        }
    }
}
