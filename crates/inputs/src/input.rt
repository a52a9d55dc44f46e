ghost use Rattle.std.specs.Prelude.{◌≡◌, drop};
ghost use Rattle.std.specs.Iterator.{YieldsFirst, item_count};
ghost use Rattle.inputs.specs.Reading.{byte_at, number_at};

// The bytes still to be read.
#[derive(Clone, Copy)]
pub struct Input<'a> {
    pub rest: &'a [u8],
}

impl Iterator for Input<'_> {
    type Item = u8;

    ghost next_gives = { YieldsFirst (λ s. s.rest.now) };

    ghost remaining = { item_count (λ s. s.rest.now) };

    fn next(&mut self) -> Option<u8> {
        let (byte, rest) = self.rest.split_first()?;
        self.rest = rest;
        Some(*byte)
    }
}

impl Input<'_> {
    // 0 past the end.
    pub fn byte(&mut self) -> u8
        ensures value { result ≡ byte_at self.old.rest.now 0 }
        ensures rest { self.new.rest.now ≡ drop 1 self.old.rest.now }
    {
        self.next().unwrap_or(0)
    }

    // Two bytes, the low one first.
    pub fn number(&mut self) -> u16
        ensures value { result ≡ number_at self.old.rest.now }
        ensures rest { self.new.rest.now ≡ drop 2 self.old.rest.now }
    {
        let low = self.byte();
        u16::from_le_bytes([low, self.byte()])
    }
}
