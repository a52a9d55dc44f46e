ghost use Rattle.std.specs.Prelude.{◌≡◌, ◌≤◌};

// A number up to a top: the value of a scale that counts something.
#[derive(Clone, Copy, PartialEq, Eq, Debug)]
pub struct Count<const TOP: u8> {
    count: u8,
    ghost within: { count ≤ TOP },
}

impl<const TOP: u8> Count<TOP> {
    ghost use Rattle.scales.specs.Counts.{counted, added, larger};

    // A number above the top is read as the top.
    pub fn new(n: u8) -> Count<TOP>
        ensures { result ≡ counted TOP n }
    {
        Count { count: n.min(TOP) }
    }

    pub fn get(self) -> u8
        ensures { result ≡ self.entry.count }
    {
        self.count
    }

    // Both together, or the top where they come to more.
    pub fn plus(self, other: Count<TOP>) -> Count<TOP>
        ensures { result ≡ added self.entry other.entry }
    {
        Count::new(self.count.saturating_add(other.count))
    }

    // The larger of the two.
    pub fn max(self, other: Count<TOP>) -> Count<TOP>
        ensures { result ≡ larger self.entry other.entry }
    {
        Count {
            count: self.count.max(other.count),
        }
    }
}
