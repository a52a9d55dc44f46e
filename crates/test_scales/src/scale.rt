ghost use Rattle.std.specs.Prelude.{◌≡◌, refl};
ghost use Rattle.test_scales.specs.Models.{skips_places, skips_at, skips_joined, skips_laws, sum_places, sum_at, sum_joined, sum_laws};

use scales::{Count, Scale};

pub type SkipCount = Count<3>;

// Skips: any two of them come to the worst, 3.
pub struct Skips;

impl Scale for Skips {
    type Value = SkipCount;

    const TOP: u8 = 3;

    ghost TOP = { 3 };

    ghost places = { skips_places };

    ghost topped = { refl };

    ghost place = { λ v. v.count };

    ghost at = { skips_at };

    ghost joined = { skips_joined };

    ghost laws = { skips_laws };

    fn from_place(p: u8) -> SkipCount {
        Count::new(p)
    }

    fn place_of(v: SkipCount) -> u8 {
        v.get()
    }

    fn join(u: SkipCount, v: SkipCount) -> SkipCount {
        match (u.get(), v.get()) {
            (0, _) => v,
            (_, 0) => u,
            _ => Count::new(Self::TOP),
        }
    }
}

pub type Points = Count<200>;

// Points: they add up, to the highest top that a scale may have.
pub struct Sum200;

impl Scale for Sum200 {
    type Value = Points;

    const TOP: u8 = 200;

    ghost TOP = { 200 };

    ghost places = { sum_places };

    ghost topped = { refl };

    ghost place = { λ v. v.count };

    ghost at = { sum_at };

    ghost joined = { sum_joined };

    ghost laws = { sum_laws };

    fn from_place(p: u8) -> Points {
        Count::new(p)
    }

    fn place_of(v: Points) -> u8 {
        v.get()
    }

    fn join(u: Points, v: Points) -> Points {
        u.plus(v)
    }
}
