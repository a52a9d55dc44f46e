// Scales: the kinds of cost. A scale has values in rising order, numbered by their places from 0 to
// its top, and joins two values into one. Everything above is one text for every scale.
#![tactic(auto)]

mod count;

ghost use Rattle.std.specs.Prelude.{◌≡◌, ℕ, refl};
ghost use Rattle.scales.specs.Laws.{Places, Laws};
ghost use Rattle.scales.specs.Many.{JoinedMany};
ghost use Rattle.scales.specs.Models.{hours_places, quarters_at, quarters_sum, hours_laws, needles_places, needles_at, needles_larger, needles_laws};

pub use count::Count;

pub trait Scale {
    type Value: Copy;

    // The highest place, from 1 to 200.
    const TOP: u8;

    ghost TOP: { ℕ };

    // The scale by its places alone: its top, and the place of two places joined.
    ghost places: { Places };

    ghost topped: { TOP ≡ places.top };

    ghost place: { Self.Value → ℕ };

    // The value at a place; a place above the top is read as the top.
    ghost at: { ℕ → Self.Value };

    ghost joined: { Self.Value → Self.Value → Self.Value };

    ghost laws: { Laws places place at joined };

    fn nothing() -> Self::Value
        ensures { result ≡ at 0 }
    {
        Self::from_place(0)
    }

    fn from_place(p: u8) -> Self::Value
        ensures { result ≡ at p };

    fn place_of(v: Self::Value) -> u8
        ensures { result ≡ place v };

    fn join(u: Self::Value, v: Self::Value) -> Self::Value
        ensures { result ≡ joined u v };
}

pub type QuarterHours = Count<40>;

// Quarter hours of threading: they add up, to 40 at most.
pub struct Hours;

impl Scale for Hours {
    type Value = QuarterHours;

    const TOP: u8 = 40;

    ghost TOP = { 40 };

    ghost places = { hours_places };

    ghost topped = { refl };

    ghost place = { λ v. v.count };

    ghost at = { quarters_at };

    ghost joined = { quarters_sum };

    ghost laws = { hours_laws };

    fn from_place(p: u8) -> QuarterHours {
        Count::new(p)
    }

    fn place_of(v: QuarterHours) -> u8 {
        v.get()
    }

    fn join(u: QuarterHours, v: QuarterHours) -> QuarterHours {
        u.plus(v)
    }
}

pub type ShogNeedles = Count<24>;

// Needles of shog: the worst one counts, 24 at most.
pub struct Needles;

impl Scale for Needles {
    type Value = ShogNeedles;

    const TOP: u8 = 24;

    ghost TOP = { 24 };

    ghost places = { needles_places };

    ghost topped = { refl };

    ghost place = { λ v. v.count };

    ghost at = { needles_at };

    ghost joined = { needles_larger };

    ghost laws = { needles_laws };

    fn from_place(p: u8) -> ShogNeedles {
        Count::new(p)
    }

    fn place_of(v: ShogNeedles) -> u8 {
        v.get()
    }

    fn join(u: ShogNeedles, v: ShogNeedles) -> ShogNeedles {
        u.max(v)
    }
}

// The place of the values at two places joined.
pub fn join_places<S: Scale>(p: u8, q: u8) -> u8
    ensures { result ≡ S.Scale.places.join p q }
{
    S::place_of(S::join(S::from_place(p), S::from_place(q)))
}

// Many values joined, from nothing. Neither their order nor how they are grouped matters, and the
// result never falls below a part.
pub fn join_all<S: Scale>(values: &[S::Value]) -> S::Value
    ensures { JoinedMany S.Scale.place S.Scale.at S.Scale.joined values.now result }
{
    let mut sum = S::nothing();
    for v in values {
        sum = S::join(sum, *v);
    }
    sum
}
