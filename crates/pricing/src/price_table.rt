ghost use Rattle.std.specs.Prelude.{◌≡◌, ◌≤◌, true, [], vec_len};
ghost use Rattle.design.specs.Cost.{cost};
ghost use Rattle.design.specs.Plan.{prices_kept};
ghost use Rattle.propagation.specs.Masks.{ups_of, downs_of};
ghost use Rattle.pricing.specs.Tables.{marks_in};
ghost use Rattle.pricing.specs.Bounds.{Bounded, Least};

use crate::list::PriceList;
use design::Price;
use judge::Sizes;
use propagation::{Partial, Rule, Sides};
use scales::Scale;
use std::marker::PhantomData;

// The prices that a judge of these sizes keeps for a cost of scale S: each of a mark of its choices,
// one for a mark, and no more than it has room for.
#[derive(Drop)]
pub struct PriceTable<S> {
    pub(crate) sizes: Sizes,
    pub(crate) list: PriceList,
    pub(crate) scale: PhantomData<S>,
    ghost fits: { vec_len list.entries ≤ sizes.price_room },
    ghost kept: { prices_kept sizes.choices list.entries.items ≡ true },
}

impl<S> PriceTable<S> {
    // No prices, in the memory that is handed in.
    pub fn new(sizes: Sizes, entries: Vec<Price>) -> PriceTable<S>
        requires { entries.items ≡ [] }
        ensures sizes { result.sizes ≡ sizes }
        ensures entries { result.list.entries ≡ entries }
    {
        PriceTable {
            sizes,
            list: PriceList::new(entries),
            scale: PhantomData,
        }
    }

    // The prices in order of entry.
    pub fn as_slice(&self) -> &[Price]
        ensures { result.now ≡ self.now.list.entries.items }
    {
        self.list.as_slice()
    }

    // The choices that cost something to take, and those that cost something to leave.
    pub fn priced_choices(&self) -> Sides
        ensures { result ≡ record { ups = ups_of (marks_in self.now.list.entries.items); downs = downs_of (marks_in self.now.list.entries.items) } }
    {
        self.list.priced_choices()
    }
}

impl<S: Scale> PriceTable<S> {
    // The cost of a word.
    pub fn cost(&self, word: u64) -> u8
        ensures { result ≡ cost S.Scale.places self.now.list.entries.items word }
    {
        self.list.cost::<S>(word)
    }

    // Excludes the marks that would break a bound; nothing where the sure marks break it.
    pub fn within(&self, bound: u8, at: Partial) -> Option<Partial>
        ensures { Bounded S.Scale.places self.now.list.entries.items bound at result }
    {
        self.list.within::<S>(bound, at)
    }

    // What every setting that agrees and meets the rules costs at least.
    pub fn least(&self, rules: &[Rule], at: Partial) -> u8
        ensures { Least S.Scale.places rules.now self.now.list.entries.items at result }
    {
        self.list.least::<S>(rules, at)
    }
}
