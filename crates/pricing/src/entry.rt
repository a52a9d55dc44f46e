ghost use Rattle.std.specs.Prelude.{◌≡◌, ◌<◌, OnOk, vec_len, vec_capacity};
ghost use Rattle.design.specs.Fault.{refused_or};
ghost use Rattle.judge.specs.Calls.{price_fault, price_of};
ghost use Rattle.pricing.specs.Entries.{Fresh, Longer};

use crate::price_table::PriceTable;
use design::JudgeFault;
use judge::check_price;
use scales::Scale;

impl<S> PriceTable<S> {
    // A price that was checked, in memory that is there already: this cannot fail.
    pub fn append(&mut self, mark: i8, place: u8)
        requires fresh { Fresh self.old mark }
        requires memory { vec_len self.old.list.entries < vec_capacity self.old.list.entries }
        ensures { Longer self.old (price_of mark place) self.new }
    {
        self.list.push(mark, place);
    }
}

impl<S: Scale> PriceTable<S> {
    // Whether a price is refused.
    pub fn check(&self, mark: i8, place: u8) -> Result<(), JudgeFault>
        ensures answer { result ≡ refused_or (price_fault self.now.sizes.choices self.now.sizes.price_room S.Scale.places.top self.now.list.entries.items mark place) tt }
        ensures fresh { OnOk result (Fresh self.now mark) }
    {
        check_price(self.sizes, S::TOP, self.as_slice(), mark, place)
    }
}
