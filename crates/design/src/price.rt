// A price: what a mark costs where it is true, as a place of the cost's scale.
#[derive(Clone, Copy, PartialEq, Eq, Debug)]
pub struct Price {
    pub mark: i8,
    pub place: u8,
}
