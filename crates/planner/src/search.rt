use crate::entry::Entry;

// A search for the next point, as far as it is: plans with cost B at most `most` are looked at. No
// such plan has a cost A below `least_a`, and none with the best one's cost A has a cost B below
// `least_b`.
#[derive(Clone, Copy)]
pub struct Search {
    pub(crate) most: u8,
    pub(crate) best: Entry,
    pub(crate) least_a: u8,
    pub(crate) least_b: u8,
}
