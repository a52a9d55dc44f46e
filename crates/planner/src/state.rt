ghost use Rattle.std.specs.Prelude.{◌≡◌, ◌+◌, ◌≤◌, false, [], vec_len, vec_capacity};
ghost use Rattle.planner.specs.Order.{last_b};

use crate::entry::Entry;
use judge::Judge;

// Memory for the longest list, had before the making.
#[derive(Drop)]
pub struct ListRoom {
    pub(crate) entries: Vec<Entry>,
    ghost memory: { 201 ≤ vec_capacity entries },
    ghost none: { entries.items ≡ [] },
}

// A planner on a judge that nothing else changes.
#[derive(Drop)]
pub struct Planner<J: Judge> {
    pub(crate) judge: J,
    pub(crate) entries: Vec<Entry>,
    // a listing is open from a step until a restart
    pub(crate) listing: bool,
    ghost memory: { 201 ≤ vec_capacity entries },
    // cost B falls along the list, so that it has at most 201 entries
    ghost falls: { vec_len entries + last_b 201 entries.items ≤ 201 },
    ghost shut: { (listing ≡ false → entries.items ≡ []) },
}
