// The prices of a cost: what a word costs, what a bound excludes, and what a plan costs at least. All
// of it is one text for every scale.
#![tactic(auto)]

mod bound;
mod entry;
mod list;
mod price_table;
mod table;

pub use list::PriceList;
pub use price_table::PriceTable;
