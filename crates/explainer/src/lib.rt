// Why a grade is what it is (document 02, W-207).
// Tables and the rounds of their rises are passed as two slices, and `Ready` is a clause. As a ghost field of a struct of both `Ready` was tried, and its
// proof did not close: `WellFormed` lets a name pass as below k or as FF, so it is no proposition. With the clause kept, each `ensures` over the struct
// reads `solution.entry.tables.now` for `tables.now`, which is no plainer.
#![tactic(auto)]

mod asked;
mod before;
mod broken;
mod bytes;
mod callee;
mod known;
mod lent;
mod lower;
mod numbers;
mod picks;
mod places;
mod seen;
mod turns;
mod walk;

pub use asked::Refusal;
pub use broken::broken_bytes;
pub use bytes::explain_bytes;
pub use lent::explain;
pub use numbers::numbers_of;
pub use walk::Step;
