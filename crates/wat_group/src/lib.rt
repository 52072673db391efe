//! The answer of a query: groups, aggregates, HAVING, order and DISTINCT.
#![tactic(auto)]

mod answer;
mod distinct;
mod finishing;
mod grouped;
mod grouping;
mod judging;
mod keyed;
mod laws;
mod line;
mod making;
mod ordering;
mod taken;

pub use answer::Finished;
pub use finishing::finish;
pub use laws::order_laws;
