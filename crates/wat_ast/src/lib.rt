//! The trees of statements, without their parentheses.
#![tactic(auto)]

mod copying;
mod expression;
mod query;
mod statement;

pub use expression::{AggregateKind, BinaryOp, Expr, Exprs, UnaryOp};
pub use query::{OrderBy, OrderItem, Orders, Query, SelectItems, Source, Sources};
pub use statement::{Element, Elements, InsertSource, SetItem, SetItems, Statement, TypeName};
pub use wat_name::Name;

pub type Names = wat_list::Items<Name>;
