//! The second half of opening a database: the records of the log past the checkpoint are made again on its pages, and then the
//! changes that stand are rolled back, with a record each.
#![tactic(auto)]

mod on_pages;
mod repeating;
mod undoing;
mod writable;

pub use on_pages::OnPages;
pub use repeating::repeat;
pub use undoing::roll_back_all;
