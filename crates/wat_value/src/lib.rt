//! Values, rows and keys, their order and their bytes; the definitions of tables and indexes; changes.
#![tactic(auto)]

mod bound;
mod change;
mod decoding;
mod definition;
mod encoding;
mod key;
mod laws;
mod place;
mod text;
mod value;

pub use bound::{Bound, Interval};
pub use change::{Act, Acts, Change, SchemaChange};
pub use decoding::decode;
pub use definition::{
    Column, Columns, IndexDef, IndexDefs, Kind, Ordinals, TableDef, TableDefs, fits,
};
pub use encoding::{encode, is_short};
pub use key::{Key, Keys};
pub use laws::{first_law, index_laws, order_laws, width_laws};
pub use place::Place;
pub use text::Text;
pub use value::{Combination, Combinations, Row, Rows, Value, compare_rows};
pub use wat_name::Name;
