// A row in its cell: the table's number and the row.
ghost use Rattle.std.specs.Prelude.{◌≡◌, ◌<◌, ◌^◌, ℕ, List, IfOk, IfSome, IfNone};
ghost use Rattle.wat_value.specs.declared.value.Value.{Value};
ghost use Rattle.wat_value.specs.Encoding.{IsShort, IsEncodable};
ghost use Rattle.wat_rows.specs.Rows.{row_cell};

use byteorder::{BigEndian, ByteOrder};
use std::alloc::Global;
use wat_list::{Items, NoMemory};
use wat_slot::Cell;
use wat_value::{Row, decode, encode};

/// The cell of a row of the table with this number. The row has fewer than 65,536 values, and each of its texts fewer than
/// 65,536 bytes.
pub fn row_cell(alloc: Global, table: u32, row: &Row) -> Result<Cell, NoMemory>
    requires { IsShort row.now }
    ensures cell { IfOk result (λ cell. cell ≡ row_cell table row.now) }
    ensures encodable { IfOk result (λ _. IsEncodable row.now) }
{
    let mut bytes = Vec::new(alloc);
    bytes.extend_from_slice(&table.to_be_bytes())?;
    encode(row, &mut bytes)?;
    Ok(Items::from_vec(bytes))
}

/// The table's number and the row in a cell, and `None` exactly where the bytes are no row's cell.
pub fn row_in_cell(alloc: Global, cell: &[u8]) -> Result<Option<(u32, Row)>, NoMemory>
    ensures some { IfOk result (λ o. IfSome o (λ x. cell.now ≡ row_cell x.0 x.1)) }
    ensures encodable { IfOk result (λ o. IfSome o (λ x. IsEncodable x.1)) }
    ensures round_trip { (table : ℕ) (row : List Value) → table < 2 ^ 32 → IsEncodable row → cell.now ≡ row_cell table row → IfOk result (λ o. o ≡ Some (table, row)) }
    ensures none { IfOk result (λ o. IfNone o ((table : ℕ) (row : List Value) → table < 2 ^ 32 → IsEncodable row → cell.now ≡ row_cell table row → ⊥)) }
{
    if cell.len() < 4 {
        return Ok(None);
    }
    let rest = &cell[4..];
    match decode(alloc, rest)? {
        Some((row, len)) => {
            if len < rest.len() {
                return Ok(None);
            }
            Ok(Some((BigEndian::read_u32(cell), row)))
        }
        None => Ok(None),
    }
}
