ghost use Rattle.std.specs.Prelude.{◌≡◌, ◌<◌, ◌^◌, ◌++◌, take, vec_len, ◌↔◌, IsTrue, OnOk, OnErr};
ghost use Rattle.wat_value.specs.Encoding.{count_bytes, int_bytes, value_bytes, row_bytes, IsShort, IsShortValue, IsEncodable, IsEncodableValue};

use crate::value::{Row, Value};
use byteorder::{BigEndian, ByteOrder};
use wat_list::NoMemory;

/// The byte in front of each kind of value.
pub(crate) const NULL: u8 = 0;

pub(crate) const INT: u8 = 1;

pub(crate) const TEXT: u8 = 2;

#[tactic(auto, unfolding(crate::specs::Encoding::count_bytes))]
fn push_count(count: usize, out: &mut Vec<u8>) -> Result<(), NoMemory>
    requires { count < 2 ^ 16 }
    ensures ok { OnOk result (out.new.items ≡ out.old.items ++ count_bytes count) }
    ensures err { OnErr result (out.new.items ≡ out.old.items) }
{
    let mut bytes = [0; 2];
    BigEndian::write_u16(&mut bytes, count as u16);
    out.extend_from_slice(&bytes)
}

#[tactic(auto, unfolding(crate::specs::Encoding::int_bytes))]
fn push_int(n: i64, out: &mut Vec<u8>) -> Result<(), NoMemory>
    ensures ok { OnOk result (out.new.items ≡ out.old.items ++ int_bytes n) }
    ensures err { OnErr result (out.new.items ≡ out.old.items) }
{
    let mut bytes = [0; 8];
    BigEndian::write_i64(&mut bytes, n);
    out.extend_from_slice(&bytes)
}

/// After an `Err` some of the value's bytes may stand behind what `out` had.
fn push_value(value: &Value, out: &mut Vec<u8>) -> Result<(), NoMemory>
    requires { IsShortValue value.now }
    ensures ok { OnOk result (out.new.items ≡ out.old.items ++ value_bytes value.now) }
    ensures encodable { OnOk result (IsEncodableValue value.now) }
    ensures err { OnErr result (take (vec_len out.old) out.new.items ≡ out.old.items) }
{
    match value {
        Value::Null => {
            out.push(NULL)?;
            Ok(())
        }
        Value::Int(n) => {
            out.push(INT)?;
            push_int(*n, out)
        }
        Value::Text(text) => {
            let text = text.as_str();
            out.push(TEXT)?;
            push_count(text.len(), out)?;
            out.extend_from_slice(text.as_bytes())
        }
    }
}

/// After an `Err` some of the row's bytes may stand behind what `out` had.
fn push_row(row: &Row, out: &mut Vec<u8>) -> Result<(), NoMemory>
    requires { IsShort row.now }
    ensures ok { OnOk result (out.new.items ≡ out.old.items ++ row_bytes row.now) }
    ensures encodable { OnOk result (IsEncodable row.now) }
    ensures err { OnErr result (take (vec_len out.old) out.new.items ≡ out.old.items) }
{
    push_count(row.len(), out)?;
    for value in row.as_slice() {
        push_value(value, out)?;
    }
    Ok(())
}

fn is_short_value(value: &Value) -> bool
    ensures { IsTrue result ↔ IsShortValue value.now }
{
    match value {
        Value::Null | Value::Int(_) => true,
        Value::Text(text) => text.as_str().len() < 65_536,
    }
}

/// Whether the row has fewer than 65,536 values, and each of its texts fewer than 65,536 bytes.
pub fn is_short(row: &Row) -> bool
    ensures { IsTrue result ↔ IsShort row.now }
{
    if row.len() >= 65_536 {
        return false;
    }
    for value in row.as_slice() {
        if !is_short_value(value) {
            return false;
        }
    }
    true
}

/// Adds the bytes of the row at the end of `out`, and nothing where memory is wanted.
///
/// The row has fewer than 65,536 values, and each of its texts fewer than 65,536 bytes.
pub fn encode(row: &Row, out: &mut Vec<u8>) -> Result<(), NoMemory>
    requires { IsShort row.now }
    ensures ok { OnOk result (out.new.items ≡ out.old.items ++ row_bytes row.now) }

    // So `decode` reads the row back.
    ensures encodable { OnOk result (IsEncodable row.now) }
    ensures err { OnErr result (out.new.items ≡ out.old.items) }
{
    let start = out.len();
    match push_row(row, out) {
        Ok(()) => Ok(()),
        Err(error) => {
            out.truncate(start);
            Err(error)
        }
    }
}
