ghost use Rattle.std.specs.Prelude.{◌≡◌, ℕ, List, ◌++◌, length, Some, IfOk, IfSome, IfNone, MatchOption};
ghost use Rattle.wat_value.specs.declared.value.Value.{Value};
ghost use Rattle.wat_value.specs.Encoding.{row_bytes, IsEncodable, Spells, SpellsNone};
ghost use Rattle.wat_value.specs.EncodingParts.{SpellsValue, SpellsNoValue, SpellsText, SpellsNoText};

use crate::encoding::{INT, NULL, TEXT};
use crate::text::Text;
use crate::value::{Row, Value};
use byteorder::{BigEndian, ByteOrder};
use std::alloc::Global;
use wat_list::{Items, NoMemory};

/// The text that the bytes begin with, and how many bytes it and its length take.
fn decode_text(alloc: Global, bytes: &[u8]) -> Result<Option<(Text, usize)>, NoMemory>
    ensures { IfOk result (λ o. MatchOption o (SpellsNoText bytes.now) (λ x. SpellsText bytes.now x.0 x.1)) }
{
    if bytes.len() < 2 {
        return Ok(None);
    }
    let len = BigEndian::read_u16(bytes) as usize;
    let text = &bytes[2..];
    if text.len() < len {
        return Ok(None);
    }
    match str::from_utf8(&text[..len]) {
        Ok(text) => Ok(Some((Text::of(alloc, text)?, 2 + len))),
        Err(_) => Ok(None),
    }
}

/// The value that the bytes begin with, and how many bytes it takes.
fn decode_value(alloc: Global, bytes: &[u8]) -> Result<Option<(Value, usize)>, NoMemory>
    ensures { IfOk result (λ o. MatchOption o (SpellsNoValue bytes.now) (λ x. SpellsValue bytes.now x.0 x.1)) }
{
    let Some((tag, rest)) = bytes.split_first() else {
        return Ok(None);
    };
    match *tag {
        NULL => Ok(Some((Value::Null, 1))),
        INT => {
            if rest.len() < 8 {
                return Ok(None);
            }
            Ok(Some((Value::Int(BigEndian::read_i64(rest)), 9)))
        }
        TEXT => match decode_text(alloc, rest)? {
            Some((text, len)) => Ok(Some((Value::Text(text), 1 + len))),
            None => Ok(None),
        },
        _ => Ok(None),
    }
}

fn decode_row(alloc: Global, bytes: &[u8]) -> Result<Option<(Row, usize)>, NoMemory>
    ensures spelled { IfOk result (λ o. IfSome o (λ x. Spells bytes.now x.0 x.1)) }
    ensures none { IfOk result (λ o. IfNone o (SpellsNone bytes.now)) }
{
    if bytes.len() < 2 {
        return Ok(None);
    }
    let count = BigEndian::read_u16(bytes);
    let mut row = Items::new(alloc);
    let mut at = 2;
    for _i in 0..count {
        match decode_value(alloc, &bytes[at..])? {
            Some((value, len)) => {
                row.push(value)?;
                at += len;
            }
            None => return Ok(None),
        }
    }
    Ok(Some((row, at)))
}

/// The row that the bytes begin with, and how many bytes it takes; `None` exactly where they
/// begin with no row's bytes. What follows the row is not looked at.
pub fn decode(alloc: Global, bytes: &[u8]) -> Result<Option<(Row, usize)>, NoMemory>
    ensures spelled { IfOk result (λ o. IfSome o (λ x. Spells bytes.now x.0 x.1)) }
    ensures none { IfOk result (λ o. IfNone o (SpellsNone bytes.now)) }
    ensures round_trip { (row : List Value) → IsEncodable row → (rest : List ℕ) → bytes.now ≡ row_bytes row ++ rest → IfOk result (λ o. o ≡ Some (row, length (row_bytes row))) }
{
    decode_row(alloc, bytes)
}
