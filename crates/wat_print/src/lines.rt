ghost use Rattle.std.specs.Prelude.{◌≡◌, ◌++◌, OnOk, decimal};
ghost use Rattle.wat_print.specs.Answers.{line};

use crate::literal::push_number;
use wat_list::NoMemory;

/// Appends the text and a line feed.
pub(crate) fn push_line(out: &mut Vec<u8>, text: &[u8]) -> Result<(), NoMemory>
    ensures { OnOk result (out.new.items ≡ out.old.items ++ line text.now) }
{
    out.extend_from_slice(text)?;
    out.extend_from_slice(b"\n")
}

/// Appends the front, the number, and a line feed.
pub(crate) fn push_count(out: &mut Vec<u8>, front: &[u8], number: u64) -> Result<(), NoMemory>
    ensures { OnOk result (out.new.items ≡ out.old.items ++ line (front.now ++ decimal number)) }
{
    out.extend_from_slice(front)?;
    push_number(out, number)?;
    out.extend_from_slice(b"\n")
}
