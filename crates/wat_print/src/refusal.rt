ghost use Rattle.std.specs.Prelude.{◌≡◌, ◌++◌, OnOk, decimal};
ghost use Rattle.wat_print.specs.Literal.{row_text};
ghost use Rattle.wat_print.specs.Answers.{line, refusal_text};

use crate::lines::{push_count, push_line};
use crate::literal::push_listed;
use wat_list::NoMemory;
use wat_schema::Refusal;
use wat_value::{Key, Name};

fn push_rule(out: &mut Vec<u8>, front: &[u8], rule: u8) -> Result<(), NoMemory>
    ensures { OnOk result (out.new.items ≡ out.old.items ++ line (front.now ++ decimal rule)) }
{
    push_count(out, front, u64::from(rule))
}

fn push_named(out: &mut Vec<u8>, front: &[u8], name: &Name) -> Result<(), NoMemory>
    ensures { OnOk result (out.new.items ≡ out.old.items ++ line (front.now ++ name.now)) }
{
    out.extend_from_slice(front)?;
    push_line(out, name.as_str().as_bytes())
}

fn push_duplicate(out: &mut Vec<u8>, key: &Key) -> Result<(), NoMemory>
    ensures { OnOk result (out.new.items ≡ out.old.items ++ refusal_text (Refusal.Duplicate key.now)) }
{
    out.extend_from_slice(b"error Duplicate ")?;
    push_listed(out, key.as_slice())?;
    out.extend_from_slice(b"\n")
}

/// Appends the line of a refusal.
pub(crate) fn push_refusal(out: &mut Vec<u8>, refusal: &Refusal) -> Result<(), NoMemory>
    ensures { OnOk result (out.new.items ≡ out.old.items ++ refusal_text refusal.now) }
{
    match refusal {
        Refusal::Syntax { at } => push_count(out, b"error Syntax at ", u64::from(*at)),
        Refusal::NoTable { name } => push_named(out, b"error NoTable ", name),
        Refusal::NoColumn { name } => push_named(out, b"error NoColumn ", name),
        Refusal::Ambiguous { name } => push_named(out, b"error Ambiguous ", name),
        Refusal::WrongType { rule } => push_rule(out, b"error WrongType rule ", *rule),
        Refusal::TableExists { name } => push_named(out, b"error TableExists ", name),
        Refusal::IndexExists { name } => push_named(out, b"error IndexExists ", name),
        Refusal::BadTable { rule } => push_rule(out, b"error BadTable rule ", *rule),
        Refusal::BadIndex { rule } => push_rule(out, b"error BadIndex rule ", *rule),
        Refusal::KeyAssigned { name } => push_named(out, b"error KeyAssigned ", name),
        Refusal::Arithmetic => push_line(out, b"error Arithmetic"),
        Refusal::NullValue { name } => push_named(out, b"error NullValue ", name),
        Refusal::OutOfRange { name } => push_named(out, b"error OutOfRange ", name),
        Refusal::TooLong { name } => push_named(out, b"error TooLong ", name),
        Refusal::Duplicate { key } => push_duplicate(out, key),
        Refusal::NoSavepoint { name } => push_named(out, b"error NoSavepoint ", name),
    }
}
