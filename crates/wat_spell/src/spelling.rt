ghost use Rattle.std.specs.Prelude.{◌≡◌, ◌++◌, OnOk, OnErr};
ghost use Rattle.wat_spell.specs.Statements.{spelled_text};

use crate::statement::write_statement;
use crate::writing::Writing;
use wat_ast::Statement;
use wat_list::NoMemory;

/// Appends the text of a statement.
///
/// Reserved words stand in capitals and names in lower case. A space stands between two tokens, but none behind `(`, none before `)`,
/// `,` and the `(` of a type or of an aggregate, and none around `.`. Of the optional words INTO and FROM are written,
/// and no other; INTEGER stands for INT; and parentheses stand exactly where the grammar needs them.
///
/// A tree that no text gives is spelled too: a number below zero as one token, with its minus right before its digits, the place of
/// a column as its two numbers with a dot between, and an empty list as nothing. A refusal leaves `out` as it was.
///
/// What the spelling of a number below zero is read as stands in `wat_spell_laws`.
#[tactic(auto, using(crate::proofs::Writes::puts_written))]
pub fn spell(statement: &Statement, out: &mut Vec<u8>) -> Result<(), NoMemory>
    ensures ok { OnOk result (out.new.items ≡ out.old.items ++ spelled_text statement.now) }
    ensures err { OnErr result (out.new.items ≡ out.old.items) }
{
    let mut writing = Writing::new(*out.allocator());
    write_statement(&mut writing, statement)?;
    out.extend_from_slice(writing.as_slice())
}
