// The statements of a script, read one at a time.
ghost use Rattle.std.specs.Prelude.{◌≡◌, ◌≤◌, length, IfOk};
ghost use Rattle.std.specs.List.{Contains};
ghost use Rattle.wat_parse.specs.Parsing.{parsed_at};
ghost use Rattle.wat_parse.specs.Statements.{statements_of};
ghost use Rattle.wat_connection.specs.Reading.{reading_of};

use std::alloc::{AllocError, Global};
use wat_ast::Statement as Tree;
use wat_list::NoMemory;
use wat_parse::{ParseRefusal, Span, statement};

/// What stands next in a script.
#[derive(Drop)]
pub enum Reading {
    /// No statement is left.
    End,
    /// It goes wrong at this byte of the script.
    Wrong { at: u32 },
    Statement(Tree),
}

/// The statement of the script at this place.
pub(crate) fn read(alloc: Global, script: &str, span: Span) -> Result<Reading, NoMemory>
    requires short { length script.now ≤ 16777216 }
    requires span { Contains (statements_of script.now) span }
    ensures { IfOk result (λ reading. reading ≡ reading_of (parsed_at script.now span)) }
{
    match statement(alloc, script, span) {
        Ok(tree) => Ok(Reading::Statement(tree)),
        Err(ParseRefusal::Syntax { at }) => Ok(Reading::Wrong { at }),
        Err(ParseRefusal::Memory) => Err(AllocError),
    }
}
