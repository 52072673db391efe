ghost use Rattle.std.specs.Prelude.{◌≡◌, ◌≤◌, ◌-◌, ℕ, Err, length, drop, IfOk};
ghost use Rattle.std.specs.List.{AllByRecursion, Contains};
ghost use Rattle.wat_ast.specs.declared.statement.Statement.{Statement};
ghost use Rattle.wat_lex.specs.Values.{IsSlice};
ghost use Rattle.wat_parse.specs.Parsing.{tokens_at, lexemes_at, parsed_at, IsTree, Gives};
ghost use Rattle.wat_parse.specs.Statements.{statements_of, place_behind};
ghost use Rattle.wat_syntax.specs.Parsed.{GoesWrong, parsed_tokens, place_of};
ghost use Rattle.wat_syntax.specs.Sql.{IsStatement};

use crate::reading::whole;
use crate::script::Span;
use std::alloc::Global;
use wat_ast::Statement;
use wat_cursor::{Cursor, Fault};
use wat_lex::{MAX_TEXT, Token, tokens_between};
use wat_list::NoMemory;

/// Why a part of a script is no statement.
#[derive(Clone, Copy, Debug, PartialEq, Eq)]
pub enum ParseRefusal {
    /// The tokens before this place, in bytes of the script, begin a statement. With the token there
    /// they begin none.
    Syntax { at: u32 },
    Memory,
}

impl From<NoMemory> for ParseRefusal {
    ghost use Rattle.std.specs.Prelude.{◌≡◌};
    ghost use Rattle.wat_parse.specs.declared.parse.ParseRefusal.TheVariants.{Memory};

    ghost from_gives = { λ _ e. e ≡ Memory };

    fn from(_: NoMemory) -> ParseRefusal {
        ParseRefusal::Memory
    }
}

// Where the first of the last so many tokens begins, or else the end.
fn place(tokens: &[Token], left: usize, end: u32) -> u32
    ensures { result ≡ place_of end (drop (length tokens.now - left) tokens.now) }
{
    let front = tokens.len().saturating_sub(left);
    match &tokens[front..] {
        [] => end,
        [next, ..] => next.from,
    }
}

// The tree of these tokens, or where they go wrong, which is `end` where they end too early.
fn parse_tokens(
    alloc: Global,
    text: &str,
    tokens: &[Token],
    end: u32,
) -> Result<Statement, ParseRefusal>
    requires { AllByRecursion (IsSlice text.now) tokens.now }
    ensures { Gives (parsed_tokens text.now tokens.now end) result }
{
    let mut cursor = Cursor::new(text, tokens);
    match whole(alloc, &mut cursor) {
        Ok(tree) => Ok(tree),
        Err(Fault::Memory) => Err(ParseRefusal::Memory),
        Err(Fault::Syntax) => Err(ParseRefusal::Syntax {
            at: place(tokens, cursor.len(), end),
        }),
    }
}

fn parse_span(alloc: Global, text: &str, span: Span) -> Result<Statement, ParseRefusal>
    requires length { length text.now ≤ MAX_TEXT }
    requires span { Contains (statements_of text.now) span }
    ensures { Gives (parsed_at text.now span) result }
{
    let part = tokens_between(alloc, text, span.from, span.to)?;
    parse_tokens(alloc, text, part.tokens.as_slice(), part.next)
}

/// The tree of one of the statements of the script.
///
/// It takes the time of that statement alone.
pub fn statement(alloc: Global, text: &str, span: Span) -> Result<Statement, ParseRefusal>
    requires length { length text.now ≤ MAX_TEXT }
    requires span { Contains (statements_of text.now) span }
    // What is read is in the grammar.
    ensures found { IfOk result (λ tree. IsStatement (lexemes_at text.now span) tree) }
    // What is in the grammar is read, and has no other tree.
    ensures only { (tree : Statement) → IsStatement (lexemes_at text.now span) tree → IsTree tree result }
    // A fault stands at the first token with which the tokens begin no statement. Where they end too early, it stands
    // at the semicolon behind them, or at the end of the script.
    ensures place { (at : ℕ) → result ≡ Err (ParseRefusal.Syntax at) → GoesWrong text.now (tokens_at text.now span) (place_behind text.now span) at }
    // The same as one function.
    ensures parsed { Gives (parsed_at text.now span) result }
{
    parse_span(alloc, text, span)
}
