//! What is spelled is read back: laws of the definitions of spelling, of tokens and of the grammar. Each function does nothing, and states a law.
#![tactic(auto)]

ghost use Rattle.std.specs.Prelude.{◌≡◌, ℕ, List, length, Ok, true};
ghost use Rattle.wat_ast.specs.declared.expression.Expr.{Expr};
ghost use Rattle.wat_ast.specs.declared.statement.Statement.{Statement};
ghost use Rattle.wat_grammar.specs.Phrase.{DerivesWithin};
ghost use Rattle.wat_lex.specs.declared.token.Token.{Token};
ghost use Rattle.wat_spell.specs.Spelling.{spelled};
ghost use Rattle.wat_spell.specs.Statements.{spelled_text};
ghost use Rattle.wat_spell.specs.Tokens as spelling;
ghost use Rattle.wat_spell_laws.specs.AsRead.{as_read, statement_as_read};
ghost use Rattle.wat_spell_laws.specs.Derived.{IsSpelled, is_parsable};
ghost use Rattle.wat_spell_laws.specs.Read.{IsReadBack, spelled_lexemes};
ghost use Rattle.wat_spell_laws.specs.Readable.{is_readable};
ghost use Rattle.wat_syntax.specs.Lexeme.{lexemes_of};
ghost use Rattle.wat_syntax.specs.Parsed.{parsed};
ghost use Rattle.wat_syntax.specs.Sql.{IsStatement, sql, statement};

/// What spells an expression that a text may give is derived by the grammar, and gives that expression.
pub fn spellings_are_derived()
    ensures { (x : Expr) → is_parsable x ≡ true → IsSpelled (spelled x) x }
{}

/// The tokens of a spelled text are those that spell it.
pub fn spelled_tokens_are_read()
    ensures { (ts : List spelling.Token) → IsReadBack ts }
{}

/// A statement that a text gives is spelled to a text that gives the same statement, within the same limit of nesting.
pub fn statements_are_read_back()
    // What is parsed anywhere in a text is spelled to a text that is parsed to the same tree.
    ensures parsed { (text : List ℕ) (from to : ℕ) (x : Statement) → parsed text from to ≡ Ok x → parsed (spelled_text x) 0 (length (spelled_text x)) ≡ Ok x }
    // The same in the words of the grammar.
    ensures statement { (text : List ℕ) (ts : List Token) (x : Statement) → IsStatement (lexemes_of text ts) x → IsStatement (spelled_lexemes x) x }
    // However few levels of nesting may be opened.
    ensures levels { (levels : ℕ) (text : List ℕ) (ts : List Token) (x : Statement)
        → DerivesWithin sql levels statement (lexemes_of text ts) x → DerivesWithin sql levels statement (spelled_lexemes x) x }
{}

/// A tree with numbers below zero is spelled to a text that gives what it is read as: the tree with a minus and a number in the place
/// of each of them. So the text of a change in a log, as `INSERT INTO t VALUES (-5, NULL)`, is the spelling of a tree.
///
/// Numbers are read up to 9223372036854775807. So what spells -9223372036854775808 has a bad token, and a tree with it is not readable.
pub fn numbers_below_zero_are_read()
    // What spells an expression is derived by the grammar, and gives what the expression is read as.
    ensures expression { (x : Expr) → is_parsable (as_read x) ≡ true → IsSpelled (spelled x) (as_read x) }
    // The spelling of a readable statement gives what the statement is read as,
    ensures readable { (x : Statement) → is_readable x ≡ true → parsed (spelled_text x) 0 (length (spelled_text x)) ≡ Ok (statement_as_read x) }
    // and so does the spelling of any statement, where some text gives that.
    ensures given { (text : List ℕ) (from to : ℕ) (x : Statement) → parsed text from to ≡ Ok (statement_as_read x)
        → parsed (spelled_text x) 0 (length (spelled_text x)) ≡ Ok (statement_as_read x) }
    // The same within each limit of nesting.
    ensures levels { (levels : ℕ) (text : List ℕ) (ts : List Token) (x : Statement)
        → DerivesWithin sql levels statement (lexemes_of text ts) (statement_as_read x) → DerivesWithin sql levels statement (spelled_lexemes x) (statement_as_read x) }
{}
