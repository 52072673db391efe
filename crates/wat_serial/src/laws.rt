ghost use Rattle.std.specs.Prelude.{◌≡◌, ℕ, true, List, Ok, Some, IsSome};
ghost use Rattle.wat_value.specs.declared.change.Act.{Act};
ghost use Rattle.wat_ast.specs.declared.statement.Statement.{Statement};
ghost use Rattle.wat_lex.specs.declared.token.Token.{Token};
ghost use Rattle.wat_schema.specs.Tables.{Tables, apply_all, no_tables};
ghost use Rattle.wat_syntax.specs.Members.{lists_have_members};
ghost use Rattle.wat_syntax.specs.Parsed.{parsed_tokens};
ghost use Rattle.wat_meaning.specs.Meaning.{meaning};

use wat_meaning::acts_laws;
use wat_schema::tables_law;
use wat_syntax::{parsed_lists_have_members, parsing_is_exact};

/// Of each statement that a text gives. The function does nothing: it states the laws.
pub fn script_laws()
    // A CREATE lists a column, as each of its lists has a member.
    ensures members { (text : List ℕ) (ts : List Token) (end : ℕ) (s : Statement) → parsed_tokens text ts end ≡ Ok s → lists_have_members s ≡ true }
    // Over tables that came about by acts, its acts apply one after another.
    ensures acts { (text : List ℕ) (ts : List Token) (end : ℕ) (s : Statement) (acts : List Act) (t : Tables) → parsed_tokens text ts end ≡ Ok s → apply_all acts no_tables ≡ Some t → IsSome (apply_all (meaning t s).acts t) }
{
    parsing_is_exact();
    parsed_lists_have_members();
    tables_law();
    acts_laws();
}
