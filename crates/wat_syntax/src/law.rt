ghost use Rattle.std.specs.Prelude.{◌≡◌, ◌↔◌, ℕ, List, Ok, Err, true};
ghost use Rattle.wat_ast.specs.declared.statement.Statement.{Statement};
ghost use Rattle.wat_lex.specs.declared.token.Token.{Token};
ghost use Rattle.wat_syntax.specs.Lexeme.{Lexeme, lexemes_of};
ghost use Rattle.wat_syntax.specs.Members.{lists_have_members};
ghost use Rattle.wat_syntax.specs.Parsed.{parsed_tokens, GoesWrong};
ghost use Rattle.wat_syntax.specs.Sql.{IsStatement};
ghost use Rattle.wat_syntax.specs.Values.{HaveValues};

/// What `parsed_tokens` computes is what the grammar says. The function does nothing: it states the law.
pub fn parsing_is_exact()
    // A tree is found exactly where the tokens are a statement with it.
    ensures tree { (text : List ℕ) (ts : List Token) (end : ℕ) (tree : Statement) → (parsed_tokens text ts end ≡ Ok tree) ↔ IsStatement (lexemes_of text ts) tree }
    // No tokens are two statements.
    ensures only { (ts : List Lexeme) (tree other : Statement) → IsStatement ts tree → IsStatement ts other → tree ≡ other }
    // Else a place is found, and the tokens go wrong there.
    ensures fault { (text : List ℕ) (ts : List Token) (end place : ℕ) → parsed_tokens text ts end ≡ Err place → GoesWrong text ts end place }
{}

/// No token of a text is refused for want of a value: a word that is not reserved is a name, and a number has a value.
pub fn tokens_have_values()
    ensures { (text : List ℕ) → HaveValues text }
{}

/// No list of a statement is empty where the grammar asks for a member: a table has elements, its key and an index have columns.
pub fn parsed_lists_have_members()
    ensures { (ts : List Lexeme) (tree : Statement) → IsStatement ts tree → lists_have_members tree ≡ true }
{}
