ghost use Rattle.std.specs.Prelude.{◌≡◌, [], length, map, true, Err, Ok, IsPermutation, IsSome, List, Some, ℕ};
ghost use Rattle.std.specs.List.{IsDistinct, list_all};
ghost use Rattle.wat_value.specs.Order.{key_eq};
ghost use Rattle.wat_value.specs.declared.change.Change.{Change};
ghost use Rattle.wat_ast.specs.declared.query.Query.{Query};
ghost use Rattle.wat_ast.specs.declared.statement.Statement.{Statement};
ghost use Rattle.wat_ast.specs.declared.statement.Statement.TheVariants.{Select};
ghost use Rattle.wat_schema.specs.declared.refusal.Refusal.{Refusal};
ghost use Rattle.wat_schema.specs.Catalog.{Catalog};
ghost use Rattle.wat_schema.specs.Stored.{IsCatalog};
ghost use Rattle.wat_schema.specs.Tables.{Tables, IsTables, apply_all, catalog_of};
ghost use Rattle.wat_rules.specs.Check.{check};
ghost use Rattle.wat_expr.specs.Evaluation.{Combination};
ghost use Rattle.wat_group.specs.Query.{keys_at};
ghost use Rattle.wat_meaning.specs.declared.reply.Reply.{Reply};
ghost use Rattle.wat_meaning.specs.declared.reply.Reply.TheVariants.{Refused};
ghost use Rattle.wat_meaning.specs.Meaning.{Made.Changing, refusal_meaning, passed, source_defs, made, meaning_checked, meaning};
ghost use Rattle.wat_meaning.specs.Standing.{change_fits, combination_fits, rows_counted, scanned_defs};
ghost use Rattle.wat_meaning.specs.Cases.{ActCases, InsertCases, KeyCases, SelectCases, UpdateCases};

/// What the checks refuse is refused before all else; what they let through means what it means with
/// its columns in their places. A statement that is refused and a SELECT make no acts, and a reply
/// that counts rows counts the acts. The function does nothing: it states the laws.
pub fn meaning_laws()
    ensures checks { (t : Tables) (s : Statement) (refusal : Refusal) → check (catalog_of t) s ≡ Err refusal → meaning t s ≡ refusal_meaning refusal }
    ensures checked { (t : Tables) (s placed : Statement) → check (catalog_of t) s ≡ Ok placed → meaning t s ≡ meaning_checked t placed }
    ensures refused { (t : Tables) (s : Statement) (refusal : Refusal) → (meaning t s).answer ≡ Refused refusal → (meaning t s).acts ≡ [] }
    ensures select { (t : Tables) (q : Query) → (meaning t (Select q)).acts ≡ [] }
    ensures counted { (t : Tables) (s : Statement) (n : ℕ) → rows_counted (meaning t s).answer ≡ Some n → length (meaning t s).acts ≡ n }
{}

/// What is made of the combinations that a statement meets. No two of those that pass a query over
/// tables have the same primary keys, and then their order makes no difference. A checked statement
/// makes changes that fit of rows that fit, wherever they were met. The function does nothing: it states
/// the laws.
pub fn made_laws()
    ensures keys { (t : Tables) (q : Query) (met : List Combination) → IsTables t → passed t q ≡ Some met → IsDistinct key_eq (map (keys_at (source_defs (catalog_of t) q)) met) }
    ensures any_order { (c : Catalog) (s : Statement) (rows met : List Combination) → IsPermutation rows met → IsDistinct key_eq (map (keys_at (scanned_defs c s)) rows) → made c s rows ≡ made c s met }
    ensures fits { (c : Catalog) (s placed : Statement) (met : List Combination) (reply : Reply) (changes : List Change) → IsCatalog c → check c s ≡ Ok placed → list_all (combination_fits (scanned_defs c placed)) met ≡ true → made c placed met ≡ Ok (Changing reply changes) → list_all (change_fits c) changes ≡ true }
{}

/// The acts that a statement makes apply, one after another. The function does nothing: it states the
/// law.
pub fn acts_laws()
    ensures apply { (t : Tables) (s : Statement) → IsTables t → IsSome (apply_all (meaning t s).acts t) }
{}

/// Statements over small tables, each with what it means there. The function does nothing: it
/// states the cases.
pub fn worked_cases()
    ensures inserts { InsertCases }
    ensures updates { UpdateCases }
    ensures others { SelectCases }
    ensures keys { KeyCases }
    ensures acts { ActCases }
{}
