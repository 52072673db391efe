ghost use Rattle.std.specs.Prelude.{◌≡◌, List, Some, map};
ghost use Rattle.wat_value.specs.declared.change.Act.TheVariants.{OnRow};
ghost use Rattle.wat_schema.specs.Tables.{IsTables, Tables, apply_all};
ghost use Rattle.wat_history.specs.Connection.{Part};
ghost use Rattle.wat_commit_log.specs.Logged.{all_acts};
ghost use Rattle.wat_alone.specs.Alone.{State, begun, pending};
ghost use Rattle.wat_turns.specs.Turns.{Lead, committed_from};

/// What one connection commits by its turns applies to the tables at its beginning, one transaction after another. The
/// changes of its open transaction apply behind, and make the tables that it sees.
pub fn turn_laws()
    ensures { (base : Tables) (parts : List Part) (last : State) → IsTables base → Lead (begun base) parts last
        → (committed : Tables) × (apply_all (all_acts (committed_from (begun base) parts)) base ≡ Some committed) × (apply_all (map OnRow (pending last)) committed ≡ Some last.tables) }
{}
