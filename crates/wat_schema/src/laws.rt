ghost use Rattle.std.specs.Prelude.{◌≡◌, ℕ, ◌≤◌, ◌==◌, ◌&&◌, if◌then◌else◌, not, length, List, [], ◌∷◌, true, false, Some};
ghost use Rattle.std.specs.List.{list_all};
ghost use Rattle.std.specs.Option.{option_map};
ghost use Rattle.wat_value.specs.declared.value.Value.{Value};
ghost use Rattle.wat_value.specs.declared.change.Act.{Act};
ghost use Rattle.wat_value.specs.declared.change.Act.TheVariants as act;
ghost use Rattle.wat_value.specs.declared.change.Change.{Change};
ghost use Rattle.wat_value.specs.declared.change.SchemaChange.{SchemaChange};
ghost use Rattle.wat_value.specs.declared.definition.IndexDef.{IndexDef};
ghost use Rattle.wat_value.specs.declared.definition.TableDef.{TableDef};
ghost use Rattle.wat_schema.specs.Catalog.{Catalog, Listing, Name, def_at, empty_catalog, in_order, listing_at, listing_named, repeats};
ghost use Rattle.wat_value.specs.Changes.{changed_table, row_after, row_before};
ghost use Rattle.wat_value.specs.Encoding.{row_bytes};
ghost use Rattle.wat_value.specs.Fits.{fits, key_of};
ghost use Rattle.wat_value.specs.Indexes.{index_key};
ghost use Rattle.wat_value.specs.Order.{key_eq};
ghost use Rattle.wat_schema.specs.Changes.{are_of_one_row, changed_key};
ghost use Rattle.wat_schema.specs.Definitions.{allows, altered, same_name};
ghost use Rattle.wat_schema.specs.Stored.{IsCatalog, IsStored, is_whole};
ghost use Rattle.wat_schema.specs.Tables.{IsTables, Table, Tables, after_alter, apply, apply_all, apply_change, are_tables, catalog_of, inverse, listing_of, no_tables, row_at, table_at, with_table};

/// A change of a row that applies, and then its inverse, gives the tables back.
pub fn inverse_law()
    ensures { (change : Change) (before after : Tables) → are_tables before ≡ true → apply (act.OnRow change) before ≡ Some after → apply (act.OnRow (inverse change)) after ≡ Some before }
{}

/// Acts keep the rows fitting, in key order and with distinct keys, and the tables in the order of
/// their numbers, below the next one. The schema changes with the tables.
pub fn order_law()
    ensures empty { are_tables no_tables ≡ true }
    ensures kept { (act : Act) (before after : Tables) → are_tables before ≡ true → apply act before ≡ Some after → are_tables after ≡ true }
    ensures schema { (change : SchemaChange) (t : Tables) → catalog_of (after_alter change t) ≡ altered change (catalog_of t) }
{}

/// Allowed changes make a catalog of a catalog, and no two catalogs are stored alike.
pub fn stored_law()
    ensures empty { IsCatalog empty_catalog }
    ensures kept { (change : SchemaChange) (c : Catalog) → IsCatalog c → allows change c ≡ true → IsCatalog (altered change c) }
    ensures one { (defs : List TableDef) (indexes : List IndexDef) (next : ℕ) (a b : Catalog) → IsStored a defs indexes next → IsStored b defs indexes next → a ≡ b }
{}

/// What holds of the tables of a database: of the empty ones, and of all that acts make of them. The
/// tables stand in their order, and no table has two columns of one name.
pub fn tables_law()
    ensures empty { IsTables no_tables }
    ensures kept { (act : Act) (before after : Tables) → IsTables before → apply act before ≡ Some after → IsTables after }
    ensures all_kept { (acts : List Act) (before after : Tables) → IsTables before → apply_all acts before ≡ Some after → IsTables after }
    ensures order { (t : Tables) → IsTables t → are_tables t ≡ true }
    ensures names { (t : Tables) → IsTables t → list_all (λ x. not (repeats same_name x.def.columns)) t.tables ≡ true }
{}

/// A table that stands is found by its number, it breaks no rule, and its listing is found as it is.
/// Where another of its number takes its place, that one is found, and the others as before.
pub fn look_up_law()
    ensures named { (c : Catalog) (name : Name) (t : Listing) → in_order c ≡ true → listing_named c name ≡ Some t → listing_at c t.def.number ≡ Some t }
    ensures whole { (c : Catalog) (number : ℕ) (t : Listing) → IsCatalog c → listing_at c number ≡ Some t → is_whole t ≡ true }
    ensures listed { (t : Tables) (number : ℕ) → listing_at (catalog_of t) number ≡ option_map listing_of (table_at t number) }
    ensures placed { (t : Tables) (number : ℕ) (x y : Table) → number ≡ y.def.number → table_at t number ≡ Some x → (other : ℕ) → table_at (with_table number t y) other ≡ (if number == other then Some y else table_at t other) }
{}

/// A change of a row that applies leaves the schema. The row that it is about stands before as it
/// says, and after as it says, and all others stay.
pub fn change_law()
    ensures schema { (change : Change) (before after : Tables) → are_tables before ≡ true → apply_change change before ≡ Some after → catalog_of after ≡ catalog_of before }
    ensures before { (change : Change) (before after : Tables) (def : TableDef) → are_tables before ≡ true → apply_change change before ≡ Some after → def_at (catalog_of before) (changed_table change) ≡ Some def
        → row_at before (changed_table change) (changed_key def change) ≡ row_before change }
    ensures after { (change : Change) (before after : Tables) (def : TableDef) → are_tables before ≡ true → apply_change change before ≡ Some after → def_at (catalog_of before) (changed_table change) ≡ Some def
        → (number : ℕ) (key : List Value) → row_at after number key ≡ (if (changed_table change == number) && key_eq (changed_key def change) key then row_after change else row_at before number key) }
{}

/// Tables with one schema and the same row at each key are the same.
pub fn same_law()
    ensures { (a b : Tables) → are_tables a ≡ true → are_tables b ≡ true → catalog_of a ≡ catalog_of b → ((number : ℕ) (key : List Value) → row_at a number key ≡ row_at b number key) → a ≡ b }
{}

/// Changes of two rows give the same tables in either order. The inverse of a change is of its row.
pub fn swap_law()
    ensures swapped { (a b : Change) (before between after : Tables) → are_tables before ≡ true → are_of_one_row (catalog_of before) a b ≡ false → apply_change a before ≡ Some between → apply_change b between ≡ Some after
        → apply_all (act.OnRow b ∷ act.OnRow a ∷ []) before ≡ Some after }
    ensures inverse { (a b : Change) (before after : Tables) → are_tables before ≡ true → apply_change a before ≡ Some after → are_of_one_row (catalog_of before) b (inverse a) ≡ are_of_one_row (catalog_of before) b a }
{}

/// A row that fits a table that breaks no rule takes at most 3,500 bytes, its primary key 402, and its
/// key in an index of the table 902.
pub fn width_law()
    ensures row { (t : Listing) (row : List Value) → is_whole t ≡ true → fits t.def row ≡ true → length (row_bytes row) ≤ 3500 }
    ensures key { (t : Listing) (row : List Value) → is_whole t ≡ true → fits t.def row ≡ true → length (row_bytes (key_of t.def row)) ≤ 402 }
    ensures index { (t : Listing) (number : ℕ) (row : List Value) → is_whole t ≡ true → fits t.def row ≡ true → length (row_bytes (index_key t.def t.indexes number row)) ≤ 902 }
{}
