//! Laws of the bytes of records.
ghost use Rattle.std.specs.Prelude.{◌≡◌, ◌++◌, ℕ, List};
ghost use Rattle.wat_log_record.specs.declared.log_record.LogRecord.{LogRecord};
ghost use Rattle.wat_log_record.specs.Encoding.{record_bytes, IsEncodableRecord, IsWritable};
ghost use Rattle.wat_log_record.specs.Bodies.{SpellsRecords, SpellsLog};

/// No record's bytes begin another's, so a frame's body spells one list of records, and so do the
/// bodies of a log. What bytes spell can be written.
pub fn spelling_laws()
    ensures apart { (a b : LogRecord) (s t : List ℕ) → IsEncodableRecord a → IsEncodableRecord b → record_bytes a ++ s ≡ record_bytes b ++ t → (a ≡ b) × (s ≡ t) }
    ensures body { (body : List ℕ) (xs ys : List LogRecord) → SpellsRecords body xs → SpellsRecords body ys → xs ≡ ys }
    ensures log { (bodies : List (List ℕ)) (xs ys : List LogRecord) → SpellsLog bodies xs → SpellsLog bodies ys → xs ≡ ys }
    ensures writable { (entry : LogRecord) → IsEncodableRecord entry → IsWritable entry }
{}
