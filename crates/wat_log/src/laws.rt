ghost use Rattle.std.specs.Prelude.{◌≡◌, ◌≢◌, ◌⊎◌, ◌++◌, [], ℕ, List};
ghost use Rattle.std.specs.List.{flat_map, AllByRecursion};
ghost use Rattle.wat_gate.specs.Bodies.{KeepsOrAdds};
ghost use Rattle.wat_log_record.specs.declared.log_record.LogRecord.{LogRecord};
ghost use Rattle.wat_log_record.specs.Encoding.{record_bytes, IsEncodableRecord};
ghost use Rattle.wat_log.specs.Log.{HasRecords};

/// The laws of the log's file. Bytes have one list of records. What a stop leaves of a call that appends records has the
/// records from before it, or these and all of the appended ones: so at every moment the records on the disk are the
/// first of all that were noted, and all flushed ones are among them.
pub fn log_laws()
    ensures once { (content : List ℕ) (xs ys : List LogRecord) → HasRecords content xs → HasRecords content ys → xs ≡ ys }
    ensures all_or_none { (old new : List ℕ) (flushed more : List LogRecord) → HasRecords old flushed → more ≢ [] → AllByRecursion IsEncodableRecord more
        → KeepsOrAdds (flat_map record_bytes more) old new → HasRecords new flushed ⊎ HasRecords new (flushed ++ more) }
{}
