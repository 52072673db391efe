ghost use Rattle.wat_files.specs.Formed.{IsSound, FailsAt};
ghost use Rattle.wat_files_worked.specs.Files.{whole_files, without_gate, without_header, without_catalog, without_rows, page_twice, wrong_place, cut_log, short_log, bad_record};

/// The worked files are those of a database. With one thing broken the walk over them fails, at the place of that thing.
pub fn worked_laws()
    ensures whole { IsSound whole_files }
    ensures gate { FailsAt without_gate 1 0 }
    ensures header { FailsAt without_header 0 0 }
    ensures catalog { FailsAt without_catalog 0 4096 }
    ensures twice { FailsAt page_twice 0 4096 }
    ensures rows { FailsAt without_rows 0 8192 }
    ensures log { FailsAt cut_log 2 28 }
    ensures frames { FailsAt short_log 2 28 }
    ensures place { FailsAt wrong_place 2 120 }
    ensures record_ { FailsAt bad_record 2 120 }
{}
