//! Laws of sessions that are made up.
ghost use Rattle.std.specs.Prelude.{◌≡◌, ◌≤◌, ◌+◌, ◌*◌, ℕ, All, length, sum_by};
ghost use Rattle.wat_schedule.specs.Schedule.{IsConnection};
ghost use Rattle.wat_gen.specs.Session.{made_up, script_text};
ghost use Rattle.wat_gen.specs.Worked.{FirstTransaction, FirstTurn, Levels, Texts};

/// Every session has eight scripts, so many statements and turns, its turns are those of its eight
/// connections, and its scripts are no longer than this.
pub fn session_laws()
    ensures scripts { (number count : ℕ) → length (made_up number count).scripts ≡ 8 }
    ensures statements { (number count : ℕ) → sum_by length (made_up number count).scripts ≡ 113 + 32 * count }
    ensures turns { (number count : ℕ) → length (made_up number count).schedule ≡ 103 + 32 * count }
    ensures connections { (number count : ℕ) → All (λ item. IsConnection 8 item.conn) (made_up number count).schedule }
    ensures room { (number count : ℕ) → All (λ statements. length (script_text statements) ≤ 10500 + 400 * count) (made_up number count).scripts }
{}

/// What is drawn at the number 7. The function does nothing: it states the cases.
pub fn worked_cases()
    ensures transaction { FirstTransaction }
    ensures turn { FirstTurn }
    ensures levels { Levels }
    ensures texts { Texts }
{}
