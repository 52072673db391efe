ghost use Rattle.std.specs.Prelude.{List, ℕ};
ghost use Rattle.wat_schema.specs.Tables.{IsTables, Tables};
ghost use Rattle.wat_conn.specs.declared.session.Session.{Session};
ghost use Rattle.wat_session.specs.Session.{IsSession, Setting};
ghost use Rattle.wat_one_history.specs.OneHistory.{IsOneHistory};

use wat_disk::Disk;

/// Where each statement of the one script has its turn over the tables, or the stop, the session is one serial history
/// over the tables at its entry: numbered from 1 on, each statement answered by what it means over the tables after the
/// earlier transactions with the changes of its own. What a stop leaves, and the log at the end, are told of that history.
pub fn one_history_law<D: Disk>()
    ensures { (before now : D) (start file : ℕ) (base : Tables) (texts : List (List ℕ)) (session : Session) →
        let s : Setting = record { tells = D.tells_content; entry = D.told before; now = D.told now; start = start; file = file; base = base } in
        IsTables base → IsSession s texts session → IsOneHistory s session }
{}
