ghost use Rattle.std.specs.Prelude.{◌≡◌, ◌≢◌, ◌+◌, ◌<◌, ◌≤◌, ◌^◌, ◌++◌, [], All, Err, length, map, IfErr, IfOk, OnOk, OnErr};
ghost use Rattle.std.specs.List.{Contains, fold};
ghost use Rattle.wat_disk.specs.Disk.{IsSynced, InFile, SameOthers, EachStop, MakesAtMost};
ghost use Rattle.wat_faults.specs.Faults.{HasCause};
ghost use Rattle.wat_gate.specs.GateLog.{file_of, bodies_in, IsLogOf};
ghost use Rattle.wat_parse.specs.Parsing.{parsed_at};
ghost use Rattle.wat_parse.specs.Statements.{statements_of};
ghost use Rattle.wat_commit_log.specs.Logged.{IsFramed, Restarts, body_of, log_file};
ghost use Rattle.wat_commit_log.specs.Opened.{IsOpened};
ghost use Rattle.wat_history.specs.Naming.{after_act, names_of};
ghost use Rattle.wat_alone.specs.Alone.{begun, turn};
ghost use Rattle.wat_alone.specs.Committing.{committed_by, saved};
ghost use Rattle.wat_session.specs.Saving.{KeepsOrSaves, MayStop, moment_by};
ghost use Rattle.wat_session.specs.Playing.{IsPlayed};
ghost use Rattle.wat_session.specs.Session.{IsOneScript, IsSession, stopped_at, unanswered};

use crate::player::{Answered, Player};
use std::alloc::Global;
use wat_alone::{Connection, names_of};
use wat_commit_log::Opened;
use wat_conn::{Answer, Entry, Reason, ScriptList, Session, Transcript};
use wat_disk::Disk;
use wat_list::{Items, NoMemory, Reserved, item};
use wat_parse::{ParseRefusal, Span, statement, statements};
use wat_schema::Refusal;

/// The level of every statement: none can set another yet.
const LEVEL: u8 = 0;

/// Reads the statement at this place of the script, and answers it. After a refusal the session has stopped.
fn answer_at<D: Disk>(
    alloc: Global,
    script: &str,
    span: Span,
    player: &mut Player,
    disk: &mut D,
) -> Result<Answered, Reason>
    requires short { length script.now ≤ 16777216 }
    requires span { Contains (statements_of script.now) span }
    requires known { D.tells_content → IsLogOf (D.told disk.old) player.old.log }
    requires commits { player.old.connection.commits + 1 < 2 ^ 64 }
    requires room { 0 < player.old.moments.spare }
    ensures answer { IfOk result (λ answered. answered.answer ≡ (turn player.old.connection (parsed_at script.now span)).answer) }
    ensures acts { IfOk result (λ answered. answered.acts ≡ (turn player.old.connection (parsed_at script.now span)).acts) }
    ensures next { OnOk result (player.new.connection ≡ (turn player.old.connection (parsed_at script.now span)).next) }
    ensures names { OnOk result (player.new.names ≡ fold after_act player.old.names (turn player.old.connection (parsed_at script.now span)).acts) }
    ensures names_stay { OnErr result (player.new.names ≡ player.old.names) }
    ensures moments { OnOk result (player.new.moments.items ≡ player.old.moments.items ++ map (λ _. (D.told disk.new).moment) (committed_by (turn player.old.connection (parsed_at script.now span)))) }
    ensures moments_stay { OnErr result (player.new.moments ≡ player.old.moments) }
    ensures room { player.old.moments.spare ≤ player.new.moments.spare + 1 }
    ensures known { D.tells_content → OnOk result (IsLogOf (D.told disk.new) player.new.log) }
    ensures saved { D.tells_content → OnOk result (bodies_in (D.told disk.new) player.new.log ≡ bodies_in (D.told disk.old) player.old.log ++ map body_of (saved (committed_by (turn player.old.connection (parsed_at script.now span))))) }
    ensures framed { result ≢ Err Reason.Memory → All IsFramed (saved (committed_by (turn player.old.connection (parsed_at script.now span)))) }
    ensures synced { OnOk result (IsSynced (D.told disk.old) (file_of player.old.log) → IsSynced (D.told disk.new) (file_of player.old.log)) }
    ensures file { file_of player.new.log ≡ file_of player.old.log }
    ensures others { SameOthers (file_of player.old.log) (D.told disk.old).content (D.told disk.new).content }
    ensures stops { D.tells_content → IsSynced (D.told disk.old) (file_of player.old.log)
        → EachStop (D.told disk.old) (D.told disk.new) (InFile (file_of player.old.log) (KeepsOrSaves (saved (committed_by (turn player.old.connection (parsed_at script.now span)))))) }
    ensures cause { HasCause (D.told disk.old).faults (D.told disk.new).faults (result ≡ Err Reason.DiskFault) }
    ensures may { IfErr result MayStop }
    ensures memory { result ≡ Err Reason.Memory → disk.new ≡ disk.old }
    ensures fault { result ≡ Err Reason.DiskFault → saved (committed_by (turn player.old.connection (parsed_at script.now span))) ≢ [] }
    ensures calls { OnOk result ((D.told disk.new).moment ≡ moment_by (saved (committed_by (turn player.old.connection (parsed_at script.now span)))) (D.told disk.old).moment) }
    ensures calls_at_most { MakesAtMost 4 (D.told disk.old) (D.told disk.new) }
{
    match statement(alloc, script, span) {
        Ok(tree) => player.answer(alloc, &tree, disk),
        Err(ParseRefusal::Syntax { at }) => Ok(Answered {
            answer: Answer::Refused(Refusal::Syntax { at }),
            acts: Items::new(alloc),
        }),
        Err(ParseRefusal::Memory) => Err(Reason::Memory),
    }
}

/// Answers the statements in order, up to the first that stops the session.
fn answer_until_stop<D: Disk>(
    alloc: Global,
    script: &str,
    spans: &[Span],
    player: &mut Player,
    disk: &mut D,
    entries: &mut Transcript,
) -> Option<Reason>
    requires spans { spans.now ≡ statements_of script.now }
    requires short { length script.now ≤ 16777216 }
    requires count { length spans.now < 2 ^ 64 }
    requires begun { player.old.connection ≡ begun player.old.connection.tables }
    requires none { entries.old.items ≡ [] }
    requires no_moments { player.old.moments.items ≡ [] }
    requires entry_room { length spans.now ≤ entries.old.spare }
    requires moment_room { length spans.now ≤ player.old.moments.spare }
    requires names { player.old.names ≡ names_of player.old.connection.tables [] }
    requires known { D.tells_content → IsLogOf (D.told disk.old) player.old.log }
    requires restarts { D.tells_content → Restarts ((D.told disk.old).content (file_of player.old.log)) player.old.connection.tables }
    ensures played { IsPlayed (record {
      tells = D.tells_content;
      entry = D.told disk.old;
      now = D.told disk.new;
      start = (D.told disk.old).moment;
      file = file_of player.old.log;
      base = player.old.connection.tables;
    }) script.now entries.new.items result player.new.moments.items player.new.names }
    ensures room { length spans.now ≤ length entries.new.items + entries.new.spare }
{
    for span in spans {
        match answer_at(alloc, script, *span, player, disk) {
            Ok(answered) => entries.push(Entry {
                from: span.from,
                to: span.to,
                level: LEVEL,
                answer: answered.answer,
                acts: answered.acts,
            }),
            Err(reason) => return Some(reason),
        }
    }
    None
}

/// Adds the entries of the statements at these places, all of which are this stop.
fn push_stopped(alloc: Global, spans: &[Span], reason: Reason, entries: &mut Transcript)
    requires { length spans.now ≤ entries.old.spare }
    ensures { entries.new.items ≡ entries.old.items ++ map (stopped_at reason) spans.now }
{
    for span in spans {
        entries.push(Entry {
            from: span.from,
            to: span.to,
            level: LEVEL,
            answer: Answer::Stopped { reason },
            acts: Items::new(alloc),
        });
    }
}

/// Adds the entries of the statements that weren't answered, if the session stopped.
fn push_unanswered(alloc: Global, spans: &[Span], stop: Option<Reason>, entries: &mut Transcript)
    requires { length spans.now ≤ entries.old.spare }
    ensures { entries.new.items ≡ entries.old.items ++ unanswered stop spans.now }
{
    if let Some(reason) = stop {
        push_stopped(alloc, spans, reason, entries);
    }
}

/// The player over what was opened, with room for so many moments.
fn player_of(alloc: Global, opened: Opened, room: usize) -> Result<Player, NoMemory>
    ensures connection { IfOk result (λ player. player.connection ≡ begun opened.tables) }
    ensures log { IfOk result (λ player. player.log ≡ opened.log) }
    ensures none { IfOk result (λ player. player.moments.items ≡ []) }
    ensures room { IfOk result (λ player. room ≤ player.moments.spare) }
    ensures names { IfOk result (λ player. player.names ≡ names_of opened.tables []) }
{
    let Opened { log, tables } = opened;
    let names = names_of(alloc, &tables)?;
    let moments = Reserved::with_room(alloc, room)?;
    Ok(Player {
        connection: Connection::new(tables),
        log,
        moments,
        names,
    })
}

/// Answers the statements of the one script in order, over what was opened on this disk. Without memory for the entries no
/// session begins.
pub fn play<D: Disk>(
    alloc: Global,
    scripts: ScriptList,
    opened: Opened,
    disk: &mut D,
) -> Result<Session, NoMemory>
    requires one { IsOneScript scripts }
    requires file { file_of opened.log ≡ log_file }
    requires opened { D.tells_content → IsOpened (D.told disk.old) opened }
    // It is the session of the script over the opened tables.
    ensures session { IfOk result (IsSession (record {
      tells = D.tells_content;
      entry = D.told disk.old;
      now = D.told disk.new;
      start = (D.told disk.old).moment;
      file = log_file;
      base = opened.tables;
    }) scripts) }
    ensures never_falls { (D.told disk.old).faults ≤ (D.told disk.new).faults }
    // Where no session began, the disk was not called.
    ensures not_begun { OnErr result (disk.new ≡ disk.old) }
{
    let script = item(&scripts, 0).as_str();
    let mut transcripts = Reserved::with_room(alloc, 1)?;
    let spans = statements(alloc, script)?;
    let mut entries = Reserved::with_room(alloc, spans.len())?;
    let mut player = player_of(alloc, opened, spans.len())?;
    let spans = spans.as_slice();
    let stop = answer_until_stop(alloc, script, spans, &mut player, disk, &mut entries);
    push_unanswered(alloc, &spans[entries.len()..], stop, &mut entries);
    transcripts.push(entries);
    Ok(Session {
        scripts,
        transcripts: transcripts.into_items(),
        moments: player.moments,
        stop,
        names: player.names,
    })
}
