// A script is done line by line.
ghost use Rattle.std.specs.Prelude.{◌≡◌, ◌⊎◌, ◌+◌, ℕ, List, Some, [], true, false, Option, None, Result, IfSome, IfOk, IfErr, OnOk};
ghost use Rattle.base_notes.specs.Notes.{status_of};
ghost use Rattle.base_notes.specs.declared.note.Device.TheVariants.{Host, Input};
ghost use Rattle.base_notes.specs.declared.note.Note.TheVariants.{DeviceFault};
ghost use Rattle.db_core.specs.Calls.{OpensCommitted};
ghost use Rattle.db_core.specs.Sessions.{over};
ghost use Rattle.db_script.specs.Batch.{GoesWell, IsScriptNote, NamesScriptDevice, end_note, found_or_note, note_of_answer, note_or_done, script_note};
ghost use Rattle.db_script.specs.Held.{IsFound, found_in};
ghost use Rattle.db_script.specs.Reading.{ReadsLine, is_gathered, script_state};
ghost use Rattle.db_script.specs.declared.buffer.Found.{Found};
ghost use Rattle.db_script.specs.declared.script.ScriptFault.{ScriptFault};
ghost use Rattle.db_script.specs.Lines.{command_of};
ghost use Rattle.db_script.specs.Scripts.{script_task, words_behind};
ghost use Rattle.base_devices.specs.Frames.{KeepsCounts, LeavesBetween};
ghost use Rattle.base_devices.specs.HostCalls.{moment};
ghost use Rattle.rand_core.specs.Stream.{next_u32};
ghost use Rattle.db_script.specs.Replies.{change_of};
ghost use Rattle.db_script.specs.Moments.{LeavesLine};
ghost use Rattle.db_script.specs.Steps.{DoesOne, DoesOrEnds, EndsWhole, asked, gathered};
ghost use Rattle.db_tool.specs.Printing.{Prints, PrintsSome, holding};
ghost use Rattle.db_script.specs.Course.{EndsAsStated, GoesOnFrom, KeepsPrefixes, script_over, to_read};
ghost use Rattle.db_tool.specs.Doing.{DoesTask, DrawsWords, StandsAfter, during};
ghost use Rattle.db_tool.specs.ToolNotes.{Faults, IsFault};

use crate::buffer::Found;
use crate::doing::{act, is_placed};
use crate::line::Line;
use crate::printing::flush;
use crate::replying::reply;
use crate::script::{Script, ScriptFault};
use base_bytes::{Piece, SCRIPT_LIMIT};
use base_devices::{Failed, Host};
use base_notes::{Device, LimitName, Note, Outcome};
use base_source::Source;
use db_core::Db;
use db_tool::{HOST_FAULT, note_of_change};
use rand_core::Rng;
use std::alloc::Global;

// The random word of a line: only a pair that is to be put takes one.
fn word_for<R: Rng>(line: &Line<'_>, rng: &mut R) -> u32
    ensures rest { R.stream rng.new ≡ words_behind (command_of line.now) (R.stream rng.old) }
    ensures word { change_of result (command_of line.now)
        ≡ change_of (next_u32 (R.stream rng.old)).0 (command_of line.now) }
{
    match line {
        Line::Set { .. } => rng.next_u32(),
        _ => 0,
    }
}

// Does a line and gathers its reply. It answers the note with which the script ends there, or None where it goes on.
fn do_line<H: Host, B: Db<H>>(
    alloc: Global,
    number: u64,
    word: u32,
    line: &Line<'_>,
    db: &mut B,
    host: &mut H,
    output: &mut Piece,
) -> Option<Note>
    requires sound { (B.state db.old).is_broken ≡ false }
    requires tied { B.tie db.old host.old }
    ensures well { GoesWell B.kind (over (H.state host.old) (B.state db.old))
        (over (H.state host.new) (B.state db.new)) (note_or_done result) }
    ensures device { IfSome result (λ note. IsFault note → note ≡ DeviceFault Host) }
    ensures notes { IfSome result IsScriptNote }
    ensures warned { (H.streams host.new).warned ≡ (H.streams host.old).warned }
    ensures does { DoesOne B.kind (asked number word (command_of line.now))
        (gathered (B.state db.old) (holding output.old (H.state host.old) (H.streams host.old)))
        (gathered (B.state db.new) (holding output.new (H.state host.new) (H.streams host.new)))
        result }
    ensures moments { LeavesLine B.kind (asked number word (command_of line.now))
        (gathered (B.state db.old) (holding output.old (H.state host.old) (H.streams host.old)))
        (gathered (B.state db.new) (holding output.new (H.state host.new) (H.streams host.new)))
        result }
    ensures tied { B.tie db.new host.new }
    ensures rest { H.host_rest host.old host.new }
{
    let in_transaction = db.in_transaction();
    if !is_placed(in_transaction, line) {
        return Some(Note::BadLine { line: number });
    }
    if let Err(fault) = act(alloc, word, line, db, host) {
        return Some(note_of_change(Device::Host, fault));
    }
    match reply(in_transaction, line, db, host, output) {
        Ok(()) => None,
        Err(_) => Some(HOST_FAULT),
    }
}

// Ends a script that no device cut off: what is gathered is printed, and an open transaction is given up.
fn finish<H: Host, B: Db<H>>(note: Note, db: &mut B, host: &mut H, output: &mut Piece) -> Note
    requires whole { IsFault note → ⊥ }
    requires sound { (B.state db.old).is_broken ≡ false }
    requires tied { B.tie db.old host.old }
    ensures well { GoesWell B.kind (over (H.state host.old) (B.state db.old))
        (over (H.state host.new) (B.state db.new)) result }
    ensures same { (IsFault result → ⊥) → result ≡ note }
    ensures device { IsFault result → result ≡ DeviceFault Host }
    ensures notes { IsScriptNote note → IsScriptNote result }
    ensures warned { (H.streams host.new).warned ≡ (H.streams host.old).warned }
    ensures closed { (IsFault result → ⊥) → (B.state db.new).in_transaction ≡ false }
    ensures empty { (IsFault result → ⊥) → output.new ≡ [] }
    ensures some { PrintsSome output.old (moment (H.state host.old) (H.streams host.old))
        (moment (H.state host.new) (H.streams host.new)) }
    ensures whole { (IsFault result → ⊥) → EndsWhole
        (gathered (B.state db.old) (holding output.old (H.state host.old) (H.streams host.old)))
        (gathered (B.state db.new) (holding output.new (H.state host.new) (H.streams host.new))) }
    ensures moments { LeavesBetween (H.state host.old) (H.state host.new)
        (OpensCommitted B.kind (B.state db.old)) }
    ensures idle { B.kind.works_in_place ≡ false
        → KeepsCounts (H.state host.old) (H.state host.new) }
    ensures tied { B.tie db.new host.new }
    ensures rest { H.host_rest host.old host.new }
{
    if flush(host, output).is_err() {
        return HOST_FAULT;
    }
    if db.in_transaction() && db.abort(host).is_err() {
        return HOST_FAULT;
    }
    note
}

// The note of a script whose end is reached. In a transaction the line after its last is wrong.
fn note_at_end(in_transaction: bool, number: u64) -> Note
    ensures { result ≡ end_note in_transaction number }
{
    if in_transaction {
        return Note::BadLine { line: number };
    }
    Note::Done
}

// The note of a script that gives no line.
fn note_of_script(fault: ScriptFault) -> Note
    ensures { result ≡ script_note fault }
{
    match fault {
        ScriptFault::TooLong => Note::Limit {
            limit: LimitName::Script,
            number: SCRIPT_LIMIT + 1,
        },
        ScriptFault::BadLine { line } => Note::BadLine { line },
        ScriptFault::NoMemory => Note::Memory,
        ScriptFault::InputFault => Note::DeviceFault {
            device: Device::Input,
        },
    }
}

// Ends a script with this note. After a fault of a device no other call is made.
fn stop<H: Host, B: Db<H>>(note: Note, db: &mut B, host: &mut H, output: &mut Piece) -> Note
    requires sound { (IsFault note → ⊥) → (B.state db.old).is_broken ≡ false }
    requires tied { B.tie db.old host.old }
    ensures fault { IsFault note → (result ≡ note) × (host.new ≡ host.old) × (db.new ≡ db.old) }
    ensures well { (IsFault note → ⊥) → GoesWell B.kind (over (H.state host.old) (B.state db.old))
        (over (H.state host.new) (B.state db.new)) result }
    ensures same { (IsFault result → ⊥) → result ≡ note }
    ensures device { IsFault result → (result ≡ DeviceFault Host) ⊎ (result ≡ note) }
    ensures notes { IsScriptNote note → IsScriptNote result }
    ensures warned { (H.streams host.new).warned ≡ (H.streams host.old).warned }
    ensures closed { (IsFault result → ⊥) → (B.state db.new).in_transaction ≡ false }
    ensures empty { (IsFault result → ⊥) → output.new ≡ [] }
    ensures some { PrintsSome output.old (moment (H.state host.old) (H.streams host.old))
        (moment (H.state host.new) (H.streams host.new)) }
    ensures whole { (IsFault result → ⊥) → EndsWhole
        (gathered (B.state db.old) (holding output.old (H.state host.old) (H.streams host.old)))
        (gathered (B.state db.new) (holding output.new (H.state host.new) (H.streams host.new))) }
    ensures moments { (IsFault note → ⊥) → LeavesBetween (H.state host.old) (H.state host.new)
        (OpensCommitted B.kind (B.state db.old)) }
    ensures idle { B.kind.works_in_place ≡ false
        → KeepsCounts (H.state host.old) (H.state host.new) }
    ensures tied { B.tie db.new host.new }
    ensures rest { H.host_rest host.old host.new }
{
    match note {
        Note::DeviceFault { .. } => note,
        _ => finish(note, db, host, output),
    }
}

// Does a line, and ends the script where it is not done.
fn do_or_stop<H: Host, B: Db<H>>(
    alloc: Global,
    number: u64,
    word: u32,
    line: &Line<'_>,
    db: &mut B,
    host: &mut H,
    output: &mut Piece,
) -> Option<Note>
    requires sound { (B.state db.old).is_broken ≡ false }
    requires tied { B.tie db.old host.old }
    ensures well { GoesWell B.kind (over (H.state host.old) (B.state db.old))
        (over (H.state host.new) (B.state db.new)) (note_or_done result) }
    ensures device { IfSome result (λ note. IsFault note → note ≡ DeviceFault Host) }
    ensures notes { IfSome result IsScriptNote }
    ensures warned { (H.streams host.new).warned ≡ (H.streams host.old).warned }
    ensures closed { IfSome result (λ note. (IsFault note → ⊥)
        → (B.state db.new).in_transaction ≡ false) }
    ensures empty { IfSome result (λ note. (IsFault note → ⊥) → output.new ≡ []) }
    ensures does { DoesOrEnds B.kind (asked number word (command_of line.now))
        (gathered (B.state db.old) (holding output.old (H.state host.old) (H.streams host.old)))
        (gathered (B.state db.new) (holding output.new (H.state host.new) (H.streams host.new)))
        result }
    ensures moments { LeavesLine B.kind (asked number word (command_of line.now))
        (gathered (B.state db.old) (holding output.old (H.state host.old) (H.streams host.old)))
        (gathered (B.state db.new) (holding output.new (H.state host.new) (H.streams host.new)))
        result }
    ensures tied { B.tie db.new host.new }
    ensures rest { H.host_rest host.old host.new }
{
    match do_line(alloc, number, word, line, db, host, output) {
        Some(note) => Some(stop(note, db, host, output)),
        None => None,
    }
}

// The next line, or the note with which the script ends before it.
fn next_found<I: Source>(
    script: &mut Script,
    in_transaction: bool,
    input: &mut I,
) -> Result<Found, Note>
    ensures reads { (answer : Result (Option Found) ScriptFault)
        × ReadsLine (found_in script.new.buffer) (script_state script.old) (script_state script.new)
        (I.state input.old) (I.state input.new) answer
        × (result ≡ found_or_note in_transaction (script_state script.old).lines answer) }
    ensures found { IfOk result (IsFound script.new.buffer) }
    ensures lines { OnOk result ((script_state script.new).lines
        ≡ (script_state script.old).lines + 1) }
    ensures note { IfErr result (λ note. IsFault note → note ≡ DeviceFault Input) }
    ensures notes { IfErr result IsScriptNote }
    ensures faults { Faults Input (note_of_answer result)
        (I.state input.old).faults (I.state input.new).faults }
    ensures still { is_gathered (script_state script.old) ≡ true → input.new ≡ input.old }
{
    let number = script.lines() + 1;
    match script.advance(input) {
        Ok(Some(found)) => Ok(found),
        Ok(None) => Err(note_at_end(in_transaction, number)),
        Err(fault) => Err(note_of_script(fault)),
    }
}

// Prints what is gathered where more of the script is to be read.
fn make_way<H: Host>(script: &Script, host: &mut H, output: &mut Piece) -> Result<(), Failed>
    ensures prints { Prints [] (holding output.old (H.state host.old) (H.streams host.old))
        (holding output.new (H.state host.new) (H.streams host.new)) result }
    ensures rest { H.host_rest host.old host.new }
{
    if script.needs_input() {
        return flush(host, output);
    }
    Ok(())
}

// Does the next line, or ends the script. What is gathered is printed before more of the script is read.
fn do_next<H: Host, B: Db<H>, I: Source, R: Rng>(
    alloc: Global,
    script: &mut Script,
    output: &mut Piece,
    db: &mut B,
    host: &mut H,
    input: &mut I,
    rng: &mut R,
) -> Option<Note>
    requires sound { (B.state db.old).is_broken ≡ false }
    requires tied { B.tie db.old host.old }
    ensures well { GoesWell B.kind (over (H.state host.old) (B.state db.old))
        (over (H.state host.new) (B.state db.new)) (note_or_done result) }
    ensures input { Faults Input (note_or_done result)
        (I.state input.old).faults (I.state input.new).faults }
    ensures device { IfSome result NamesScriptDevice }
    ensures notes { IfSome result IsScriptNote }
    ensures warned { (H.streams host.new).warned ≡ (H.streams host.old).warned }
    ensures closed { IfSome result (λ note. (IsFault note → ⊥)
        → (B.state db.new).in_transaction ≡ false) }
    ensures empty { IfSome result (λ note. (IsFault note → ⊥) → output.new ≡ []) }
    ensures lines { result ≡ None → (script_state script.new).lines
        ≡ (script_state script.old).lines + 1 }
    ensures goes { GoesOnFrom B.kind (script_over
        (to_read (script_state script.old) (I.state input.old).left (R.stream rng.old))
        (gathered (B.state db.old) (holding output.old (H.state host.old) (H.streams host.old))))
        (script_over (to_read (script_state script.new) (I.state input.new).left (R.stream rng.new))
        (gathered (B.state db.new) (holding output.new (H.state host.new) (H.streams host.new))))
        result }
    ensures tied { B.tie db.new host.new }
    ensures rest { H.host_rest host.old host.new }
{
    if let Err(_) = make_way(script, host, output) {
        return Some(HOST_FAULT);
    }
    let number = script.lines() + 1;
    match next_found(script, db.in_transaction(), input) {
        Ok(found) => {
            let line = script.line(found);
            let word = word_for(&line, rng);
            do_or_stop(alloc, number, word, &line, db, host, output)
        }
        Err(note) => Some(stop(note, db, host, output)),
    }
}

// Does the lines of a script in turn.
fn do_lines<H: Host, B: Db<H>, I: Source, R: Rng>(
    alloc: Global,
    output: &mut Piece,
    db: &mut B,
    host: &mut H,
    input: &mut I,
    rng: &mut R,
) -> Note
    requires sound { (B.state db.old).is_broken ≡ false }
    requires empty { output.old ≡ [] }
    requires closed { (B.state db.old).in_transaction ≡ false }
    requires tied { B.tie db.old host.old }
    ensures well { GoesWell B.kind (over (H.state host.old) (B.state db.old))
        (over (H.state host.new) (B.state db.new)) result }
    ensures input { Faults Input result (I.state input.old).faults (I.state input.new).faults }
    ensures device { NamesScriptDevice result }
    ensures notes { IsScriptNote result }
    ensures warned { (H.streams host.new).warned ≡ (H.streams host.old).warned }
    ensures closed { (IsFault result → ⊥) → (B.state db.new).in_transaction ≡ false }
    ensures empty { (IsFault result → ⊥) → output.new ≡ [] }
    ensures stated { (left : List ℕ) → (I.state input.old).left ≡ Some left
        → EndsAsStated (script_task B.kind (B.state db.old) (R.stream rng.old) left)
        (during (H.state host.old) (H.streams host.old) (B.state db.old))
        (during (H.state host.new) (H.streams host.new) (B.state db.new)) result }
    ensures moments { (left : List ℕ) → (I.state input.old).left ≡ Some left
        → KeepsPrefixes B.kind (script_task B.kind (B.state db.old) (R.stream rng.old) left)
        (during (H.state host.old) (H.streams host.old) (B.state db.old))
        (during (H.state host.new) (H.streams host.new) (B.state db.new)) }
    ensures stands { (left : List ℕ) → (I.state input.old).left ≡ Some left
        → (IsFault result → ⊥) → StandsAfter B.kind
        (script_task B.kind (B.state db.old) (R.stream rng.old) left)
        (during (H.state host.old) (H.streams host.old) (B.state db.old))
        (during (H.state host.new) (H.streams host.new) (B.state db.new)) result }
    ensures words { (left : List ℕ) → (I.state input.old).left ≡ Some left
        → DrawsWords (script_task B.kind (B.state db.old) (R.stream rng.old) left)
        (R.stream rng.old) (R.stream rng.new) result }
    ensures tied { B.tie db.new host.new }
    ensures rest { H.host_rest host.old host.new }
{
    let mut script = Script::new(alloc);
    for _ in 0..SCRIPT_LIMIT + 1 {
        if let Some(note) = do_next(alloc, &mut script, output, db, host, input, rng) {
            return note;
        }
    }
    unreachable!()
}

// The outcome with this note.
fn outcome_of(note: Note) -> Outcome
    ensures note { result.note ≡ note }
    ensures status { result.status ≡ status_of note }
{
    Outcome {
        status: note.status(),
        note,
    }
}

/// Does the lines of a script, and prints the reply of each before more of the script is read. A committing line's reply
/// is printed only after its commit.
///
/// A line that is wrong, or whose change is refused, ends the script: the open transaction is given up, what was printed
/// stands, and the line has no reply. After a failed call no other call is made, so that an open transaction then
/// stays in the file as unfinished, which the next opening removes. No memory is asked for between a commit and its reply.
pub fn batch<H: Host, B: Db<H>, I: Source, R: Rng>(
    alloc: Global,
    db: &mut B,
    host: &mut H,
    input: &mut I,
    rng: &mut R,
) -> Outcome
    requires sound { (B.state db.old).is_broken ≡ false }
    requires closed { (B.state db.old).in_transaction ≡ false }
    requires tied { B.tie db.old host.old }

    // The host and the source failed exactly where the note says so, once, and no other device is named; there are no
    // other notes, and nothing goes to standard error.
    ensures well { GoesWell B.kind (over (H.state host.old) (B.state db.old))
        (over (H.state host.new) (B.state db.new)) result.note }
    ensures input { Faults Input result.note
        (I.state input.old).faults (I.state input.new).faults }
    ensures device { NamesScriptDevice result.note }
    ensures notes { IsScriptNote result.note }
    ensures warned { (H.streams host.new).warned ≡ (H.streams host.old).warned }

    // Of a source that shows its bytes: at each moment, also within a write, a crash leaves the map after some first of
    // the stated transactions, those whose reply was printed by then among them, none in part.
    ensures moments { (left : List ℕ) → (I.state input.old).left ≡ Some left
        → KeepsPrefixes B.kind (script_task B.kind (B.state db.old) (R.stream rng.old) left)
        (during (H.state host.old) (H.streams host.old) (B.state db.old))
        (during (H.state host.new) (H.streams host.new) (B.state db.new)) }

    // Of a source that shows its bytes: note, output and session are the stated ones, unless a device failed or memory
    // ran out, and at any end a prefix of the stated output was printed.
    ensures stated { (left : List ℕ) → (I.state input.old).left ≡ Some left
        → EndsAsStated (script_task B.kind (B.state db.old) (R.stream rng.old) left)
        (during (H.state host.old) (H.streams host.old) (B.state db.old))
        (during (H.state host.new) (H.streams host.new) (B.state db.new)) result.note }
    ensures words { (left : List ℕ) → (I.state input.old).left ≡ Some left
        → DrawsWords (script_task B.kind (B.state db.old) (R.stream rng.old) left)
        (R.stream rng.old) (R.stream rng.new) result.note }

    // Of a source that shows its bytes: at an end without a fault of a device all of the transactions stand, or where memory
    // ran out some first of them, those whose reply was printed among them.
    ensures stands { (left : List ℕ) → (I.state input.old).left ≡ Some left
        → (IsFault result.note → ⊥) → StandsAfter B.kind
        (script_task B.kind (B.state db.old) (R.stream rng.old) left)
        (during (H.state host.old) (H.streams host.old) (B.state db.old))
        (during (H.state host.new) (H.streams host.new) (B.state db.new)) result.note }

    // Where the source did not fail, that is its whole task.
    ensures task { (left : List ℕ) → (I.state input.old).left ≡ Some left
        → (result.note ≡ DeviceFault Input → ⊥)
        → DoesTask B.kind (script_task B.kind (B.state db.old) (R.stream rng.old) left)
        (during (H.state host.old) (H.streams host.old) (B.state db.old))
        (during (H.state host.new) (H.streams host.new) (B.state db.new)) result.note }

    ensures closed { (IsFault result.note → ⊥) → (B.state db.new).in_transaction ≡ false }
    ensures status { result.status ≡ status_of result.note }
    ensures tied { B.tie db.new host.new }
    ensures rest { H.host_rest host.old host.new }
{
    match Piece::new(alloc) {
        Ok(mut output) => {
            let note = do_lines(alloc, &mut output, db, host, input, rng);
            outcome_of(note)
        }
        Err(_) => outcome_of(Note::Memory),
    }
}
