// An exercise of an open database: all rounds, and then the report.
ghost use Rattle.std.specs.Prelude.{◌≡◌, ◌≤◌, false};
ghost use Rattle.base_notes.specs.Notes.{status_of};
ghost use Rattle.db_exercise.specs.Exercise.{exercise_task};
ghost use Rattle.db_exercise.specs.declared.changes.TheConstants.{ROUND_LIMIT};
ghost use Rattle.db_tool.specs.Doing.{DoesTask, DrawsWords, during};

use crate::report::report;
use crate::rounds::run_rounds;
use base_devices::Host;
use base_notes::{Device, Note, Outcome};
use db_core::Db;
use db_tool::note_of_change;
use rand_core::Rng;
use std::alloc::Global;

// The outcome with this note.
fn outcome_of(note: Note) -> Outcome
    ensures note { result.note ≡ note }
    ensures status { result.status ≡ status_of note }
{
    Outcome {
        status: note.status(),
        note,
    }
}

/// Makes the transactions of so many rounds, at most [`ROUND_LIMIT`], and then prints three lines: how many they were,
/// how many pairs the map has, and the SHA-1 of all that is shown of it.
///
/// Nothing is printed before each transaction is committed. One that is refused ends the exercise: those before it stand,
/// and nothing is printed. Each store draws one random word, also in a transaction that is then refused; a delete draws
/// none. Memory may run out at each transaction, and before the lines are printed. After a failed call no other is made.
pub fn exercise<H: Host, B: Db<H>, R: Rng>(
    alloc: Global,
    rounds: u32,
    db: &mut B,
    host: &mut H,
    rng: &mut R,
) -> Outcome
    requires rounds { rounds ≤ ROUND_LIMIT }
    requires sound { (B.state db.old).is_broken ≡ false }
    requires closed { (B.state db.old).in_transaction ≡ false }
    requires tied { B.tie db.old host.old }

    // The stated transactions, output and note, or it is cut off; at each moment a prefix of the transactions is left.
    ensures task { DoesTask B.kind
        (exercise_task B.kind rounds (B.state db.old) (R.stream rng.old))
        (during (H.state host.old) (H.streams host.old) (B.state db.old))
        (during (H.state host.new) (H.streams host.new) (B.state db.new)) result.note }
    ensures words { DrawsWords
        (exercise_task B.kind rounds (B.state db.old) (R.stream rng.old))
        (R.stream rng.old) (R.stream rng.new) result.note }

    ensures status { result.status ≡ status_of result.note }
    ensures tied { B.tie db.new host.new }
    ensures rest { H.host_rest host.old host.new }
{
    match run_rounds(alloc, rounds, db, host, rng) {
        Ok(()) => outcome_of(report(alloc, rounds, db, host)),
        Err(fault) => outcome_of(note_of_change(Device::Host, fault)),
    }
}
