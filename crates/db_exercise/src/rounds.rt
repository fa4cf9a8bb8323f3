// One transaction a round.
ghost use Rattle.std.specs.Prelude.{◌≡◌, ◌<◌, ◌≤◌, false, IfErr, OnOk};
ghost use Rattle.base_notes.specs.declared.note.Device.TheVariants.{Host};
ghost use Rattle.db_core.specs.Refusals.{LeavesDisk};
ghost use Rattle.db_core.specs.Sessions.{over};
ghost use Rattle.db_core.specs.WholeTransactions.{MakesWhole};
ghost use Rattle.db_exercise.specs.Changes.{transaction_at, words_left};
ghost use Rattle.db_exercise.specs.Exercise.{exercise_task};
ghost use Rattle.db_exercise.specs.Rounds.{MakesRounds, with_words};
ghost use Rattle.db_exercise.specs.declared.changes.TheConstants.{ROUND_LIMIT};
ghost use Rattle.db_tool.specs.Doing.{DoesTask, DrawsWords, during};
ghost use Rattle.db_tool.specs.ToolNotes.{change_note};

use crate::changes::changes_of;
use base_devices::Host;
use db_core::{Db, DbFault, run_changes};
use rand_core::Rng;
use std::alloc::Global;

// Makes the transaction of a round, or none of it.
fn run_round<H: Host, B: Db<H>, R: Rng>(
    alloc: Global,
    round: u32,
    db: &mut B,
    host: &mut H,
    rng: &mut R,
) -> Result<(), DbFault>
    requires round { round < ROUND_LIMIT }
    requires sound { (B.state db.old).is_broken ≡ false }
    requires closed { (B.state db.old).in_transaction ≡ false }
    requires tied { B.tie db.old host.old }
    ensures whole { MakesWhole B.kind (transaction_at round (R.stream rng.old))
        (over (H.state host.old) (B.state db.old))
        (over (H.state host.new) (B.state db.new)) result }
    ensures idle { B.kind.works_in_place ≡ false → LeavesDisk result host.old host.new }
    ensures words { R.stream rng.new ≡ words_left round (R.stream rng.old) }
    ensures tied { B.tie db.new host.new }
    ensures rest { H.disk_rest host.old host.new }
{
    match changes_of(alloc, round, rng) {
        Ok(changes) => run_changes(db, host, &changes),
        Err(_) => Err(DbFault::NoMemory),
    }
}

// Makes the rounds, up to the first whose transaction is refused.
pub(crate) fn run_rounds<H: Host, B: Db<H>, R: Rng>(
    alloc: Global,
    rounds: u32,
    db: &mut B,
    host: &mut H,
    rng: &mut R,
) -> Result<(), DbFault>
    requires rounds { rounds ≤ ROUND_LIMIT }
    requires sound { (B.state db.old).is_broken ≡ false }
    requires closed { (B.state db.old).in_transaction ≡ false }
    requires tied { B.tie db.old host.old }
    ensures made { OnOk result (MakesRounds B.kind rounds rounds
        (with_words (during (H.state host.old) (H.streams host.old) (B.state db.old))
        (R.stream rng.old))
        (with_words (during (H.state host.new) (H.streams host.new) (B.state db.new))
        (R.stream rng.new))) }
    ensures ended { IfErr result (λ fault. DoesTask B.kind
        (exercise_task B.kind rounds (B.state db.old) (R.stream rng.old))
        (during (H.state host.old) (H.streams host.old) (B.state db.old))
        (during (H.state host.new) (H.streams host.new) (B.state db.new)) (change_note Host fault)) }
    ensures words { IfErr result (λ fault. DrawsWords
        (exercise_task B.kind rounds (B.state db.old) (R.stream rng.old))
        (R.stream rng.old) (R.stream rng.new) (change_note Host fault)) }
    ensures tied { B.tie db.new host.new }
    ensures rest { H.host_rest host.old host.new }
{
    for round in 0..rounds {
        if let Err(fault) = run_round(alloc, round, db, host, rng) {
            return Err(fault);
        }
    }
    Ok(())
}
