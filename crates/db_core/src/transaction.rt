// Changes, and whole transactions of them.
ghost use Rattle.std.specs.Prelude.{◌≡◌, true, false, Err, IfErr, OnErr};
ghost use Rattle.base_bytes.specs.Transactions.{after_transaction};
ghost use Rattle.db_core.specs.Calls.{MakesChange};
ghost use Rattle.db_core.specs.Refusals.{LeavesDisk};
ghost use Rattle.db_core.specs.Sessions.{over};
ghost use Rattle.db_core.specs.WholeTransactions.{MakesSome, MakesWhole, GivesUp};
ghost use Rattle.db_core.specs.declared.fault.DbFault.TheVariants.{Broken};

use crate::{Change, Db, DbFault};
use base_devices::Disk;

// Makes one change in the open transaction.
fn apply<D: Disk, B: Db<D>>(db: &mut B, disk: &mut D, change: &Change) -> Result<(), DbFault>
    requires within { (B.state db.old).is_broken ≡ false → (B.state db.old).in_transaction ≡ true }
    requires tied { B.tie db.old disk.old }
    ensures change { MakesChange B.kind change.now
        (over (D.state disk.old) (B.state db.old))
        (over (D.state disk.new) (B.state db.new)) result }
    ensures unharmed { LeavesDisk result disk.old disk.new }
    ensures idle { B.kind.works_in_place ≡ false → disk.new ≡ disk.old }
    ensures tied { B.tie db.new disk.new }
    ensures rest { D.disk_rest disk.old disk.new }
{
    match change {
        Change::Put { word, key, value } => db.store(disk, *word, key.as_slice(), value.as_slice()),
        Change::Del { key } => {
            let _was_there = db.delete(disk, key.as_slice())?;
            Ok(())
        }
    }
}

// Makes all changes in the open transaction, up to the first that is refused.
fn apply_all<D: Disk, B: Db<D>>(db: &mut B, disk: &mut D, changes: &[Change]) -> Result<(), DbFault>
    requires sound { (B.state db.old).is_broken ≡ false }
    requires within { (B.state db.old).in_transaction ≡ true }
    requires tied { B.tie db.old disk.old }
    ensures some { MakesSome B.kind changes.now
        (over (D.state disk.old) (B.state db.old))
        (over (D.state disk.new) (B.state db.new)) result }
    ensures idle { B.kind.works_in_place ≡ false → disk.new ≡ disk.old }
    ensures tied { B.tie db.new disk.new }
    ensures rest { D.disk_rest disk.old disk.new }
{
    for change in changes {
        if let Err(fault) = apply(db, disk, change) {
            return Err(fault);
        }
    }
    Ok(())
}

// Goes back to the committed map after a refusal, unless the session is broken.
fn give_up<D: Disk, B: Db<D>>(db: &mut B, disk: &mut D, fault: DbFault) -> DbFault
    requires within { (B.state db.old).is_broken ≡ false → (B.state db.old).in_transaction ≡ true }
    requires tied { B.tie db.old disk.old }
    ensures gives_up { GivesUp B.kind fault result
        (over (D.state disk.old) (B.state db.old))
        (over (D.state disk.new) (B.state db.new)) }
    ensures broken { (B.state db.old).is_broken ≡ true → disk.new ≡ disk.old }
    ensures idle { B.kind.works_in_place ≡ false → disk.new ≡ disk.old }
    ensures tied { B.tie db.new disk.new }
    ensures rest { D.disk_rest disk.old disk.new }
{
    if db.broken() {
        return fault;
    }
    match db.abort(disk) {
        Ok(()) => fault,
        Err(met) => met,
    }
}

/// Makes one whole transaction of these changes, or none of it.
///
/// A refusal of `begin` is answered at once. After a later one the transaction is given up and that refusal is
/// answered, or `DiskFault` where giving it up meets one. Wherever a crash comes, the file opens to the map
/// before the transaction or to the map after all of it, and to the latter only where it is answered Ok or `DiskFault`.
pub fn run_changes<D: Disk, B: Db<D>>(
    db: &mut B,
    disk: &mut D,
    changes: &[Change],
) -> Result<(), DbFault>
    requires closed { (B.state db.old).is_broken ≡ false → (B.state db.old).in_transaction ≡ false }
    requires tied { B.tie db.old disk.old }
    ensures whole { MakesWhole B.kind changes.now
        (over (D.state disk.old) (B.state db.old))
        (over (D.state disk.new) (B.state db.new)) result }

    // A broken session answers so and leaves the disk alone; so does a refusal, where files are rewritten whole.
    ensures broken { (B.state db.old).is_broken ≡ true
        → (result ≡ Err Broken) × (disk.new ≡ disk.old) }
    ensures idle { B.kind.works_in_place ≡ false → LeavesDisk result disk.old disk.new }

    ensures tied { B.tie db.new disk.new }
    ensures rest { D.disk_rest disk.old disk.new }
{
    db.begin()?;
    match apply_all(db, disk, changes) {
        Ok(()) => db.commit(disk),
        Err(fault) => Err(give_up(db, disk, fault)),
    }
}
