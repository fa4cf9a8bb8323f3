// What the actions of `cyr_dbtool` do with an open database.
ghost use Rattle.std.specs.Prelude.{◌≡◌, ℕ, ◌∷◌, [], false, IfOk};
ghost use Rattle.base_notes.specs.Notes.{status_of};
ghost use Rattle.base_bytes.specs.declared.change.Change.TheVariants.{Put, Del};
ghost use Rattle.db_tool.specs.Doing.{DoesTask, DrawsWords, ChangesOnce, during};
ghost use Rattle.db_tool.specs.Tasks.{CanAct, given, lacks_key, task_of, task_with_key};

use crate::looking::{get, show};
use crate::notes::note_of_change;
use base_bytes::{Bytes, NoMemory};
use base_devices::Host;
use base_notes::{Action, Device, Note, Outcome};
use db_core::{Change, Db, run_changes};
use rand_core::Rng;
use std::alloc::Global;

// Whether the action needs a key and its key has no byte.
fn has_no_key(action: &Action) -> bool
    ensures { result ≡ lacks_key action.now }
{
    match action {
        Action::Get { key } | Action::Set { key, .. } | Action::Delete { key } => {
            key.as_slice().is_empty()
        }
        _ => false,
    }
}

// Makes one transaction of one change.
fn change<H: Host, B: Db<H>>(db: &mut B, host: &mut H, change: Change) -> Note
    requires closed { (B.state db.old).is_broken ≡ false → (B.state db.old).in_transaction ≡ false }
    requires tied { B.tie db.old host.old }
    ensures changes { ChangesOnce B.kind change
        (during (H.state host.old) (H.streams host.old) (B.state db.old))
        (during (H.state host.new) (H.streams host.new) (B.state db.new)) result }
    ensures tied { B.tie db.new host.new }
    ensures rest { H.disk_rest host.old host.new }
{
    match run_changes(db, host, &[change]) {
        Ok(()) => Note::Done,
        Err(fault) => note_of_change(Device::Host, fault),
    }
}

// The change that puts a pair. It takes a copy of key and value.
fn put_of(alloc: Global, word: u32, key: &Bytes, value: &Bytes) -> Result<Change, NoMemory>
    ensures { IfOk result (λ change. change ≡ Put word key.now value.now) }
{
    Ok(Change::Put {
        word,
        key: Bytes::of(alloc, key.as_slice())?,
        value: Bytes::of(alloc, value.as_slice())?,
    })
}

// Puts a pair.
fn set<H: Host, B: Db<H>>(
    alloc: Global,
    word: u32,
    key: &Bytes,
    value: &Bytes,
    db: &mut B,
    host: &mut H,
) -> Note
    requires closed { (B.state db.old).is_broken ≡ false → (B.state db.old).in_transaction ≡ false }
    requires tied { B.tie db.old host.old }
    ensures changes { ChangesOnce B.kind (Put word key.now value.now)
        (during (H.state host.old) (H.streams host.old) (B.state db.old))
        (during (H.state host.new) (H.streams host.new) (B.state db.new)) result }
    ensures tied { B.tie db.new host.new }
    ensures rest { H.disk_rest host.old host.new }
{
    match put_of(alloc, word, key, value) {
        Ok(put) => change(db, host, put),
        Err(_) => Note::Memory,
    }
}

// Takes a key out.
fn delete<H: Host, B: Db<H>>(alloc: Global, key: &Bytes, db: &mut B, host: &mut H) -> Note
    requires closed { (B.state db.old).is_broken ≡ false → (B.state db.old).in_transaction ≡ false }
    requires tied { B.tie db.old host.old }
    ensures changes { ChangesOnce B.kind (Del key.now)
        (during (H.state host.old) (H.streams host.old) (B.state db.old))
        (during (H.state host.new) (H.streams host.new) (B.state db.new)) result }
    ensures tied { B.tie db.new host.new }
    ensures rest { H.disk_rest host.old host.new }
{
    match Bytes::of(alloc, key.as_slice()) {
        Ok(key) => change(db, host, Change::Del { key }),
        Err(_) => Note::Memory,
    }
}

// Does an action whose key, if it needs one, is not empty.
fn act_with_key<H: Host, B: Db<H>, R: Rng>(
    alloc: Global,
    action: &Action,
    db: &mut B,
    host: &mut H,
    rng: &mut R,
) -> Note
    requires can { CanAct action.now }
    requires sound { (B.state db.old).is_broken ≡ false }
    requires closed { (B.state db.old).in_transaction ≡ false }
    requires tied { B.tie db.old host.old }
    ensures task { DoesTask B.kind
        (task_with_key B.kind (B.state db.old) (given (R.stream rng.old) []) action.now)
        (during (H.state host.old) (H.streams host.old) (B.state db.old))
        (during (H.state host.new) (H.streams host.new) (B.state db.new)) result }
    ensures words { DrawsWords
        (task_with_key B.kind (B.state db.old) (given (R.stream rng.old) []) action.now)
        (R.stream rng.old) (R.stream rng.new) result }
    ensures tied { B.tie db.new host.new }
    ensures rest { H.host_rest host.old host.new }
{
    match action {
        Action::Show { prefix } => show(alloc, prefix.as_slice(), db, host),
        Action::Get { key } => get(alloc, key.as_slice(), db, host),
        Action::Set { key, value } => set(alloc, rng.next_u32(), key, value, db, host),
        Action::Delete { key } => delete(alloc, key, db, host),
        _ => unreachable!(),
    }
}

// The outcome with this note.
fn outcome_of(note: Note) -> Outcome
    ensures note { result.note ≡ note }
    ensures status { result.status ≡ status_of note }
{
    Outcome {
        status: note.status(),
        note,
    }
}

/// Does an action with an open database, and prints what it prints in full before it ends.
///
/// An empty key is refused as line 1. A pair that is to be put takes one random word, also where it is then refused;
/// nothing else draws one. The database is at rest before, and after each end but a fault of the host.
pub fn act<H: Host, B: Db<H>, R: Rng>(
    alloc: Global,
    action: &Action,
    db: &mut B,
    host: &mut H,
    rng: &mut R,
) -> Outcome
    requires can { CanAct action.now }
    requires sound { (B.state db.old).is_broken ≡ false }
    requires closed { (B.state db.old).in_transaction ≡ false }
    requires tied { B.tie db.old host.old }

    // What is stated of the action is done, or it is cut off; at each moment a prefix of its transactions is left.
    ensures task { DoesTask B.kind
        (task_of B.kind (B.state db.old) (given (R.stream rng.old) []) action.now)
        (during (H.state host.old) (H.streams host.old) (B.state db.old))
        (during (H.state host.new) (H.streams host.new) (B.state db.new)) result.note }
    ensures words { DrawsWords
        (task_of B.kind (B.state db.old) (given (R.stream rng.old) []) action.now)
        (R.stream rng.old) (R.stream rng.new) result.note }

    ensures status { result.status ≡ status_of result.note }
    ensures tied { B.tie db.new host.new }
    ensures rest { H.host_rest host.old host.new }
{
    if has_no_key(action) {
        return outcome_of(Note::BadLine { line: 1 });
    }
    outcome_of(act_with_key(alloc, action, db, host, rng))
}
