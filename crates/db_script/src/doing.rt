// A line is done over an open database, and its reply printed.
ghost use Rattle.std.specs.Prelude.{◌≡◌, ℕ, true, false, IfOk};
ghost use Rattle.base_bytes.specs.declared.change.Change.TheVariants.{Put};
ghost use Rattle.db_core.specs.Sessions.{over};
ghost use Rattle.db_script.specs.Doing.{DoesLine};
ghost use Rattle.db_script.specs.Lines.{command_of, set, delete};
ghost use Rattle.db_script.specs.Replies.{is_placed};

use crate::line::Line;
use base_bytes::{Bytes, NoMemory};
use base_devices::Host;
use db_core::{Change, Db, DbFault, run_changes};
use std::alloc::Global;

// The change that puts a pair. It takes a copy of key and value.
fn put_of(alloc: Global, word: u32, key: &[u8], value: &[u8]) -> Result<Change, NoMemory>
    ensures { IfOk result (λ change. change ≡ Put word key.now value.now) }
{
    Ok(Change::Put {
        word,
        key: Bytes::of(alloc, key)?,
        value: Bytes::of(alloc, value)?,
    })
}

// Puts a pair in the open transaction, or in one of its own.
fn set<H: Host, B: Db<H>>(
    alloc: Global,
    word: u32,
    key: &[u8],
    value: &[u8],
    db: &mut B,
    host: &mut H,
) -> Result<(), DbFault>
    requires sound { (B.state db.old).is_broken ≡ false }
    requires tied { B.tie db.old host.old }
    ensures does { DoesLine B.kind word (set key.now value.now)
        (over (H.state host.old) (B.state db.old))
        (over (H.state host.new) (B.state db.new)) result }
    ensures tied { B.tie db.new host.new }
    ensures rest { H.disk_rest host.old host.new }
{
    if db.in_transaction() {
        return db.store(host, word, key, value);
    }
    match put_of(alloc, word, key, value) {
        Ok(put) => run_changes(db, host, &[put]),
        Err(_) => Err(DbFault::NoMemory),
    }
}

// Takes a key out in the open transaction, or in one of its own.
fn delete<H: Host, B: Db<H>>(
    alloc: Global,
    key: &[u8],
    db: &mut B,
    host: &mut H,
) -> Result<(), DbFault>
    requires sound { (B.state db.old).is_broken ≡ false }
    requires tied { B.tie db.old host.old }
    ensures does { (word : ℕ) → DoesLine B.kind word (delete key.now)
        (over (H.state host.old) (B.state db.old))
        (over (H.state host.new) (B.state db.new)) result }
    ensures tied { B.tie db.new host.new }
    ensures rest { H.disk_rest host.old host.new }
{
    if db.in_transaction() {
        let _was_there = db.delete(host, key)?;
        return Ok(());
    }
    match Bytes::of(alloc, key) {
        Ok(key) => run_changes(db, host, &[Change::Del { key }]),
        Err(_) => Err(DbFault::NoMemory),
    }
}

// Whether the line may stand where a transaction is open, or none.
pub(crate) fn is_placed(in_transaction: bool, line: &Line<'_>) -> bool
    ensures { result ≡ is_placed in_transaction (command_of line.now) }
{
    match line {
        Line::Begin => !in_transaction,
        Line::Commit | Line::Abort => in_transaction,
        _ => true,
    }
}

// Does a line, and prints nothing.
pub(crate) fn act<H: Host, B: Db<H>>(
    alloc: Global,
    word: u32,
    line: &Line<'_>,
    db: &mut B,
    host: &mut H,
) -> Result<(), DbFault>
    requires sound { (B.state db.old).is_broken ≡ false }
    requires placed { is_placed (B.state db.old).in_transaction (command_of line.now) ≡ true }
    requires tied { B.tie db.old host.old }
    ensures does { DoesLine B.kind word (command_of line.now)
        (over (H.state host.old) (B.state db.old))
        (over (H.state host.new) (B.state db.new)) result }
    ensures tied { B.tie db.new host.new }
    ensures rest { H.disk_rest host.old host.new }
{
    match line {
        Line::Begin => db.begin(),
        Line::Commit => db.commit(host),
        Line::Abort => db.abort(host),
        Line::Set { key, value } => set(alloc, word, key, value, db, host),
        Line::Delete { key } => delete(alloc, key, db, host),
        Line::Show { .. } | Line::Get { .. } => Ok(()),
    }
}
