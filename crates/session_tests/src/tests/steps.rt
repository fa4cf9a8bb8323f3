// Calls on a session, as the tables of the tests name them.
use base_devices::Disk;
use db_core::{Db, DbFault};

/// Some pairs, by rising key.
pub type Pairs = &'static [(&'static [u8], &'static [u8])];

/// A call on a session, or a look at the map seen.
#[derive(Clone, Copy)]
pub enum Step {
    Begin,
    Store(&'static [u8], &'static [u8]),
    /// Stores a value of so many bytes.
    StoreRun(&'static [u8], usize),
    /// Stores a key and a value of so many bytes each.
    StoreRuns(usize, usize),
    Delete(&'static [u8]),
    Commit,
    Abort,
    /// Whether the map has these pairs and no other.
    Reads(Pairs),
    /// Whether behind this key, which may be absent, the first pair from it on has the second key, and the
    /// first pair above it the third.
    Next(&'static [u8], &'static [u8], &'static [u8]),
    /// Whether the map has no pair from this key on.
    IsLast(&'static [u8]),
    IsBroken,
    IsOpen,
}

/// What a step answers: a deletion whether the key was there, a look what it found, any other call true.
pub type Answer = Result<bool, DbFault>;

fn begin<D: Disk, B: Db<D>>(db: &mut B, disk: &D) -> Answer
    requires { B.tie db.old disk.now }
    ensures { B.tie db.new disk.now }
{
    if !db.broken() && db.in_transaction() {
        return Ok(false);
    }
    db.begin()?;
    Ok(true)
}

fn store<D: Disk, B: Db<D>>(db: &mut B, disk: &mut D, key: &[u8], value: &[u8]) -> Answer
    requires { B.tie db.old disk.old }
    ensures { B.tie db.new disk.new }
{
    if !db.broken() && !db.in_transaction() {
        return Ok(false);
    }
    db.store(disk, 0, key, value)?;
    Ok(true)
}

fn delete<D: Disk, B: Db<D>>(db: &mut B, disk: &mut D, key: &[u8]) -> Answer
    requires { B.tie db.old disk.old }
    ensures { B.tie db.new disk.new }
{
    if !db.broken() && !db.in_transaction() {
        return Ok(false);
    }
    db.delete(disk, key)
}

fn commit<D: Disk, B: Db<D>>(db: &mut B, disk: &mut D) -> Answer
    requires { B.tie db.old disk.old }
    ensures { B.tie db.new disk.new }
{
    if !db.broken() && !db.in_transaction() {
        return Ok(false);
    }
    db.commit(disk)?;
    Ok(true)
}

fn abort<D: Disk, B: Db<D>>(db: &mut B, disk: &mut D) -> Answer
    requires { B.tie db.old disk.old }
    ensures { B.tie db.new disk.new }
{
    if !db.broken() && !db.in_transaction() {
        return Ok(false);
    }
    db.abort(disk)?;
    Ok(true)
}

/// The map seen has these pairs and no other.
pub fn reads<D: Disk, B: Db<D>>(db: &B, _disk: &D, pairs: Pairs) -> bool {
    if db.broken() || db.count() != pairs.len() as u64 {
        return false;
    }
    let mut next = db.at_least(b"");
    for (key, value) in pairs {
        match next {
            Some(pair) if pair.key == *key && pair.value == *value => {}
            _ => return false,
        }
        if db.fetch(key) != Some(*value) {
            return false;
        }
        next = db.after(key);
    }
    next.is_none()
}

/// A walk from the first key on gives these pairs and no other.
pub fn walks<D: Disk, B: Db<D>>(db: &B, _disk: &D, pairs: Pairs) -> bool {
    if db.broken() {
        return false;
    }
    let mut at = db.walk_from(b"");
    for (key, value) in pairs {
        match db.step(at) {
            Some(next) if next.pair.key == *key && next.pair.value == *value => at = next.next,
            _ => return false,
        }
    }
    db.step(at).is_none()
}

fn comes_next<D: Disk, B: Db<D>>(db: &B, _disk: &D, key: &[u8], from: &[u8], above: &[u8]) -> bool {
    if db.broken() {
        return false;
    }
    match (db.at_least(key), db.after(key)) {
        (Some(first), Some(next)) => first.key == from && next.key == above,
        _ => false,
    }
}

fn is_last<D: Disk, B: Db<D>>(db: &B, _disk: &D, key: &[u8]) -> bool {
    !db.broken() && db.at_least(key).is_none() && db.after(key).is_none() && db.fetch(key).is_none()
}

// So many of the first bytes.
fn first(run: &[u8], size: usize) -> &[u8] {
    &run[..size.min(run.len())]
}

// Takes a step, where a transaction stands as it needs; else it answers false. Long keys and values come
// from the run.
fn take<D: Disk, B: Db<D>>(db: &mut B, disk: &mut D, run: &[u8], step: Step) -> Answer
    requires { B.tie db.old disk.old }
    ensures { B.tie db.new disk.new }
{
    match step {
        Step::Begin => begin(db, disk),
        Step::Store(key, value) => store(db, disk, key, value),
        Step::StoreRun(key, size) => store(db, disk, key, first(run, size)),
        Step::StoreRuns(key, value) => store(db, disk, first(run, key), first(run, value)),
        Step::Delete(key) => delete(db, disk, key),
        Step::Commit => commit(db, disk),
        Step::Abort => abort(db, disk),
        Step::Reads(pairs) => Ok(reads(db, disk, pairs) && walks(db, disk, pairs)),
        Step::Next(key, from, above) => Ok(comes_next(db, disk, key, from, above)),
        Step::IsLast(key) => Ok(is_last(db, disk, key)),
        Step::IsBroken => Ok(db.broken()),
        Step::IsOpen => Ok(db.in_transaction()),
    }
}

/// Takes the steps, up to the first that answers something else than is written beside it. Answers its place.
pub fn first_wrong<D: Disk, B: Db<D>>(
    db: &mut B,
    disk: &mut D,
    run: &[u8],
    script: &[(Step, Answer)],
) -> Option<usize>
    requires { B.tie db.old disk.old }
    ensures { B.tie db.new disk.new }
{
    for (place, (step, answer)) in script.iter().enumerate() {
        if take(db, disk, run, *step) != *answer {
            return Some(place);
        }
    }
    None
}
