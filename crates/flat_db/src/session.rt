// A session over a flat file, whose text is rewritten whole by each transaction that changed something.
ghost use Rattle.std.specs.Prelude.{◌≡◌, ◌⊎◌, [], true, false, IsErrOf, IfOk, IfErr, OnOk, is_some, drop};
ghost use Rattle.base_bytes.specs.OrderedMap.{IsDbMap, value_at};
ghost use Rattle.base_bytes.specs.declared.change.Change.TheVariants.{Put, Del};
ghost use Rattle.base_devices.specs.CrashImages.{Reads, Shows};
ghost use Rattle.db_core.specs.Calls.{Commits};
ghost use Rattle.db_core.specs.Refusals.{Answers, IsDiskFault, LeavesDisk, broken_refusal};
ghost use Rattle.db_core.specs.Sessions.{aborted, over};
ghost use Rattle.db_core.specs.declared.fault.DbFault.TheVariants.{NoMemory as MemoryRanOut};
ghost use Rattle.flat_db.specs.FlatText.{canonical_text};
ghost use Rattle.flat_db.specs.Kept.{SameEntries};
ghost use Rattle.flat_db.specs.Sessions.{AnswersChange, FlatTied, changed, flat_kind, flat_state, resting};

use crate::flat_map::FlatMap;
use crate::pairs::Pairs;
use crate::replacing::replace;
use base_bytes::{FLAT_LIMIT, NoMemory, Pair, Piece};
use base_devices::Disk;
use db_core::{Cursor, Db, DbFault, Step, pair_fault};
use std::alloc::Global;
use std::marker::Model;
use std::mem;

/// What a transaction holds from its beginning, so that neither `commit` nor `abort` takes memory.
#[derive(Drop)]
pub(crate) struct Transaction {
    /// The committed pairs, to which `abort` goes back.
    committed: Pairs,
    /// Where the session's bytes ended.
    end: usize,
    /// What `commit` writes with.
    piece: Piece,
    has_changed: bool,
}

impl Transaction {
    fn new(alloc: Global, seen: &Pairs, end: usize) -> Result<Transaction, NoMemory>
        ensures { IfOk result (λ t. SameEntries seen.now t.committed × (t.end ≡ end)
            × (t.piece ≡ []) × (t.has_changed ≡ false)) }
    {
        Ok(Transaction {
            committed: seen.copy(alloc)?,
            end,
            piece: Piece::new(alloc)?,
            has_changed: false,
        })
    }
}

/// Where a session stands.
#[derive(Drop)]
pub(crate) enum Stage {
    /// No transaction stands.
    Resting,
    Open(Transaction),
    /// An earlier call met a fault of the disk.
    Broken,
}

impl Stage {
    // The transaction that stands changed something.
    fn note_change(&mut self)
        ensures { self.new ≡ changed self.old }
    {
        if let Stage::Open(transaction) = self {
            transaction.has_changed = true;
        }
    }
}

/// An open flat file. A contract sees its maps, and whether a transaction stands.
///
/// It keeps the text's bytes with the escapes taken out. Each map is 16 bytes for each pair, which tell where its
/// key and its value stand there; a second one is kept only while a transaction stands.
#[derive(Drop)]
pub struct FlatDb {
    alloc: Global,
    pub(crate) bytes: Vec<u8>,
    pub(crate) seen: Pairs,
    pub(crate) stage: Stage,
}

impl Model for FlatDb {
    ghost use Rattle.flat_db.specs.Sessions.{FlatSession, IsSession, session_of};

    ghost Value = { FlatSession };

    ghost view = { λ s. session_of s.bytes.items s.seen s.stage };

    ghost invariant = { λ s. IsSession s.bytes.items s.seen s.stage };
}

impl FlatDb {
    // A session over the map of a text.
    pub(crate) fn over(alloc: Global, map: FlatMap) -> FlatDb
        ensures { result ≡ resting map }
    {
        FlatDb {
            alloc,
            bytes: map.bytes,
            seen: map.pairs,
            stage: Stage::Resting,
        }
    }

    pub(crate) fn is_broken(&self) -> bool
        ensures { result ≡ (flat_state self.now).is_broken }
    {
        matches!(self.stage, Stage::Broken)
    }

    // Puts the pair into the map seen. What word a pair has makes no difference to flat text.
    fn put_pair(&mut self, key: &[u8], value: &[u8]) -> Result<(), DbFault>
        requires { (flat_state self.old).is_broken ≡ false
            → (flat_state self.old).in_transaction ≡ true }
        ensures answer { AnswersChange (Put 0 key.now value.now) self.old self.new result }
        ensures no_fault { IfErr result (λ fault. ¬ IsDiskFault fault) }
    {
        if self.is_broken() {
            return Err(DbFault::Broken);
        }
        if let Some(fault) = pair_fault(key, value) {
            return Err(fault);
        }
        let size = self.seen.size_with(&self.bytes, key, value);
        if size > FLAT_LIMIT {
            return Err(DbFault::Full { size });
        }
        let Ok(()) = self.seen.put(&mut self.bytes, key, value, size) else {
            return Err(DbFault::NoMemory);
        };
        self.stage.note_change();
        Ok(())
    }

    // Takes the key out of the map seen, and answers whether it was there.
    fn take_out(&mut self, key: &[u8]) -> Result<bool, DbFault>
        requires { (flat_state self.old).is_broken ≡ false
            → (flat_state self.old).in_transaction ≡ true }
        ensures was_there { IfOk result
            (λ was. was ≡ is_some (value_at (flat_state self.old).seen key.now)) }
        ensures answer { AnswersChange (Del key.now) self.old self.new result }
        ensures no_fault { IfErr result (λ fault. ¬ IsDiskFault fault) }
    {
        if self.is_broken() {
            return Err(DbFault::Broken);
        }
        let Ok(place) = self.seen.place_of(&self.bytes, key) else {
            return Ok(false);
        };
        let size = self.seen.size_without(&self.bytes, place);
        if size > FLAT_LIMIT {
            return Err(DbFault::Full { size });
        }
        let _ = self.seen.entries.remove(place);
        self.seen.size = size;
        self.stage.note_change();
        Ok(true)
    }

    // Goes back to the committed map.
    fn go_back(&mut self) -> Result<(), DbFault>
        requires { (flat_state self.old).is_broken ≡ false
            → (flat_state self.old).in_transaction ≡ true }
        ensures answer { let s = flat_state self.old in
            Answers (broken_refusal s) s (flat_state self.new) (aborted s) result }
        ensures no_fault { IfErr result (λ fault. ¬ IsDiskFault fault) }
        ensures has_memory { ¬ IsErrOf result MemoryRanOut }
    {
        if self.is_broken() {
            return Err(DbFault::Broken);
        }
        let Stage::Open(transaction) = mem::replace(&mut self.stage, Stage::Resting) else {
            return Ok(());
        };
        self.bytes.truncate(transaction.end);
        self.seen = transaction.committed;
        Ok(())
    }
}

impl<D: Disk> Db<D> for FlatDb {
    ghost use Rattle.flat_db.specs.Sessions.{outside_same, broken_rests, broken_ties};

    ghost kind = { flat_kind };

    ghost state = { flat_state };

    ghost tie = { λ s d. FlatTied s (D.state d) };

    // A place is the number of pairs in front of it.
    ghost walks = { λ s place left. left ≡ drop place (flat_state s).seen };

    fn in_transaction(&self) -> bool {
        matches!(self.stage, Stage::Open(_))
    }

    fn broken(&self) -> bool {
        self.is_broken()
    }

    fn count(&self) -> u64 {
        self.seen.entries.len() as u64
    }

    fn fetch(&self, key: &[u8]) -> Option<&[u8]> {
        self.seen.value_of(&self.bytes, key)
    }

    fn at_least(&self, key: &[u8]) -> Option<Pair<'_>> {
        let place = self.seen.place_from(&self.bytes, key);
        self.seen.pair_at(&self.bytes, place)
    }

    fn after(&self, key: &[u8]) -> Option<Pair<'_>> {
        match self.seen.place_of(&self.bytes, key) {
            Ok(place) => self.seen.pair_at(&self.bytes, place + 1),
            Err(place) => self.seen.pair_at(&self.bytes, place),
        }
    }

    fn walk_from(&self, key: &[u8]) -> Cursor {
        Cursor {
            place: self.seen.place_from(&self.bytes, key) as u64,
        }
    }

    fn step(&self, cursor: Cursor) -> Option<Step<'_>> {
        match self.seen.pair_at(&self.bytes, cursor.place as usize) {
            Some(pair) => Some(Step {
                pair,
                next: Cursor {
                    place: cursor.place + 1,
                },
            }),
            None => None,
        }
    }

    fn begin(&mut self) -> Result<(), DbFault> {
        if self.is_broken() {
            return Err(DbFault::Broken);
        }
        match Transaction::new(self.alloc, &self.seen, self.bytes.len()) {
            Ok(transaction) => {
                self.stage = Stage::Open(transaction);
                Ok(())
            }
            Err(_) => Err(DbFault::NoMemory),
        }
    }

    fn store(
        &mut self,
        _disk: &mut D,
        _word: u32,
        key: &[u8],
        value: &[u8],
    ) -> Result<(), DbFault> {
        self.put_pair(key, value)
    }

    fn delete(&mut self, _disk: &mut D, key: &[u8]) -> Result<bool, DbFault> {
        self.take_out(key)
    }

    fn commit(&mut self, disk: &mut D) -> Result<(), DbFault>
        requires within { (flat_state self.old).is_broken ≡ false
            → (flat_state self.old).in_transaction ≡ true }
        requires tied { FlatTied self.old (D.state disk.old) }
        ensures commit { Commits flat_kind (over (D.state disk.old) (flat_state self.old))
            (over (D.state disk.new) (flat_state self.new)) result }
        ensures has_memory { ¬ IsErrOf result MemoryRanOut }
        ensures unharmed { LeavesDisk result disk.old disk.new }
        ensures untouched { (flat_state self.old).has_changed ≡ false
            → OnOk result (disk.new ≡ disk.old) }
        ensures tied { FlatTied self.new (D.state disk.new) }
        ensures rest { D.disk_rest disk.old disk.new }

        // A transaction that changed something leaves the canonical text of the map seen.
        ensures text { (flat_state self.old).has_changed ≡ true
            → OnOk result (Shows (D.state disk.old)
            → Reads (D.state disk.new) (canonical_text (flat_state self.old).seen)) }
    {
        if self.is_broken() {
            return Err(DbFault::Broken);
        }
        let Stage::Open(mut transaction) = mem::replace(&mut self.stage, Stage::Resting) else {
            return Ok(());
        };
        if !transaction.has_changed {
            return Ok(());
        }
        match replace(disk, &self.bytes, &self.seen, &mut transaction.piece) {
            Ok(()) => Ok(()),
            Err(_) => {
                self.stage = Stage::Broken;
                Err(DbFault::DiskFault)
            }
        }
    }

    fn abort(&mut self, _disk: &mut D) -> Result<(), DbFault> {
        self.go_back()
    }

    ghost tie_rests = { λ b old new reads leaves tie. record { leaves = λ sound c left. tie.leaves sound c (leaves.no_more c left) } };

    ghost tie_opens = { λ b d sound tie c left. tie.leaves sound c left };

    ghost broken_tied = { λ b d is. broken_ties b (D.state d) is };

    ghost outside = { λ b sound closed. outside_same b sound closed };

    ghost broken_outside = { λ b broken. broken_rests b broken };
}
