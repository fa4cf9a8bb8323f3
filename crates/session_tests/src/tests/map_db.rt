// A session whose maps are in memory alone: the smallest that meets the trait.
ghost use Rattle.std.specs.Prelude.{◌≡◌, ◌≢◌, ◌≤◌, [], true, IfOk, IfErr, is_some};
ghost use Rattle.std.specs.List.{All};
ghost use Rattle.base_bytes.specs.OrderedMap.{IsOrderedMap, value_at};
ghost use Rattle.base_bytes.specs.declared.change.Change.TheVariants.{Put, Del};
ghost use Rattle.db_core.specs.Refusals.{IsDiskFault};
ghost use Rattle.session_tests.specs.MemorySessions.{AnswersChange, memory_state, ordered_prop, pairs_in};

use base_bytes::{Pair, compare_keys};
use base_devices::Disk;
use db_core::{Cursor, Db, DbFault, Step, pair_fault};
use std::alloc::Global;
use std::collections::BTreeMap;
use std::mem;

type Tree = BTreeMap<Vec<u8>, Vec<u8>>;

/// Its files stand for every map. A file has a byte for each change that was made, and at most nine.
#[derive(Drop)]
pub struct MapDb {
    alloc: Global,
    seen: Tree,
    saved: Tree,
    in_transaction: bool,
    has_changed: bool,
    changes: u64,
    saved_changes: u64,
    ghost few: { changes ≤ 9 },
    ghost saved_few: { saved_changes ≤ 9 },
    ghost ordered: { IsOrderedMap (pairs_in seen.entries) } by { ordered_prop (pairs_in seen.entries) },
    ghost some: { All (λ p. p.0 ≢ []) (pairs_in seen.entries) },
    ghost saved_ordered: { IsOrderedMap (pairs_in saved.entries) } by { ordered_prop (pairs_in saved.entries) },
    ghost saved_some: { All (λ p. p.0 ≢ []) (pairs_in saved.entries) },
}

impl MapDb {
    pub fn new(alloc: Global) -> MapDb {
        MapDb {
            alloc,
            seen: BTreeMap::new(alloc),
            saved: BTreeMap::new(alloc),
            in_transaction: false,
            has_changed: false,
            changes: 0,
            saved_changes: 0,
        }
    }

    fn put_pair(&mut self, key: &[u8], value: &[u8]) -> Result<(), DbFault>
        requires { self.old.in_transaction ≡ true }
        ensures answer { AnswersChange (Put 0 key.now value.now) (memory_state self.old.in_transaction (pairs_in self.old.seen.entries) (pairs_in self.old.saved.entries) self.old.changes self.old.saved_changes self.old.has_changed) (memory_state self.new.in_transaction (pairs_in self.new.seen.entries) (pairs_in self.new.saved.entries) self.new.changes self.new.saved_changes self.new.has_changed) result }
        ensures no_fault { IfErr result (λ fault. ¬ IsDiskFault fault) }
    {
        if let Some(fault) = pair_fault(key, value) {
            return Err(fault);
        }
        if self.changes >= 9 {
            return Err(DbFault::Full {
                size: self.changes + 1,
            });
        }
        let (Ok(key), Ok(value)) = (key.to_vec(self.alloc), value.to_vec(self.alloc)) else {
            return Err(DbFault::NoMemory);
        };
        match self.seen.insert(key, value) {
            Ok(_) => {
                self.has_changed = true;
                self.changes += 1;
                Ok(())
            }
            Err(_) => Err(DbFault::NoMemory),
        }
    }

    fn take_out(&mut self, key: &[u8]) -> Result<bool, DbFault>
        requires { self.old.in_transaction ≡ true }
        ensures was_there { IfOk result (λ was. was ≡ is_some (value_at (pairs_in self.old.seen.entries) key.now)) }
        ensures answer { AnswersChange (Del key.now) (memory_state self.old.in_transaction (pairs_in self.old.seen.entries) (pairs_in self.old.saved.entries) self.old.changes self.old.saved_changes self.old.has_changed) (memory_state self.new.in_transaction (pairs_in self.new.seen.entries) (pairs_in self.new.saved.entries) self.new.changes self.new.saved_changes self.new.has_changed) result }
        ensures no_fault { IfErr result (λ fault. ¬ IsDiskFault fault) }
    {
        if self.seen.get(key).is_none() {
            return Ok(false);
        }
        if self.changes >= 9 {
            return Err(DbFault::Full {
                size: self.changes + 1,
            });
        }
        let _ = self.seen.remove(key);
        self.has_changed = true;
        self.changes += 1;
        Ok(true)
    }
}

impl<D: Disk> Db<D> for MapDb {
    ghost use Rattle.std.specs.Prelude.{drop};
    ghost use Rattle.session_tests.specs.MemorySessions.{counting_kind, outside_same};

    ghost kind = { counting_kind 9 };

    ghost state = { λ s. memory_state s.in_transaction (pairs_in s.seen.entries) (pairs_in s.saved.entries) s.changes s.saved_changes s.has_changed };

    ghost tie = { λ _ _. Unit {0} };

    // A place is the number of pairs in front of it.
    ghost walks = { λ s place left. left ≡ drop place (pairs_in s.seen.entries) };

    fn in_transaction(&self) -> bool {
        self.in_transaction
    }

    fn broken(&self) -> bool {
        false
    }

    fn count(&self) -> u64 {
        self.seen.len() as u64
    }

    fn fetch(&self, key: &[u8]) -> Option<&[u8]> {
        match self.seen.get(key) {
            Some(value) => Some(value),
            None => None,
        }
    }

    fn at_least(&self, key: &[u8]) -> Option<Pair<'_>> {
        for (found, value) in &self.seen {
            if !compare_keys(found, key).is_lt() {
                return Some(Pair { key: found, value });
            }
        }
        None
    }

    fn after(&self, key: &[u8]) -> Option<Pair<'_>> {
        for (found, value) in &self.seen {
            if compare_keys(key, found).is_lt() {
                return Some(Pair { key: found, value });
            }
        }
        None
    }

    fn walk_from(&self, key: &[u8]) -> Cursor {
        let mut place = 0;
        for (found, _) in &self.seen {
            if !compare_keys(found, key).is_lt() {
                return Cursor { place };
            }
            place += 1;
        }
        Cursor { place }
    }

    fn step(&self, cursor: Cursor) -> Option<Step<'_>> {
        let mut place = 0;
        for (key, value) in &self.seen {
            if place == cursor.place {
                let pair = Pair { key, value };
                let next = Cursor { place: place + 1 };
                return Some(Step { pair, next });
            }
            place += 1;
        }
        None
    }

    fn begin(&mut self) -> Result<(), DbFault> {
        match self.seen.clone() {
            Ok(copy) => {
                self.saved = copy;
                self.in_transaction = true;
                self.has_changed = false;
                self.saved_changes = self.changes;
                Ok(())
            }
            Err(_) => Err(DbFault::NoMemory),
        }
    }

    fn store(
        &mut self,
        _disk: &mut D,
        _word: u32,
        key: &[u8],
        value: &[u8],
    ) -> Result<(), DbFault> {
        self.put_pair(key, value)
    }

    fn delete(&mut self, _disk: &mut D, key: &[u8]) -> Result<bool, DbFault> {
        self.take_out(key)
    }

    fn commit(&mut self, _disk: &mut D) -> Result<(), DbFault> {
        self.in_transaction = false;
        Ok(())
    }

    fn abort(&mut self, _disk: &mut D) -> Result<(), DbFault> {
        mem::swap(&mut self.seen, &mut self.saved);
        self.changes = self.saved_changes;
        self.in_transaction = false;
        Ok(())
    }

    ghost tie_rests = { λ b old new reads leaves tie. tt };

    ghost tie_opens = { λ b d sound tie c left. tt };

    ghost broken_tied = { λ b d broken. tt };

    ghost outside = { λ b sound closed. outside_same b.in_transaction _ _ _ _ b.has_changed closed };

    ghost broken_outside = { λ b broken. absurd (cc (broken)) };
}
