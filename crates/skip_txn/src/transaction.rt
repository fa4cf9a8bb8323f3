// A transaction: begun, changed, committed or given up.
use crate::place::{count_with, spot_of};
use crate::room::{PLAIN_SIZE, make_put_room, make_room};
use crate::session::{Session, SessionState, Stage};
use base_devices::Disk;
use db_core::DbFault;
use skip_change::{commit, put_pair, take_out};
use skip_form::level_of;
use skip_recover::recover;

impl Session {
    ghost use Rattle.std.specs.Prelude.{◌≡◌, ◌≤◌, ◌+◌, true, false, IfErr, IfOk, IsErrOf, OnOk, is_some, length};
    ghost use Rattle.base_bytes.specs.OrderedMap.{value_at};
    ghost use Rattle.base_bytes.specs.declared.change.Change.TheVariants.{Put, Del};
    ghost use Rattle.db_core.specs.Calls.{Aborts, Commits, MakesChange};
    ghost use Rattle.db_core.specs.Refusals.{Answers, IsDiskFault, LeavesDisk, broken_refusal};
    ghost use Rattle.db_core.specs.Sessions.{begun, over};
    ghost use Rattle.db_core.specs.declared.fault.DbFault.TheVariants.{NoMemory};
    ghost use Rattle.skip_spec.specs.Appending as appending;
    ghost use Rattle.skip_spec.specs.Appending.{Stores, Deletes};
    ghost use Rattle.skip_spec.specs.Layout.{level_for};
    ghost use Rattle.skip_kind.specs.Kind.{skip_kind};
    ghost use Rattle.skip_txn.specs.Sessions.{Tied, bytes_of, session_state, within};
    ghost use Rattle.skip_txn.specs.Bounds.{StoreWrites, DeleteWrites};

    /// Begins a transaction. It answers `Broken` and `NoMemory` besides Ok.
    pub fn begin(&mut self) -> Result<(), DbFault>
        requires { (session_state self.old).is_broken ≡ false
            → (session_state self.old).in_transaction ≡ false }
        ensures answer { let s = session_state self.old in
            Answers (broken_refusal s) s (session_state self.new) (begun s) result }
        ensures no_fault { IfErr result (λ fault. ¬ IsDiskFault fault) }
        ensures begun { OnOk result
            (self.new ≡ within (bytes_of self.old) (length (bytes_of self.old)) false) }
        ensures same { IfErr result (λ fault. self.new ≡ self.old) }
    {
        if self.broken() {
            return Err(DbFault::Broken);
        }
        if self.image.reserve(PLAIN_SIZE).is_err() {
            return Err(DbFault::NoMemory);
        }
        self.state.stage = Stage::Open {
            committed: self.image.length(),
            has_changed: false,
        };
        Ok(())
    }

    /// Puts the pair into the map seen, in a record whose level the word gives. All faults are possible answers.
    pub fn store<D: Disk>(
        &mut self,
        disk: &mut D,
        word: u32,
        key: &[u8],
        value: &[u8],
    ) -> Result<(), DbFault>
        requires within { (session_state self.old).is_broken ≡ false
            → (session_state self.old).in_transaction ≡ true }
        requires tied { Tied self.old (D.state disk.old) }
        // The change of the map, its refusals and causes, and what a stop leaves.
        ensures change { MakesChange skip_kind (Put word key.now value.now)
            (over (D.state disk.old) (session_state self.old))
            (over (D.state disk.new) (session_state self.new)) result }
        ensures unharmed { LeavesDisk result disk.old disk.new }
        ensures tied { Tied self.new (D.state disk.new) }
        // One record is appended, of the level of the word, and few bytes are written.
        ensures stores { OnOk result (Stores (level_for word) key.now value.now
            (bytes_of self.old) (bytes_of self.new)) }
        ensures written { StoreWrites (bytes_of self.old) word key.now value.now
            (D.state disk.old).written (D.state disk.new).written }
        ensures rest { D.disk_rest disk.old disk.new }
    {
        let Stage::Open {
            committed,
            has_changed,
        } = self.state.stage
        else {
            return Err(DbFault::Broken);
        };
        make_put_room(&mut self.image, word, key, value)?;
        let spot = spot_of(&self.image, key);
        let count = count_with(&self.image, &spot, self.state.count);
        let level = level_of(word);
        let image = &mut self.image;
        match put_pair(
            disk,
            image,
            committed,
            has_changed,
            &spot,
            level,
            key,
            value,
        ) {
            Ok(()) => {
                self.state = SessionState {
                    count,
                    stage: Stage::Open {
                        committed,
                        has_changed: true,
                    },
                };
                Ok(())
            }
            Err(_) => {
                self.state.stage = Stage::Broken;
                Err(DbFault::DiskFault)
            }
        }
    }

    /// Takes the key out of the map seen, and answers whether it was there. One that is not there, of whatever length,
    /// changes and writes nothing. It answers `Broken`, `Full`, `NoMemory` and `DiskFault` besides Ok; `Full` only
    /// where the key is there.
    pub fn delete<D: Disk>(&mut self, disk: &mut D, key: &[u8]) -> Result<bool, DbFault>
        requires within { (session_state self.old).is_broken ≡ false
            → (session_state self.old).in_transaction ≡ true }
        requires tied { Tied self.old (D.state disk.old) }
        // The change of the map, its refusals and causes, and what a stop leaves.
        ensures was_there { IfOk result
            (λ was. was ≡ is_some (value_at (session_state self.old).seen key.now)) }
        ensures change { MakesChange skip_kind (Del key.now)
            (over (D.state disk.old) (session_state self.old))
            (over (D.state disk.new) (session_state self.new)) result }
        ensures unharmed { LeavesDisk result disk.old disk.new }
        ensures untouched { IfOk result (λ was. was ≡ false → disk.new ≡ disk.old) }
        ensures tied { Tied self.new (D.state disk.new) }
        // One delete record is appended, and few bytes are written.
        ensures deletes { IfOk result (λ was. was ≡ true
            → Deletes key.now (bytes_of self.old) (bytes_of self.new)) }
        ensures written { DeleteWrites (bytes_of self.old) key.now
            (D.state disk.old).written (D.state disk.new).written }
        ensures rest { D.disk_rest disk.old disk.new }
    {
        let Stage::Open {
            committed,
            has_changed,
        } = self.state.stage
        else {
            return Err(DbFault::Broken);
        };
        let spot = spot_of(&self.image, key);
        if spot.same_at == 0 {
            return Ok(false);
        }
        make_room(&mut self.image, PLAIN_SIZE)?;
        match take_out(disk, &mut self.image, committed, has_changed, &spot) {
            Ok(()) => {
                self.state = SessionState {
                    count: self.state.count - 1,
                    stage: Stage::Open {
                        committed,
                        has_changed: true,
                    },
                };
                Ok(true)
            }
            Err(_) => {
                self.state.stage = Stage::Broken;
                Err(DbFault::DiskFault)
            }
        }
    }

    /// Makes the map seen the committed one. A crash within leaves one of the two, and after Ok only the map seen.
    /// A transaction that changed nothing writes nothing. It answers `Broken` and `DiskFault` besides Ok.
    pub fn commit<D: Disk>(&mut self, disk: &mut D) -> Result<(), DbFault>
        requires within { (session_state self.old).is_broken ≡ false
            → (session_state self.old).in_transaction ≡ true }
        requires tied { Tied self.old (D.state disk.old) }
        ensures commit { Commits skip_kind
            (over (D.state disk.old) (session_state self.old))
            (over (D.state disk.new) (session_state self.new)) result }
        ensures has_memory { ¬ IsErrOf result NoMemory }
        ensures unharmed { LeavesDisk result disk.old disk.new }
        ensures untouched { (session_state self.old).has_changed ≡ false
            → OnOk result (disk.new ≡ disk.old) }
        ensures tied { Tied self.new (D.state disk.new) }
        // A transaction that changed something appends its commit record, and writes 88 bytes.
        ensures commits { (session_state self.old).has_changed ≡ true
            → OnOk result (appending.Commits (bytes_of self.old) (bytes_of self.new)) }
        ensures written { (D.state disk.new).written ≤ (D.state disk.old).written + 88 }
        ensures rest { D.disk_rest disk.old disk.new }
    {
        let Stage::Open { has_changed, .. } = self.state.stage else {
            return Err(DbFault::Broken);
        };
        if !has_changed {
            self.state.stage = Stage::Resting;
            return Ok(());
        }
        match commit(disk, &mut self.image, self.state.count) {
            Ok(()) => {
                self.state.stage = Stage::Resting;
                Ok(())
            }
            Err(_) => {
                self.state.stage = Stage::Broken;
                Err(DbFault::DiskFault)
            }
        }
    }

    /// Goes back to the committed map. It answers `Broken` and `DiskFault` besides Ok.
    pub fn abort<D: Disk>(&mut self, disk: &mut D) -> Result<(), DbFault>
        requires within { (session_state self.old).is_broken ≡ false
            → (session_state self.old).in_transaction ≡ true }
        requires tied { Tied self.old (D.state disk.old) }
        ensures abort { Aborts skip_kind
            (over (D.state disk.old) (session_state self.old))
            (over (D.state disk.new) (session_state self.new)) result }
        ensures has_memory { ¬ IsErrOf result NoMemory }
        ensures unharmed { LeavesDisk result disk.old disk.new }
        ensures tied { Tied self.new (D.state disk.new) }
        ensures rest { D.disk_rest disk.old disk.new }
    {
        let Stage::Open { has_changed, .. } = self.state.stage else {
            return Err(DbFault::Broken);
        };
        if !has_changed {
            self.state.stage = Stage::Resting;
            return Ok(());
        }
        match recover(&mut self.image, disk) {
            Ok(()) => {
                self.state = SessionState {
                    count: self.image.header().num_records,
                    stage: Stage::Resting,
                };
                Ok(())
            }
            Err(_) => {
                self.state.stage = Stage::Broken;
                Err(DbFault::DiskFault)
            }
        }
    }
}
