// A session over a disk.
ghost use Rattle.std.specs.Prelude.{◌≡◌, ℕ, true, false, IsErrOf, OnOk, IfOk, is_some, length};
ghost use Rattle.std.specs.Option.{option_copied};
ghost use Rattle.base_bytes.specs.OrderedMap.{Map, IsDbMap, value_at, first_from, first_above, pairs_from};
ghost use Rattle.base_bytes.specs.declared.change.Change.TheVariants.{Put, Del};
ghost use Rattle.base_devices.specs.CrashImages.{Image, LeavesSame};
ghost use Rattle.db_core.specs.Calls.{MakesChange, Commits, Aborts, StepsOver};
ghost use Rattle.db_core.specs.Refusals.{Answers, LeavesDisk, pair_of, broken_refusal};
ghost use Rattle.db_core.specs.Sessions.{DbKind, DbState, over, begun, aborted};
ghost use Rattle.db_core.specs.declared.fault.DbFault.TheVariants.{NoMemory, DiskFault};

use crate::{Cursor, DbFault, Step};
use base_bytes::Pair;
use base_devices::Disk;

/// An open database over a disk: an ordered map that is seen, and a committed one.
///
/// The map seen is changed within a transaction, which ends by `commit` or by `abort`. Wherever the disk stops, a
/// crash leaves a file of the committed map, or within `commit` of that or the map seen. After a fault of the disk
/// the session is broken: each later call that can be refused answers `Broken`, and the database is to be opened
/// again. No read takes memory; `begin`, `store` and `delete` may run out of it, and `commit` and `abort` cannot.
///
/// A refusal is answered exactly where its sentence holds, in the order of `DbFault`, and leaves session and disk
/// as before. `docs/guarantees.md` says what a backend promises.
pub trait Db<D: Disk> {
    // What the backend makes of files and sizes.
    ghost kind: { DbKind };

    // The session's maps, loads and flags.
    ghost state: { Self → DbState };

    // The session stands for what is on the disk. Of a broken session it says nothing.
    ghost tie: { Self → D → Type 0 };

    // At this place of a walk over the map seen these pairs are left.
    ghost walks: { Self → ℕ → Map → Type 0 };

    /// Whether a transaction is open. In a broken session none is.
    fn in_transaction(&self) -> bool
        ensures { result ≡ (state self.now).in_transaction };

    /// Whether an earlier call met a fault of the disk.
    fn broken(&self) -> bool
        ensures { result ≡ (state self.now).is_broken };

    /// How many pairs the map seen has. The keys of both maps rise strictly, and none is empty.
    fn count(&self) -> u64
        requires { (state self.now).is_broken ≡ false }
        ensures count { result ≡ length (state self.now).seen }
        ensures seen { IsDbMap (state self.now).seen }
        ensures committed { IsDbMap (state self.now).committed };

    /// The value of the key in the map seen.
    fn fetch(&self, key: &[u8]) -> Option<&[u8]>
        requires { (state self.now).is_broken ≡ false }
        ensures { option_copied result ≡ value_at (state self.now).seen key.now };

    /// The first pair of the map seen whose key is not below this one.
    fn at_least(&self, key: &[u8]) -> Option<Pair<'_>>
        requires { (state self.now).is_broken ≡ false }
        ensures { pair_of result ≡ first_from (state self.now).seen key.now };

    /// The first pair of the map seen whose key is above this one.
    fn after(&self, key: &[u8]) -> Option<Pair<'_>>
        requires { (state self.now).is_broken ≡ false }
        ensures { pair_of result ≡ first_above (state self.now).seen key.now };

    /// Begins a walk: the place of the first pair of the map seen whose key is not below this one.
    fn walk_from(&self, key: &[u8]) -> Cursor
        requires { (state self.now).is_broken ≡ false }
        ensures { walks self.now result.place (pairs_from (state self.now).seen key.now) };

    /// The pair at a place of a walk, and the next place; None at the end of the map. It does not search.
    fn step(&self, cursor: Cursor) -> Option<Step<'_>>
        requires sound { (state self.now).is_broken ≡ false }
        requires at { (left : Map) × walks self.now cursor.place left }
        ensures { (left : Map) → walks self.now cursor.place left
            → StepsOver (walks self.now) left result };

    /// Begins a transaction. It answers `Broken` and `NoMemory` besides Ok.
    fn begin(&mut self) -> Result<(), DbFault>
        requires { (state self.old).is_broken ≡ false → (state self.old).in_transaction ≡ false }
        ensures answer { let s = state self.old in
            Answers (broken_refusal s) s (state self.new) (begun s) result }
        ensures no_fault { ¬ IsErrOf result DiskFault }
        ensures tied { (d : D) → tie self.old d → tie self.new d };

    /// Puts the pair into the map seen. All faults are possible answers. The word chooses how the backend lays
    /// the pair down, where that is open.
    fn store(&mut self, disk: &mut D, word: u32, key: &[u8], value: &[u8]) -> Result<(), DbFault>
        requires within { (state self.old).is_broken ≡ false
            → (state self.old).in_transaction ≡ true }
        requires tied { tie self.old disk.old }
        ensures change { MakesChange kind (Put word key.now value.now)
            (over (D.state disk.old) (state self.old))
            (over (D.state disk.new) (state self.new)) result }
        ensures unharmed { LeavesDisk result disk.old disk.new }
        ensures idle { kind.works_in_place ≡ false → disk.new ≡ disk.old }
        ensures tied { tie self.new disk.new }
        ensures rest { D.disk_rest disk.old disk.new };

    /// Takes the key out of the map seen, and answers whether it was there. One that is not there, of whatever
    /// length, changes and writes nothing. It answers `Broken`, `Full`, `NoMemory` and `DiskFault` besides Ok;
    /// `Full` only where the key is there.
    fn delete(&mut self, disk: &mut D, key: &[u8]) -> Result<bool, DbFault>
        requires within { (state self.old).is_broken ≡ false
            → (state self.old).in_transaction ≡ true }
        requires tied { tie self.old disk.old }
        ensures was_there { IfOk result
            (λ was. was ≡ is_some (value_at (state self.old).seen key.now)) }
        ensures change { MakesChange kind (Del key.now)
            (over (D.state disk.old) (state self.old))
            (over (D.state disk.new) (state self.new)) result }
        ensures unharmed { LeavesDisk result disk.old disk.new }
        ensures untouched { IfOk result (λ was. was ≡ false → disk.new ≡ disk.old) }
        ensures idle { kind.works_in_place ≡ false → disk.new ≡ disk.old }
        ensures tied { tie self.new disk.new }
        ensures rest { D.disk_rest disk.old disk.new };

    /// Makes the map seen the committed one. A crash within leaves one of the two, and after Ok only the map seen.
    /// A transaction that changed nothing writes nothing. It answers `Broken` and `DiskFault` besides Ok.
    fn commit(&mut self, disk: &mut D) -> Result<(), DbFault>
        requires within { (state self.old).is_broken ≡ false
            → (state self.old).in_transaction ≡ true }
        requires tied { tie self.old disk.old }
        ensures commit { Commits kind
            (over (D.state disk.old) (state self.old))
            (over (D.state disk.new) (state self.new)) result }
        ensures has_memory { ¬ IsErrOf result NoMemory }
        ensures unharmed { LeavesDisk result disk.old disk.new }
        ensures untouched { (state self.old).has_changed ≡ false
            → OnOk result (disk.new ≡ disk.old) }
        ensures tied { tie self.new disk.new }
        ensures rest { D.disk_rest disk.old disk.new };

    /// Goes back to the committed map. It answers `Broken` and `DiskFault` besides Ok.
    fn abort(&mut self, disk: &mut D) -> Result<(), DbFault>
        requires within { (state self.old).is_broken ≡ false
            → (state self.old).in_transaction ≡ true }
        requires tied { tie self.old disk.old }
        ensures abort { Aborts kind
            (over (D.state disk.old) (state self.old))
            (over (D.state disk.new) (state self.new)) result }
        ensures has_memory { ¬ IsErrOf result NoMemory }
        ensures unharmed { LeavesDisk result disk.old disk.new }
        ensures idle { kind.works_in_place ≡ false → disk.new ≡ disk.old }
        ensures tied { tie self.new disk.new }
        ensures rest { D.disk_rest disk.old disk.new };

    // The tie rests on what the disk reads and may leave.
    ghost tie_rests: { (b : Self) (old new : D) → (D.state new).reads ≡ (D.state old).reads
        → LeavesSame (D.state old) (D.state new) → tie b old → tie b new };

    // Each image that may be left opens to the committed map.
    ghost tie_opens: { (b : Self) (d : D) → (state b).is_broken ≡ false → tie b d
        → (c : Image) → (D.state d).leaves c → kind.opens c (state b).committed };

    // A broken session is tied to every disk: nothing is asked of it.
    ghost broken_tied: { (b : Self) (d : D) → (state b).is_broken ≡ true → tie b d };

    // Outside a transaction both maps and both loads are the same.
    ghost outside: { (b : Self) → (state b).is_broken ≡ false → (state b).in_transaction ≡ false
        → aborted (state b) ≡ state b };

    // No transaction is open in a broken session.
    ghost broken_outside: { (b : Self) → (state b).is_broken ≡ true
        → (state b).in_transaction ≡ false };
}
