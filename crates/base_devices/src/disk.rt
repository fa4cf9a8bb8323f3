// A disk: a main file, which may be absent, and a new file beside it.
ghost use Rattle.std.specs.Prelude.{◌≡◌, ◌<◌, ◌≤◌, ℕ, List, Option, Some, None, IsSome, IfOk, OnOk, OnErr, length, take, drop};
ghost use Rattle.std.specs.Option.{option_map};
ghost use Rattle.base_devices.specs.Causes.{HasCause};
ghost use Rattle.base_devices.specs.CrashImages.{Image, DiskState, Shows, Reads, IsAbsent, WhereRead, IsMoment, GoesOn};
ghost use Rattle.base_devices.specs.Frames.{KeepsMain};
ghost use Rattle.base_devices.specs.DiskCalls.{DiskCall, IsLength, HasByteAt, HasOffset, begun, appended, synced, IsWhole, Writes, Cuts, Syncs, Publishes};

/// The device failed.
#[derive(Clone, Copy, Debug, PartialEq, Eq)]
pub struct Failed;

/// One database: a main file, which may be absent, and a new file beside it that can take its place.
///
/// A device in memory shows its contents to contracts, and a real one does not. Where they are shown, each call
/// has the condition that is written at it. `docs/devices.md` has the model in words.
pub trait Disk {
    /// What the disk reads, may leave and counts.
    ghost state: { Self → DiskState };

    /// What every step keeps of a device besides, from a state to a later one.
    ghost disk_rest: { Self → Self → Type 0 };

    /// The length of the main file in bytes, or None where it is absent.
    fn length(&mut self) -> Result<Option<u64>, Failed>
        ensures length { IfOk result (λ length. WhereRead (state self.old) (λ main. IsLength main length)) }
        ensures main { KeepsMain (state self.old) (state self.new) }
        ensures fresh { (state self.new).fresh ≡ (state self.old).fresh }
        ensures call { DiskCall (state self.old) (state self.new) }
        ensures cause { HasCause (state self.old).faults (state self.new).faults result }
        ensures rest { disk_rest self.old self.new };

    /// Some of the bytes from the offset `at` on. At least one is read, unless `into` is empty.
    fn read_at(&mut self, at: u64, into: &mut [u8]) -> Result<usize, Failed>
        requires { Shows (state self.old) → HasByteAt (state self.old).reads at }
        ensures bytes { IfOk result (λ count. (b : List ℕ) → Reads (state self.old) b
            → take count into.new ≡ take count (drop at b)) }
        ensures bound { IfOk result (λ count. (count ≤ length into.new)
            × (0 < length into.new → 0 < count)) }
        ensures main { KeepsMain (state self.old) (state self.new) }
        ensures fresh { (state self.new).fresh ≡ (state self.old).fresh }
        ensures call { DiskCall (state self.old) (state self.new) }
        ensures cause { HasCause (state self.old).faults (state self.new).faults result }
        ensures rest { disk_rest self.old self.new };

    /// Writes bytes into the main file from the offset `at` on, which is in it or at its end. They land line by
    /// line: a crash leaves each aligned 64-byte line as it was or as it is written, whole, and after a failure
    /// the file reads so too.
    fn write_at(&mut self, at: u64, bytes: &[u8]) -> Result<(), Failed>
        requires { Shows (state self.old) → HasOffset (state self.old).reads at }
        ensures write { Writes at bytes.now (state self.old) (state self.new) result }
        ensures call { DiskCall (state self.old) (state self.new) }
        ensures cause { HasCause (state self.old).faults (state self.new).faults result }
        ensures rest { disk_rest self.old self.new };

    /// Cuts the main file to its first bytes, so many. A crash leaves some first bytes, so many at least.
    fn cut(&mut self, length: u64) -> Result<(), Failed>
        requires { Shows (state self.old) → HasOffset (state self.old).reads length }
        ensures cut { Cuts length (state self.old) (state self.new) result }
        ensures call { DiskCall (state self.old) (state self.new) }
        ensures cause { HasCause (state self.old).faults (state self.new).faults result }
        ensures rest { disk_rest self.old self.new };

    /// After Ok the main file and its name are on the disk: a crash leaves what is read, and nothing else.
    fn sync(&mut self) -> Result<(), Failed>
        requires { ¬ IsAbsent (state self.old) }
        ensures sync { Syncs (state self.old) (state self.new) result }
        ensures call { DiskCall (state self.old) (state self.new) }
        ensures cause { HasCause (state self.old).faults (state self.new).faults result }
        ensures rest { disk_rest self.old self.new };

    /// Begins a new file, and empties an older one. After a failed call on the new file only this may follow on it.
    fn new_start(&mut self) -> Result<(), Failed>
        ensures started { OnOk result (Shows (state self.old) → (state self.new).fresh ≡ Some begun) }
        ensures failed { OnErr result ((state self.new).fresh ≡ None) }
        ensures main { KeepsMain (state self.old) (state self.new) }
        ensures call { DiskCall (state self.old) (state self.new) }
        ensures cause { HasCause (state self.old).faults (state self.new).faults result }
        ensures rest { disk_rest self.old self.new };

    /// Adds bytes at the end of the new file.
    fn new_write(&mut self, bytes: &[u8]) -> Result<(), Failed>
        requires { Shows (state self.old) → IsSome (state self.old).fresh }
        ensures written { OnOk result ((state self.new).fresh
            ≡ option_map (λ f. appended f bytes.now) (state self.old).fresh) }
        ensures failed { OnErr result ((state self.new).fresh ≡ None) }
        ensures main { KeepsMain (state self.old) (state self.new) }
        ensures call { DiskCall (state self.old) (state self.new) }
        ensures cause { HasCause (state self.old).faults (state self.new).faults result }
        ensures rest { disk_rest self.old self.new };

    /// Puts the new file's bytes on the disk.
    fn new_sync(&mut self) -> Result<(), Failed>
        requires { Shows (state self.old) → IsSome (state self.old).fresh }
        ensures synced { OnOk result ((state self.new).fresh
            ≡ option_map synced (state self.old).fresh) }
        ensures failed { OnErr result ((state self.new).fresh ≡ None) }
        ensures main { KeepsMain (state self.old) (state self.new) }
        ensures call { DiskCall (state self.old) (state self.new) }
        ensures cause { HasCause (state self.old).faults (state self.new).faults result }
        ensures rest { disk_rest self.old self.new };

    /// Puts the new file, synced and whole, in the place of the main file. Then there is no new file, also after a failure.
    fn publish(&mut self) -> Result<(), Failed>
        requires { Shows (state self.old) → IsWhole (state self.old).fresh }
        ensures publish { Publishes (state self.old) (state self.new) result }
        ensures call { DiskCall (state self.old) (state self.new) }
        ensures cause { HasCause (state self.old).faults (state self.new).faults result }
        ensures rest { disk_rest self.old self.new };

    ghost is_moment: { (d : Self) → IsMoment (state d) };

    ghost rest_same: { (d : Self) → disk_rest d d };

    ghost rest_then: { (a b c : Self) → disk_rest a b → disk_rest b c → disk_rest a c };

    ghost rest_goes_on: { (a b : Self) → disk_rest a b → GoesOn (state a) (state b) };
}
