// A disk, and the two streams that a program prints to.
ghost use Rattle.std.specs.Prelude.{◌≡◌, ◌⊎◌, ◌-◌, None, OnOk, OnErr, take};
ghost use Rattle.base_devices.specs.Causes.{HasCause};
ghost use Rattle.base_devices.specs.CrashImages.{GoesOn};
ghost use Rattle.base_devices.specs.Frames.{SameDisk, KeepsFiles};
ghost use Rattle.base_devices.specs.HostCalls.{HostState, MovesMark, told_with};

use crate::{Disk, Failed};

/// A disk with standard output and standard error. `faults` counts the failures of all its calls.
pub trait Host: Disk {
    /// What was printed, and how often that failed.
    ghost streams: { Self → HostState };

    /// What every step keeps of a host besides, from a state to a later one.
    ghost host_rest: { Self → Self → Type 0 };

    /// Prints to standard output. After a failure a prefix was printed.
    fn tell(&mut self, bytes: &[u8]) -> Result<(), Failed>
        ensures told { OnOk result ((streams self.new).told
            ≡ told_with (streams self.old).told bytes.now) }
        ensures prefix { let printed = (Self.state self.new).mark - (Self.state self.old).mark in
            OnErr result ((streams self.new).told
            ≡ told_with (streams self.old).told (take printed bytes.now)) }
        ensures warned { (streams self.new).warned ≡ (streams self.old).warned }
        ensures mark { MovesMark (streams self.old).told (Self.state self.old) (Self.state self.new)
            bytes.now result }
        ensures disk { KeepsFiles (Self.state self.old) (Self.state self.new) }
        ensures cause { HasCause (Self.state self.old).faults (Self.state self.new).faults result }
        ensures tell_cause { HasCause (streams self.old).tell_faults (streams self.new).tell_faults
            result }
        ensures rest { host_rest self.old self.new };

    /// Prints to standard error. It cannot be refused; a host may cease to tell what was printed there.
    fn warn(&mut self, bytes: &[u8])
        ensures warned { ((streams self.new).warned ≡ told_with (streams self.old).warned bytes.now)
            ⊎ ((streams self.new).warned ≡ None) }
        ensures told { (streams self.new).told ≡ (streams self.old).told }
        ensures tell_faults { (streams self.new).tell_faults ≡ (streams self.old).tell_faults }
        ensures disk { SameDisk (Self.state self.old) (Self.state self.new) }
        ensures rest { host_rest self.old self.new };

    // A call of the disk prints nothing.
    ghost disk_keeps: { (a b : Self) → Self.disk_rest a b → streams b ≡ streams a };

    ghost disk_rests: { (a b : Self) → Self.disk_rest a b → host_rest a b };

    ghost host_same: { (h : Self) → host_rest h h };

    ghost host_then: { (a b c : Self) → host_rest a b → host_rest b c → host_rest a c };

    ghost host_goes_on: { (a b : Self) → host_rest a b → GoesOn (Self.state a) (Self.state b) };
}
