// An index is rebuilt.
ghost use Rattle.std.specs.Prelude.{◌≡◌, ◌⊎◌, true, false, IfErr, IfOk, OnErr, OnOk};
ghost use Rattle.base_devices.specs.Causes.{FaultHasCause};
ghost use Rattle.base_devices.specs.CrashImages.{IsDurable};
ghost use Rattle.base_devices.specs.Frames.{KeepsFile, LeavesBetween};
ghost use Rattle.base_devices.specs.HostCalls.{moment};
ghost use Rattle.base_devices.specs.SpoolCalls.{GaveNoName, shown_files};
ghost use Rattle.mail_rebuild.specs.OldFile.{IsDiskFault};
ghost use Rattle.mail_rebuild.specs.Rebuilds.{IsEarly, IsHostFault, IsWriteFault, LimitIsPassed, MayBeNew, NoLimitIsPassed, PrintsSome, Rebuilds, WhereShown};
ghost use Rattle.mail_rebuild.specs.Taking.{IsSpoolFault};

use crate::planning::prepare;
use crate::replacing::replace;
use crate::{RebuildFault, Tally};
use base_devices::{Host, Spool};
use base_notes::Options;
use std::alloc::Global;

/// Rebuilds the index of a folder from its messages and from what can be kept of the old index, which is the host's main
/// file, and prints what it found. `now` is the time in seconds since 1970.
///
/// It lists the folder, reads the old index, scans the messages by rising uid, prints the report and, unless the options
/// say to change nothing, puts the new index in the old one's place. A damaged or absent old index is no refusal.
pub fn rebuild<H: Host, S: Spool>(
    alloc: Global,
    host: &mut H,
    spool: &mut S,
    now: u64,
    options: &Options,
) -> Result<Tally, RebuildFault>
    requires { GaveNoName (S.state spool.old) }

    // The report is printed, and the new index is read and durable.
    ensures rebuilt { IfOk result (λ tally.
        WhereShown (S.state spool.old) (H.state host.old) now options.now (λ task.
        Rebuilds task (moment (H.state host.old) (H.streams host.old))
        (moment (H.state host.new) (H.streams host.new)) tally)) }
    ensures durable { options.now.dry ≡ false → OnOk result (IsDurable (H.state host.new)) }

    // Wherever it stops, the index is one that could be left before, or the whole new one.
    ensures any_moment { LeavesBetween (H.state host.old) (H.state host.new) (λ c.
        (H.state host.old).leaves c ⊎ WhereShown (S.state spool.old) (H.state host.old)
        now options.now (MayBeNew c)) }
    ensures dry { options.now.dry ≡ true → KeepsFile (H.state host.old) (H.state host.new) }
    ensures dry_reads { options.now.dry ≡ true →
        OnOk result ((H.state host.new).reads ≡ (H.state host.old).reads) }
    ensures refused { IfErr result (λ fault. IsDiskFault fault
        ⊎ KeepsFile (H.state host.old) (H.state host.new)) }

    // What a refusal has printed.
    ensures silent { IfErr result (λ fault. IsEarly fault →
        H.streams host.new ≡ H.streams host.old) }
    ensures prefix { OnErr result
        (WhereShown (S.state spool.old) (H.state host.old) now options.now (λ task.
        PrintsSome task (moment (H.state host.old) (H.streams host.old))
        (moment (H.state host.new) (H.streams host.new)))) }

    // Why it may be refused, and that it is where a limit is passed.
    ensures limit { IfErr result (λ fault.
        WhereShown (S.state spool.old) (H.state host.old) now options.now (LimitIsPassed fault)) }
    ensures no_limit { IfOk result (λ _.
        WhereShown (S.state spool.old) (H.state host.old) now options.now NoLimitIsPassed) }
    ensures spool_cause { FaultHasCause IsSpoolFault (S.state spool.old).faults
        (S.state spool.new).faults result }
    ensures host_cause { FaultHasCause IsHostFault (H.state host.old).faults
        (H.state host.new).faults result }
    ensures print_cause { FaultHasCause IsWriteFault (H.streams host.old).tell_faults
        (H.streams host.new).tell_faults result }

    // What stays.
    ensures files { shown_files (S.state spool.new) ≡ shown_files (S.state spool.old) }
    ensures warned { (H.streams host.new).warned ≡ (H.streams host.old).warned }
    ensures spool_rest { S.spool_rest spool.old spool.new }
    ensures host_rest { H.host_rest host.old host.new }
{
    let plan = prepare(alloc, host, spool, now, options)?;
    let Ok(()) = host.tell(&plan.text) else {
        return Err(RebuildFault::WriteFault);
    };
    if options.dry {
        return Ok(plan.tally);
    }
    match replace(host, &plan.header, &plan.records) {
        Ok(()) => Ok(plan.tally),
        Err(_) => Err(RebuildFault::DiskFault),
    }
}
