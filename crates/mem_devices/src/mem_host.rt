// A host in memory, around a disk in memory.
ghost use Rattle.std.specs.Prelude.{◌≤◌, vec_len, vec_capacity};

use crate::buffers::{copied, with_room};
use crate::call_log::is_listed;
use crate::memory::MemDisk;
use base_bytes::NoMemory;
use base_devices::{Disk, Failed, Host};
use std::alloc::Global;

/// A disk in memory with what was printed to two streams, which takes all its memory at once and has a list of the
/// prints that are to fail.
///
/// The calls of `tell` count from 1, apart from those of the disk. One fails exactly where its number is on the
/// list, the disk's stop is met, the disk's record has fewer than 64 bytes of room, or its bytes find no room. It
/// takes 64 bytes of the disk's record, also where it is on the list or after the stop, and none where room
/// lacks. A `tell` that failed has printed no byte.
#[derive(Drop)]
pub struct MemHost {
    disk: MemDisk,
    told: Vec<u8>,
    warned: Vec<u8>,
    is_cut: bool,
    tell_fails: Vec<u64>,
    prints: u64,
    tell_faults: u64,
    room: u64,
    ghost told_fits: { vec_len told ≤ room },
    ghost told_room: { room ≤ vec_capacity told },
    ghost warned_fits: { vec_len warned ≤ room },
    ghost warned_room: { room ≤ vec_capacity warned },
}

impl MemHost {
    ghost use Rattle.std.specs.Prelude.{◌≡◌, [], Some, IfOk, IfSome};
    ghost use Rattle.mem_devices.specs.MemHost.{disk_of, host_streams, warned_kept, tell_fail_list, next_print, stream_room};

    /// A host around this disk, which has printed nothing. It has room for so many bytes of each stream, and the
    /// calls of `tell` with the numbers `tell_fails` are to fail.
    pub fn new(
        alloc: Global,
        disk: MemDisk,
        room: u64,
        tell_fails: &[u64],
    ) -> Result<MemHost, NoMemory>
        ensures disk { IfOk result (λ h. disk_of h ≡ disk) }
        ensures told { IfOk result (λ h. (host_streams h).told ≡ Some []) }
        ensures warned { IfOk result (λ h. (host_streams h).warned ≡ Some []) }
        ensures tell_faults { IfOk result (λ h. (host_streams h).tell_faults ≡ 0) }
        ensures fails { IfOk result (λ h. tell_fail_list h ≡ tell_fails.now) }
        ensures next { IfOk result (λ h. next_print h ≡ 1) }
        ensures room { IfOk result (λ h. stream_room h ≡ room) }
    {
        let told = with_room(alloc, room)?;
        let warned = with_room(alloc, room)?;
        let tell_fails = copied(alloc, tell_fails)?;
        Ok(MemHost {
            disk,
            told,
            warned,
            is_cut: false,
            tell_fails,
            prints: 0,
            tell_faults: 0,
            room,
        })
    }

    /// The bytes printed to standard output so far.
    pub fn told(&self) -> &[u8]
        ensures { (host_streams self.now).told ≡ Some result.now }
    {
        &self.told
    }

    /// The bytes printed to standard error so far, as far as there was room for them.
    pub fn warned(&self) -> &[u8]
        ensures kept { result.now ≡ warned_kept self.now }
        ensures whole { IfSome (host_streams self.now).warned (λ warned. result.now ≡ warned) }
    {
        &self.warned
    }

    /// The disk in the host.
    pub fn disk(&self) -> &MemDisk
        ensures { result.now ≡ disk_of self.now }
    {
        &self.disk
    }
}

impl Disk for MemHost {
    ghost use Rattle.std.specs.Option.{option_map};
    ghost use Rattle.std.specs.Prelude.{◌≡◌, ◌↔◌, ◌+◌, ◌<◌, ◌^◌, ◌-◌, ℕ, min, length, take, drop, List, Some, None, IsSome, IsErr, IfOk, OnOk, OnErr};
    ghost use Rattle.base_devices.specs.Causes.{HasCause};
    ghost use Rattle.base_devices.specs.CrashImages.{Shows, Reads, IsAbsent, WhereRead};
    ghost use Rattle.base_devices.specs.Frames.{KeepsMain};
    ghost use Rattle.base_devices.specs.DiskCalls.{DiskCall, IsLength, HasByteAt, HasOffset, begun, appended, synced, IsWhole, Writes, Cuts, Syncs, Publishes};
    ghost use Rattle.mem_devices.specs.Landings.{line_count_of};
    ghost use Rattle.mem_devices.specs.Memory.{mem_moment, record_spare, CannotServe, CannotLand, CannotWrite, HasLandingRoom, HasWriteRoom, CountsCall, MakesLandings, WritePends, CutPends, PublishPends};
    ghost use Rattle.mem_devices.specs.MemHost.{disk_of, host_state, HostDiskRest, host_disk_same, host_disk_then};

    ghost state = { host_state };

    ghost disk_rest = { HostDiskRest };

    ghost is_moment = { λ h. mem_moment (disk_of h) };

    ghost rest_same = { host_disk_same };

    ghost rest_then = { host_disk_then };

    ghost rest_goes_on = { λ a b rest. rest.host.disk.time };

    fn length(&mut self) -> Result<Option<u64>, Failed>
        ensures length { IfOk result (λ length. WhereRead (host_state self.old) (λ main.
            IsLength main length)) }
        ensures exactly { IsErr result ↔ CannotServe (disk_of self.old) 0 }
        ensures counts { CountsCall (disk_of self.old) (disk_of self.new) Unit 0 }
        ensures main { KeepsMain (host_state self.old) (host_state self.new) }
        ensures fresh { (host_state self.new).fresh ≡ (host_state self.old).fresh }
        ensures call { DiskCall (host_state self.old) (host_state self.new) }
        ensures cause { HasCause (host_state self.old).faults (host_state self.new).faults result }
        ensures rest { HostDiskRest self.old self.new }
    {
        self.disk.length()
    }

    fn read_at(&mut self, at: u64, into: &mut [u8]) -> Result<usize, Failed>
        requires { Shows (host_state self.old) → HasByteAt (host_state self.old).reads at }
        ensures bytes { IfOk result (λ count. (b : List ℕ) → Reads (host_state self.old) b
            → take count into.new ≡ take count (drop at b)) }
        ensures bound { IfOk result (λ count. (count ≤ length into.new)
            × (0 < length into.new → 0 < count)) }
        ensures exactly { IsErr result ↔ CannotServe (disk_of self.old) 0 }
        ensures counts { CountsCall (disk_of self.old) (disk_of self.new) Unit 0 }
        ensures main { KeepsMain (host_state self.old) (host_state self.new) }
        ensures fresh { (host_state self.new).fresh ≡ (host_state self.old).fresh }
        ensures call { DiskCall (host_state self.old) (host_state self.new) }
        ensures cause { HasCause (host_state self.old).faults (host_state self.new).faults result }
        ensures rest { HostDiskRest self.old self.new }
    {
        self.disk.read_at(at, into)
    }

    fn write_at(&mut self, at: u64, bytes: &[u8]) -> Result<(), Failed>
        requires { Shows (host_state self.old) → HasOffset (host_state self.old).reads at }
        ensures write { Writes at bytes.now (host_state self.old) (host_state self.new) result }
        ensures pends { OnErr result
            (WritePends (disk_of self.old) (disk_of self.new) at bytes.now) }
        ensures exactly { IsErr result ↔ CannotWrite (disk_of self.old) at (length bytes.now) }
        ensures counts { let room = HasWriteRoom (disk_of self.old) at (length bytes.now) in
            CountsCall (disk_of self.old) (disk_of self.new) room (64 + length bytes.now) }
        ensures written { let sum = (host_state self.old).written + length bytes.now in
            (host_state self.new).written ≡ min sum (2 ^ 64 - 1) }
        ensures landings { let size = length bytes.now in
            let room = HasWriteRoom (disk_of self.old) at size in
            MakesLandings (disk_of self.old) (disk_of self.new) room (line_count_of at size) }
        ensures call { DiskCall (host_state self.old) (host_state self.new) }
        ensures cause { HasCause (host_state self.old).faults (host_state self.new).faults result }
        ensures rest { HostDiskRest self.old self.new }
    {
        self.disk.write_at(at, bytes)
    }

    fn cut(&mut self, length: u64) -> Result<(), Failed>
        requires { Shows (host_state self.old) → HasOffset (host_state self.old).reads length }
        ensures cut { Cuts length (host_state self.old) (host_state self.new) result }
        ensures pends { OnErr result (CutPends (disk_of self.old) (disk_of self.new) length) }
        ensures exactly { IsErr result ↔ CannotLand (disk_of self.old) }
        ensures counts { let room = HasLandingRoom (disk_of self.old) in
            CountsCall (disk_of self.old) (disk_of self.new) room 64 }
        ensures landings { let room = HasLandingRoom (disk_of self.old) in
            MakesLandings (disk_of self.old) (disk_of self.new) room 1 }
        ensures call { DiskCall (host_state self.old) (host_state self.new) }
        ensures cause { HasCause (host_state self.old).faults (host_state self.new).faults result }
        ensures rest { HostDiskRest self.old self.new }
    {
        self.disk.cut(length)
    }

    fn sync(&mut self) -> Result<(), Failed>
        requires { ¬ IsAbsent (host_state self.old) }
        ensures sync { Syncs (host_state self.old) (host_state self.new) result }
        ensures failed { OnErr result (KeepsMain (host_state self.old) (host_state self.new)) }
        ensures exactly { IsErr result ↔ CannotServe (disk_of self.old) 64 }
        ensures counts { let room = 64 ≤ record_spare (disk_of self.old) in
            CountsCall (disk_of self.old) (disk_of self.new) room 64 }
        ensures call { DiskCall (host_state self.old) (host_state self.new) }
        ensures cause { HasCause (host_state self.old).faults (host_state self.new).faults result }
        ensures rest { HostDiskRest self.old self.new }
    {
        self.disk.sync()
    }

    fn new_start(&mut self) -> Result<(), Failed>
        ensures started { OnOk result ((host_state self.new).fresh ≡ Some begun) }
        ensures failed { OnErr result ((host_state self.new).fresh ≡ None) }
        ensures exactly { IsErr result ↔ CannotServe (disk_of self.old) 64 }
        ensures counts { let room = 64 ≤ record_spare (disk_of self.old) in
            CountsCall (disk_of self.old) (disk_of self.new) room 64 }
        ensures main { KeepsMain (host_state self.old) (host_state self.new) }
        ensures call { DiskCall (host_state self.old) (host_state self.new) }
        ensures cause { HasCause (host_state self.old).faults (host_state self.new).faults result }
        ensures rest { HostDiskRest self.old self.new }
    {
        self.disk.new_start()
    }

    fn new_write(&mut self, bytes: &[u8]) -> Result<(), Failed>
        requires { Shows (host_state self.old) → IsSome (host_state self.old).fresh }
        ensures written { OnOk result ((host_state self.new).fresh
            ≡ option_map (λ f. appended f bytes.now) (host_state self.old).fresh) }
        ensures failed { OnErr result ((host_state self.new).fresh ≡ None) }
        ensures exactly { IsErr result ↔ CannotServe (disk_of self.old) (64 + length bytes.now) }
        ensures counts { let cost = 64 + length bytes.now in
            CountsCall (disk_of self.old) (disk_of self.new) (cost ≤ record_spare (disk_of self.old)) cost }
        ensures main { KeepsMain (host_state self.old) (host_state self.new) }
        ensures call { DiskCall (host_state self.old) (host_state self.new) }
        ensures cause { HasCause (host_state self.old).faults (host_state self.new).faults result }
        ensures rest { HostDiskRest self.old self.new }
    {
        self.disk.new_write(bytes)
    }

    fn new_sync(&mut self) -> Result<(), Failed>
        requires { Shows (host_state self.old) → IsSome (host_state self.old).fresh }
        ensures synced { OnOk result ((host_state self.new).fresh
            ≡ option_map synced (host_state self.old).fresh) }
        ensures failed { OnErr result ((host_state self.new).fresh ≡ None) }
        ensures exactly { IsErr result ↔ CannotServe (disk_of self.old) 64 }
        ensures counts { let room = 64 ≤ record_spare (disk_of self.old) in
            CountsCall (disk_of self.old) (disk_of self.new) room 64 }
        ensures main { KeepsMain (host_state self.old) (host_state self.new) }
        ensures call { DiskCall (host_state self.old) (host_state self.new) }
        ensures cause { HasCause (host_state self.old).faults (host_state self.new).faults result }
        ensures rest { HostDiskRest self.old self.new }
    {
        self.disk.new_sync()
    }

    fn publish(&mut self) -> Result<(), Failed>
        requires { Shows (host_state self.old) → IsWhole (host_state self.old).fresh }
        ensures publish { Publishes (host_state self.old) (host_state self.new) result }
        ensures pends { OnErr result (PublishPends (disk_of self.old) (disk_of self.new)) }
        ensures exactly { IsErr result ↔ CannotLand (disk_of self.old) }
        ensures counts { let room = HasLandingRoom (disk_of self.old) in
            CountsCall (disk_of self.old) (disk_of self.new) room 64 }
        ensures publishes { let next = (host_state self.old).publishes + 1 in
            (host_state self.new).publishes ≡ min next (2 ^ 64 - 1) }
        ensures landings { let room = HasLandingRoom (disk_of self.old) in
            MakesLandings (disk_of self.old) (disk_of self.new) room 1 }
        ensures call { DiskCall (host_state self.old) (host_state self.new) }
        ensures cause { HasCause (host_state self.old).faults (host_state self.new).faults result }
        ensures rest { HostDiskRest self.old self.new }
    {
        self.disk.publish()
    }
}

impl Host for MemHost {
    ghost use Rattle.std.specs.Prelude.{◌≡◌, ◌⊎◌, ◌↔◌, ◌-◌, ◌<◌, ◌++◌, None, IsErr, IsNone, OnOk, OnErr, length, take};
    ghost use Rattle.base_devices.specs.Causes.{HasCause};
    ghost use Rattle.base_devices.specs.Frames.{SameDisk, KeepsFiles};
    ghost use Rattle.base_devices.specs.HostCalls.{MovesMark, told_with};
    ghost use Rattle.mem_devices.specs.MemHost.{disk_of, host_state, host_streams, warned_kept, warning_spare, next_print, CannotPrint, CountsPrint, HostRest, host_rest_same, host_rest_then};

    ghost streams = { host_streams };

    ghost host_rest = { HostRest };

    ghost disk_keeps = { λ a b rest. rest.streams };

    ghost disk_rests = { λ a b rest. rest.host };

    ghost host_same = { host_rest_same };

    ghost host_then = { host_rest_then };

    ghost host_goes_on = { λ a b rest. rest.disk.time };

    fn tell(&mut self, bytes: &[u8]) -> Result<(), Failed>
        ensures told { OnOk result ((host_streams self.new).told
            ≡ told_with (host_streams self.old).told bytes.now) }
        ensures failed { OnErr result ((host_streams self.new).told
            ≡ (host_streams self.old).told) }
        ensures exactly { IsErr result ↔ CannotPrint self.old (length bytes.now) }
        ensures counts { CountsPrint self.old self.new (length bytes.now) }
        ensures prefix { let printed = (host_state self.new).mark - (host_state self.old).mark in
            OnErr result ((host_streams self.new).told
            ≡ told_with (host_streams self.old).told (take printed bytes.now)) }
        ensures warned { (host_streams self.new).warned ≡ (host_streams self.old).warned }
        ensures kept { warned_kept self.new ≡ warned_kept self.old }
        ensures mark { MovesMark (host_streams self.old).told (host_state self.old)
            (host_state self.new) bytes.now result }
        ensures disk { KeepsFiles (host_state self.old) (host_state self.new) }
        ensures cause { HasCause (host_state self.old).faults (host_state self.new).faults result }
        ensures tell_cause { HasCause (host_streams self.old).tell_faults
            (host_streams self.new).tell_faults result }
        ensures rest { HostRest self.old self.new }
    {
        self.prints = self.prints.saturating_add(1);
        let is_listed = is_listed(&self.tell_fails, self.prints);
        if self.room as usize - self.told.len() < bytes.len() {
            let _ = self.disk.refuse_print();
            self.tell_faults = self.tell_faults.saturating_add(1);
            return Err(Failed);
        }
        if self.disk.note_print(bytes.len() as u64, is_listed).is_err() {
            self.tell_faults = self.tell_faults.saturating_add(1);
            return Err(Failed);
        }
        let _ = self.told.extend_from_slice(bytes);
        Ok(())
    }

    fn warn(&mut self, bytes: &[u8])
        ensures exactly { IsNone (host_streams self.new).warned
            ↔ (IsNone (host_streams self.old).warned
            ⊎ (warning_spare self.old < length bytes.now)) }
        ensures kept { warned_kept self.new
            ≡ warned_kept self.old ++ take (warning_spare self.old) bytes.now }
        ensures whole { disk_of self.new ≡ disk_of self.old }
        ensures next { next_print self.new ≡ next_print self.old }
        ensures warned { ((host_streams self.new).warned
            ≡ told_with (host_streams self.old).warned bytes.now)
            ⊎ ((host_streams self.new).warned ≡ None) }
        ensures told { (host_streams self.new).told ≡ (host_streams self.old).told }
        ensures tell_faults { (host_streams self.new).tell_faults
            ≡ (host_streams self.old).tell_faults }
        ensures disk { SameDisk (host_state self.old) (host_state self.new) }
        ensures rest { HostRest self.old self.new }
    {
        let spare = self.room as usize - self.warned.len();
        if spare < bytes.len() {
            self.is_cut = true;
            let _ = self.warned.extend_from_slice(&bytes[..spare]);
        } else {
            let _ = self.warned.extend_from_slice(bytes);
        }
    }
}
