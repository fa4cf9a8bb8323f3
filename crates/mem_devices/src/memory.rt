// A disk in memory. It keeps a record of its calls, which shows its past.
ghost use Rattle.std.specs.Prelude.{◌≡◌, ◌+◌, ◌*◌, ◌≤◌, vec_len, vec_capacity};
ghost use Rattle.mem_devices.specs.CallLog.{log_spare, last_moment};
ghost use Rattle.mem_devices.specs.History.{start_image, image_of, image_size, landing_count};

use crate::buffers::{as_slice, copied, overwrite, with_room};
use crate::call_log::{Admission, CallLog, Event};
use crate::landings::{Landings, first_bytes, line_count};
use crate::replay::Replay;
use base_bytes::NoMemory;
use base_devices::{Disk, Failed};
use std::alloc::Global;
use std::mem;

/// How often something was done to a disk.
#[derive(Clone, Copy, Debug, PartialEq, Eq)]
pub struct Counts {
    /// Calls that failed, the prints of a host around the disk among them.
    pub faults: u64,
    /// Bytes passed to writes into the main file.
    pub written: u64,
    /// Calls of `publish`.
    pub publishes: u64,
}

/// The new file beside the main file.
#[derive(Clone, Copy, Debug, PartialEq, Eq)]
pub enum NewFile {
    /// There is none.
    Absent,
    /// It is not synced.
    Begun,
    /// All of it is synced.
    Whole,
}

/// A disk in memory, which takes all its memory at once and has a list of the calls that are to fail.
///
/// The calls of `Disk` count from 1. A call answers `Failed` exactly where its number is on the list, the
/// stop is met, or there is no room for it. In the record `length` and `read_at` take nothing; every other
/// call takes 64 bytes, and `write_at` and `new_write` their own bytes besides. What is pending takes 64
/// bytes for each line that a `write_at` touches, and for each `cut`; a `publish`, which may fail, needs so
/// much too. A call on the list or after the stop takes its room as any other does; a call without room
/// takes none.
///
/// A landing is one line touched by a `write_at`, one `cut` or one `publish`. A call that fails by the list
/// makes its landings, and one at which the stop comes those before it, but the file reads as before.
#[derive(Drop)]
pub struct MemDisk {
    start: Option<Vec<u8>>,
    main: Vec<u8>,
    has_main: bool,
    new_bytes: Vec<u8>,
    new_file: NewFile,
    log: CallLog,
    landings: Landings,
    written: u64,
    publishes: u64,
    ghost main_is: { image_of has_main main.items ≡ (last_moment start log).reads },
    ghost new_is: { new_bytes.items ≡ (last_moment start log).new_bytes },
    ghost new_fits: { vec_len new_bytes + log_spare log ≤ log.room },
    ghost start_fits: { image_size (start_image start) ≤ log.room },
    ghost made_is: { landings.made ≡ (last_moment start log).landings },
    ghost pending_is: { landings.pending ≡ landing_count (last_moment start log).pending },
    ghost made_fits: { 32 * landings.made + log_spare log ≤ log.room },
    ghost pending_fits: { 64 * landings.pending ≤ log.room },
    ghost main_fits: { vec_len main ≤ log.room },
    ghost main_room: { log.room ≤ vec_capacity main },
    ghost new_room: { log.room ≤ vec_capacity new_bytes },
}

impl MemDisk {
    ghost use Rattle.std.specs.Prelude.{[], Some, IfOk};
    ghost use Rattle.mem_devices.specs.History.{FitsIn, given_image};
    ghost use Rattle.mem_devices.specs.Memory.{mem_state, fail_list, record_room, landings_made, stop_of, IsNewDisk, SameButStop};
    ghost use Rattle.mem_devices.specs.Left.{left_image};

    /// A disk with this main file, all of it synced. It takes `room` bytes for each of its buffers, and
    /// the calls with the numbers `fails` are to fail.
    pub fn new(
        alloc: Global,
        main: Option<&[u8]>,
        room: u64,
        fails: &[u64],
    ) -> Result<MemDisk, NoMemory>
        requires { FitsIn room main }
        ensures disk { IfOk result (λ d. IsNewDisk d (given_image main.entry) room) }
        ensures fails { IfOk result (λ d. fail_list d ≡ fails.now) }
    {
        let log = CallLog::new(alloc, room, fails)?;
        let new_bytes = with_room(alloc, room)?;
        let mut buffer = with_room(alloc, room)?;
        let start = match main {
            Some(bytes) => Some(copied(alloc, bytes)?),
            None => None,
        };
        if let Some(bytes) = &start {
            let _ = buffer.extend_from_slice(bytes);
        }
        Ok(MemDisk {
            has_main: start.is_some(),
            start,
            main: buffer,
            new_bytes,
            new_file: NewFile::Absent,
            log,
            landings: Landings::new(),
            written: 0,
            publishes: 0,
        })
    }

    /// What the main file reads.
    pub fn main(&self) -> Option<&[u8]>
        ensures { Some (given_image result) ≡ (mem_state self.now).reads }
    {
        if self.has_main {
            Some(self.main.as_slice())
        } else {
            None
        }
    }

    /// How many landings were made.
    pub fn landings(&self) -> u64
        ensures { result ≡ landings_made self.now }
    {
        self.landings.made
    }

    /// Once so many landings were made, every later call fails, the prints of a host around the disk included.
    pub fn stop_after(&mut self, landings: u64)
        ensures stop { stop_of self.new ≡ Some landings }
        ensures same { SameButStop self.old self.new }
    {
        self.landings.stop = Some(landings);
    }

    /// The disk that a stop now leaves, where `landed` says of each pending landing, in order, whether it landed; one
    /// that is not listed did not. What a line that did not land would have put past the end of the file is zeros
    /// where a later line landed, and else the file ends before it. A cut that did not land leaves the length.
    ///
    /// The new disk has the same room, no calls that are to fail, and no stop.
    pub fn left(&self, alloc: Global, landed: &[bool]) -> Result<MemDisk, NoMemory>
        ensures possible { (mem_state self.now).leaves (left_image self.now landed.now) }
        ensures disk { IfOk result (λ d. IsNewDisk d (left_image self.now landed.now)
            (record_room self.now)) }
        ensures fails { IfOk result (λ d. fail_list d ≡ []) }
    {
        let replay = Replay::of_log(alloc, as_slice(&self.start), &self.log, landed)?;
        MemDisk::new(alloc, replay.left(), self.log.room(), &[])
    }

    /// The counts of the disk.
    pub fn counts(&self) -> Counts
        ensures faults { result.faults ≡ (mem_state self.now).faults }
        ensures written { result.written ≡ (mem_state self.now).written }
        ensures publishes { result.publishes ≡ (mem_state self.now).publishes }
    {
        Counts {
            faults: self.log.faults(),
            written: self.written,
            publishes: self.publishes,
        }
    }
}

impl Disk for MemDisk {
    ghost use Rattle.std.specs.Option.{option_map};
    ghost use Rattle.std.specs.Prelude.{◌↔◌, ◌<◌, ◌^◌, ◌-◌, ℕ, min, length, take, drop, List, Some, None, IsSome, IsErr, IfOk, OnOk, OnErr};
    ghost use Rattle.base_devices.specs.Causes.{HasCause};
    ghost use Rattle.base_devices.specs.CrashImages.{Shows, Reads, IsAbsent, WhereRead};
    ghost use Rattle.base_devices.specs.Frames.{KeepsMain};
    ghost use Rattle.base_devices.specs.DiskCalls.{DiskCall, IsLength, HasByteAt, HasOffset, begun, appended, synced, IsWhole, Writes, Cuts, Syncs, Publishes};
    ghost use Rattle.mem_devices.specs.Landings.{line_count_of};
    ghost use Rattle.mem_devices.specs.Memory.{mem_state, mem_moment, MemRest, mem_rest_same, mem_rest_then, record_spare, CannotServe, CannotLand, CannotWrite, HasLandingRoom, HasWriteRoom, CountsCall, MakesLandings, WritePends, CutPends, PublishPends};

    ghost state = { mem_state };

    ghost disk_rest = { MemRest };

    ghost is_moment = { mem_moment };

    ghost rest_same = { mem_rest_same };

    ghost rest_then = { mem_rest_then };

    ghost rest_goes_on = { λ a b rest. rest.time };

    fn length(&mut self) -> Result<Option<u64>, Failed>
        ensures length { IfOk result (λ length. WhereRead (mem_state self.old) (λ main.
            IsLength main length)) }
        ensures exactly { IsErr result ↔ CannotServe self.old 0 }
        ensures counts { CountsCall self.old self.new Unit 0 }
        ensures main { KeepsMain (mem_state self.old) (mem_state self.new) }
        ensures fresh { (mem_state self.new).fresh ≡ (mem_state self.old).fresh }
        ensures call { DiskCall (mem_state self.old) (mem_state self.new) }
        ensures cause { HasCause (mem_state self.old).faults (mem_state self.new).faults result }
        ensures rest { MemRest self.old self.new }
    {
        self.log.count_read(self.landings.is_stopped(1))?;
        if self.has_main {
            Ok(Some(self.main.len() as u64))
        } else {
            Ok(None)
        }
    }

    fn read_at(&mut self, at: u64, into: &mut [u8]) -> Result<usize, Failed>
        requires { Shows (mem_state self.old) → HasByteAt (mem_state self.old).reads at }
        ensures bytes { IfOk result (λ count. (b : List ℕ) → Reads (mem_state self.old) b
            → take count into.new ≡ take count (drop at b)) }
        ensures bound { IfOk result (λ count. (count ≤ length into.new)
            × (0 < length into.new → 0 < count)) }
        ensures exactly { IsErr result ↔ CannotServe self.old 0 }
        ensures counts { CountsCall self.old self.new Unit 0 }
        ensures main { KeepsMain (mem_state self.old) (mem_state self.new) }
        ensures fresh { (mem_state self.new).fresh ≡ (mem_state self.old).fresh }
        ensures call { DiskCall (mem_state self.old) (mem_state self.new) }
        ensures cause { HasCause (mem_state self.old).faults (mem_state self.new).faults result }
        ensures rest { MemRest self.old self.new }
    {
        self.log.count_read(self.landings.is_stopped(1))?;
        let rest = &self.main[at as usize..];
        let count = rest.len().min(into.len());
        into[..count].copy_from_slice(&rest[..count]);
        Ok(count)
    }

    fn write_at(&mut self, at: u64, bytes: &[u8]) -> Result<(), Failed>
        requires { Shows (mem_state self.old) → HasOffset (mem_state self.old).reads at }
        ensures write { Writes at bytes.now (mem_state self.old) (mem_state self.new) result }
        ensures pends { OnErr result (WritePends self.old self.new at bytes.now) }
        ensures exactly { IsErr result ↔ CannotWrite self.old at (length bytes.now) }
        ensures counts { CountsCall self.old self.new (HasWriteRoom self.old at (length bytes.now))
            (64 + length bytes.now) }
        ensures written { let sum = (mem_state self.old).written + length bytes.now in
            (mem_state self.new).written ≡ min sum (2 ^ 64 - 1) }
        ensures landings { let size = length bytes.now in
            MakesLandings self.old self.new (HasWriteRoom self.old at size) (line_count_of at size) }
        ensures call { DiskCall (mem_state self.old) (mem_state self.new) }
        ensures cause { HasCause (mem_state self.old).faults (mem_state self.new).faults result }
        ensures rest { MemRest self.old self.new }
    {
        let size = bytes.len() as u64;
        self.written = self.written.saturating_add(size);
        if size > self.log.room() - at
            || !self
                .landings
                .has_room(self.log.room(), line_count(at, size))
        {
            self.log.count_lacking();
            return Err(Failed);
        }
        let lines = line_count(at, size);
        let landed = self.landings.before_stop(lines);
        let failed = Event::WritePending {
            at,
            size,
            made: first_bytes(at, size, landed),
        };
        let is_stopped = self.landings.is_stopped(lines.max(1));
        match self
            .log
            .call_with_bytes(Event::Wrote { at, size }, failed, is_stopped, bytes)
        {
            Admission::Served => {
                overwrite(&mut self.main, at as usize, bytes);
                self.landings.add(lines);
                Ok(())
            }
            Admission::Refused => {
                self.landings.add(landed);
                Err(Failed)
            }
            Admission::NoRoom => Err(Failed),
        }
    }

    fn cut(&mut self, length: u64) -> Result<(), Failed>
        requires { Shows (mem_state self.old) → HasOffset (mem_state self.old).reads length }
        ensures cut { Cuts length (mem_state self.old) (mem_state self.new) result }
        ensures pends { OnErr result (CutPends self.old self.new length) }
        ensures exactly { IsErr result ↔ CannotLand self.old }
        ensures counts { CountsCall self.old self.new (HasLandingRoom self.old) 64 }
        ensures landings { MakesLandings self.old self.new (HasLandingRoom self.old) 1 }
        ensures call { DiskCall (mem_state self.old) (mem_state self.new) }
        ensures cause { HasCause (mem_state self.old).faults (mem_state self.new).faults result }
        ensures rest { MemRest self.old self.new }
    {
        self.log.admit_landing(&self.landings)?;
        match self
            .log
            .call(Event::Cut(length), Event::CutPending(length), false)
        {
            Admission::Served => {
                self.main.truncate(length as usize);
                self.landings.add(1);
                Ok(())
            }
            Admission::Refused => {
                self.landings.add(1);
                Err(Failed)
            }
            Admission::NoRoom => Err(Failed),
        }
    }

    fn sync(&mut self) -> Result<(), Failed>
        requires { ¬ IsAbsent (mem_state self.old) }
        ensures sync { Syncs (mem_state self.old) (mem_state self.new) result }
        ensures failed { OnErr result (KeepsMain (mem_state self.old) (mem_state self.new)) }
        ensures exactly { IsErr result ↔ CannotServe self.old 64 }
        ensures counts { CountsCall self.old self.new (64 ≤ record_spare self.old) 64 }
        ensures call { DiskCall (mem_state self.old) (mem_state self.new) }
        ensures cause { HasCause (mem_state self.old).faults (mem_state self.new).faults result }
        ensures rest { MemRest self.old self.new }
    {
        let is_stopped = self.landings.is_stopped(1);
        match self.log.call(Event::Synced, Event::Kept, is_stopped) {
            Admission::Served => {
                self.landings.settle();
                Ok(())
            }
            Admission::Refused => Err(Failed),
            Admission::NoRoom => Err(Failed),
        }
    }

    fn new_start(&mut self) -> Result<(), Failed>
        ensures started { OnOk result ((mem_state self.new).fresh ≡ Some begun) }
        ensures failed { OnErr result ((mem_state self.new).fresh ≡ None) }
        ensures exactly { IsErr result ↔ CannotServe self.old 64 }
        ensures counts { CountsCall self.old self.new (64 ≤ record_spare self.old) 64 }
        ensures main { KeepsMain (mem_state self.old) (mem_state self.new) }
        ensures call { DiskCall (mem_state self.old) (mem_state self.new) }
        ensures cause { HasCause (mem_state self.old).faults (mem_state self.new).faults result }
        ensures rest { MemRest self.old self.new }
    {
        self.new_file = NewFile::Absent;
        let is_stopped = self.landings.is_stopped(1);
        match self.log.call(Event::Began, Event::Began, is_stopped) {
            Admission::Served => {
                self.new_bytes.clear();
                self.new_file = NewFile::Begun;
                Ok(())
            }
            Admission::Refused => {
                self.new_bytes.clear();
                Err(Failed)
            }
            Admission::NoRoom => Err(Failed),
        }
    }

    fn new_write(&mut self, bytes: &[u8]) -> Result<(), Failed>
        requires { Shows (mem_state self.old) → IsSome (mem_state self.old).fresh }
        ensures written { OnOk result ((mem_state self.new).fresh
            ≡ option_map (λ f. appended f bytes.now) (mem_state self.old).fresh) }
        ensures failed { OnErr result ((mem_state self.new).fresh ≡ None) }
        ensures exactly { IsErr result ↔ CannotServe self.old (64 + length bytes.now) }
        ensures counts { let cost = 64 + length bytes.now in
            CountsCall self.old self.new (cost ≤ record_spare self.old) cost }
        ensures main { KeepsMain (mem_state self.old) (mem_state self.new) }
        ensures call { DiskCall (mem_state self.old) (mem_state self.new) }
        ensures cause { HasCause (mem_state self.old).faults (mem_state self.new).faults result }
        ensures rest { MemRest self.old self.new }
    {
        self.new_file = NewFile::Absent;
        let event = Event::Appended(bytes.len() as u64);
        let is_stopped = self.landings.is_stopped(1);
        match self.log.call_with_bytes(event, event, is_stopped, bytes) {
            Admission::Served => {
                let _ = self.new_bytes.extend_from_slice(bytes);
                self.new_file = NewFile::Begun;
                Ok(())
            }
            Admission::Refused => {
                let _ = self.new_bytes.extend_from_slice(bytes);
                Err(Failed)
            }
            Admission::NoRoom => Err(Failed),
        }
    }

    fn new_sync(&mut self) -> Result<(), Failed>
        requires { Shows (mem_state self.old) → IsSome (mem_state self.old).fresh }
        ensures synced { OnOk result ((mem_state self.new).fresh
            ≡ option_map synced (mem_state self.old).fresh) }
        ensures failed { OnErr result ((mem_state self.new).fresh ≡ None) }
        ensures exactly { IsErr result ↔ CannotServe self.old 64 }
        ensures counts { CountsCall self.old self.new (64 ≤ record_spare self.old) 64 }
        ensures main { KeepsMain (mem_state self.old) (mem_state self.new) }
        ensures call { DiskCall (mem_state self.old) (mem_state self.new) }
        ensures cause { HasCause (mem_state self.old).faults (mem_state self.new).faults result }
        ensures rest { MemRest self.old self.new }
    {
        self.new_file = NewFile::Absent;
        let is_stopped = self.landings.is_stopped(1);
        match self.log.call(Event::Kept, Event::Kept, is_stopped) {
            Admission::Served => {
                self.new_file = NewFile::Whole;
                Ok(())
            }
            Admission::Refused => Err(Failed),
            Admission::NoRoom => Err(Failed),
        }
    }

    fn publish(&mut self) -> Result<(), Failed>
        requires { Shows (mem_state self.old) → IsWhole (mem_state self.old).fresh }
        ensures publish { Publishes (mem_state self.old) (mem_state self.new) result }
        ensures pends { OnErr result (PublishPends self.old self.new) }
        ensures exactly { IsErr result ↔ CannotLand self.old }
        ensures counts { CountsCall self.old self.new (HasLandingRoom self.old) 64 }
        ensures publishes { let next = (mem_state self.old).publishes + 1 in
            (mem_state self.new).publishes ≡ min next (2 ^ 64 - 1) }
        ensures landings { MakesLandings self.old self.new (HasLandingRoom self.old) 1 }
        ensures call { DiskCall (mem_state self.old) (mem_state self.new) }
        ensures cause { HasCause (mem_state self.old).faults (mem_state self.new).faults result }
        ensures rest { MemRest self.old self.new }
    {
        self.new_file = NewFile::Absent;
        self.publishes = self.publishes.saturating_add(1);
        self.log.admit_landing(&self.landings)?;
        match self
            .log
            .call(Event::Published, Event::PublishPending, false)
        {
            Admission::Served => {
                mem::swap(&mut self.main, &mut self.new_bytes);
                self.new_bytes.clear();
                self.has_main = true;
                self.landings.add(1);
                self.landings.settle();
                Ok(())
            }
            Admission::Refused => {
                self.landings.add(1);
                Err(Failed)
            }
            Admission::NoRoom => Err(Failed),
        }
    }
}

impl MemDisk {
    ghost use Rattle.std.specs.Prelude.{◌↔◌, ◌⊎◌, ◌<◌, ◌≤◌, IsTrue, IsErr};
    ghost use Rattle.base_devices.specs.Causes.{HasCause};
    ghost use Rattle.mem_devices.specs.Memory.{mem_state, record_spare, IsStopped, TakesRoom, NotesPrint};

    // A print of the host around the disk, of so many bytes. It fails where the host's list has it.
    pub(crate) fn note_print(&mut self, count: u64, is_listed: bool) -> Result<(), Failed>
        ensures print { NotesPrint self.old self.new count result }
        ensures exactly { IsErr result
            ↔ (IsTrue is_listed ⊎ IsStopped self.old 0 ⊎ (record_spare self.old < 64)) }
        ensures takes { TakesRoom self.old self.new (64 ≤ record_spare self.old) 64 }
        ensures cause { HasCause (mem_state self.old).faults (mem_state self.new).faults result }
    {
        let is_stopped = self.landings.is_stopped(1);
        match self.log.print(count, is_listed || is_stopped) {
            Admission::Served => Ok(()),
            Admission::Refused => Err(Failed),
            Admission::NoRoom => Err(Failed),
        }
    }

    // A print of the host around the disk that the host has no room for.
    pub(crate) fn refuse_print(&mut self) -> Result<(), Failed>
        ensures print { NotesPrint self.old self.new 0 result }
        ensures fails { IsErr result }
        ensures takes { record_spare self.new ≡ record_spare self.old }
        ensures cause { HasCause (mem_state self.old).faults (mem_state self.new).faults result }
    {
        self.log.refuse();
        Err(Failed)
    }
}
