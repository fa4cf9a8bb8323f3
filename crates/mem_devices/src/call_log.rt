// The record of calls of a disk in memory: which number each has, and what it did.
ghost use Rattle.std.specs.Prelude.{◌≡◌, ◌↔◌, ◌+◌, ◌*◌, ◌≤◌, length, vec_len, vec_capacity, true, IsTrue, IfOk, Contains};
ghost use Rattle.std.specs.List.{list_all};
ghost use Rattle.mem_devices.specs.History.{total_size, size_of, is_within};

use crate::buffers::{copied, with_room};
use crate::landings::Landings;
use base_bytes::NoMemory;
use base_devices::Failed;
use std::alloc::Global;

/// A step of the past. The bytes that an event has for its own lie in the record.
#[derive(Clone, Copy, Debug, PartialEq, Eq)]
pub enum Event {
    /// Nothing of the disk changed.
    Kept,
    /// A new file was begun.
    Began,
    /// So many bytes were added to the new file.
    Appended(u64),
    /// Bytes were written into the main file.
    Wrote { at: u64, size: u64 },
    /// Of a write of so many bytes the first, `made` of them, may have landed.
    WritePending { at: u64, size: u64, made: u64 },
    /// The main file was cut to so many bytes.
    Cut(u64),
    /// The main file may have been cut to so many bytes, or not.
    CutPending(u64),
    /// The main file was synced.
    Synced,
    /// The new file took the main file's place.
    Published,
    /// The new file may have taken the main file's place, or not.
    PublishPending,
    /// The host around the disk printed so many bytes.
    Printed(u64),
}

impl Event {
    /// How many bytes of the record are its own.
    pub(crate) fn size(&self) -> u64
        ensures { result ≡ size_of self.now }
    {
        match *self {
            Event::Appended(size) => size,
            Event::Wrote { size, .. } => size,
            Event::WritePending { size, .. } => size,
            _ => 0,
        }
    }
}

/// What becomes of a call. A match has an arm for each, also where two do the same, since what the record notes is
/// proved arm by arm.
#[derive(Clone, Copy, Debug, PartialEq, Eq)]
pub enum Admission {
    /// It does what it is to do.
    Served,
    /// It fails by the list, or since the stop is met.
    Refused,
    /// It fails, since the record has no room for it.
    NoRoom,
}

/// A record of calls with room for so many bytes, all of them taken at once.
#[derive(Drop)]
pub struct CallLog {
    events: Vec<Event>,
    bytes: Vec<u8>,
    fails: Vec<u64>,
    calls: u64,
    faults: u64,
    room: u64,
    ghost has_events: { room ≤ 64 * vec_capacity events + 63 },
    ghost has_bytes: { room ≤ vec_capacity bytes },
    ghost fits: { 64 * vec_len events + vec_len bytes ≤ room },
    ghost sizes: { total_size events.items ≡ length bytes.items },
    ghost within: { list_all (is_within room) events.items ≡ true },
}

// Whether the number is on the list.
pub(crate) fn is_listed(fails: &[u64], number: u64) -> bool
    ensures { IsTrue result ↔ Contains fails.now number }
{
    fails.contains(&number)
}

impl CallLog {
    ghost use Rattle.std.specs.Prelude.{◌⊎◌, ◌<◌, [], IsErr, OnOk, OnErr};
    ghost use Rattle.mem_devices.specs.History.{step_of};
    ghost use Rattle.mem_devices.specs.Landings.{PassesStop};
    ghost use Rattle.mem_devices.specs.CallLog.{IsNewLog, KeepsBounds, NotesStep, NotesCall, NotesNoRead, NotesStopped, TurnsAway, OnlyCountsFault, IsRefused, asked_of, print_asked, log_spare, log_next};

    pub(crate) fn new(alloc: Global, room: u64, fails: &[u64]) -> Result<CallLog, NoMemory>
        ensures { IfOk result (λ log. IsNewLog log room fails.now) }
    {
        Ok(CallLog {
            events: with_room(alloc, room / 64)?,
            bytes: with_room(alloc, room)?,
            fails: copied(alloc, fails)?,
            calls: 0,
            faults: 0,
            room,
        })
    }

    pub(crate) fn events(&self) -> &[Event]
        ensures { result.now ≡ self.now.events.items }
    {
        &self.events
    }

    pub(crate) fn bytes(&self) -> &[u8]
        ensures { result.now ≡ self.now.bytes.items }
    {
        &self.bytes
    }

    pub(crate) fn room(&self) -> u64
        ensures { result ≡ self.now.room }
    {
        self.room
    }

    pub(crate) fn faults(&self) -> u64
        ensures { result ≡ self.now.faults }
    {
        self.faults
    }

    // Whether there is room for a call with so many bytes of its own.
    fn has_room(&self, bytes: usize) -> bool
        ensures { IsTrue result ↔ (64 + bytes ≤ log_spare self.now) }
    {
        let left = self.room as usize - (64 * self.events.len() + self.bytes.len());
        left >= 64 && left - 64 >= bytes
    }

    // Notes an event without bytes.
    fn note(&mut self, event: Event)
        requires room { 64 ≤ log_spare self.old }
        requires bare { size_of event ≡ 0 }
        requires within { is_within self.old.room event ≡ true }
        ensures { NotesStep (step_of event []) 64 self.old self.new }
    {
        self.events.push_reserved(event);
    }

    // Notes an event with its bytes.
    fn note_bytes(&mut self, event: Event, bytes: &[u8])
        requires room { 64 + length bytes.now ≤ log_spare self.old }
        requires own { size_of event ≡ length bytes.now }
        requires within { is_within self.old.room event ≡ true }
        ensures { NotesStep (step_of event bytes.now) (64 + length bytes.now) self.old self.new }
    {
        let _ = self.bytes.extend_from_slice(bytes);
        self.events.push_reserved(event);
    }

    /// Counts a call that only reads.
    pub(crate) fn count_read(&mut self, is_stopped: bool) -> Result<(), Failed>
        ensures exactly { IsErr result ↔ IsRefused self.old is_stopped }
        ensures reads { NotesNoRead self.old self.new result }
        ensures next { self.new.calls ≡ log_next self.old }
        ensures bounds { KeepsBounds self.old self.new }
    {
        self.calls = self.calls.saturating_add(1);
        if is_stopped || is_listed(&self.fails, self.calls) {
            self.faults = self.faults.saturating_add(1);
            return Err(Failed);
        }
        Ok(())
    }

    /// Counts a call that finds no room elsewhere.
    pub(crate) fn count_lacking(&mut self)
        ensures refuses { OnlyCountsFault self.old self.new }
        ensures next { self.new.calls ≡ log_next self.old }
        ensures bounds { KeepsBounds self.old self.new }
    {
        self.calls = self.calls.saturating_add(1);
        self.faults = self.faults.saturating_add(1);
    }

    /// Counts a call, and notes what it does, or what it does where it fails by the list or the stop.
    pub(crate) fn call(&mut self, done: Event, failed: Event, is_stopped: bool) -> Admission
        requires done { (size_of done ≡ 0) × (is_within self.old.room done ≡ true) }
        requires failed { (size_of failed ≡ 0) × (is_within self.old.room failed ≡ true) }
        ensures becomes { NotesCall (asked_of self.old is_stopped done failed [])
            self.old self.new result }
        ensures next { self.new.calls ≡ log_next self.old }
        ensures bounds { KeepsBounds self.old self.new }
    {
        self.calls = self.calls.saturating_add(1);
        if !self.has_room(0) {
            self.faults = self.faults.saturating_add(1);
            return Admission::NoRoom;
        }
        if is_stopped || is_listed(&self.fails, self.calls) {
            self.note(failed);
            self.faults = self.faults.saturating_add(1);
            return Admission::Refused;
        }
        self.note(done);
        Admission::Served
    }

    // Counts a call after the stop.
    fn call_stopped(&mut self)
        ensures stops { NotesStopped self.old self.new }
        ensures next { self.new.calls ≡ log_next self.old }
        ensures bounds { KeepsBounds self.old self.new }
    {
        self.calls = self.calls.saturating_add(1);
        self.faults = self.faults.saturating_add(1);
        if self.has_room(0) {
            self.note(Event::Kept);
        }
    }

    /// Lets a call that makes one landing go on, or counts it where what is pending has no room, or the stop is met.
    pub(crate) fn admit_landing(&mut self, landings: &Landings) -> Result<(), Failed>
        requires pending { 64 * landings.now.pending ≤ self.old.room }
        ensures exactly { IsErr result ↔ ((self.old.room < 64 * (landings.now.pending + 1))
            ⊎ PassesStop landings.now.stop (landings.now.made + 1)) }
        ensures stays { OnOk result (self.new ≡ self.old) }
        ensures turns { OnErr result (TurnsAway landings.now.pending self.old self.new) }
        ensures next { OnErr result (self.new.calls ≡ log_next self.old) }
        ensures bounds { KeepsBounds self.old self.new }
    {
        if !landings.has_room(self.room, 1) {
            self.count_lacking();
            return Err(Failed);
        }
        if landings.is_stopped(1) {
            self.call_stopped();
            return Err(Failed);
        }
        Ok(())
    }

    /// Counts a call as [`call`](CallLog::call) does, whose two events have these bytes for their own.
    pub(crate) fn call_with_bytes(
        &mut self,
        done: Event,
        failed: Event,
        is_stopped: bool,
        bytes: &[u8],
    ) -> Admission
        requires done { (size_of done ≡ length bytes.now)
            × (is_within self.old.room done ≡ true) }
        requires failed { (size_of failed ≡ length bytes.now)
            × (is_within self.old.room failed ≡ true) }
        ensures becomes { NotesCall (asked_of self.old is_stopped done failed bytes.now)
            self.old self.new result }
        ensures next { self.new.calls ≡ log_next self.old }
        ensures bounds { KeepsBounds self.old self.new }
    {
        self.calls = self.calls.saturating_add(1);
        if !self.has_room(bytes.len()) {
            self.faults = self.faults.saturating_add(1);
            return Admission::NoRoom;
        }
        if is_stopped || is_listed(&self.fails, self.calls) {
            self.note_bytes(failed, bytes);
            self.faults = self.faults.saturating_add(1);
            return Admission::Refused;
        }
        self.note_bytes(done, bytes);
        Admission::Served
    }

    /// Notes that a host around the disk prints so many bytes, or none where its list or the stop refuses that.
    pub(crate) fn print(&mut self, count: u64, is_refused: bool) -> Admission
        ensures becomes { NotesCall (print_asked is_refused count) self.old self.new result }
        ensures calls { self.new.calls ≡ self.old.calls }
        ensures bounds { KeepsBounds self.old self.new }
    {
        if !self.has_room(0) {
            self.faults = self.faults.saturating_add(1);
            return Admission::NoRoom;
        }
        if is_refused {
            self.note(Event::Printed(0));
            self.faults = self.faults.saturating_add(1);
            return Admission::Refused;
        }
        self.note(Event::Printed(count));
        Admission::Served
    }

    /// Counts a failure of the host around the disk.
    pub(crate) fn refuse(&mut self)
        ensures refuses { OnlyCountsFault self.old self.new }
        ensures calls { self.new.calls ≡ self.old.calls }
        ensures bounds { KeepsBounds self.old self.new }
    {
        self.faults = self.faults.saturating_add(1);
    }
}
