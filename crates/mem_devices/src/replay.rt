// A record of calls played again, to see what a stop leaves of the main file.
ghost use Rattle.std.specs.Prelude.{◌≡◌, ◌≤◌, ◌+◌, if◌then◌else◌, true, [], Some, IfOk, OnOk, length, take, drop, vec_len};
ghost use Rattle.base_bytes.specs.Landing.{written_at};

use crate::buffers::{assign, copied, lay, write};
use crate::call_log::{CallLog, Event};
use base_bytes::NoMemory;
use std::alloc::Global;
use std::mem;

/// The main file while a record is played again, as it reads and as a stop leaves it.
#[derive(Drop)]
pub struct Replay {
    pub(crate) main: Vec<u8>,
    pub(crate) has_main: bool,
    pub(crate) left: Vec<u8>,
    pub(crate) has_left: bool,
    pub(crate) new_bytes: Vec<u8>,
    /// How many entries of the list of landings are used up.
    pub(crate) used: usize,
    pub(crate) room: u64,
    ghost main_fits: { vec_len main ≤ room },
    ghost left_fits: { vec_len left ≤ room },
    ghost new_fits: { vec_len new_bytes ≤ room },
}

impl Replay {
    ghost use Rattle.std.specs.Option.{option_map};
    ghost use Rattle.mem_devices.specs.CallLog.{log_steps};
    ghost use Rattle.mem_devices.specs.History.{Moment, FitsIn, size_of, is_within, given_image, step_of, moment_step, moment_after, first_moment};
    ghost use Rattle.mem_devices.specs.Landings.{line_count_of};
    ghost use Rattle.mem_devices.specs.Left.{laid_at, is_landed, with_lines};
    ghost use Rattle.mem_devices.specs.Replay.{main_of, left_of, SameMain, SameLeft, UsesUp, ShowsMoment};

    /// A replay that has played nothing, of a disk with this main file.
    pub(crate) fn new(alloc: Global, start: Option<&[u8]>, room: u64) -> Result<Replay, NoMemory>
        requires { FitsIn room start }
        ensures main { IfOk result (λ r. main_of r ≡ given_image start.entry) }
        ensures left { IfOk result (λ r. left_of r ≡ given_image start.entry) }
        ensures new_bytes { IfOk result (λ r. r.new_bytes.items ≡ []) }
        ensures used { IfOk result (λ r. r.used ≡ 0) }
        ensures room { IfOk result (λ r. r.room ≡ room) }
    {
        let bytes = start.unwrap_or(&[]);
        Ok(Replay {
            main: copied(alloc, bytes)?,
            has_main: start.is_some(),
            left: copied(alloc, bytes)?,
            has_left: start.is_some(),
            new_bytes: Vec::new(alloc),
            used: 0,
            room,
        })
    }

    /// The main file that a stop leaves where just the listed landings landed, once the events of a record are played
    /// on a main file that was there or not.
    pub(crate) fn of_log(
        alloc: Global,
        start: Option<&[u8]>,
        log: &CallLog,
        landed: &[bool],
    ) -> Result<Replay, NoMemory>
        requires { FitsIn log.now.room start }
        ensures shows { let first = first_moment (given_image start.entry) in
            IfOk result (λ r. ShowsMoment landed.now r (moment_after first (log_steps log.now))) }
        ensures room { IfOk result (λ r. r.room ≡ log.now.room) }
    {
        let mut replay = Replay::new(alloc, start, log.room())?;
        let mut events = log.events();
        let mut bytes = log.bytes();
        while let Some((event, later)) = events.split_first() {
            let (own, rest) = bytes.split_at(event.size() as usize);
            replay.play(*event, own, landed)?;
            events = later;
            bytes = rest;
        }
        Ok(replay)
    }

    /// The main file as a stop leaves it.
    pub(crate) fn left(&self) -> Option<&[u8]>
        ensures image { given_image result ≡ left_of self.now }
        ensures size { FitsIn self.now.room result }
    {
        if self.has_left {
            Some(self.left.as_slice())
        } else {
            None
        }
    }

    /// Plays one event, which has these bytes for its own. Just the listed landings land.
    fn play(&mut self, event: Event, bytes: &[u8], landed: &[bool]) -> Result<(), NoMemory>
        requires own { size_of event ≡ length bytes.now }
        requires within { is_within self.old.room event ≡ true }
        requires room { vec_len self.old.new_bytes + length bytes.now ≤ self.old.room }
        ensures shows { OnOk result ((m : Moment) → ShowsMoment landed.now self.old m
            → ShowsMoment landed.now self.new (moment_step m (step_of event bytes.now))) }
        ensures new_bytes { let most = vec_len self.old.new_bytes + length bytes.now in
            OnOk result (vec_len self.new.new_bytes ≤ most) }
        ensures room { self.new.room ≡ self.old.room }
    {
        match event {
            Event::Kept => {}
            Event::Printed(_) => {}
            Event::Began => self.new_bytes.clear(),
            Event::Appended(_) => {
                if self.new_bytes.extend_from_slice(bytes).is_err() {
                    return Err(NoMemory);
                }
            }
            Event::Wrote { at, .. } => {
                self.land_lines(at, bytes, landed)?;
                self.write(at, bytes)?;
            }
            Event::WritePending { at, made, .. } => {
                self.land_lines(at, &bytes[..made as usize], landed)?;
            }
            Event::Cut(to) => {
                self.land_cut(to, landed);
                self.cut(to);
            }
            Event::CutPending(to) => self.land_cut(to, landed),
            Event::Synced => self.settle()?,
            Event::Published => {
                self.replace();
                self.settle()?;
            }
            Event::PublishPending => self.land_new(landed)?,
        }
        Ok(())
    }

    /// The lines of a write land, as the list says.
    pub(crate) fn land_lines(
        &mut self,
        at: u64,
        bytes: &[u8],
        landed: &[bool],
    ) -> Result<(), NoMemory>
        requires { at + length bytes.now ≤ self.old.room }
        ensures left { let rest = drop self.old.used landed.now in OnOk result
            (left_of self.new ≡ option_map (with_lines at bytes.now rest) (left_of self.old)) }
        ensures used { let lines = line_count_of at (length bytes.now) in
            OnOk result (UsesUp landed.now lines self.old self.new) }
        ensures main { SameMain self.old self.new }
    {
        let mut place = at as usize;
        let mut rest = bytes;
        while !rest.is_empty() {
            let count = (64 - place % 64).min(rest.len());
            let (line, more) = rest.split_at(count);
            self.land_line(place, line, landed)?;
            place += count;
            rest = more;
        }
        Ok(())
    }

    /// One line of a write lands, where the list says so.
    fn land_line(&mut self, at: usize, line: &[u8], landed: &[bool]) -> Result<(), NoMemory>
        requires { at + length line.now ≤ self.old.room }
        ensures left { let next = is_landed (drop self.old.used landed.now) in
            let laid = option_map (laid_at at line.now) (left_of self.old) in
            OnOk result (left_of self.new ≡ (if next then laid else left_of self.old)) }
        ensures used { UsesUp landed.now 1 self.old self.new }
        ensures main { SameMain self.old self.new }
    {
        if self.take_landed(landed) && self.has_left {
            lay(&mut self.left, at, line)?;
        }
        Ok(())
    }

    /// Whether the next landing of the list landed. One that is not listed did not.
    fn take_landed(&mut self, landed: &[bool]) -> bool
        ensures next { result ≡ is_landed (drop self.old.used landed.now) }
        ensures used { UsesUp landed.now 1 self.old self.new }
        ensures main { SameMain self.old self.new }
        ensures left { self.new.left.items ≡ self.old.left.items }
        ensures has_left { self.new.has_left ≡ self.old.has_left }
    {
        match landed.get(self.used) {
            Some(is_landed) => {
                self.used += 1;
                *is_landed
            }
            None => false,
        }
    }

    /// A cut lands, where the list says so.
    pub(crate) fn land_cut(&mut self, to: u64, landed: &[bool])
        ensures left { let next = is_landed (drop self.old.used landed.now) in
            let cut = option_map (λ b. take to b) (left_of self.old) in
            left_of self.new ≡ (if next then cut else left_of self.old) }
        ensures used { UsesUp landed.now 1 self.old self.new }
        ensures main { SameMain self.old self.new }
    {
        if self.take_landed(landed) {
            self.left.truncate(to as usize);
        }
    }

    /// The new file takes the main file's place, where the list says so.
    pub(crate) fn land_new(&mut self, landed: &[bool]) -> Result<(), NoMemory>
        ensures left { let next = is_landed (drop self.old.used landed.now) in
            let whole = Some self.old.new_bytes.items in
            OnOk result (left_of self.new ≡ (if next then whole else left_of self.old)) }
        ensures used { UsesUp landed.now 1 self.old self.new }
        ensures main { SameMain self.old self.new }
    {
        if self.take_landed(landed) {
            assign(&mut self.left, &self.new_bytes)?;
            self.has_left = true;
        }
        Ok(())
    }

    /// All that is read is on the disk for sure.
    pub(crate) fn settle(&mut self) -> Result<(), NoMemory>
        ensures left { OnOk result (left_of self.new ≡ main_of self.old) }
        ensures used { OnOk result (self.new.used ≡ 0) }
        ensures main { SameMain self.old self.new }
    {
        assign(&mut self.left, &self.main)?;
        self.has_left = self.has_main;
        self.used = 0;
        Ok(())
    }

    /// The new file takes the main file's place.
    pub(crate) fn replace(&mut self)
        ensures main { main_of self.new ≡ Some self.old.new_bytes.items }
        ensures new_bytes { self.new.new_bytes.items ≡ [] }
        ensures room { self.new.room ≡ self.old.room }
    {
        mem::swap(&mut self.main, &mut self.new_bytes);
        self.new_bytes.clear();
        self.has_main = true;
    }

    /// The main file reads with these bytes written.
    pub(crate) fn write(&mut self, at: u64, bytes: &[u8]) -> Result<(), NoMemory>
        requires { at + length bytes.now ≤ self.old.room }
        ensures main { OnOk result (main_of self.new
            ≡ option_map (written_at at bytes.now) (main_of self.old)) }
        ensures same { SameLeft self.old self.new }
    {
        if self.has_main {
            write(&mut self.main, at as usize, bytes)?;
        }
        Ok(())
    }

    /// The main file reads as it is cut.
    pub(crate) fn cut(&mut self, to: u64)
        ensures main { main_of self.new ≡ option_map (λ b. take to b) (main_of self.old) }
        ensures same { SameLeft self.old self.new }
    {
        self.main.truncate(to as usize);
    }
}
