// The bytes of a script that were read, and those of them that are in no line handed out so far.
ghost use Rattle.std.specs.Prelude.{◌≡◌, ◌≤◌, length, take, vec_len};
ghost use Rattle.db_script.specs.Buffers.{IsSpan, IsWithin, part_of, command_in};
ghost use Rattle.db_script.specs.Lines.{command_of};

use crate::form::{Form, Span, unescape_form};
use crate::line::Line;
use crate::script::ScriptFault;
use base_bytes::NoMemory;
use base_devices::Failed;
use base_source::Source;
use std::alloc::Global;

// How much a buffer has room for at least.
const FIRST_SIZE: usize = 65_536;

// Bytes that were read, and where those begin and end that are still held.
#[derive(Drop)]
pub(crate) struct Buffer {
    alloc: Global,
    bytes: Vec<u8>,
    at: usize,
    end: usize,
    ghost ordered: { at ≤ end },
    ghost within: { end ≤ vec_len bytes },
}

/// A line of a script to which it went on.
#[derive(Clone, Copy)]
pub struct Found {
    start: usize,
    form: Form,
}

fn part(bytes: &[u8], span: Span) -> &[u8]
    requires { IsSpan 0 (length bytes.now) span }
    ensures { result.now ≡ part_of bytes.now span }
{
    &bytes[span.start..span.end]
}

// The line whose fields stand there.
fn line_in(bytes: &[u8], form: Form) -> Line<'_>
    requires { IsWithin 0 (length bytes.now) form }
    ensures { command_of result ≡ command_in bytes.now form }
{
    match form {
        Form::Begin => Line::Begin,
        Form::Commit => Line::Commit,
        Form::Abort => Line::Abort,
        Form::Show { prefix } => Line::Show {
            prefix: part(bytes, prefix),
        },
        Form::Get { key } => Line::Get {
            key: part(bytes, key),
        },
        Form::Set { key, value } => Line::Set {
            key: part(bytes, key),
            value: part(bytes, value),
        },
        Form::Delete { key } => Line::Delete {
            key: part(bytes, key),
        },
    }
}

// Copies bytes to the front.
fn put_front(bytes: &[u8], into: &mut [u8])
    requires { length bytes.now ≤ length into.old }
    ensures { take (length bytes.now) into.new ≡ bytes.now }
{
    into[..bytes.len()].copy_from_slice(bytes);
}

impl Buffer {
    ghost use Rattle.std.specs.Prelude.{◌≡◌, ◌⊎◌, ◌≤◌, ◌<◌, [], OnOk, IfErr, IsSome, Some, length, take, drop, vec_len};
    ghost use Rattle.db_script.specs.Buffers.{IsWithin, spelled_in};
    ghost use Rattle.db_script.specs.Held.{held_in, found_in, IsFound, IsInputFault, ReadsMore};
    ghost use Rattle.db_script.specs.declared.script.ScriptFault.TheVariants.{NoMemory as NoRoom, InputFault};
    ghost use Rattle.db_script.specs.Lines.{command_of};

    pub(crate) fn new(alloc: Global) -> Buffer
        ensures { held_in result ≡ [] }
    {
        Buffer {
            alloc,
            bytes: Vec::new(alloc),
            at: 0,
            end: 0,
        }
    }

    // The bytes that are held.
    pub(crate) fn held(&self) -> &[u8]
        ensures { result.now ≡ held_in self.now }
    {
        &self.bytes[self.at..self.end]
    }

    // Makes room for a byte at least behind those that are held.
    fn make_room(&mut self) -> Result<(), NoMemory>
        ensures room { OnOk result (self.new.end < vec_len self.new.bytes) }
        ensures held { held_in self.new ≡ held_in self.old }
    {
        if self.end < self.bytes.len() {
            return Ok(());
        }
        let held = self.end - self.at;
        let size = held.saturating_mul(2).max(FIRST_SIZE);
        let Ok(mut bytes) = vec![in self.alloc; 0u8; size] else {
            return Err(NoMemory);
        };
        put_front(self.held(), &mut bytes);
        self.bytes = bytes;
        self.at = 0;
        self.end = held;
        Ok(())
    }

    // Reads behind the bytes that are held, so many at most, and answers how many: none at the source's end.
    fn read_into_room<I: Source>(&mut self, most: usize, input: &mut I) -> Result<usize, Failed>
        requires most { 0 < most }
        requires room { self.old.end < vec_len self.old.bytes }
        ensures reads { ReadsMore (λ _. Unit {0}) (held_in self.old) (held_in self.new) most
            (I.state input.old) (I.state input.new) result }
    {
        let room = (self.bytes.len() - self.end).min(most);
        let count = input.read(&mut self.bytes[self.end..self.end + room])?;
        self.end += count;
        Ok(count)
    }

    // Reads more behind the bytes that are held, so many at most, and answers how many: none at the source's end.
    pub(crate) fn read<I: Source>(
        &mut self,
        most: usize,
        input: &mut I,
    ) -> Result<usize, ScriptFault>
        requires most { 0 < most }
        ensures reads { ReadsMore IsInputFault (held_in self.old) (held_in self.new) most
            (I.state input.old) (I.state input.new) result }
        ensures refused { IfErr result (λ fault. (fault ≡ NoRoom) ⊎ (fault ≡ InputFault)) }
    {
        if self.make_room().is_err() {
            return Err(ScriptFault::NoMemory);
        }
        match self.read_into_room(most, input) {
            Ok(count) => Ok(count),
            Err(_) => Err(ScriptFault::InputFault),
        }
    }

    // Takes a line of so many bytes off the front, whose text is so long and has this form.
    pub(crate) fn take_line(&mut self, text: usize, size: usize, form: Form) -> Found
        requires sizes { (text ≤ size) × (size ≤ length (held_in self.old)) }
        requires within { IsWithin 0 text form }
        requires spelled { IsSome (spelled_in (take text (held_in self.old)) form) }
        ensures command { spelled_in (take text (held_in self.old)) form
            ≡ Some (found_in self.new result) }
        ensures found { IsFound self.new result }
        ensures held { held_in self.new ≡ drop size (held_in self.old) }
    {
        let start = self.at;
        let form = unescape_form(&mut self.bytes[start..start + text], form);
        self.at += size;
        Found { start, form }
    }

    // A line that was taken.
    pub(crate) fn line(&self, found: Found) -> Line<'_>
        requires { IsFound self.now found }
        ensures { command_of result ≡ found_in self.now found }
    {
        line_in(&self.bytes[found.start..], found.form)
    }
}
