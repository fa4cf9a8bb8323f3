// A script is read from a source, line by line.
ghost use Rattle.std.specs.Prelude.{◌≡◌, ◌≤◌, ◌+◌, ◌-◌};
ghost use Rattle.base_bytes.specs.declared.limits.TheConstants.{SCRIPT_LIMIT};
ghost use Rattle.db_script.specs.Fields.{IsExtent};

use crate::buffer::{Buffer, Found};
use crate::form::{find, form_of};
use crate::line::Line;
use base_bytes::{NoMemory, SCRIPT_LIMIT};
use base_source::Source;
use std::alloc::Global;

const LINE_FEED: u8 = 10;

/// Why a script gives no line.
#[derive(Clone, Copy, Debug, PartialEq, Eq)]
pub enum ScriptFault {
    /// The line holds the byte behind the last one that a script may have.
    TooLong,
    /// The line is wrong; lines count from 1.
    BadLine { line: u64 },
    /// Memory ran out.
    NoMemory,
    /// The source failed.
    InputFault,
}

/// A script that is read line by line, into one buffer.
///
/// The buffer grows with the longest line, and no byte that was taken from the source is lost: after a refusal the
/// script stands before the same line. At most `SCRIPT_LIMIT + 1` bytes are taken, and none after the source's end.
#[derive(Drop)]
pub struct Script {
    buffer: Buffer,
    lines: u64,
    size: u64,
    is_over: bool,
    ghost counted: { lines ≤ size },
    ghost short: { size ≤ SCRIPT_LIMIT },
    ghost limited: { size + (buffer.end - buffer.at) ≤ SCRIPT_LIMIT + 1 },
}

// How much of what is held the next line is: its text, and all of it with its LF.
#[derive(Clone, Copy)]
struct Extent {
    text: usize,
    size: usize,
}

// The first line's extent, where all of it is held.
fn extent_of(held: &[u8]) -> Extent
    ensures { IsExtent held.now result.text result.size }
{
    match find(LINE_FEED, held) {
        Some(text) => Extent {
            text,
            size: text + 1,
        },
        None => Extent {
            text: held.len(),
            size: held.len(),
        },
    }
}

impl Script {
    ghost use Rattle.std.specs.Prelude.{◌≡◌, ◌⊎◌, ◌≤◌, ◌<◌, ◌+◌, [], ℕ, List, true, false, None, Some, OnOk, IfOk, IfErr, IfSome, IsOk, not, length, take};
    ghost use Rattle.base_bytes.specs.declared.limits.TheConstants.{SCRIPT_LIMIT};
    ghost use Rattle.db_script.specs.Fields.{behind};
    ghost use Rattle.db_script.specs.Lines.{command_of};
    ghost use Rattle.base_devices.specs.Causes.{FaultHasCause};
    ghost use Rattle.db_script.specs.Held.{IsFound, IsInputFault, found_in};
    ghost use Rattle.db_script.specs.Reading.{AnswersLine, Gathers, ReadsLine, SaysLine, is_gathered, script_state, to_come};

    /// A script of which nothing was read.
    pub fn new(alloc: Global) -> Script
        ensures { script_state result
            ≡ record { held = []; lines = 0; size = 0; is_over = false } }
    {
        Script {
            buffer: Buffer::new(alloc),
            lines: 0,
            size: 0,
            is_over: false,
        }
    }

    /// How many lines were handed out.
    pub fn lines(&self) -> u64
        ensures lines { result ≡ (script_state self.now).lines }
        ensures bound { result ≤ SCRIPT_LIMIT }
    {
        self.lines
    }

    // Whether the next line is held whole, or nothing more is read for it. So many first bytes have no LF.
    fn is_gathered(&self, seen: usize) -> bool
        requires within { seen ≤ length (script_state self.now).held }
        requires free { behind 10 (take seen (script_state self.now).held) ≡ None }
        ensures { result ≡ is_gathered (script_state self.now) }
    {
        let held = self.buffer.held();
        if self.is_over {
            return true;
        }
        if self.size + held.len() as u64 > SCRIPT_LIMIT {
            return true;
        }
        find(LINE_FEED, &held[seen..]).is_some()
    }

    /// Whether the next line is to be read from the source.
    pub fn needs_input(&self) -> bool
        ensures { is_gathered (script_state self.now) ≡ not result }
    {
        !self.is_gathered(0)
    }

    // Reads more of the script.
    fn read_more<I: Source>(&mut self, input: &mut I) -> Result<(), ScriptFault>
        requires { is_gathered (script_state self.old) ≡ false }
        ensures gathers { Gathers (script_state self.old) (script_state self.new)
            (I.state input.old) (I.state input.new) result }
        ensures front { take (length (script_state self.old).held) (script_state self.new).held
            ≡ (script_state self.old).held }
        ensures more { OnOk result (((script_state self.new).is_over ≡ true)
            ⊎ (length (script_state self.old).held < length (script_state self.new).held)) }
    {
        let most = SCRIPT_LIMIT + 1 - self.size - self.buffer.held().len() as u64;
        let count = self.buffer.read(most as usize, input)?;
        self.is_over = count == 0;
        Ok(())
    }

    // Reads until the next line is held whole, or there is no more to read for it.
    fn gather<I: Source>(&mut self, input: &mut I) -> Result<(), ScriptFault>
        ensures gathers { Gathers (script_state self.old) (script_state self.new)
            (I.state input.old) (I.state input.new) result }
        ensures whole { OnOk result (is_gathered (script_state self.new) ≡ true) }
        ensures still { is_gathered (script_state self.old) ≡ true
            → IsOk result × (script_state self.new ≡ script_state self.old) × (input.new ≡ input.old) }
    {
        let mut seen = 0;
        while !self.is_gathered(seen) {
            seen = self.buffer.held().len();
            self.read_more(input)?;
        }
        Ok(())
    }

    // Takes the next line off what is held, unless it is wrong.
    fn take_line(&mut self) -> Result<Option<Found>, ScriptFault>
        requires { is_gathered (script_state self.old) ≡ true }
        ensures answers { (left : List ℕ) → AnswersLine (found_in self.new.buffer)
            (script_state self.old) (script_state self.new)
            (to_come (script_state self.old) left) (to_come (script_state self.new) left) result }
        ensures found { IfOk result (λ found. IfSome found (IsFound self.new.buffer)) }
        ensures counts { IfOk result (λ found. IfSome found
            (λ _. (script_state self.new).lines ≡ (script_state self.old).lines + 1)) }
        ensures refused { IfErr result (λ fault. IsInputFault fault → ⊥) }
    {
        let extent = extent_of(self.buffer.held());
        if extent.size == 0 {
            return Ok(None);
        }
        if self.size + extent.size as u64 > SCRIPT_LIMIT {
            return Err(ScriptFault::TooLong);
        }
        let Some(form) = form_of(&self.buffer.held()[..extent.text]) else {
            return Err(ScriptFault::BadLine {
                line: self.lines + 1,
            });
        };
        let found = self.buffer.take_line(extent.text, extent.size, form);
        self.lines += 1;
        self.size += extent.size as u64;
        Ok(Some(found))
    }

    /// Goes on to the next line, which `line` then gives; None at the script's end. The source is read only where no
    /// whole line is held.
    ///
    /// A line's LF belongs to it, and the last line may lack its own. The line that holds byte `SCRIPT_LIMIT + 1` of
    /// the script is `TooLong`, whatever it says. After a refusal the script stands before the same line.
    pub fn advance<I: Source>(&mut self, input: &mut I) -> Result<Option<Found>, ScriptFault>
        ensures reads { ReadsLine (found_in self.new.buffer)
            (script_state self.old) (script_state self.new)
            (I.state input.old) (I.state input.new) result }
        ensures found { IfOk result (λ found. IfSome found (IsFound self.new.buffer)) }
        ensures still { is_gathered (script_state self.old) ≡ true → input.new ≡ input.old }
    {
        self.gather(input)?;
        self.take_line()
    }

    /// The line to which the last `advance` went. Its fields are slices of the script's own buffer.
    pub fn line(&self, found: Found) -> Line<'_>
        requires { IsFound self.now.buffer found }
        ensures { command_of result ≡ found_in self.now.buffer found }
    {
        self.buffer.line(found)
    }

    /// The next line, or None at the script's end, as `advance` and `line` give it. A line's fields are slices of the
    /// script's own buffer, so the script is not to be used while the line is.
    pub fn next_line<'a, I: Source>(
        &'a mut self,
        input: &mut I,
    ) -> Result<Option<Line<'a>>, ScriptFault>
        ensures says { (left : List ℕ) → (I.state input.old).left ≡ Some left
            → SaysLine (script_state self.old) (to_come (script_state self.old) left) result }
        ensures cause { FaultHasCause IsInputFault (I.state input.old).faults
            (I.state input.new).faults result }
        ensures still { is_gathered (script_state self.old) ≡ true → input.new ≡ input.old }
    {
        match self.advance(input) {
            Ok(Some(found)) => Ok(Some(self.line(found))),
            Ok(None) => Ok(None),
            Err(fault) => Err(fault),
        }
    }
}
