// A line of flat text is read: its fields are found, looked through and unescaped in their own place.
ghost use Rattle.std.specs.Prelude.{◌≡◌, ◌<◌, ◌≤◌, ◌+◌, ◌-◌, ◌∷◌, ◌++◌, true, false, ℕ, List, IfOk, IfErr, IfSome, length, take, drop, slice_index};
ghost use Rattle.flat_db.specs.FlatText.{IsFree, HasLine, SaysPair, IsLineFlaw};
ghost use Rattle.flat_db.specs.Lines.{HasTab, IsFlawedLine};
ghost use Rattle.flat_db.specs.Entries.{EndsBy, pair_of};
ghost use Rattle.flat_db.specs.Plain.{HasWritten, IsPlain, IsUnescaped};

use crate::pairs::{Entry, Span};
use base_bytes::{Damage, Flaw, bad_escape, unescape};
use memchr::{memchr, memchr2, memchr3};

const TAB: u8 = 9;

const LINE_FEED: u8 = 10;

// The byte with which each escape begins.
const ESCAPE: u8 = 0xff;

// What is wrong with a line, and where in the line.
#[derive(Clone, Copy)]
struct LineFlaw {
    at: usize,
    check: Flaw,
}

// Where the key's field ends, in a line that says a pair.
fn tab_of(line: &[u8]) -> Result<usize, LineFlaw>
    ensures tab { IfOk result (λ tab. HasTab line.now tab) }
    ensures flaw { IfErr result (λ flaw. IsLineFlaw line.now flaw.at flaw.check) }
{
    let Some(tab) = memchr(TAB, line) else {
        return Err(LineFlaw {
            at: 0,
            check: Flaw::NoTab,
        });
    };
    if let Some(at) = bad_escape(&line[..tab]) {
        let check = Flaw::BadEscape;
        return Err(LineFlaw { at, check });
    }
    if let Some(offset) = bad_escape(&line[tab + 1..]) {
        let check = Flaw::BadEscape;
        let at = tab + 1 + offset;
        return Err(LineFlaw { at, check });
    }
    if tab == 0 {
        let check = Flaw::EmptyKey;
        return Err(LineFlaw { at: 0, check });
    }
    Ok(tab)
}

// A line that was read: its key stands at its front, its value behind its TAB.
#[derive(Clone, Copy)]
struct Fields {
    tab: usize,
    key: usize,
    value: usize,
}

// Reads a line. Its fields are unescaped in their own place, since they only become shorter: so the text is
// its own memory, a field without an escape stays where it was read, and none is copied.
fn read_line(line: &mut [u8]) -> Result<Fields, LineFlaw>
    ensures pair { IfOk result (λ fields. SaysPair line.old
        (take fields.key line.new, take fields.value (drop (fields.tab + 1) line.new))) }
    ensures within { IfOk result (λ fields. (fields.key ≤ fields.tab)
        × (fields.tab + 1 + fields.value ≤ length line.new)) }
    ensures flaw { IfErr result (λ flaw. IsLineFlaw line.old flaw.at flaw.check) }
{
    let tab = tab_of(line)?;
    let key = unescape(&mut line[..tab]);
    let value = unescape(&mut line[tab + 1..]);
    Ok(Fields { tab, key, value })
}

// Where the line that begins at an offset ends: at its LF, or at the end of the text.
fn line_end(text: &[u8], at: usize) -> usize
    requires { at ≤ length text.now }
    ensures ordered { at ≤ result }
    ensures within { result ≤ length text.now }
    ensures free { IsFree 10 (take (result - at) (drop at text.now)) }
    ensures ends { result < length text.now → slice_index text.now result ≡ 10 }
{
    match memchr(LINE_FEED, &text[at..]) {
        Some(size) => at + size,
        None => text.len(),
    }
}

// A line's pair, and where the next line begins.
#[derive(Clone, Copy)]
pub(crate) struct Line {
    pub(crate) entry: Entry,
    pub(crate) next: usize,
    // It was found to be written as its pair is, and so was not looked at for escapes.
    pub(crate) is_plain: bool,
}

// Reads the line that begins at an offset.
fn line_at(text: &mut [u8], at: usize) -> Result<Line, Damage>
    requires some { at < length text.old }
    requires short { length text.old ≤ 4294967295 }
    ensures pair { IfOk result (λ line. (whole : List ℕ)
        × HasLine (drop at text.old) whole (drop line.next text.old)
        × SaysPair whole (pair_of text.new line.entry)) }
    ensures flaw { IfErr result (λ damage. IsFlawedLine at (drop at text.old) damage) }
    ensures plain { IfOk result (λ line. line.is_plain ≡ false) }

    // The text in front of the line and behind it stays.
    ensures next { IfOk result (λ line. (at < line.next) × (line.next ≤ length text.old)) }
    ensures before { IfOk result (λ line. take at text.new ≡ take at text.old) }
    ensures after { IfOk result (λ line. drop line.next text.new ≡ drop line.next text.old) }
    ensures ends { IfOk result (λ line. EndsBy line.next line.entry) }
{
    let end = line_end(text, at);
    match read_line(&mut text[at..end]) {
        Ok(fields) => Ok(Line {
            entry: Entry {
                key: Span {
                    start: at as u32,
                    size: fields.key as u32,
                },
                value: Span {
                    start: (at + fields.tab + 1) as u32,
                    size: fields.value as u32,
                },
            },
            next: (end + 1).min(text.len()),
            is_plain: false,
        }),
        Err(flaw) => Err(Damage {
            at: (at + flaw.at) as u64,
            check: flaw.check,
        }),
    }
}

// Up to where no byte but TAB and LF begins an escape or is written by one, where this was found up to `known`.
#[inline(always)]
pub(crate) fn plain_end(text: &[u8], at: usize, known: usize) -> usize
    requires some { at ≤ length text.now }
    requires within { known ≤ length text.now }
    requires plain { IsPlain text.now at known }
    ensures ordered { at ≤ result }
    ensures within { result ≤ length text.now }
    ensures plain { IsPlain text.now at result }
{
    if at < known {
        return known;
    }
    match memchr3(ESCAPE, 0, b'\r', &text[at..]) {
        Some(size) => at + size,
        None => text.len(),
    }
}

// The line that begins at an offset, where it ends before `plain` and is written as its pair is.
#[inline(always)]
pub(crate) fn plain_line(text: &[u8], at: usize, plain: usize) -> Option<Line>
    requires ordered { at ≤ plain }
    requires within { plain ≤ length text.now }
    requires short { length text.now ≤ 4294967295 }
    requires plain { IsPlain text.now at plain }
    ensures written { IfSome result (HasWritten text.now at) }
    ensures plain { IfSome result (λ line. line.is_plain ≡ true) }
{
    let tab = at + memchr2(TAB, LINE_FEED, &text[at..plain])?;
    if tab == at || text[tab] != TAB {
        return None;
    }
    let end = tab + 1 + memchr2(TAB, LINE_FEED, &text[tab + 1..plain])?;
    if text[end] != LINE_FEED {
        return None;
    }
    Some(Line {
        entry: Entry {
            key: Span {
                start: at as u32,
                size: (tab - at) as u32,
            },
            value: Span {
                start: (tab + 1) as u32,
                size: (end - tab - 1) as u32,
            },
        },
        next: end + 1,
        is_plain: true,
    })
}

// Reads the line that begins at an offset, where up to `plain` escapes need not be looked for.
#[inline(always)]
pub(crate) fn next_line(text: &mut [u8], at: usize, plain: usize) -> Result<Line, Damage>
    requires some { at < length text.old }
    requires short { length text.old ≤ 4294967295 }
    requires ordered { at ≤ plain }
    requires within { plain ≤ length text.old }
    requires plain { IsPlain text.old at plain }
    ensures pair { IfOk result (λ line. (whole : List ℕ)
        × HasLine (drop at text.old) whole (drop line.next text.old)
        × SaysPair whole (pair_of text.new line.entry)) }
    ensures flaw { IfErr result (λ damage. IsFlawedLine at (drop at text.old) damage) }
    ensures written { IfOk result (λ line. line.is_plain ≡ true → HasWritten text.new at line) }
    ensures same { IfOk result (λ line. line.is_plain ≡ true → text.new ≡ text.old) }

    // The text in front of the line and behind it stays.
    ensures next { IfOk result (λ line. (at < line.next) × (line.next ≤ length text.old)) }
    ensures before { IfOk result (λ line. take at text.new ≡ take at text.old) }
    ensures after { IfOk result (λ line. drop line.next text.new ≡ drop line.next text.old) }
    ensures ends { IfOk result (λ line. EndsBy line.next line.entry) }
{
    match plain_line(text, at, plain) {
        Some(line) => Ok(line),
        None => line_at(text, at),
    }
}

// Up to where no escape begins, where this was found up to `known`.
#[inline(always)]
pub(crate) fn unescaped_end(text: &[u8], at: usize, known: usize) -> usize
    requires some { at ≤ length text.now }
    requires within { known ≤ length text.now }
    requires unescaped { IsUnescaped text.now at known }
    ensures ordered { at ≤ result }
    ensures within { result ≤ length text.now }
    ensures unescaped { IsUnescaped text.now at result }
{
    if at < known {
        return known;
    }
    match memchr(ESCAPE, &text[at..]) {
        Some(size) => at + size,
        None => text.len(),
    }
}

// The line that begins at an offset, where it has no escape, its key some byte, and it ends by an LF before `unescaped`.
#[inline(always)]
fn unescaped_line(text: &[u8], at: usize, unescaped: usize) -> Option<Line>
    requires ordered { at ≤ unescaped }
    requires within { unescaped ≤ length text.now }
    requires short { length text.now ≤ 4294967295 }
    requires unescaped { IsUnescaped text.now at unescaped }
    ensures next { IfSome result (λ line. (at < line.next) × (line.next ≤ length text.now)) }
    ensures pair { IfSome result (λ line. (whole : List ℕ)
        × HasLine (drop at text.now) whole (drop line.next text.now)
        × SaysPair whole (pair_of text.now line.entry)) }
    ensures ends { IfSome result (λ line. EndsBy line.next line.entry) }
{
    let tab = at + memchr2(TAB, LINE_FEED, &text[at..unescaped])?;
    if tab == at || text[tab] != TAB {
        return None;
    }
    let end = tab + 1 + memchr(LINE_FEED, &text[tab + 1..unescaped])?;
    Some(Line {
        entry: Entry {
            key: Span {
                start: at as u32,
                size: (tab - at) as u32,
            },
            value: Span {
                start: (tab + 1) as u32,
                size: (end - tab - 1) as u32,
            },
        },
        next: end + 1,
        is_plain: false,
    })
}

// Reads the line that begins at an offset, where up to `unescaped` there is no escape. How it is written is not looked at.
#[inline(always)]
pub(crate) fn any_line(text: &mut [u8], at: usize, unescaped: usize) -> Result<Line, Damage>
    requires some { at < length text.old }
    requires short { length text.old ≤ 4294967295 }
    requires ordered { at ≤ unescaped }
    requires within { unescaped ≤ length text.old }
    requires unescaped { IsUnescaped text.old at unescaped }
    ensures pair { IfOk result (λ line. (whole : List ℕ)
        × HasLine (drop at text.old) whole (drop line.next text.old)
        × SaysPair whole (pair_of text.new line.entry)) }
    ensures flaw { IfErr result (λ damage. IsFlawedLine at (drop at text.old) damage) }

    // The text in front of the line and behind it stays.
    ensures next { IfOk result (λ line. (at < line.next) × (line.next ≤ length text.old)) }
    ensures before { IfOk result (λ line. take at text.new ≡ take at text.old) }
    ensures after { IfOk result (λ line. drop line.next text.new ≡ drop line.next text.old) }
    ensures ends { IfOk result (λ line. EndsBy line.next line.entry) }
{
    match unescaped_line(text, at, unescaped) {
        Some(line) => Ok(line),
        None => line_at(text, at),
    }
}
