// A line is looked through, and its fields are unescaped in their own place.
ghost use Rattle.std.specs.Prelude.{◌≡◌, ◌≤◌, ◌+◌, ℕ, List, Some, None, IfSome, IsNone, IsSome, is_some, length, take, drop};
ghost use Rattle.db_script.specs.Fields.{EndsAt, EndsNowhere, before, behind, field_bytes};
ghost use Rattle.db_script.specs.Lines.{read_line, key_bytes, lone_word, pair_of, word_with};
ghost use Rattle.db_script.specs.Buffers.{IsLone, IsPart, IsSpan, IsWithin, part_of, spelled_in, command_in};

use base_bytes::{bad_escape, unescape};
use memchr::memchr;

const TAB: u8 = 9;

// A part of a buffer.
#[derive(Clone, Copy)]
pub(crate) struct Span {
    pub(crate) start: usize,
    pub(crate) end: usize,
}

// What a line asks for, and where in a buffer its fields stand.
#[derive(Clone, Copy)]
pub(crate) enum Form {
    Begin,
    Commit,
    Abort,
    Show { prefix: Span },
    Get { key: Span },
    Set { key: Span, value: Span },
    Delete { key: Span },
}

// Where the first byte that is this one stands.
pub(crate) fn find(byte: u8, bytes: &[u8]) -> Option<usize>
    ensures some { IfSome result (λ at. EndsAt byte bytes.now at) }
    ensures none { IsNone result → EndsNowhere byte bytes.now }
{
    memchr(byte, bytes)
}

// Whether a field spells some bytes.
fn is_spelled(field: &[u8]) -> bool
    ensures { result ≡ is_some (field_bytes field.now) }
{
    match bad_escape(field) {
        Some(_) => false,
        None => true,
    }
}

// Whether it spells a key.
fn is_key(field: &[u8]) -> bool
    ensures { result ≡ is_some (key_bytes field.now) }
{
    !field.is_empty() && is_spelled(field)
}

// A line that is one word.
fn lone_form(word: &[u8]) -> Option<Form>
    ensures some { IfSome result (λ form. (line : List ℕ) → IsLone (lone_word word.now) line form) }
    ensures none { IsNone result → lone_word word.now ≡ None }
{
    if word == b"BEGIN".as_slice() {
        return Some(Form::Begin);
    }
    if word == b"COMMIT".as_slice() {
        return Some(Form::Commit);
    }
    if word == b"ABORT".as_slice() {
        return Some(Form::Abort);
    }
    if word == b"SHOW".as_slice() {
        return Some(Form::Show {
            prefix: Span { start: 0, end: 0 },
        });
    }
    None
}

// A pair whose key's field begins at an offset.
fn pair_form(line: &[u8], start: usize) -> Option<Form>
    requires { start ≤ length line.now }
    ensures { IsPart start (pair_of (before 9 (drop start line.now)) (behind 9 (drop start line.now)))
        line.now result }
{
    let size = find(TAB, &line[start..])?;
    let tab = start + size;
    if !is_key(&line[start..tab]) || !is_spelled(&line[tab + 1..]) {
        return None;
    }
    Some(Form::Set {
        key: Span { start, end: tab },
        value: Span {
            start: tab + 1,
            end: line.len(),
        },
    })
}

// A word, and its fields from an offset on.
fn form_with(word: &[u8], line: &[u8], start: usize) -> Option<Form>
    requires { start ≤ length line.now }
    ensures { IsPart start (word_with word.now (drop start line.now)) line.now result }
{
    if word == b"SET".as_slice() {
        return pair_form(line, start);
    }
    let field = &line[start..];
    let rest = Span {
        start,
        end: line.len(),
    };
    if find(TAB, field).is_some() {
        return None;
    }
    if word == b"GET".as_slice() && is_key(field) {
        return Some(Form::Get { key: rest });
    }
    if word == b"DELETE".as_slice() && is_key(field) {
        return Some(Form::Delete { key: rest });
    }
    if word == b"SHOW".as_slice() && is_spelled(field) {
        return Some(Form::Show { prefix: rest });
    }
    None
}

/// What a line without its LF asks for, and where its fields stand, or None where it is wrong.
pub(crate) fn form_of(line: &[u8]) -> Option<Form>
    ensures { IsPart 0 (read_line line.now) line.now result }
{
    match find(TAB, line) {
        Some(tab) => form_with(&line[..tab], line, tab + 1),
        None => lone_form(line),
    }
}

// Unescapes a field in its own place, at its front.
fn unescape_part(buffer: &mut [u8], span: Span) -> Span
    requires within { IsSpan 0 (length buffer.old) span }
    requires spelled { IsSome (field_bytes (part_of buffer.old span)) }
    ensures bytes { field_bytes (part_of buffer.old span) ≡ Some (part_of buffer.new result) }
    ensures within { IsSpan span.start span.end result }
    ensures before { take span.start buffer.new ≡ take span.start buffer.old }
    ensures behind { drop span.end buffer.new ≡ drop span.end buffer.old }
{
    let size = unescape(&mut buffer[span.start..span.end]);
    Span {
        start: span.start,
        end: span.start + size,
    }
}

/// Unescapes the fields of a line in their own places.
pub(crate) fn unescape_form(buffer: &mut [u8], form: Form) -> Form
    requires within { IsWithin 0 (length buffer.old) form }
    requires spelled { IsSome (spelled_in buffer.old form) }
    ensures command { spelled_in buffer.old form ≡ Some (command_in buffer.new result) }
    ensures within { IsWithin 0 (length buffer.new) result }
{
    match form {
        Form::Show { prefix } => Form::Show {
            prefix: unescape_part(buffer, prefix),
        },
        Form::Get { key } => Form::Get {
            key: unescape_part(buffer, key),
        },
        Form::Set { key, value } => Form::Set {
            key: unescape_part(buffer, key),
            value: unescape_part(buffer, value),
        },
        Form::Delete { key } => Form::Delete {
            key: unescape_part(buffer, key),
        },
        form => form,
    }
}
