// The head of a record: all that stands before its key.
ghost use Rattle.std.specs.Prelude.{◌≡◌, ◌≤◌, ◌↔◌, ◌+◌, ◌*◌, ◌++◌, length, drop, Some, None, IfOk};
ghost use Rattle.std.specs.Int.{w32, w64, to_be_bytes};
ghost use Rattle.check_word.specs.CheckWord.{check_word};
ghost use Rattle.base_bytes.specs.Fields.{part};
ghost use Rattle.skip_form.specs.Fields.{pointer_in};
ghost use Rattle.skip_form.specs.Flaws.{head_flaw, head_in};
ghost use Rattle.skip_form.specs.Sizes.{head_size};
ghost use Rattle.skip_form.specs.Spelling.{StandsAt, opening_bytes, head_front, head_bytes};

use crate::fields::has_room;
use crate::opening::Opening;
use base_bytes::{Flaw, u64_at};
use byteorder::{BigEndian, ByteOrder};
use check_word::check;

/// The types of records.
#[derive(Clone, Copy, Debug, PartialEq, Eq)]
pub enum Kind {
    /// The record at 64, from which each level of the list begins.
    Dummy,
    /// A key and its value.
    Put,
    /// The place of a key that was deleted.
    Gone,
    /// The end of a transaction.
    Commit,
}

/// What the head of a record says.
#[derive(Clone, Copy, Debug, PartialEq, Eq)]
pub struct Head {
    pub kind: Kind,
    /// A put record has level 1 to 31, the dummy 31, and the others 0. There is one pointer more.
    pub level: u8,
    /// In bytes.
    pub key_len: u64,
    /// In bytes.
    pub value_len: u64,
    /// The size of the whole record in bytes, with its padding.
    pub size: u64,
}

impl Kind {
    ghost use Rattle.skip_form.specs.Flaws.{kind_of};
    ghost use Rattle.skip_form.specs.Spelling.{type_byte};

    /// The type of a byte that is one of the four.
    fn of(byte: u8) -> Kind
        ensures { result ≡ kind_of byte }
    {
        match byte {
            b'=' => Kind::Dummy,
            b'+' => Kind::Put,
            b'-' => Kind::Gone,
            _ => Kind::Commit,
        }
    }

    fn type_byte(self) -> u8
        ensures { result ≡ type_byte self }
    {
        match self {
            Kind::Dummy => b'=',
            Kind::Put => b'+',
            Kind::Gone => b'-',
            Kind::Commit => b'$',
        }
    }
}

fn flaw_at(bytes: &[u8], at: u64) -> Option<Flaw>
    ensures { result ≡ head_flaw bytes.now at }
{
    if !has_room(bytes, at, 8) {
        return Some(Flaw::Short);
    }
    let opening = Opening::at(bytes, at as usize);
    if !opening.is_kind_at(at) {
        return Some(Flaw::Kind);
    }
    if !opening.is_level() {
        return Some(Flaw::Level);
    }
    if opening.is_extended() {
        return Some(Flaw::Extended);
    }
    if !has_room(bytes, at, opening.size()) {
        return Some(Flaw::Short);
    }
    None
}

fn fields_at(bytes: &[u8], at: usize) -> Head
    requires { at + 8 ≤ length bytes.now }
    ensures { result ≡ head_in bytes.now at }
{
    let opening = Opening::at(bytes, at);
    Head {
        kind: Kind::of(opening.type_byte),
        level: opening.level,
        key_len: opening.key_len as u64,
        value_len: opening.value_len as u64,
        size: opening.size(),
    }
}

/// The head of the record at an offset, or its first flaw: `Short` (fewer than 8 bytes from `at`),
/// `Kind` (another type than `=` at 64, none of `+`, `-` and `$` elsewhere, or a length in a type
/// that has no key and value), `Level` (`=` 31, `+` 1 to 31, `-` and `$` 0), `Extended` (the mark of
/// a longer length), `Short` (the record passes the end). Pointers, check words, key, value and
/// padding are not looked at.
pub fn head_at(bytes: &[u8], at: u64) -> Result<Head, Flaw>
    // What is read is what is spelled there.
    ensures found { IfOk result (StandsAt bytes.now at) }
    ensures only { (h : Head) → StandsAt bytes.now at h → result ≡ Ok h }
    ensures flaw { (f : Flaw) → (result ≡ Err f) ↔ (head_flaw bytes.now at ≡ Some f) }
    // The same by the bytes of each field.
    ensures fields { IfOk result
        (λ h. (head_flaw bytes.now at ≡ None) × (h ≡ head_in bytes.now at)) }
{
    match flaw_at(bytes, at) {
        Some(flaw) => Err(flaw),
        None => Ok(fields_at(bytes, at as usize)),
    }
}

/// A pointer of the record at an offset at which [`head_at`] finds a head. Slots 0 and 1 of the dummy
/// and of a put record are both of level zero, and slot n + 1 is of level n.
pub fn pointer(bytes: &[u8], at: u64, slot: u8) -> u64
    requires head { head_flaw bytes.now at ≡ None }
    requires slot { slot ≤ (head_in bytes.now at).level }
    ensures value { result ≡ pointer_in bytes.now at slot }
    ensures spelled { to_be_bytes w64 result ≡ part bytes.now (at + 8 + 8 * slot) 8 }
{
    u64_at(bytes, at as usize + 8 + 8 * slot as usize)
}

/// Type, level and lengths.
fn opening_of(head: &Head) -> [u8; 8]
    requires key { head.now.key_len ≤ 65534 }
    requires value { head.now.value_len ≤ 4294967294 }
    ensures { result ≡ opening_bytes head.now }
{
    let mut bytes = [head.kind.type_byte(), head.level, 0, 0, 0, 0, 0, 0];
    BigEndian::write_u16(&mut bytes[2..4], head.key_len as u16);
    BigEndian::write_u32(&mut bytes[4..], head.value_len as u32);
    bytes
}

/// Writes all of a head before its check words.
fn write_front(head: &Head, pointers: &[u64], into: &mut [u8])
    requires key { head.now.key_len ≤ 65534 }
    requires value { head.now.value_len ≤ 4294967294 }
    requires size { length into.old ≡ 8 + 8 * length pointers.now }
    ensures { into.new ≡ head_front head.now pointers.now }
{
    into[..8].copy_from_slice(&opening_of(head));
    BigEndian::write_u64_into(pointers, &mut into[8..]);
}

/// Writes the two check words of a head.
fn write_words(word: u32, tail: u32, into: &mut [u8])
    requires { length into.old ≡ 8 }
    ensures { into.new ≡ to_be_bytes w32 word ++ to_be_bytes w32 tail }
{
    BigEndian::write_u32(&mut into[..4], word);
    BigEndian::write_u32(&mut into[4..], tail);
}

/// Writes a head with these pointers and this tail check, and with its head check, into a slice of
/// the head's size. `size` of `head` is not looked at.
#[tactic(auto, unfolding(crate::specs::Spelling::head_bytes))]
pub fn write_head_into(head: &Head, pointers: &[u64], tail: u32, into: &mut [u8])
    requires level { head.now.level ≤ 31 }
    requires key { head.now.key_len ≤ 65534 }
    requires value { head.now.value_len ≤ 4294967294 }
    requires pointers { length pointers.now ≡ head.now.level + 1 }
    requires size { length into.old ≡ head_size head.now.level head.now.key_len }
    ensures { into.new ≡ head_bytes head.now pointers.now tail }
{
    let (front, words) = into.split_at_mut(8 + 8 * pointers.len());
    write_front(head, pointers, front);
    write_words(check(front), tail, words);
}
