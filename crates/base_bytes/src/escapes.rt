// Escapes: how a field holds the bytes that would end it, and FF.
ghost use Rattle.std.specs.Prelude.{◌≡◌, ◌⊎◌, ◌<◌, ◌≤◌, ◌+◌, ◌*◌, ◌∷◌, ◌++◌, [], ℕ, true, false, List, IfSome, IsNone, length, take, drop};
ghost use Rattle.base_bytes.specs.Escapes.{escaped, escaped_byte, Spells, IsBadEscape, FieldsReadBack};

use memchr::memchr;

/// The byte with which each escape begins.
const ESCAPE: u8 = 0xff;

// The second byte of a byte's escape, or None where the byte is written as it is.
#[tactic(auto, unfolding(crate::specs::Escapes::escaped_byte))]
fn escape_of(byte: u8) -> Option<u8>
    ensures some { IfSome result (λ second. escaped_byte byte ≡ 0xff ∷ second ∷ []) }
    ensures none { IsNone result → escaped_byte byte ≡ byte ∷ [] }
{
    match byte {
        0 | 9 | 10 | 13 => Some(byte + 0x80),
        ESCAPE => Some(ESCAPE),
        _ => None,
    }
}

// The byte whose escape has this second byte.
#[tactic(auto, unfolding(crate::specs::Escapes::escaped_byte))]
fn unescaped(second: u8) -> Option<u8>
    ensures some { IfSome result (λ byte. escaped_byte byte ≡ 0xff ∷ second ∷ []) }
    ensures none { IsNone result → (byte : ℕ) → escaped_byte byte ≡ 0xff ∷ second ∷ [] → ⊥ }
{
    match second {
        0x80 | 0x89 | 0x8a | 0x8d => Some(second - 0x80),
        0xff => Some(0xff),
        _ => None,
    }
}

// How many bytes stand for this one. Without a branch, so that the compiler can look at several bytes at once.
#[tactic(auto, unfolding(crate::specs::Escapes::escaped_byte))]
fn spelled_size(byte: u8) -> usize
    ensures size { result ≡ length (escaped_byte byte) }
    ensures bound { result ≤ 2 }
{
    1 + usize::from((byte == 0) | (byte == 9) | (byte == 10) | (byte == 13) | (byte == ESCAPE))
}

/// How many bytes the field of these bytes has, at most two for each.
#[tactic(auto, unfolding(crate::specs::Escapes::escaped), using(crate::proofs::EscapeLemmas::escaped_bound))]
pub fn escaped_size(bytes: &[u8]) -> usize
    ensures size { result ≡ length (escaped bytes.now) }
    ensures bound { result ≤ 2 * length bytes.now }
{
    let mut size = 0;
    for byte in bytes {
        size += spelled_size(*byte);
    }
    size
}

/// How far bytes were escaped: `read` of them, as `written` bytes.
#[derive(Clone, Copy, Debug, PartialEq, Eq)]
pub struct Escaped {
    pub read: usize,
    pub written: usize,
}

// Writes the bytes that stand for this one, one or two.
fn put_escaped(byte: u8, into: &mut [u8]) -> usize
    requires { 2 ≤ length into.old }
    ensures written { take result into.new ≡ escaped_byte byte }
    ensures bound { result ≤ 2 }
{
    match escape_of(byte) {
        Some(second) => {
            into[0] = ESCAPE;
            into[1] = second;
            2
        }
        None => {
            into[0] = byte;
            1
        }
    }
}

/// Writes the field of some bytes, so far as there is room for two bytes more. It takes no memory.
#[tactic(auto, unfolding(crate::specs::Escapes::escaped))]
pub fn escape_into(bytes: &[u8], into: &mut [u8]) -> Escaped
    ensures field { take result.written into.new ≡ escaped (take result.read bytes.now) }
    ensures read { result.read ≤ length bytes.now }
    ensures written { result.written ≤ length into.new }
    ensures stops_for_room { (result.read ≡ length bytes.now)
        ⊎ (length into.new < result.written + 2) }
{
    let mut read = 0;
    let mut written = 0;
    while read < bytes.len() && into.len() - written >= 2 {
        written += put_escaped(bytes[read], &mut into[written..]);
        read += 1;
    }
    Escaped { read, written }
}

// Whether what follows an FF makes an escape of it.
fn ends_escape(rest: &[u8]) -> bool
    ensures yes { result ≡ true → (byte : ℕ) × (second : ℕ) × (after : List ℕ)
        × (rest.now ≡ second ∷ after) × (escaped_byte byte ≡ 0xff ∷ second ∷ []) }
    ensures no { result ≡ false → (byte : ℕ) (after : List ℕ)
        → 0xff ∷ rest.now ≡ escaped_byte byte ++ after → ⊥ }
{
    match rest {
        [second, ..] => unescaped(*second).is_some(),
        [] => false,
    }
}

/// The offset of the first FF in a field that begins no escape, or None where the field spells some bytes.
pub fn bad_escape(field: &[u8]) -> Option<usize>
    ensures some { IfSome result (λ at. IsBadEscape field.now at) }
    ensures none { IsNone result → (bytes : List ℕ) × Spells bytes field.now }
{
    let mut at = 0;
    while let Some(plain) = memchr(ESCAPE, &field[at..]) {
        let escape = at + plain;
        if !ends_escape(&field[escape + 1..]) {
            return Some(escape);
        }
        at = escape + 2;
    }
    None
}

// A byte that a field spells, and how many bytes spell it.
#[derive(Clone, Copy)]
struct Spelled {
    byte: u8,
    size: usize,
}

// The first byte that a field spells.
fn first_spelled(field: &[u8]) -> Spelled
    requires some { 0 < length field.now }
    requires spelled { (bytes : List ℕ) × Spells bytes field.now }
    ensures first { (byte : ℕ) (bytes : List ℕ) → Spells (byte ∷ bytes) field.now
        → (result.byte ≡ byte) × Spells bytes (drop result.size field.now) }
    ensures size { (0 < result.size) × (result.size ≤ length field.now) }
{
    let byte = field[0];
    if byte != ESCAPE {
        return Spelled { byte, size: 1 };
    }
    match unescaped(field[1]) {
        Some(byte) => Spelled { byte, size: 2 },
        None => unreachable!(),
    }
}

/// Puts the bytes that a field spells into its place, at its front, and answers how many they are. They are
/// never more than those of the field. That the field spells some is for `bad_escape` to find out.
pub fn unescape(field: &mut [u8]) -> usize
    requires { (bytes : List ℕ) × Spells bytes field.old }
    ensures bytes { (bytes : List ℕ) → Spells bytes field.old → take result field.new ≡ bytes }
    ensures bound { result ≤ length field.old }
{
    let Some(plain) = memchr(ESCAPE, field) else {
        return field.len();
    };
    let mut from = plain;
    let mut to = plain;
    while from < field.len() {
        let spelled = first_spelled(&field[from..]);
        field[to] = spelled.byte;
        to += 1;
        from += spelled.size;
    }
    to
}

/// What is written for some bytes spells them. A field spells one list of bytes, or has its first bad escape
/// at one place.
pub fn fields_read_back()
    ensures { FieldsReadBack }
{}
