// The first 64 bytes of a file.
ghost use Rattle.std.specs.Prelude.{◌≡◌, ◌≤◌, ◌↔◌, nat_eq, length, take, IfOk};
ghost use Rattle.std.specs.Cmp.Lexicographic.{pointwise};
ghost use Rattle.check_word.specs.CheckWord.{check_word};
ghost use Rattle.base_bytes.specs.Fields.{part};
ghost use Rattle.skip_form.specs.Flaws.{header_flaw, header_in};
ghost use Rattle.skip_form.specs.Spelling.{header_bytes, IsHeader, magic};

use base_bytes::{Flaw, u32_at, u64_at};
use byteorder::{BigEndian, ByteOrder};
use check_word::check;

/// What the first 64 bytes of a twoskip file say.
#[derive(Clone, Copy, Debug, PartialEq, Eq)]
pub struct Header {
    /// The form of the file; there is only version 1.
    pub version: u32,
    /// 1 in a new file, and one more after each repack.
    pub generation: u64,
    /// How many records are live.
    pub num_records: u64,
    /// The file's size in bytes when it was made or repacked.
    pub repack_size: u64,
    /// The committed end, in bytes from the file's start.
    pub current_size: u64,
    /// Bit 0 is DIRTY, set while a transaction is open. The others are kept as read.
    pub flags: u32,
}

const MAGIC: [u8; 20] = *b"\xA1\x02\x8B\x0Dtwoskip file\0\0\0\0";

fn has_magic(bytes: &[u8]) -> bool
    requires { 20 ≤ length bytes.now }
    ensures { result ≡ pointwise nat_eq (part bytes.now 0 20) magic }
{
    let front = &bytes[..20];
    front == MAGIC.as_slice()
}

/// The check word that belongs into the header.
fn word_of(bytes: &[u8]) -> u32
    requires { 60 ≤ length bytes.now }
    ensures { result ≡ check_word (part bytes.now 0 60) }
{
    check(&bytes[..60])
}

fn flaw_of(bytes: &[u8]) -> Option<Flaw>
    ensures { result ≡ header_flaw bytes.now }
{
    if bytes.len() < 64 {
        return Some(Flaw::Short);
    }
    if !has_magic(bytes) {
        return Some(Flaw::Magic);
    }
    if u32_at(bytes, 20) != 1 {
        return Some(Flaw::Version);
    }
    if u32_at(bytes, 60) != word_of(bytes) {
        return Some(Flaw::Check);
    }
    None
}

fn fields_of(bytes: &[u8]) -> Header
    requires { 64 ≤ length bytes.now }
    ensures { result ≡ header_in bytes.now }
{
    Header {
        version: u32_at(bytes, 20),
        generation: u64_at(bytes, 24),
        num_records: u64_at(bytes, 32),
        repack_size: u64_at(bytes, 40),
        current_size: u64_at(bytes, 48),
        flags: u32_at(bytes, 56),
    }
}

/// The header in a file's first 64 bytes, or its first flaw: `Short` (fewer than 64 bytes), `Magic`,
/// `Version` (not 1), `Check` (another check word than that of the first 60 bytes).
pub fn read_header(bytes: &[u8]) -> Result<Header, Flaw>
    // What is read is what is spelled there.
    ensures found { IfOk result (λ h. IsHeader h × (take 64 bytes.now ≡ header_bytes h)) }
    ensures only { (h : Header) → IsHeader h → take 64 bytes.now ≡ header_bytes h → result ≡ Ok h }
    ensures flaw { (f : Flaw) → (result ≡ Err f) ↔ (header_flaw bytes.now ≡ Some f) }
    // The same by the bytes of each field.
    ensures fields { IfOk result (λ h. (header_flaw bytes.now ≡ None) × (h ≡ header_in bytes.now)) }
{
    match flaw_of(bytes) {
        Some(flaw) => Err(flaw),
        None => Ok(fields_of(bytes)),
    }
}

/// The 64 bytes of a header.
#[tactic(auto, unfolding(crate::specs::Spelling::header_bytes))]
pub fn write_header(header: &Header) -> [u8; 64]
    requires { header.now.version ≡ 1 }
    ensures { result ≡ header_bytes header.now }
{
    let mut bytes = [0u8; 64];
    bytes[..20].copy_from_slice(MAGIC.as_slice());
    BigEndian::write_u32(&mut bytes[20..24], header.version);
    BigEndian::write_u64(&mut bytes[24..32], header.generation);
    BigEndian::write_u64(&mut bytes[32..40], header.num_records);
    BigEndian::write_u64(&mut bytes[40..48], header.repack_size);
    BigEndian::write_u64(&mut bytes[48..56], header.current_size);
    BigEndian::write_u32(&mut bytes[56..60], header.flags);
    let word = check(&bytes[..60]);
    BigEndian::write_u32(&mut bytes[60..], word);
    bytes
}
