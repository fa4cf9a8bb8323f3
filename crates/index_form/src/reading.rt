// What a file must be to be read as an index.
ghost use Rattle.std.specs.Prelude.{◌≡◌, ◌≤◌, ◌++◌, ◌↔◌, List, ℕ, length, map, take, Some, None, IfOk, IsOk};
ghost use Rattle.index_form.specs.declared.record.IndexRecord.{IndexRecord};
ghost use Rattle.index_form.specs.Reading.{as_written, ends_with_check, first_fault, header_in, records_of};
ghost use Rattle.index_form.specs.Spelling.{IsHeader, IsIndex, header_bytes, index_bytes};
ghost use Rattle.index_form.specs.Views.{file_of};

use crate::fault::IndexFault;
use crate::header::IndexHeader;
use crate::sizes::{HEADER_SIZE, MINOR_VERSION, RECORD_SIZE};
use crate::view::IndexView;
use base_bytes::{part_at, u32_at};
use check_word::check;

/// The header's check word is that of its first 124 bytes.
fn is_header_checked(bytes: &[u8]) -> bool
    requires { 128 ≤ length bytes.now }
    ensures { result ≡ ends_with_check bytes.now 128 }
{
    u32_at(bytes, 124) == check(part_at(bytes, 0, 124))
}

fn fault_of(bytes: &[u8]) -> Option<IndexFault>
    ensures { result ≡ first_fault bytes.now }
{
    if bytes.len() < HEADER_SIZE {
        return Some(IndexFault::Short);
    }
    if !is_header_checked(bytes) {
        return Some(IndexFault::Check);
    }
    if u32_at(bytes, 8) != MINOR_VERSION {
        return Some(IndexFault::MinorVersion);
    }
    if u32_at(bytes, 16) as usize != RECORD_SIZE {
        return Some(IndexFault::RecordSize);
    }
    if u32_at(bytes, 12) as usize != HEADER_SIZE {
        return Some(IndexFault::StartOffset);
    }
    if bytes.len() < HEADER_SIZE + RECORD_SIZE * u32_at(bytes, 20) as usize {
        return Some(IndexFault::Count);
    }
    None
}

/// A view of the index in these bytes, or its first fault. Bytes after the last record are ignored,
/// and the records' check words are not looked at.
pub fn view_index(bytes: &[u8]) -> Result<IndexView<'_>, IndexFault>
    ensures fault { (f : IndexFault) → (result ≡ Err f) ↔ (first_fault bytes.now ≡ Some f) }
    ensures ok { IsOk result ↔ (first_fault bytes.now ≡ None) }
    // The view is of these bytes.
    ensures found { IfOk result (λ view. file_of view ≡ bytes.now) }
    // What is read is spelled so.
    ensures spelled { IsOk result → IsHeader (header_in bytes.now) × (take 128 bytes.now ≡ header_bytes (header_in bytes.now)) }
    // What is spelled so is read.
    ensures only { (h : IndexHeader) (rs : List IndexRecord) (rest : List ℕ) → IsIndex h rs → bytes.now ≡ index_bytes h rs ++ rest
        → IsOk result × (header_in bytes.now ≡ h) × (records_of bytes.now ≡ map as_written rs) }
{
    match fault_of(bytes) {
        Some(fault) => Err(fault),
        None => Ok(IndexView::of(bytes)),
    }
}
