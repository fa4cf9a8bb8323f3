// An index, read in place.
ghost use Rattle.std.specs.Prelude.{◌≡◌, ◌≤◌, ◌+◌, ◌*◌, ◌<◌, length, Some, None, slice_get};
ghost use Rattle.base_bytes.specs.Fields.{part};
ghost use Rattle.index_form.specs.Reading.{first_fault, header_in, stored_record, records_of};
ghost use Rattle.index_form.specs.Spelling.{bytes_of_record};

use crate::header::{IndexHeader, header_at};
use crate::record_view::RecordView;
use crate::sizes::{HEADER_SIZE, RECORD_SIZE};
use base_bytes::{part_at, u32_at};

/// An index without a fault, in the file's own bytes.
#[derive(Clone, Copy, Debug)]
pub struct IndexView<'a> {
    file: &'a [u8],
    ghost faultless: { first_fault file.now ≡ None },
}

impl<'a> IndexView<'a> {
    ghost use Rattle.index_form.specs.Views.{bytes_of, file_of};

    /// A view of a file without a fault.
    pub(crate) fn of(file: &'a [u8]) -> IndexView<'a>
        requires { first_fault file.now ≡ None }
        ensures { file_of result ≡ file.now }
    {
        IndexView { file }
    }

    /// The header's fields.
    pub fn header(&self) -> IndexHeader
        ensures value { result ≡ header_in (file_of self.now) }
    {
        header_at(self.file)
    }

    /// How many records there are.
    pub fn count(&self) -> u32
        ensures value { result ≡ (header_in (file_of self.now)).num_records }
        ensures records { result ≡ length (records_of (file_of self.now)) }
        ensures inside { 128 + bytes_of_record * result ≤ length (file_of self.now) }
    {
        u32_at(self.file, 20)
    }

    /// The record at a place, counted from 0 in the order of the file.
    pub fn at(&self, place: u32) -> RecordView<'a>
        requires { place < (header_in (file_of self.now)).num_records }
        ensures bytes { bytes_of result ≡ part (file_of self.now) (128 + bytes_of_record * place) bytes_of_record }
        ensures record { slice_get (records_of (file_of self.now)) place ≡ Some (stored_record (bytes_of result)) }
    {
        let start = HEADER_SIZE + RECORD_SIZE * place as usize;
        RecordView::of(part_at(self.file, start, RECORD_SIZE))
    }
}
