// One record, read in place.
ghost use Rattle.std.specs.Prelude.{◌≡◌, ◌-◌, ◌↔◌, IsTrue, length, take};
ghost use Rattle.index_form.specs.Reading.{ends_with_check};
ghost use Rattle.index_form.specs.Spelling.{bytes_of_record, record_bytes, record_front};

use crate::record::{IndexRecord, is_record_checked, record_at};
use crate::sizes::LAST_FIELDS;
use base_bytes::{part_at, u32_at, u64_at};

/// One record of an index, in the file's own bytes.
#[derive(Clone, Copy, Debug)]
pub struct RecordView<'a> {
    bytes: &'a [u8],
    ghost size: { length bytes.now ≡ bytes_of_record },
}

impl<'a> RecordView<'a> {
    ghost use Rattle.index_form.specs.Views.{bytes_of, record_of};

    /// A view of these bytes, which are as many as a record has.
    pub(crate) fn of(bytes: &'a [u8]) -> RecordView<'a>
        requires { length bytes.now ≡ bytes_of_record }
        ensures { bytes_of result ≡ bytes.now }
    {
        RecordView { bytes }
    }

    /// The message's number in the mailbox, 1 to 4,294,967,295.
    pub fn uid(&self) -> u32
        ensures { result ≡ (record_of self.now).uid }
    {
        u32_at(self.bytes, 0)
    }

    /// When the message came, in seconds since 1970.
    pub fn internaldate(&self) -> u32
        ensures { result ≡ (record_of self.now).internaldate }
    {
        u32_at(self.bytes, 4)
    }

    /// The day of its Date field, in seconds since 1970.
    pub fn sentdate(&self) -> u32
        ensures { result ≡ (record_of self.now).sentdate }
    {
        u32_at(self.bytes, 8)
    }

    /// The size of the message in bytes.
    pub fn size(&self) -> u32
        ensures { result ≡ (record_of self.now).size }
    {
        u32_at(self.bytes, 12)
    }

    /// The size of its header in bytes.
    pub fn header_size(&self) -> u32
        ensures { result ≡ (record_of self.now).header_size }
    {
        u32_at(self.bytes, 16)
    }

    /// Its Date field, in seconds since 1970.
    pub fn gmtime(&self) -> u32
        ensures { result ≡ (record_of self.now).gmtime }
    {
        u32_at(self.bytes, 20)
    }

    /// Where its record in the cache file begins, in bytes.
    pub fn cache_offset(&self) -> u32
        ensures { result ≡ (record_of self.now).cache_offset }
    {
        u32_at(self.bytes, 24)
    }

    /// When the record was last changed, in seconds since 1970.
    pub fn last_updated(&self) -> u32
        ensures { result ≡ (record_of self.now).last_updated }
    {
        u32_at(self.bytes, 28)
    }

    /// Answered bit 0, flagged bit 1, deleted bit 2, draft bit 3, seen bit 4, unlinked bit 30,
    /// expunged bit 31. Others are kept as read.
    pub fn system_flags(&self) -> u32
        ensures { result ≡ (record_of self.now).system_flags }
    {
        u32_at(self.bytes, 32)
    }

    /// The mailbox's own flags, a bit each.
    pub fn user_flags(&self) -> &'a [u8]
        ensures bytes { result.now ≡ (record_of self.now).user_flags }
        ensures size { length result.now ≡ 16 }
    {
        part_at(self.bytes, 36, 16)
    }

    /// How many lines follow the message's header.
    pub fn content_lines(&self) -> u32
        ensures { result ≡ (record_of self.now).content_lines }
    {
        u32_at(self.bytes, 52)
    }

    /// The version of its record in the cache file.
    pub fn cache_version(&self) -> u32
        ensures { result ≡ (record_of self.now).cache_version }
    {
        u32_at(self.bytes, 56)
    }

    /// The SHA-1 of the whole message file.
    pub fn digest(&self) -> &'a [u8]
        ensures bytes { result.now ≡ (record_of self.now).digest }
        ensures size { length result.now ≡ 20 }
    {
        part_at(self.bytes, 60, 20)
    }

    /// The modification number of the last change.
    pub fn modseq(&self) -> u64
        ensures { result ≡ (record_of self.now).modseq }
    {
        u64_at(self.bytes, 80)
    }

    /// The check word of its record in the cache file.
    pub fn cache_check(&self) -> u32
        ensures { result ≡ (record_of self.now).cache_check }
    {
        u32_at(self.bytes, LAST_FIELDS)
    }

    /// The record's check word is that of the bytes before it.
    pub fn check_right(&self) -> bool
        ensures value { result ≡ ends_with_check (bytes_of self.now) bytes_of_record }
        // The bytes are the spelling of what is read from them.
        ensures spelled { IsTrue result ↔ (bytes_of self.now ≡ record_bytes (record_of self.now)) }
    {
        is_record_checked(self.bytes)
    }

    /// All fields as they stand, whether the check word is right or not.
    pub fn to_record(&self) -> IndexRecord
        ensures value { result ≡ record_of self.now }
        ensures spelled { record_front result ≡ take (bytes_of_record - 4) (bytes_of self.now) }
    {
        record_at(self.bytes)
    }
}
