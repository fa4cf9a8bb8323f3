// A record of an index.
ghost use Rattle.std.specs.Prelude.{◌≡◌, ◌-◌, ◌↔◌, IsTrue, length, take};
ghost use Rattle.index_form.specs.Reading.{ends_with_check, record_in};
ghost use Rattle.index_form.specs.Spelling.{bytes_of_record, record_bytes, record_front};

use crate::fields::put;
use crate::sizes::{LAST_FIELDS, RECORD_SIZE};
use base_bytes::{part_at, u32_at, u64_at};
use check_word::check;

/// What an index says of one message, all but the record's check word.
#[derive(Clone, Copy, Debug, PartialEq, Eq)]
pub struct IndexRecord {
    /// The message's number in the mailbox, 1 to 4,294,967,295.
    pub uid: u32,
    /// When the message came, in seconds since 1970.
    pub internaldate: u32,
    /// The day of its Date field, in seconds since 1970.
    pub sentdate: u32,
    /// The size of the message in bytes.
    pub size: u32,
    /// The size of its header in bytes.
    pub header_size: u32,
    /// Its Date field, in seconds since 1970.
    pub gmtime: u32,
    /// Where its record in the cache file begins, in bytes.
    pub cache_offset: u32,
    /// When the record was last changed, in seconds since 1970.
    pub last_updated: u32,
    /// Answered bit 0, flagged bit 1, deleted bit 2, draft bit 3, seen bit 4, unlinked bit 30,
    /// expunged bit 31. Others are kept as read.
    pub system_flags: u32,
    /// The mailbox's own flags, a bit each.
    pub user_flags: [u8; 16],
    /// How many lines follow the message's header.
    pub content_lines: u32,
    /// The version of its record in the cache file.
    pub cache_version: u32,
    /// The SHA-1 of the whole message file.
    pub digest: [u8; 20],
    /// The modification number of the last change.
    pub modseq: u64,
    /// The check word of its record in the cache file.
    pub cache_check: u32,
}

/// The check word at the end of a record's bytes is that of the bytes before it.
pub(crate) fn is_record_checked(bytes: &[u8]) -> bool
    requires { length bytes.now ≡ bytes_of_record }
    ensures value { result ≡ ends_with_check bytes.now bytes_of_record }
    ensures spelled { IsTrue result ↔ (bytes.now ≡ record_bytes (record_in bytes.now)) }
{
    let word = u32_at(bytes, RECORD_SIZE - 4);
    word == check(part_at(bytes, 0, RECORD_SIZE - 4))
}

/// The fields that stand in a record's bytes.
pub(crate) fn record_at(bytes: &[u8]) -> IndexRecord
    requires { length bytes.now ≡ bytes_of_record }
    ensures value { result ≡ record_in bytes.now }
    ensures spelled { record_front result ≡ take (bytes_of_record - 4) bytes.now }
{
    let mut user_flags = [0u8; 16];
    user_flags.copy_from_slice(part_at(bytes, 36, 16));
    let mut digest = [0u8; 20];
    digest.copy_from_slice(part_at(bytes, 60, 20));
    IndexRecord {
        uid: u32_at(bytes, 0),
        internaldate: u32_at(bytes, 4),
        sentdate: u32_at(bytes, 8),
        size: u32_at(bytes, 12),
        header_size: u32_at(bytes, 16),
        gmtime: u32_at(bytes, 20),
        cache_offset: u32_at(bytes, 24),
        last_updated: u32_at(bytes, 28),
        system_flags: u32_at(bytes, 32),
        user_flags,
        content_lines: u32_at(bytes, 52),
        cache_version: u32_at(bytes, 56),
        digest,
        modseq: u64_at(bytes, 80),
        cache_check: u32_at(bytes, LAST_FIELDS),
    }
}

/// The 96 bytes of a record: each field as it is, and the check word of the bytes before it.
pub fn write_record(item: &IndexRecord) -> [u8; RECORD_SIZE]
    ensures { result ≡ record_bytes item.now }
{
    let mut bytes = [0u8; RECORD_SIZE];
    put(&mut bytes, 0, &item.uid.to_be_bytes());
    put(&mut bytes, 4, &item.internaldate.to_be_bytes());
    put(&mut bytes, 8, &item.sentdate.to_be_bytes());
    put(&mut bytes, 12, &item.size.to_be_bytes());
    put(&mut bytes, 16, &item.header_size.to_be_bytes());
    put(&mut bytes, 20, &item.gmtime.to_be_bytes());
    put(&mut bytes, 24, &item.cache_offset.to_be_bytes());
    put(&mut bytes, 28, &item.last_updated.to_be_bytes());
    put(&mut bytes, 32, &item.system_flags.to_be_bytes());
    put(&mut bytes, 36, &item.user_flags);
    put(&mut bytes, 52, &item.content_lines.to_be_bytes());
    put(&mut bytes, 56, &item.cache_version.to_be_bytes());
    put(&mut bytes, 60, &item.digest);
    put(&mut bytes, 80, &item.modseq.to_be_bytes());
    put(&mut bytes, LAST_FIELDS, &item.cache_check.to_be_bytes());
    let word = check(part_at(&bytes, 0, RECORD_SIZE - 4));
    put(&mut bytes, RECORD_SIZE - 4, &word.to_be_bytes());
    bytes
}
