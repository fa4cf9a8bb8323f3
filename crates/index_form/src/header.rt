// The first 128 bytes of an index.
ghost use Rattle.std.specs.Prelude.{◌≡◌, ◌≤◌, length};
ghost use Rattle.index_form.specs.Reading.{header_in};
ghost use Rattle.index_form.specs.Spelling.{header_bytes};

use crate::fields::put;
use crate::sizes::HEADER_SIZE;
use base_bytes::{part_at, u32_at, u64_at};
use check_word::check;

/// What the first 128 bytes of an index say, all but their check word.
#[derive(Clone, Copy, Debug, PartialEq, Eq)]
pub struct IndexHeader {
    /// The generation of the mailbox's files.
    pub generation: u32,
    /// The format of the mailbox.
    pub format: u32,
    /// The version of the index: 12.
    pub minor_version: u32,
    /// Where the first record begins, in bytes: 128.
    pub start_offset: u32,
    /// The size of a record in bytes: 96.
    pub record_size: u32,
    /// How many records the index has.
    pub num_records: u32,
    /// When a message was last added, in seconds since 1970.
    pub last_appenddate: u32,
    /// The greatest UID that was given.
    pub last_uid: u32,
    /// The sum of the messages' sizes in bytes.
    pub quota_mailbox_used: u64,
    /// When the mailbox was last opened over POP3, in seconds since 1970.
    pub pop3_last_login: u32,
    /// Tells the mailbox from others of its name, so that their UIDs are not mixed.
    pub uidvalidity: u32,
    /// How many messages are marked as deleted.
    pub deleted: u32,
    /// How many messages are marked as answered.
    pub answered: u32,
    /// How many messages are flagged.
    pub flagged: u32,
    /// Options of the mailbox, a bit each.
    pub options: u32,
    /// How many records of the cache file are out of use.
    pub leaked_cache: u32,
    /// The greatest modification number of the mailbox.
    pub highestmodseq: u64,
    /// The greatest modification number of a record that was removed.
    pub deletedmodseq: u64,
    /// How many messages the mailbox has, expunged ones left out.
    pub exists: u32,
    /// When the oldest expunged message was expunged, in seconds since 1970.
    pub first_expunged: u32,
    /// When the index was last compacted, in seconds since 1970.
    pub last_repack_time: u32,
    /// The check word of the mailbox's header file.
    pub header_file_crc: u32,
    /// A word over the records, by which replicas are compared.
    pub sync_crc: u32,
    /// The greatest UID that its owner was shown as recent.
    pub recentuid: u32,
    /// When it was shown, in seconds since 1970.
    pub recenttime: u32,
    /// Twelve bytes that are kept as read.
    pub spare_bytes: [u8; 12],
}

/// The fields that stand in the first 128 bytes.
pub(crate) fn header_at(bytes: &[u8]) -> IndexHeader
    requires { 128 ≤ length bytes.now }
    ensures { result ≡ header_in bytes.now }
{
    let mut spare_bytes = [0u8; 12];
    spare_bytes.copy_from_slice(part_at(bytes, 112, 12));
    IndexHeader {
        generation: u32_at(bytes, 0),
        format: u32_at(bytes, 4),
        minor_version: u32_at(bytes, 8),
        start_offset: u32_at(bytes, 12),
        record_size: u32_at(bytes, 16),
        num_records: u32_at(bytes, 20),
        last_appenddate: u32_at(bytes, 24),
        last_uid: u32_at(bytes, 28),
        quota_mailbox_used: u64_at(bytes, 32),
        pop3_last_login: u32_at(bytes, 40),
        uidvalidity: u32_at(bytes, 44),
        deleted: u32_at(bytes, 48),
        answered: u32_at(bytes, 52),
        flagged: u32_at(bytes, 56),
        options: u32_at(bytes, 60),
        leaked_cache: u32_at(bytes, 64),
        highestmodseq: u64_at(bytes, 68),
        deletedmodseq: u64_at(bytes, 76),
        exists: u32_at(bytes, 84),
        first_expunged: u32_at(bytes, 88),
        last_repack_time: u32_at(bytes, 92),
        header_file_crc: u32_at(bytes, 96),
        sync_crc: u32_at(bytes, 100),
        recentuid: u32_at(bytes, 104),
        recenttime: u32_at(bytes, 108),
        spare_bytes,
    }
}

/// The 128 bytes of a header: each field as it is, and the check word of the 124 bytes before it.
pub fn write_header(header: &IndexHeader) -> [u8; HEADER_SIZE]
    ensures { result ≡ header_bytes header.now }
{
    let mut bytes = [0u8; HEADER_SIZE];
    put(&mut bytes, 0, &header.generation.to_be_bytes());
    put(&mut bytes, 4, &header.format.to_be_bytes());
    put(&mut bytes, 8, &header.minor_version.to_be_bytes());
    put(&mut bytes, 12, &header.start_offset.to_be_bytes());
    put(&mut bytes, 16, &header.record_size.to_be_bytes());
    put(&mut bytes, 20, &header.num_records.to_be_bytes());
    put(&mut bytes, 24, &header.last_appenddate.to_be_bytes());
    put(&mut bytes, 28, &header.last_uid.to_be_bytes());
    put(&mut bytes, 32, &header.quota_mailbox_used.to_be_bytes());
    put(&mut bytes, 40, &header.pop3_last_login.to_be_bytes());
    put(&mut bytes, 44, &header.uidvalidity.to_be_bytes());
    put(&mut bytes, 48, &header.deleted.to_be_bytes());
    put(&mut bytes, 52, &header.answered.to_be_bytes());
    put(&mut bytes, 56, &header.flagged.to_be_bytes());
    put(&mut bytes, 60, &header.options.to_be_bytes());
    put(&mut bytes, 64, &header.leaked_cache.to_be_bytes());
    put(&mut bytes, 68, &header.highestmodseq.to_be_bytes());
    put(&mut bytes, 76, &header.deletedmodseq.to_be_bytes());
    put(&mut bytes, 84, &header.exists.to_be_bytes());
    put(&mut bytes, 88, &header.first_expunged.to_be_bytes());
    put(&mut bytes, 92, &header.last_repack_time.to_be_bytes());
    put(&mut bytes, 96, &header.header_file_crc.to_be_bytes());
    put(&mut bytes, 100, &header.sync_crc.to_be_bytes());
    put(&mut bytes, 104, &header.recentuid.to_be_bytes());
    put(&mut bytes, 108, &header.recenttime.to_be_bytes());
    put(&mut bytes, 112, &header.spare_bytes);
    let word = check(part_at(&bytes, 0, 124));
    put(&mut bytes, 124, &word.to_be_bytes());
    bytes
}
