// Bytes of an index that were made apart from this code, with zlib's check words.

use super::*;
use check_word::check;
use std::test::Fail;

/// But for version, start, size and count, each byte is the offset at which it stands.
const HEADER: IndexHeader = IndexHeader {
    generation: 0x0001_0203,
    format: 0x0405_0607,
    minor_version: 12,
    start_offset: 128,
    record_size: 96,
    num_records: 1,
    last_appenddate: 0x1819_1A1B,
    last_uid: 0x1C1D_1E1F,
    quota_mailbox_used: 0x2021_2223_2425_2627,
    pop3_last_login: 0x2829_2A2B,
    uidvalidity: 0x2C2D_2E2F,
    deleted: 0x3031_3233,
    answered: 0x3435_3637,
    flagged: 0x3839_3A3B,
    options: 0x3C3D_3E3F,
    leaked_cache: 0x4041_4243,
    highestmodseq: 0x4445_4647_4849_4A4B,
    deletedmodseq: 0x4C4D_4E4F_5051_5253,
    exists: 0x5455_5657,
    first_expunged: 0x5859_5A5B,
    last_repack_time: 0x5C5D_5E5F,
    header_file_crc: 0x6061_6263,
    sync_crc: 0x6465_6667,
    recentuid: 0x6869_6A6B,
    recenttime: 0x6C6D_6E6F,
    spare_bytes: [
        0x70, 0x71, 0x72, 0x73, 0x74, 0x75, 0x76, 0x77, 0x78, 0x79, 0x7A, 0x7B,
    ],
};

/// Each byte is the offset in the file at which it stands, after a header.
const RECORD: IndexRecord = IndexRecord {
    uid: 0x8081_8283,
    internaldate: 0x8485_8687,
    sentdate: 0x8889_8A8B,
    size: 0x8C8D_8E8F,
    header_size: 0x9091_9293,
    gmtime: 0x9495_9697,
    cache_offset: 0x9899_9A9B,
    last_updated: 0x9C9D_9E9F,
    system_flags: 0xA0A1_A2A3,
    user_flags: [
        0xA4, 0xA5, 0xA6, 0xA7, 0xA8, 0xA9, 0xAA, 0xAB, 0xAC, 0xAD, 0xAE, 0xAF, 0xB0, 0xB1, 0xB2,
        0xB3,
    ],
    content_lines: 0xB4B5_B6B7,
    cache_version: 0xB8B9_BABB,
    digest: [
        0xBC, 0xBD, 0xBE, 0xBF, 0xC0, 0xC1, 0xC2, 0xC3, 0xC4, 0xC5, 0xC6, 0xC7, 0xC8, 0xC9, 0xCA,
        0xCB, 0xCC, 0xCD, 0xCE, 0xCF,
    ],
    modseq: 0xD0D1_D2D3_D4D5_D6D7,
    cache_check: 0xD8D9_DADB,
};

fn rising() -> [u8; 224] {
    let mut bytes = [0u8; 224];
    for (place, byte) in bytes.iter_mut().enumerate() {
        *byte = place as u8;
    }
    bytes
}

/// The file of this header and this record.
fn header_and_record() -> [u8; 224] {
    let mut file = rising();
    file[8..24].copy_from_slice(b"\0\0\0\x0C\0\0\0\x80\0\0\0\x60\0\0\0\x01");
    let words: [(usize, u8); 8] = [
        (124, 0x84),
        (125, 0x6B),
        (126, 0xFC),
        (127, 0xAC),
        (220, 0x7D),
        (221, 0xFD),
        (222, 0x6C),
        (223, 0x93),
    ];
    for (place, byte) in words {
        if place < 224 {
            file[place] = byte;
        }
    }
    file
}

#[test]
fn header_and_record_are_read(rt: HostRuntime) -> Result<(), Fail> {
    let file = header_and_record();
    let view = view_index(&file).ok().ok_or("there is no fault")?;
    assert_eq!(rt; view.header(), HEADER);
    let count = view.count();
    assert!(rt; count == 1);
    let record = view.at(0);
    assert_eq!(rt; record.to_record(), RECORD);
    assert!(rt; record.check_right());
    Ok(())
}

#[test]
fn header_and_record_are_written(rt: HostRuntime) {
    let file = header_and_record();
    let (header, record) = file.split_at(128);
    assert_eq!(rt; write_header(&HEADER).as_slice(), header);
    assert_eq!(rt; write_record(&RECORD).as_slice(), record);
}

fn read_one_by_one(view: &RecordView<'_>) -> IndexRecord {
    let mut user_flags = [0u8; 16];
    user_flags.copy_from_slice(view.user_flags());
    let mut digest = [0u8; 20];
    digest.copy_from_slice(view.digest());
    IndexRecord {
        uid: view.uid(),
        internaldate: view.internaldate(),
        sentdate: view.sentdate(),
        size: view.size(),
        header_size: view.header_size(),
        gmtime: view.gmtime(),
        cache_offset: view.cache_offset(),
        last_updated: view.last_updated(),
        system_flags: view.system_flags(),
        user_flags,
        content_lines: view.content_lines(),
        cache_version: view.cache_version(),
        digest,
        modseq: view.modseq(),
        cache_check: view.cache_check(),
    }
}

#[test]
fn record_with_wrong_check_is_read_as_it_stands(rt: HostRuntime) -> Result<(), Fail> {
    let mut file = header_and_record();
    file[223] ^= 1;
    let view = view_index(&file).ok().ok_or("there is no fault")?;
    let count = view.count();
    assert!(rt; count == 1);
    let record = view.at(0);
    assert!(rt; !record.check_right());
    assert_eq!(rt; record.to_record(), RECORD);
    assert_eq!(rt; read_one_by_one(&record), RECORD);
    Ok(())
}

/// The fault of a header with these fields, and a right check word, before so many zero bytes.
fn fault_of(version: u32, size: u32, start: u32, count: u32, bytes: usize) -> Option<IndexFault> {
    let header = IndexHeader {
        minor_version: version,
        record_size: size,
        start_offset: start,
        num_records: count,
        ..HEADER
    };
    let mut file = [0u8; 512];
    file[..128].copy_from_slice(&write_header(&header));
    view_index(&file[..bytes.min(512)]).err()
}

#[test]
fn index_fault_table(rt: HostRuntime) {
    let short = [0u8; 127];
    assert_eq!(rt; view_index(&short).err(), Some(IndexFault::Short));
    let unchecked = [0u8; 128];
    assert_ne!(rt; check(&unchecked[..124]), 0);
    assert_eq!(rt; view_index(&unchecked).err(), Some(IndexFault::Check));
    let cases = [
        (11, 96, 128, 0, 128, Some(IndexFault::MinorVersion)),
        (13, 104, 127, 9, 128, Some(IndexFault::MinorVersion)),
        (12, 104, 127, 9, 128, Some(IndexFault::RecordSize)),
        (12, 95, 128, 0, 128, Some(IndexFault::RecordSize)),
        (12, 96, 127, 9, 128, Some(IndexFault::StartOffset)),
        (12, 96, 128, 1, 128, Some(IndexFault::Count)),
        (12, 96, 128, u32::MAX, 128, Some(IndexFault::Count)),
        (12, 96, 128, 4, 511, Some(IndexFault::Count)),
        (12, 96, 128, 4, 512, None),
        (12, 96, 128, 3, 512, None),
        (12, 96, 128, 0, 133, None),
    ];
    for (version, size, start, count, bytes, fault) in cases {
        let found = fault_of(version, size, start, count, bytes);
        assert_eq!(rt; found, fault, "{version} {size} {start} {count} {bytes}");
    }
}

#[test]
fn bytes_after_the_records_are_ignored(rt: HostRuntime) -> Result<(), Fail> {
    let mut file = [0xFFu8; 229];
    file[..224].copy_from_slice(&header_and_record());
    let view = view_index(&file).ok().ok_or("there is no fault")?;
    let count = view.count();
    assert!(rt; count == 1);
    assert_eq!(rt; view.at(0).to_record(), RECORD);
    Ok(())
}

/// An index of four records with these uids, each with whether its check word is right.
fn four_records(rows: [(u32, bool); 4]) -> [u8; 512] {
    let mut file = [0u8; 512];
    let header = IndexHeader {
        num_records: 4,
        ..HEADER
    };
    file[..128].copy_from_slice(&write_header(&header));
    for (place, (uid, right)) in rows.into_iter().enumerate() {
        let mut bytes = write_record(&IndexRecord { uid, ..RECORD });
        if !right {
            bytes[95] ^= 1;
        }
        if place < 4 {
            file[128 + 96 * place..224 + 96 * place].copy_from_slice(&bytes);
        }
    }
    file
}

fn next_place(usable: &mut Usable<'_>) -> Option<(u32, u32)> {
    let (place, item) = usable.next()?;
    Some((place, item.uid()))
}

#[test]
fn usable_records_are_right_and_rise(rt: HostRuntime) -> Result<(), Fail> {
    let cases: [([(u32, bool); 4], [Option<(u32, u32)>; 3]); 3] = [
        (
            [(5, true), (5, true), (7, false), (6, true)],
            [Some((0, 5)), Some((3, 6)), None],
        ),
        (
            [(0, true), (1, true), (4_294_967_295, true), (2, true)],
            [Some((1, 1)), Some((2, 4_294_967_295)), None],
        ),
        (
            [(9, false), (8, false), (0, true), (0, false)],
            [None, None, None],
        ),
    ];
    for (rows, wanted) in cases {
        let file = four_records(rows);
        let view = view_index(&file).ok().ok_or("there is no fault")?;
        let mut usable = view.usable();
        for place in wanted {
            assert_eq!(rt; next_place(&mut usable), place);
        }
    }
    Ok(())
}

#[test]
fn totals_leave_expunged_records_out(rt: HostRuntime) {
    // The flags, the size and the time of the last change of each record.
    let rows: [(u32, u32, u32); 4] = [
        (ANSWERED + FLAGGED, 3, 7),
        (EXPUNGED + FLAGGED, 50, 9),
        (DELETED + UNLINKED, 43, 1),
        (EXPUNGED + DELETED, 60, 8),
    ];
    let mut totals = Totals::new();
    for (system_flags, size, last_updated) in rows {
        let item = IndexRecord {
            system_flags,
            size,
            last_updated,
            ..RECORD
        };
        if totals.num_records < 4 {
            totals.add(&item);
        }
    }
    assert_eq!(rt; (totals.num_records, totals.last_uid), (4, 0x8081_8283));
    assert_eq!(rt;
        (
            totals.exists,
            totals.deleted,
            totals.answered,
            totals.flagged
        ),
        (2, 1, 1, 1)
    );
    assert_eq!(rt; (totals.quota_mailbox_used, totals.first_expunged), (46, 8));
}
