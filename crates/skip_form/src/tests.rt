// Headers and records byte for byte, with check words as zlib gives them.
use super::*;
use base_bytes::Flaw;

/// The header of an empty database.
const EMPTY: Header = Header {
    version: 1,
    generation: 1,
    num_records: 0,
    repack_size: 336,
    current_size: 336,
    flags: 0,
};

const EMPTY_BYTES: [u8; 64] = [
    0xA1, 0x02, 0x8B, 0x0D, 0x74, 0x77, 0x6F, 0x73, 0x6B, 0x69, 0x70, 0x20, 0x66, 0x69, 0x6C, 0x65,
    0, 0, 0, 0, 0, 0, 0, 1, // version
    0, 0, 0, 0, 0, 0, 0, 1, // generation
    0, 0, 0, 0, 0, 0, 0, 0, // records
    0, 0, 0, 0, 0, 0, 0x01, 0x50, // size when made
    0, 0, 0, 0, 0, 0, 0x01, 0x50, // committed end
    0, 0, 0, 0, 0xA2, 0x94, 0x38, 0x80, // flags and check word
];

/// A put record of level 1 with the key `a` and the value `b`, and behind it the commit record.
const PUT_AND_COMMIT: [u8; 64] = [
    0x2B, 0x01, 0x00, 0x01, 0x00, 0x00, 0x00, 0x01, // type, level and lengths
    0, 0, 0, 0, 0, 0, 0, 0, //
    0, 0, 0, 0, 0, 0, 0, 0, //
    0x54, 0x0B, 0x03, 0xC5, 0x65, 0x4A, 0x22, 0x80, // check words
    0x61, 0x62, 0, 0, 0, 0, 0, 0, // key, value and padding
    0x24, 0x00, 0x00, 0x00, 0x00, 0x00, 0x00, 0x00, //
    0, 0, 0, 0, 0, 0, 0x01, 0x50, //
    0x5D, 0xC5, 0x1C, 0x1A, 0, 0, 0, 0, //
];

const PUT: Head = Head {
    kind: Kind::Put,
    level: 1,
    key_len: 1,
    value_len: 1,
    size: 40,
};

const COMMIT: Head = Head {
    kind: Kind::Commit,
    level: 0,
    key_len: 0,
    value_len: 0,
    size: 24,
};

#[test]
fn header_of_an_empty_database(rt: HostRuntime) {
    let bytes = write_header(&EMPTY);
    assert!(rt; bytes == EMPTY_BYTES);
    assert_eq!(rt; read_header(&bytes), Ok(EMPTY));
    assert_eq!(rt; read_header(&bytes[..63]), Err(Flaw::Short));
    let mut other = bytes;
    other[63] = 0;
    assert_eq!(rt; read_header(&other), Err(Flaw::Check));
    other[23] = 2;
    assert_eq!(rt; read_header(&other), Err(Flaw::Version));
    other[4] = b'T';
    assert_eq!(rt; read_header(&other), Err(Flaw::Magic));
}

fn first_pointer(bytes: &[u8], at: u64) -> Option<u64> {
    match head_at(bytes, at) {
        Ok(_) => Some(pointer(bytes, at, 0)),
        Err(_) => None,
    }
}

#[test]
fn first_pair_of_a_database(rt: HostRuntime) {
    let mut head = [0u8; 32];
    write_head_into(&PUT, &[0, 0], tail_check(b"a", b"b"), &mut head);
    assert!(rt; head.as_slice() == &PUT_AND_COMMIT[..32]);
    let mut commit = [0u8; 24];
    write_head_into(&COMMIT, &[336], tail_check(b"", b""), &mut commit);
    assert!(rt; commit.as_slice() == &PUT_AND_COMMIT[40..]);

    assert_eq!(rt; head_at(&PUT_AND_COMMIT, 0), Ok(PUT));
    assert_eq!(rt; head_at(&PUT_AND_COMMIT, 40), Ok(COMMIT));
    assert_eq!(rt; first_pointer(&PUT_AND_COMMIT, 0), Some(0));
    assert_eq!(rt; first_pointer(&PUT_AND_COMMIT, 40), Some(336));
    assert_eq!(rt; head_at(&PUT_AND_COMMIT[..63], 40), Err(Flaw::Short));
    assert_eq!(rt; head_at(&PUT_AND_COMMIT, 57), Err(Flaw::Short));
    assert_eq!(rt; head_at(&PUT_AND_COMMIT, u64::MAX), Err(Flaw::Short));
    assert_eq!(rt; head_at(&PUT_AND_COMMIT, 8), Err(Flaw::Kind));
}

#[test]
fn spelling_table(rt: HostRuntime) {
    let mut bytes = [0u8; 68];
    for (opening, flaw) in [
        ([0x2B, 0x01, 0xFF, 0xFF, 0, 0, 0, 1], Flaw::Extended),
        ([0x2B, 0x01, 0, 1, 0xFF, 0xFF, 0xFF, 0xFF], Flaw::Extended),
        ([0x2B, 0x20, 0, 1, 0, 0, 0, 1], Flaw::Level),
        ([0x2B, 0x00, 0xFF, 0xFF, 0, 0, 0, 1], Flaw::Level),
        ([0x2D, 0x01, 0xFF, 0xFF, 0, 0, 0, 0], Flaw::Kind),
        ([0x3D, 0x1F, 0, 0, 0, 0, 0, 0], Flaw::Kind),
        ([0x2B, 0x1F, 0, 1, 0, 0, 0, 1], Flaw::Short),
    ] {
        bytes[..8].copy_from_slice(&opening);
        assert_eq!(rt; head_at(&bytes, 0), Err(flaw));
    }
    for (word, level) in [(0, 1), (1, 2), (4, 1), (7, 4), (u32::MAX, 31)] {
        assert_eq!(rt; level_of(word), level);
    }
}

#[test]
fn dummy_of_an_empty_database(rt: HostRuntime) {
    let dummy = Head {
        kind: Kind::Dummy,
        level: 31,
        key_len: 0,
        value_len: 0,
        size: 272,
    };
    let mut file = [0u8; 336];
    file[..64].copy_from_slice(&EMPTY_BYTES);
    write_head_into(&dummy, &[0; 32], tail_check(b"", b""), &mut file[64..]);
    assert!(rt; file[64..72] == [0x3D, 0x1F, 0, 0, 0, 0, 0, 0]);
    assert!(rt; file[328..] == [0x43, 0x39, 0xBC, 0x53, 0, 0, 0, 0]);
    assert_eq!(rt; head_at(&file, 64), Ok(dummy));
    assert_eq!(rt; head_size(31, 0), 272);
    assert_eq!(rt; record_size(1, 65_534, 0), 65_568);
}
