// Old indexes, made by their bytes.
use super::bytes::{put, put_check, put_number, put_wide};
use sha1::Sha1;
use std::alloc::Global;
use std::test::Fail;

// A record. Its digest is that of these bytes, or twenty zeros.
#[derive(Clone, Copy)]
pub(crate) struct OldRecord<'a> {
    pub uid: u64,
    pub size: u64,
    pub digest_of: Option<&'a [u8]>,
    pub flags: u64,
    pub updated: u64,
    pub is_right: bool,
}

// A field of the header, of 8 bytes at 32, 68 and 76, and of 4 elsewhere.
#[derive(Clone, Copy)]
pub(crate) struct Field {
    pub at: usize,
    pub value: u64,
}

// The records of an index, fields of its header, the bytes that are changed behind its check word or left out at its
// end, and what follows.
#[derive(Clone, Copy)]
pub(crate) struct OldIndex<'a> {
    pub records: &'a [OldRecord<'a>],
    pub fields: &'a [Field],
    pub changed: &'a [usize],
    pub lacking: usize,
    pub behind: &'a [u8],
}

// The fields that are not given are 5a in each byte.
fn record_of(old: &OldRecord<'_>) -> [u8; 96] {
    let mut record = [0x5a; 96];
    put_number(&mut record, 0, old.uid);
    put_number(&mut record, 12, old.size);
    put_number(&mut record, 28, old.updated);
    put_number(&mut record, 32, old.flags);
    put(&mut record, 60, &[0; 20]);
    if let Some(bytes) = old.digest_of {
        put(&mut record, 60, &Sha1::digest(bytes));
    }
    put_check(&mut record, 92);
    if !old.is_right {
        record[92] ^= 0x40;
    }
    record
}

// The fields that are not given have their own offsets as their bytes.
fn header_of(old: &OldIndex<'_>) -> [u8; 128] {
    let mut header = [0; 128];
    for at in 0..128u8 {
        put(&mut header, at as usize, &[at]);
    }
    put_number(&mut header, 8, 12);
    put_number(&mut header, 12, 128);
    put_number(&mut header, 16, 96);
    put_number(&mut header, 20, old.records.len() as u64);
    for field in old.fields {
        if [32, 68, 76].contains(&field.at) {
            put_wide(&mut header, field.at, field.value);
        } else {
            put_number(&mut header, field.at, field.value);
        }
    }
    put_check(&mut header, 124);
    header
}

// The bytes of an old index.
pub(crate) fn index_bytes(alloc: Global, old: &OldIndex<'_>) -> Result<Vec<u8>, Fail> {
    let mut bytes = header_of(old).to_vec(alloc)?;
    for record in old.records {
        bytes.extend_from_slice(&record_of(record))?;
    }
    bytes.extend_from_slice(old.behind)?;
    for at in old.changed {
        if let Some(byte) = bytes.get_mut(*at) {
            *byte ^= 0x20;
        }
    }
    bytes.truncate(bytes.len().saturating_sub(old.lacking));
    Ok(bytes)
}
