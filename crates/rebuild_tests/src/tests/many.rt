// A folder of 2,000 messages.
use super::model::File;
use super::old_index::{OldIndex, OldRecord, index_bytes};
use super::readings::assert_reading;
use super::rows::NOW;
use std::alloc::Global;
use std::test::Fail;

const MESSAGES: u64 = 2000;

// A record of each message, of which each third has a digest of zeros.
fn records(alloc: Global) -> Result<Vec<OldRecord<'static>>, Fail> {
    let mut records = Vec::new(alloc);
    for uid in 1..=MESSAGES {
        let digest_of: Option<&'static [u8]> = if uid % 3 == 0 { None } else { Some(b"x") };
        records.push(OldRecord {
            uid,
            size: 1,
            digest_of,
            flags: uid,
            updated: uid,
            is_right: true,
        })?;
    }
    Ok(records)
}

fn names(alloc: Global) -> Result<Vec<String>, Fail> {
    let mut names = Vec::new(alloc);
    for uid in 1..=MESSAGES {
        names.push(format!(in alloc; "{uid}.")?)?;
    }
    Ok(names)
}

// Messages of one byte with these names.
fn files<'a>(alloc: Global, names: &'a [String]) -> Result<Vec<File<'a>>, Fail> {
    let mut files = Vec::new(alloc);
    for name in names {
        files.push(File {
            name: name.as_str(),
            time: 1_600_000_000,
            bytes: b"x",
            date: None,
        })?;
    }
    Ok(files)
}

fn report(alloc: Global) -> Result<String, Fail> {
    let mut report = String::new(alloc);
    for third in 1..=MESSAGES / 3 {
        let uid = third * 3;
        writeln!(report, "uid {uid} unmatched")?;
    }
    report.push_str("kept 1334 fresh 666 dropped 0\n")?;
    Ok(report)
}

#[test]
fn many_messages_are_rebuilt(rt: HostRuntime) -> Result<(), Fail> {
    let alloc = rt.alloc();
    let records = records(alloc)?;
    let names = names(alloc)?;
    let files = files(alloc, &names)?;
    let old = index_bytes(
        alloc,
        &OldIndex {
            records: &records,
            fields: &[],
            changed: &[],
            lacking: 0,
            behind: b"",
        },
    )?;
    let host = assert_reading(&rt, alloc, "2,000 messages", &files, Some(&old), NOW)?;
    let report = report(alloc)?;
    assert_eq!(rt; host.told(), report.as_bytes());
    Ok(())
}
