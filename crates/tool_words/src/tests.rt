// Command lines with the job that they stand for, and the files of some jobs.
mod databases;
mod folders;
mod shown;

use crate::{WordFault, job, paths};
use shown::{shown_job, shown_paths};
use std::alloc::{AllocError, Global};
use std::process::Abort;
use std::test::Fail;

// The words of a line. One space parts two of them, so that a word between two spaces is empty.
fn words_of(alloc: Global, line: &str) -> Result<Vec<String>, AllocError> {
    let mut words = Vec::new(alloc);
    for word in line.split(' ') {
        words.push(String::from_str(alloc, word)?)?;
    }
    Ok(words)
}

fn answer(alloc: Global, line: &str) -> Result<String, Fail> {
    let words = words_of(alloc, line)?;
    match job(alloc, &words) {
        Ok(job) => Ok(shown_job(alloc, &job)?),
        Err(WordFault::Usage) => Ok(String::from_str(alloc, "usage")?),
        Err(WordFault::NoMemory) => Err("no memory".into()),
    }
}

// Each row is `NAME: LINE => JOB`, with the job by `shown_job`, or `usage` where there is none.
fn assert_row(rt: &impl Abort, alloc: Global, row: &str) -> Result<(), Fail> {
    let Some((name, rest)) = row.split_once(": ") else {
        return Err("a row without a name".into());
    };
    let Some((line, want)) = rest.split_once(" => ") else {
        return Err("a row without a job".into());
    };
    let got = answer(alloc, line)?;
    assert_eq!(rt; got.as_str(), want, "{name}: {line:?}");
    Ok(())
}

// Rows that begin with `#` are headings.
fn assert_rows(rt: &impl Abort, alloc: Global, rows: &str) -> Result<(), Fail> {
    for row in rows.lines() {
        if !row.starts_with('#') {
            assert_row(rt, alloc, row)?;
        }
    }
    Ok(())
}

#[test]
fn lines_stand_for_their_jobs(rt: HostRuntime) -> Result<(), Fail> {
    assert!(rt; matches!(job(rt.alloc(), &[]), Err(WordFault::Usage)));
    assert_rows(&rt, rt.alloc(), databases::ROWS)?;
    assert_rows(&rt, rt.alloc(), folders::ROWS)
}

// Each row is `LINE => MAIN SECOND FOLDER`.
const PATHS: &str = "\
cyr_dbtool f flat show => <f> - -
cvt_cyrusdb f flat t twoskip => <f> <t> -
reconstruct box => <box/cyrus.index> - <box>
reconstruct -r list p => <> <list> -
unexpunge -l box/ => <box//cyrus.index> - <box/>
ipurge -d 1 box => <box/cyrus.index> - <box>
chk_cyrus -M  => </cyrus.index> - <>
";

fn paths_of(alloc: Global, line: &str) -> Result<String, Fail> {
    let words = words_of(alloc, line)?;
    let Ok(job) = job(alloc, &words) else {
        return Err("no job".into());
    };
    let Ok(paths) = paths(alloc, &job) else {
        return Err("no memory".into());
    };
    Ok(shown_paths(alloc, &paths)?)
}

#[test]
fn jobs_have_their_files(rt: HostRuntime) -> Result<(), Fail> {
    for row in PATHS.lines() {
        let Some((line, want)) = row.split_once(" => ") else {
            return Err("a row without paths".into());
        };
        let got = paths_of(rt.alloc(), line)?;
        assert_eq!(rt; got.as_str(), want, "of {line:?}");
    }
    Ok(())
}
