// The header, and the rows of records.
ghost use Rattle.std.specs.Prelude.{◌≡◌, ◌≤◌, ◌<◌, ◌*◌, [], List, ℕ, length, Some, None, IfOk, IfErr, OnOk};
ghost use Rattle.skip_form.specs.Flaws.{header_flaw, header_in, head_in};
ghost use Rattle.skip_spec.specs.FirstFlaw as first_flaw;
ghost use Rattle.skip_spec.specs.FirstFlaw.{at_header_place, end_of, is_dirty, row_flaw, front_flaw, RightRows};
ghost use Rattle.skip_image.specs.Verifying.{Finds, IsLogOf, IsMarked, Marks};

use crate::checks::{Log, unless};
use crate::marks::mark;
use base_bytes::{Damage, Flaw};
use skip_form::{Head, Header, head_at, read_header};

/// Where a flaw of the header is reported.
fn header_place(flaw: Flaw) -> u64
    ensures { result ≡ first_flaw.header_place flaw }
{
    match flaw {
        Flaw::Version => 20,
        Flaw::Check => 60,
        _ => 0,
    }
}

fn header_of(file: &[u8]) -> Result<Header, Damage>
    ensures finds { Finds (at_header_place (header_flaw file.now)) result }
    ensures fields { IfOk result (λ header. header ≡ header_in file.now) }
{
    match read_header(file) {
        Ok(header) => Ok(header),
        Err(check) => Err(Damage {
            at: header_place(check),
            check,
        }),
    }
}

/// The committed end is in the file, and where the file is clean it is the file's end.
fn is_end_right(log: Log, size: u64) -> bool
    ensures { (file : List ℕ) → log.end ≡ end_of file → log.dirty ≡ is_dirty file
        → size ≡ length file → result ≡ first_flaw.is_end_right file }
{
    if log.dirty {
        log.end <= size
    } else {
        log.end == size
    }
}

/// The record at an offset, by its place, type, level and lengths.
pub(crate) fn row(file: &[u8], log: Log, at: u64) -> Result<Head, Damage>
    requires log { IsLogOf file.now log }
    requires inside { end_of file.now ≤ length file.now }
    ensures finds { Finds (row_flaw file.now at) result }
    ensures head { IfOk result (λ head. head ≡ head_in file.now at) }
{
    match head_at(&file[..log.end as usize], at) {
        Ok(head) => Ok(head),
        Err(check) => Err(Damage { at, check }),
    }
}

/// The log, by the header and the row of the dummy.
pub(crate) fn log_of(file: &[u8]) -> Result<Log, Damage>
    ensures finds { Finds (front_flaw file.now) result }
    ensures log { IfOk result (λ log. IsLogOf file.now log) }
{
    let header = header_of(file)?;
    let log = Log {
        end: header.current_size,
        dirty: header.flags % 2 == 1,
        records: header.num_records,
    };
    unless(336 <= log.end, 48, Flaw::Size)?;
    unless(log.end % 8 == 0, 48, Flaw::Size)?;
    unless(is_end_right(log, file.len() as u64), 48, Flaw::Size)?;
    row(file, log, 64)?;
    Ok(log)
}

/// Goes over the rows from 336 to the committed end, and marks where each begins.
pub(crate) fn check_rows(file: &[u8], log: Log, marks: &mut [u8]) -> Result<(), Damage>
    requires front { front_flaw file.now ≡ None }
    requires log { IsLogOf file.now log }
    requires room { end_of file.now ≤ 64 * length marks.old }
    requires clear { Marks marks.old [] }
    ensures wrong { IfErr result (λ damage. (starts : List ℕ) × (at : ℕ)
        × RightRows file.now 336 starts at × (at < end_of file.now) × (row_flaw file.now at ≡ Some damage)) }
    ensures right { OnOk result ((starts : List ℕ) × IsMarked file.now marks.new starts) }
    ensures size { length marks.new ≡ length marks.old }
{
    let mut at = 336;
    while at < log.end {
        let head = row(file, log, at)?;
        mark(marks, at as usize);
        at += head.size;
    }
    Ok(())
}
