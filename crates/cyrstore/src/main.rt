//! `cyrstore`: the storage tools of a mail server. All that matters is in the top call; here it is given
//! the words, the real devices and the process.
#![tactic(auto)]

ghost use Rattle.std.specs.Prelude.{◌≡◌, true, [], None, IfOk, map, string_bytes, unwrap_or};
ghost use Rattle.std.specs.Process.{exit_status};
ghost use Rattle.base_devices.specs.HostCalls.{moment};
ghost use Rattle.base_devices.specs.SpoolCalls.{GaveNoName, shown_files};
ghost use Rattle.base_notes.specs.declared.note.Device.TheVariants.{Input as InputDevice, Second as SecondDevice, Spool as SpoolDevice};
ghost use Rattle.base_notes.specs.declared.note.Note.{Note};
ghost use Rattle.base_notes.specs.Notes.{status_of};
ghost use Rattle.cyr_top.specs.Actions.{but_warned};
ghost use Rattle.cyr_top.specs.Asked.{OnDatabase, UnlessRepack, built_job_of, inputs, is_built};
ghost use Rattle.cyr_top.specs.Converting.{DoesConversion, OnConversion, with_both};
ghost use Rattle.cyr_top.specs.Crashes.{KeepsPromises};
ghost use Rattle.cyr_top.specs.Rebuilding.{DoesRebuild, OnFolder, rebuild_of};
ghost use Rattle.cyr_top.specs.Repacking.{DoesRepack, OnRepack};
ghost use Rattle.cyr_top.specs.Stated.{Ran, Warns};
ghost use Rattle.db_tool.specs.ToolNotes.{Faults};
ghost use Rattle.tool_words.specs.PathsOf.{folder_path_of, main_path_of, second_path_of};

use crate::apart::are_apart;
use base_bytes::{NoMemory, Text};
use base_devices::{Disk, Host, Spool};
use base_notes::{STATUS_DEVICE_FAULT, STATUS_NO_MEMORY};
use base_source::Source;
use cyr_top::{Job, WordFault, job, paths, run, run_job};
use disk_kinds::{FileDisk, FileHost, FileSpool, StdinSource};
use rand_core::Rng;
use rand_pcg::Pcg32;
use std::alloc::Global;
use std::io::ErrorKind;
use std::process::ExitCode;
use std::rt::Env;
use std::time::Clock;
use std::{env, io};

mod apart;
#[cfg(test)]
mod tests;

/// The status where the words cannot be had as text.
const STATUS_NO_WORDS: u8 = 71;

// The command line without the program's own name.
fn words_of(rt: &(impl Env + AllocGlobal)) -> io::Result<Vec<String>> {
    let mut words = Vec::new(rt.alloc());
    for word in env::args(rt)?.skip(1) {
        words.push(word)?;
    }
    Ok(words)
}

// Says why there was no run, and ends with this status.
fn refused(rt: &impl Eprint, why: &str, status: u8) -> ExitCode
    ensures { exit_status result ≡ status }
{
    let _ = rt.eprintln(why);
    ExitCode::from(status)
}

// The nanoseconds since 1970, or 0 where the clock cannot be read.
fn nanoseconds(clock: &impl Clock) -> u64 {
    match clock.since_1970() {
        Ok(time) => u64::try_from(time.as_nanos()).unwrap_or(0),
        Err(_) => 0,
    }
}

// The seconds since 1970, or 0 where the clock cannot be read.
fn seconds(clock: &impl Clock) -> u64 {
    match clock.since_1970() {
        Ok(time) => time.as_secs(),
        Err(_) => 0,
    }
}

// Does the job, and ends with the status of its note.
fn end_job<H: Host, D: Disk, S: Spool, I: Source, R: Rng>(
    alloc: Global,
    job: &Job,
    host: &mut H,
    second: &mut D,
    spool: &mut S,
    input: &mut I,
    now: u64,
    rng: &mut R,
) -> ExitCode
    requires { GaveNoName (S.state spool.old) }
    ensures note { (note : Note) × (exit_status result ≡ status_of note)
        × Warns note (H.streams host.old) (H.streams host.new)
        × Ran note (H.state host.old) (H.state host.new)
        × Faults SecondDevice note (D.state second.old).faults (D.state second.new).faults
        × Faults SpoolDevice note (S.state spool.old).faults (S.state spool.new).faults
        × Faults InputDevice note (I.state input.old).faults (I.state input.new).faults
        × (is_built job.now ≡ true → OnDatabase
        (inputs (R.stream rng.old) (I.state input.old).left)
        (λ asked. UnlessRepack asked.action
        (KeepsPromises asked (moment (H.state host.old) (H.streams host.old))
        (but_warned (H.state host.new) (H.streams host.old) (H.streams host.new)) note)) job.now)
        × (is_built job.now ≡ true → OnRepack
        (λ asked. DoesRepack asked (H.state host.old) (H.state host.new) note) job.now)
        × OnConversion (λ asked. DoesConversion asked
        (with_both (H.state host.old) (D.state second.old) (R.stream rng.old))
        (with_both (H.state host.new) (D.state second.new) (R.stream rng.new)) note) job.now
        × OnFolder (λ options. DoesRebuild (rebuild_of (S.state spool.old) now options)
        (moment (H.state host.old) (H.streams host.old))
        (but_warned (H.state host.new) (H.streams host.old) (H.streams host.new)) note) job.now }
    ensures files { shown_files (S.state spool.new) ≡ shown_files (S.state spool.old) }
    ensures rest { H.host_rest host.old host.new }
{
    ExitCode::from(run_job(alloc, job, host, second, spool, input, now, rng).status)
}

// Answers words that stand for no job, and ends with the status of the note.
fn end_words<H: Host, D: Disk, S: Spool, I: Source, R: Rng>(
    alloc: Global,
    words: &[String],
    host: &mut H,
    second: &mut D,
    spool: &mut S,
    input: &mut I,
    now: u64,
    rng: &mut R,
) -> ExitCode
    requires { GaveNoName (S.state spool.old) }
    ensures note { (note : Note) × (exit_status result ≡ status_of note)
        × Warns note (H.streams host.old) (H.streams host.new)
        × Ran note (H.state host.old) (H.state host.new)
        × (note ≡ Note.Usage → built_job_of (map string_bytes words.now) ≡ None) }
    ensures rest { H.host_rest host.old host.new }
{
    ExitCode::from(run(alloc, words, host, second, spool, input, now, rng).status)
}

// The path, or an empty one.
fn or_empty(alloc: Global, path: Option<Text>) -> Result<Text, NoMemory>
    ensures { IfOk result (λ text. text ≡ unwrap_or path []) }
{
    match path {
        Some(path) => Ok(path),
        None => Text::of(alloc, ""),
    }
}

// The path of the job's main file.
fn main_path(alloc: Global, job: &Job) -> Result<Text, NoMemory>
    ensures { IfOk result (λ path. path ≡ main_path_of job.now) }
{
    Ok(paths(alloc, job)?.main)
}

// The path of the job's second file, or an empty one where it has none.
fn second_path(alloc: Global, job: &Job) -> Result<Text, NoMemory>
    ensures { IfOk result (λ path. path ≡ unwrap_or (second_path_of job.now) []) }
{
    let path = paths(alloc, job)?.second;
    or_empty(alloc, path)
}

// The path of the job's folder, or an empty one where it has none.
fn folder_path(alloc: Global, job: &Job) -> Result<Text, NoMemory>
    ensures { IfOk result (λ path. path ≡ unwrap_or (folder_path_of job.now) []) }
{
    let path = paths(alloc, job)?.folder;
    or_empty(alloc, path)
}

// Does a job over the real files that it names. One whose new file would be the one that it reads is refused.
fn do_job(rt: HostRuntime, job: &Job) -> Result<ExitCode, NoMemory> {
    let alloc = rt.alloc();
    let main = main_path(alloc, job)?;
    let second = second_path(alloc, job)?;
    let folder = folder_path(alloc, job)?;
    if matches!(job, Job::Convert { .. }) && !are_apart(&rt, alloc, &main, &second)? {
        let status = STATUS_DEVICE_FAULT;
        return Ok(refused(&rt, "device fault: second", status));
    }
    let now = seconds(&rt);
    let mut rng = Pcg32::new(nanoseconds(&rt), 0);
    let mut input = StdinSource::new(rt);
    let mut spool = FileSpool::new(rt, folder);
    let mut second = FileDisk::new(rt, second);
    let mut host = FileHost::new(rt, main);
    Ok(end_job(
        alloc,
        job,
        &mut host,
        &mut second,
        &mut spool,
        &mut input,
        now,
        &mut rng,
    ))
}

// Answers words that stand for no job. No file is named, and none is touched.
fn answer_words(rt: HostRuntime, words: &[String]) -> Result<ExitCode, NoMemory> {
    let alloc = rt.alloc();
    let mut rng = Pcg32::new(0, 0);
    let mut input = StdinSource::new(rt);
    let mut spool = FileSpool::new(rt, Text::of(alloc, "")?);
    let mut second = FileDisk::new(rt, Text::of(alloc, "")?);
    let mut host = FileHost::new(rt, Text::of(alloc, "")?);
    Ok(end_words(
        alloc,
        words,
        &mut host,
        &mut second,
        &mut spool,
        &mut input,
        0,
        &mut rng,
    ))
}

fn main(rt: HostRuntime) -> ExitCode {
    let words = match words_of(&rt) {
        Ok(words) => words,
        Err(fault) if fault.kind() == ErrorKind::OutOfMemory => {
            return refused(&rt, "no memory", STATUS_NO_MEMORY);
        }
        Err(_) => return refused(&rt, "no words", STATUS_NO_WORDS),
    };
    let ended = match job(rt.alloc(), &words) {
        Ok(job) => do_job(rt, &job),
        Err(WordFault::NoMemory) => Err(NoMemory),
        Err(WordFault::Usage) => answer_words(rt, &words),
    };
    match ended {
        Ok(code) => code,
        Err(NoMemory) => refused(&rt, "no memory", STATUS_NO_MEMORY),
    }
}
