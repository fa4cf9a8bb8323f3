// The top call: words, the host's files and streams in, the status and its note out.
ghost use Rattle.std.specs.Prelude.{◌≡◌, ◌⊎◌, ℕ, true, false, List, [], None, map, string_bytes};
ghost use Rattle.base_devices.specs.CrashImages.{Shows, WhereRead};
ghost use Rattle.base_devices.specs.Frames.{SameDisk};
ghost use Rattle.base_devices.specs.HostCalls.{moment, told_with};
ghost use Rattle.base_devices.specs.SpoolCalls.{GaveNoName, shown_files};
ghost use Rattle.base_notes.specs.Notes.{status_of};
ghost use Rattle.base_notes.specs.declared.note.Device.TheVariants.{Input as InputDevice, Second as SecondDevice, Spool as SpoolDevice};
ghost use Rattle.base_notes.specs.declared.note.Note.{Note};
ghost use Rattle.cyr_top.specs.Actions.{DoesAction, DrawsFor, but_warned};
ghost use Rattle.cyr_top.specs.Asked.{IfUnasked, OnDatabase, OnOneDatabase, UnlessRepack, WhereAsked, WhereBuilt, built_job_of, inputs, is_built, is_ready};
ghost use Rattle.cyr_top.specs.Converting.{DoesConversion, OnConversion, WhereConverting, with_both};
ghost use Rattle.cyr_top.specs.Crashes.{StartsAt, LeavesPrefixes, LeavesAtEnd, KeepsPromises};
ghost use Rattle.cyr_top.specs.Rebuilding.{DoesRebuild, OnFolder, WhereRebuilding, rebuild_of};
ghost use Rattle.cyr_top.specs.Repacking.{DoesRepack, OnRepack, WhereRepacking};
ghost use Rattle.cyr_top.specs.Stated.{StatedResult, Ran, Warns, SamePrints};
ghost use Rattle.db_core.specs.Sessions.{DbState};
ghost use Rattle.db_tool.specs.ToolNotes.{Faults, IsFault, IsCutOff};

use crate::converting::convert;
use crate::rebuilding::reconstruct;
use crate::scripting::on_backend;
use base_devices::{Disk, Host, Spool};
use base_notes::{Action, Note, Outcome};
use base_source::Source;
use db_exercise::ROUND_LIMIT;
use rand_core::Rng;
use std::alloc::Global;
use tool_words::{Job, WordFault, job};

// Whether an action is built.
fn can_do(action: &Action) -> bool
    ensures { result ≡ is_ready action.now }
{
    match action {
        Action::Show { .. }
        | Action::Get { .. }
        | Action::Set { .. }
        | Action::Delete { .. }
        | Action::Consistent
        | Action::Batch
        | Action::Repack => true,
        Action::Exercise { rounds } => *rounds <= ROUND_LIMIT,
    }
}

// Does a job, where it is built.
fn do_job<H: Host, D: Disk, S: Spool, I: Source, R: Rng>(
    alloc: Global,
    job: &Job,
    host: &mut H,
    second: &mut D,
    spool: &mut S,
    input: &mut I,
    now: u64,
    rng: &mut R,
) -> Note
    requires { GaveNoName (S.state spool.old) }
    ensures does { is_built job.now ≡ true → OnDatabase
        (inputs (R.stream rng.old) (I.state input.old).left)
        (λ asked. UnlessRepack asked.action
        (DoesAction asked (moment (H.state host.old) (H.streams host.old))
        (moment (H.state host.new) (H.streams host.new)) result)) job.now }
    ensures draws { is_built job.now ≡ true → OnDatabase
        (inputs (R.stream rng.old) (I.state input.old).left)
        (λ asked. UnlessRepack asked.action
        (DrawsFor asked (H.state host.old) (R.stream rng.old) (R.stream rng.new) result)) job.now }
    ensures repacks { is_built job.now ≡ true → OnRepack
        (λ asked. DoesRepack asked (H.state host.old) (H.state host.new) result) job.now }
    ensures rewrites { is_built job.now ≡ true → OnRepack
        (λ _. (H.streams host.new ≡ H.streams host.old)
        × (R.stream rng.new ≡ R.stream rng.old)) job.now }
    ensures unread { OnOneDatabase ((spool.new ≡ spool.old) × (second.new ≡ second.old)) job.now }
    ensures unasked { IfUnasked (input.new ≡ input.old) job.now }
    ensures rebuilds { OnFolder (λ options. DoesRebuild (rebuild_of (S.state spool.old) now options)
        (moment (H.state host.old) (H.streams host.old))
        (moment (H.state host.new) (H.streams host.new)) result) job.now }
    ensures undrawn { OnFolder (λ _. (R.stream rng.new ≡ R.stream rng.old)
        × (second.new ≡ second.old)) job.now }
    ensures converts { OnConversion (λ asked. DoesConversion asked
        (with_both (H.state host.old) (D.state second.old) (R.stream rng.old))
        (with_both (H.state host.new) (D.state second.new) (R.stream rng.new)) result) job.now }
    ensures silent { OnConversion (λ _. (H.streams host.new ≡ H.streams host.old)
        × (spool.new ≡ spool.old)) job.now }
    ensures asked { is_built job.now ≡ true → result ≡ Note.Usage → ⊥ }
    ensures ran { Ran result (H.state host.old) (H.state host.new) }
    ensures second_faults { Faults SecondDevice result (D.state second.old).faults
        (D.state second.new).faults }
    ensures spool_faults { Faults SpoolDevice result (S.state spool.old).faults
        (S.state spool.new).faults }
    ensures input_faults { Faults InputDevice result (I.state input.old).faults
        (I.state input.new).faults }
    ensures usage { is_built job.now ≡ false → (result ≡ Note.Usage) × (host.new ≡ host.old)
        × (second.new ≡ second.old) × (spool.new ≡ spool.old) × (input.new ≡ input.old)
        × (R.stream rng.new ≡ R.stream rng.old) }
    ensures warned { (H.streams host.new).warned ≡ (H.streams host.old).warned }
    ensures files { shown_files (S.state spool.new) ≡ shown_files (S.state spool.old) }
    ensures rest { H.host_rest host.old host.new }
    ensures second_rest { D.disk_rest second.old second.new }
    ensures spool_rest { S.spool_rest spool.old spool.new }
{
    match job {
        Job::Dbtool {
            make,
            backend,
            action,
            ..
        } if can_do(action) => on_backend(alloc, *make, *backend, action, host, input, rng),
        Job::Convert {
            from_kind,
            to_kind,
            ..
        } => convert(alloc, host, *from_kind, second, *to_kind, rng).note,
        Job::Reconstruct { options, .. } => reconstruct(alloc, options, host, spool, now),
        _ => Note::Usage,
    }
}

// Does what the words ask for.
fn do_words<H: Host, D: Disk, S: Spool, I: Source, R: Rng>(
    alloc: Global,
    words: &[String],
    host: &mut H,
    second: &mut D,
    spool: &mut S,
    input: &mut I,
    now: u64,
    rng: &mut R,
) -> Note
    requires { GaveNoName (S.state spool.old) }
    ensures does { WhereAsked (map string_bytes words.now)
        (inputs (R.stream rng.old) (I.state input.old).left)
        (λ asked. UnlessRepack asked.action
        (DoesAction asked (moment (H.state host.old) (H.streams host.old))
        (moment (H.state host.new) (H.streams host.new)) result)) }
    ensures draws { WhereAsked (map string_bytes words.now)
        (inputs (R.stream rng.old) (I.state input.old).left)
        (λ asked. UnlessRepack asked.action
        (DrawsFor asked (H.state host.old) (R.stream rng.old) (R.stream rng.new) result)) }
    ensures repacks { WhereRepacking (map string_bytes words.now)
        (λ asked. DoesRepack asked (H.state host.old) (H.state host.new) result) }
    ensures rewrites { WhereRepacking (map string_bytes words.now)
        (λ _. (H.streams host.new ≡ H.streams host.old)
        × (R.stream rng.new ≡ R.stream rng.old)) }
    ensures unread { WhereBuilt (map string_bytes words.now)
        (OnOneDatabase ((spool.new ≡ spool.old) × (second.new ≡ second.old))) }
    ensures unasked { WhereBuilt (map string_bytes words.now) (IfUnasked (input.new ≡ input.old)) }
    ensures rebuilds { WhereRebuilding (map string_bytes words.now)
        (λ options. DoesRebuild (rebuild_of (S.state spool.old) now options)
        (moment (H.state host.old) (H.streams host.old))
        (moment (H.state host.new) (H.streams host.new)) result) }
    ensures undrawn { WhereRebuilding (map string_bytes words.now)
        (λ _. (R.stream rng.new ≡ R.stream rng.old) × (second.new ≡ second.old)) }
    ensures converts { WhereConverting (map string_bytes words.now) (λ asked. DoesConversion asked
        (with_both (H.state host.old) (D.state second.old) (R.stream rng.old))
        (with_both (H.state host.new) (D.state second.new) (R.stream rng.new)) result) }
    ensures silent { WhereConverting (map string_bytes words.now)
        (λ _. (H.streams host.new ≡ H.streams host.old) × (spool.new ≡ spool.old)) }
    ensures ran { Ran result (H.state host.old) (H.state host.new) }
    ensures second_faults { Faults SecondDevice result (D.state second.old).faults
        (D.state second.new).faults }
    ensures spool_faults { Faults SpoolDevice result (S.state spool.old).faults
        (S.state spool.new).faults }
    ensures input_faults { Faults InputDevice result (I.state input.old).faults
        (I.state input.new).faults }
    ensures usage { result ≡ Note.Usage → built_job_of (map string_bytes words.now) ≡ None }
    ensures none { built_job_of (map string_bytes words.now) ≡ None
        → ((result ≡ Note.Usage) ⊎ (result ≡ Note.Memory)) × (host.new ≡ host.old)
        × (second.new ≡ second.old) × (spool.new ≡ spool.old) × (input.new ≡ input.old)
        × (R.stream rng.new ≡ R.stream rng.old) }
    ensures warned { (H.streams host.new).warned ≡ (H.streams host.old).warned }
    ensures files { shown_files (S.state spool.new) ≡ shown_files (S.state spool.old) }
    ensures rest { H.host_rest host.old host.new }
    ensures second_rest { D.disk_rest second.old second.new }
    ensures spool_rest { S.spool_rest spool.old spool.new }
{
    match job(alloc, words) {
        Ok(job) => do_job(alloc, &job, host, second, spool, input, now, rng),
        Err(WordFault::Usage) => Note::Usage,
        Err(WordFault::NoMemory) => Note::Memory,
    }
}

// Prints the note's text to standard error, and ends with the note and its status.
fn end_run<H: Host>(host: &mut H, note: Note) -> Outcome
    ensures note { result.note ≡ note }
    ensures status { result.status ≡ status_of note }
    ensures disk { SameDisk (H.state host.old) (H.state host.new) }
    ensures told { (H.streams host.new).told ≡ (H.streams host.old).told }
    ensures tell_faults { (H.streams host.new).tell_faults ≡ (H.streams host.old).tell_faults }
    ensures warned { Warns note (H.streams host.old) (H.streams host.new) }
    ensures rest { H.host_rest host.old host.new }
{
    host.warn(note.text().as_str().as_bytes());
    Outcome {
        status: note.status(),
        note,
    }
}

/// Does a job that was read from the words before, as `run` does, and ends with its note and status.
pub fn run_job<H: Host, D: Disk, S: Spool, I: Source, R: Rng>(
    alloc: Global,
    job: &Job,
    host: &mut H,
    second: &mut D,
    spool: &mut S,
    input: &mut I,
    now: u64,
    rng: &mut R,
) -> Outcome
    requires { GaveNoName (S.state spool.old) }
    ensures promises { is_built job.now ≡ true → OnDatabase
        (inputs (R.stream rng.old) (I.state input.old).left)
        (λ asked. UnlessRepack asked.action
        (KeepsPromises asked (moment (H.state host.old) (H.streams host.old))
        (but_warned (H.state host.new) (H.streams host.old) (H.streams host.new)) result.note))
        job.now }
    ensures draws { is_built job.now ≡ true → OnDatabase
        (inputs (R.stream rng.old) (I.state input.old).left)
        (λ asked. UnlessRepack asked.action (DrawsFor asked (H.state host.old)
        (R.stream rng.old) (R.stream rng.new) result.note)) job.now }
    ensures repacks { is_built job.now ≡ true → OnRepack
        (λ asked. DoesRepack asked (H.state host.old) (H.state host.new) result.note) job.now }
    ensures rewrites { is_built job.now ≡ true → OnRepack
        (λ _. SamePrints (H.streams host.old) (H.streams host.new)
        × (R.stream rng.new ≡ R.stream rng.old)) job.now }
    ensures rebuilds { OnFolder (λ options. DoesRebuild (rebuild_of (S.state spool.old) now options)
        (moment (H.state host.old) (H.streams host.old))
        (but_warned (H.state host.new) (H.streams host.old) (H.streams host.new)) result.note)
        job.now }
    ensures converts { OnConversion (λ asked. DoesConversion asked
        (with_both (H.state host.old) (D.state second.old) (R.stream rng.old))
        (with_both (H.state host.new) (D.state second.new) (R.stream rng.new)) result.note)
        job.now }
    ensures silent { OnConversion (λ _. SamePrints (H.streams host.old) (H.streams host.new)
        × (spool.new ≡ spool.old)) job.now }
    ensures usage { is_built job.now ≡ false → (result.note ≡ Note.Usage)
        × SameDisk (H.state host.old) (H.state host.new)
        × SamePrints (H.streams host.old) (H.streams host.new) }

    ensures status { result.status ≡ status_of result.note }
    ensures ran { Ran result.note (H.state host.old) (H.state host.new) }
    ensures second_faults { Faults SecondDevice result.note (D.state second.old).faults
        (D.state second.new).faults }
    ensures spool_faults { Faults SpoolDevice result.note (S.state spool.old).faults
        (S.state spool.new).faults }
    ensures input_faults { Faults InputDevice result.note (I.state input.old).faults
        (I.state input.new).faults }
    ensures warned { Warns result.note (H.streams host.old) (H.streams host.new) }
    ensures files { shown_files (S.state spool.new) ≡ shown_files (S.state spool.old) }
    ensures rest { H.host_rest host.old host.new }
    ensures second_rest { D.disk_rest second.old second.new }
    ensures spool_rest { S.spool_rest spool.old spool.new }
{
    let note = do_job(alloc, job, host, second, spool, input, now, rng);
    end_run(host, note)
}

/// Does all that the program does: what the words ask for, over the host's files and streams.
///
/// `words` are the command line without the program's own name. The note's text goes to standard error. Words that
/// stand for no job that is built end with `usage`. `second` is the new file of a conversion, the spool the folder that a
/// rebuild reads, `input` the script of `batch`, and `now` the time in seconds since 1970. `docs/guarantees.md` says what
/// each clause means for a file.
pub fn run<H: Host, D: Disk, S: Spool, I: Source, R: Rng>(
    alloc: Global,
    words: &[String],
    host: &mut H,
    second: &mut D,
    spool: &mut S,
    input: &mut I,
    now: u64,
    rng: &mut R,
) -> Outcome
    requires { GaveNoName (S.state spool.old) }

    // Where the run starts from one map, each image that is left, wherever the run stops, opens to the map after a
    // prefix of its committed transactions that holds every acknowledged one, none in part; and at an end without a
    // fault of a device to the map after all of them, unless memory ran out.
    ensures crash { WhereAsked (map string_bytes words.now)
        (inputs (R.stream rng.old) (I.state input.old).left)
        (λ asked. (s : DbState) → StartsAt asked (H.state host.old) s
        → LeavesPrefixes asked s (H.state host.old) (H.state host.new)) }
    ensures end { WhereAsked (map string_bytes words.now)
        (inputs (R.stream rng.old) (I.state input.old).left)
        (λ asked. (s : DbState) → Shows (H.state host.old) → ¬ IsFault result.note
        → StartsAt asked (H.state host.old) s
        → LeavesAtEnd asked s (H.state host.old) (H.state host.new) result.note) }

    // Whatever note and output are stated for the file, the run ends with them, unless it was cut off.
    ensures exactly { WhereAsked (map string_bytes words.now)
        (inputs (R.stream rng.old) (I.state input.old).left)
        (λ asked. UnlessRepack asked.action
        (WhereRead (H.state host.old) (λ main. (wanted : Note) (output : List ℕ)
        → StatedResult asked main wanted output → IsCutOff result.note ⊎ ((result.note ≡ wanted)
        × ((H.streams host.new).told ≡ told_with (H.streams host.old).told output))))) }

    // What else is owed of an action: what is left of a file at each moment and at each end, also where it does not
    // open; which calls are not made; and the random words that are drawn.
    ensures does { WhereAsked (map string_bytes words.now)
        (inputs (R.stream rng.old) (I.state input.old).left)
        (λ asked. UnlessRepack asked.action
        (DoesAction asked (moment (H.state host.old) (H.streams host.old))
        (but_warned (H.state host.new) (H.streams host.old) (H.streams host.new)) result.note)) }
    ensures draws { WhereAsked (map string_bytes words.now)
        (inputs (R.stream rng.old) (I.state input.old).left)
        (λ asked. UnlessRepack asked.action (DrawsFor asked (H.state host.old)
        (R.stream rng.old) (R.stream rng.new) result.note)) }
    ensures unread { WhereBuilt (map string_bytes words.now)
        (OnOneDatabase ((spool.new ≡ spool.old) × (second.new ≡ second.old))) }
    ensures unasked { WhereBuilt (map string_bytes words.now) (IfUnasked (input.new ≡ input.old)) }

    // A repack that ends with `Done` left the file that takes the old one's place, and nothing else; wherever it stops,
    // the map is the one from before. Its note is the stated one, it prints nothing, and draws no random words.
    ensures repacks { WhereRepacking (map string_bytes words.now)
        (λ asked. DoesRepack asked (H.state host.old) (H.state host.new) result.note) }
    ensures rewrites { WhereRepacking (map string_bytes words.now)
        (λ _. SamePrints (H.streams host.old) (H.streams host.new)
        × (R.stream rng.new ≡ R.stream rng.old)) }

    // A rebuild that ends with `Done` printed the stated report and left the stated index; wherever it stops, the index
    // is one that could be left before, or the whole new one. It draws no random words, and no run changes a message.
    ensures rebuilds { WhereRebuilding (map string_bytes words.now)
        (λ options. DoesRebuild (rebuild_of (S.state spool.old) now options)
        (moment (H.state host.old) (H.streams host.old))
        (but_warned (H.state host.new) (H.streams host.old) (H.streams host.new)) result.note) }
    ensures undrawn { WhereRebuilding (map string_bytes words.now)
        (λ _. (R.stream rng.new ≡ R.stream rng.old) × (second.new ≡ second.old)) }
    ensures files { shown_files (S.state spool.new) ≡ shown_files (S.state spool.old) }

    // A conversion that ends with `Done` left the old file's map in the new one; wherever it stops, the new file is one
    // that could be left before, or the whole one, and the old one opens to its map. It prints nothing.
    ensures converts { WhereConverting (map string_bytes words.now) (λ asked. DoesConversion asked
        (with_both (H.state host.old) (D.state second.old) (R.stream rng.old))
        (with_both (H.state host.new) (D.state second.new) (R.stream rng.new)) result.note) }
    ensures silent { WhereConverting (map string_bytes words.now)
        (λ _. SamePrints (H.streams host.old) (H.streams host.new) × (spool.new ≡ spool.old)) }

    // The words give no job that is built: then the run answers so, and changes nothing but standard error.
    ensures usage { result.note ≡ Note.Usage → built_job_of (map string_bytes words.now) ≡ None }
    ensures none { built_job_of (map string_bytes words.now) ≡ None
        → ((result.note ≡ Note.Usage) ⊎ (result.note ≡ Note.Memory))
        × SameDisk (H.state host.old) (H.state host.new)
        × SamePrints (H.streams host.old) (H.streams host.new) × (second.new ≡ second.old)
        × (spool.new ≡ spool.old) × (input.new ≡ input.old)
        × (R.stream rng.new ≡ R.stream rng.old) }

    // A device fault is answered exactly where the count of that device rose, by one; there are no other notes than these;
    // the status is that of the note, and standard error gets its text.
    ensures status { result.status ≡ status_of result.note }
    ensures ran { Ran result.note (H.state host.old) (H.state host.new) }
    ensures second_faults { Faults SecondDevice result.note (D.state second.old).faults
        (D.state second.new).faults }
    ensures spool_faults { Faults SpoolDevice result.note (S.state spool.old).faults
        (S.state spool.new).faults }
    ensures input_faults { Faults InputDevice result.note (I.state input.old).faults
        (I.state input.new).faults }
    ensures warned { Warns result.note (H.streams host.old) (H.streams host.new) }
    ensures rest { H.host_rest host.old host.new }
    ensures second_rest { D.disk_rest second.old second.new }
    ensures spool_rest { S.spool_rest spool.old spool.new }
{
    let note = do_words(alloc, words, host, second, spool, input, now, rng);
    end_run(host, note)
}
