// What is asked for is done over the main file: a script of standard input, a repack, or one action.
ghost use Rattle.std.specs.Prelude.{◌≡◌, ◌⊎◌, ℕ, true, false, List, Some};
ghost use Rattle.base_devices.specs.HostCalls.{moment};
ghost use Rattle.base_notes.specs.declared.action.Action.TheVariants.{Batch};
ghost use Rattle.base_notes.specs.declared.note.Device.TheVariants.{Host as HostDevice, Input as InputDevice};
ghost use Rattle.cyr_top.specs.Actions.{DoesAction, DrawsFor};
ghost use Rattle.cyr_top.specs.Asked.{IfRepack, IfUnread, OnScript, UnlessRepack, asking, is_ready, is_repack, kind_of, reads_script, repack_of};
ghost use Rattle.cyr_top.specs.Repacking.{DoesRepack, repacking};
ghost use Rattle.cyr_top.specs.Stated.{IsBuilt};
ghost use Rattle.base_notes.specs.declared.note.Note.{Note};
ghost use Rattle.db_core.specs.Sessions.{DbLaws};
ghost use Rattle.db_repack.specs.Repacking.{RepacksOnce, repacking_by};
ghost use Rattle.db_script.specs.Batch.{IsScriptNote};
ghost use Rattle.db_tool.specs.Tasks.{given};
ghost use Rattle.db_tool.specs.ToolNotes.{Faults};

use crate::acting::{make_absent, on_files};
use crate::files::{Files, FlatFiles, TwoskipFiles};
use crate::getting::Acts;
use crate::repacking::repack_files;
use base_devices::Host;
use base_notes::{Action, Backend, Device, Note};
use base_source::Source;
use db_core::Db;
use db_script::batch;
use db_tool::{HOST_FAULT, note_of_opening};
use flat_db::FlatDb;
use rand_core::Rng;
use std::alloc::Global;
use twoskip::Twoskip;

// Opens the main file and does a script with it.
fn open_and_batch<H: Host, B: Db<H> + Drop, F: Files<H, B>, I: Source, R: Rng>(
    alloc: Global,
    host: &mut H,
    input: &mut I,
    rng: &mut R,
) -> Note
    requires { DbLaws B.kind }
    ensures does { (script : List ℕ) → (I.state input.old).left ≡ Some script
        → DoesAction (asking B.kind false Batch (given (R.stream rng.old) script))
        (moment (H.state host.old) (H.streams host.old))
        (moment (H.state host.new) (H.streams host.new)) result }
    ensures draws { (script : List ℕ) → (I.state input.old).left ≡ Some script
        → DrawsFor (asking B.kind false Batch (given (R.stream rng.old) script))
        (H.state host.old) (R.stream rng.old) (R.stream rng.new) result }
    ensures built { IsBuilt result ⊎ IsScriptNote result }
    ensures no_usage { result ≡ Note.Usage → ⊥ }
    ensures faults { Faults HostDevice result (H.state host.old).faults (H.state host.new).faults }
    ensures input_faults { Faults InputDevice result (I.state input.old).faults
        (I.state input.new).faults }
    ensures warned { (H.streams host.new).warned ≡ (H.streams host.old).warned }
    ensures rest { H.host_rest host.old host.new }
{
    match F::open_db(alloc, host) {
        Ok(mut db) => batch(alloc, &mut db, host, input, rng).note,
        Err(fault) => note_of_opening(Device::Host, fault),
    }
}

// Does a script over the main file, which is made first where it is absent and `make` asks for it.
fn on_script<H: Host, B: Db<H> + Drop, F: Files<H, B>, I: Source, R: Rng>(
    alloc: Global,
    make: bool,
    host: &mut H,
    input: &mut I,
    rng: &mut R,
) -> Note
    requires { DbLaws B.kind }
    ensures does { (script : List ℕ) → (I.state input.old).left ≡ Some script
        → DoesAction (asking B.kind make Batch (given (R.stream rng.old) script))
        (moment (H.state host.old) (H.streams host.old))
        (moment (H.state host.new) (H.streams host.new)) result }
    ensures draws { (script : List ℕ) → (I.state input.old).left ≡ Some script
        → DrawsFor (asking B.kind make Batch (given (R.stream rng.old) script))
        (H.state host.old) (R.stream rng.old) (R.stream rng.new) result }
    ensures built { IsBuilt result ⊎ IsScriptNote result }
    ensures no_usage { result ≡ Note.Usage → ⊥ }
    ensures faults { Faults HostDevice result (H.state host.old).faults (H.state host.new).faults }
    ensures input_faults { Faults InputDevice result (I.state input.old).faults
        (I.state input.new).faults }
    ensures warned { (H.streams host.new).warned ≡ (H.streams host.old).warned }
    ensures rest { H.host_rest host.old host.new }
{
    if !make {
        return open_and_batch::<H, B, F, I, R>(alloc, host, input, rng);
    }
    match make_absent::<H, B, F>(host) {
        Ok(()) => open_and_batch::<H, B, F, I, R>(alloc, host, input, rng),
        Err(_) => HOST_FAULT,
    }
}

// Whether an action is a script.
fn is_script(action: &Action) -> bool
    ensures { result ≡ reads_script action.now }
{
    matches!(action, Action::Batch)
}

// Whether an action rewrites the file afresh.
fn is_rewriting(action: &Action) -> bool
    ensures { result ≡ is_repack action.now }
{
    matches!(action, Action::Repack)
}

// Does what is asked for over the main file, which is made first where it is absent and `make` asks for it.
fn on_database<H: Host, B: Db<H> + Drop, F: Acts<H, B>, I: Source, R: Rng>(
    alloc: Global,
    make: bool,
    action: &Action,
    host: &mut H,
    input: &mut I,
    rng: &mut R,
) -> Note
    requires laws { DbLaws B.kind }
    requires once { RepacksOnce (repacking_by B.kind F.repacked) }
    requires ready { is_ready action.now ≡ true }
    ensures does { OnScript action.now (I.state input.old).left (λ script.
        UnlessRepack action.now
        (DoesAction (asking B.kind make action.now (given (R.stream rng.old) script))
        (moment (H.state host.old) (H.streams host.old))
        (moment (H.state host.new) (H.streams host.new)) result)) }
    ensures draws { OnScript action.now (I.state input.old).left (λ script.
        UnlessRepack action.now
        (DrawsFor (asking B.kind make action.now (given (R.stream rng.old) script))
        (H.state host.old) (R.stream rng.old) (R.stream rng.new) result)) }
    ensures repacks { IfRepack action.now (DoesRepack (repacking (repacking_by B.kind F.repacked) make)
        (H.state host.old) (H.state host.new) result) }
    ensures silent { IfRepack action.now ((H.streams host.new ≡ H.streams host.old)
        × (R.stream rng.new ≡ R.stream rng.old)) }
    ensures unasked { IfUnread (input.new ≡ input.old) action.now }
    ensures built { IsBuilt result ⊎ IsScriptNote result }
    ensures no_usage { result ≡ Note.Usage → ⊥ }
    ensures faults { Faults HostDevice result (H.state host.old).faults (H.state host.new).faults }
    ensures input_faults { Faults InputDevice result (I.state input.old).faults
        (I.state input.new).faults }
    ensures warned { (H.streams host.new).warned ≡ (H.streams host.old).warned }
    ensures rest { H.host_rest host.old host.new }
{
    if is_script(action) {
        return on_script::<H, B, F, I, R>(alloc, make, host, input, rng);
    }
    if is_rewriting(action) {
        return repack_files::<H, B, F>(alloc, make, host);
    }
    on_files::<H, B, F, R>(alloc, make, action, host, rng)
}

/// Does what is asked for over the main file, by the files of its backend: here the backend is chosen.
pub(crate) fn on_backend<H: Host, I: Source, R: Rng>(
    alloc: Global,
    make: bool,
    backend: Backend,
    action: &Action,
    host: &mut H,
    input: &mut I,
    rng: &mut R,
) -> Note
    requires { is_ready action.now ≡ true }
    ensures does { OnScript action.now (I.state input.old).left (λ script.
        UnlessRepack action.now
        (DoesAction (asking (kind_of backend) make action.now (given (R.stream rng.old) script))
        (moment (H.state host.old) (H.streams host.old))
        (moment (H.state host.new) (H.streams host.new)) result)) }
    ensures draws { OnScript action.now (I.state input.old).left (λ script.
        UnlessRepack action.now
        (DrawsFor (asking (kind_of backend) make action.now (given (R.stream rng.old) script))
        (H.state host.old) (R.stream rng.old) (R.stream rng.new) result)) }
    ensures repacks { IfRepack action.now (DoesRepack (repacking (repack_of backend) make)
        (H.state host.old) (H.state host.new) result) }
    ensures silent { IfRepack action.now ((H.streams host.new ≡ H.streams host.old)
        × (R.stream rng.new ≡ R.stream rng.old)) }
    ensures unasked { IfUnread (input.new ≡ input.old) action.now }
    ensures built { IsBuilt result ⊎ IsScriptNote result }
    ensures no_usage { result ≡ Note.Usage → ⊥ }
    ensures faults { Faults HostDevice result (H.state host.old).faults (H.state host.new).faults }
    ensures input_faults { Faults InputDevice result (I.state input.old).faults
        (I.state input.new).faults }
    ensures warned { (H.streams host.new).warned ≡ (H.streams host.old).warned }
    ensures rest { H.host_rest host.old host.new }
{
    match backend {
        Backend::Flat => {
            on_database::<H, FlatDb, FlatFiles, I, R>(alloc, make, action, host, input, rng)
        }
        Backend::Twoskip => {
            on_database::<H, Twoskip, TwoskipFiles, I, R>(alloc, make, action, host, input, rng)
        }
    }
}
