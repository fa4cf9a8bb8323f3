// Actions over the host's main file, by the files of a backend.
ghost use Rattle.std.specs.Prelude.{◌≡◌, ◌≤◌, true, false, []};
ghost use Rattle.base_devices.specs.Causes.{HasCause};
ghost use Rattle.base_devices.specs.HostCalls.{moment};
ghost use Rattle.base_notes.specs.declared.action.Action.TheVariants.{Consistent, Exercise};
ghost use Rattle.cyr_top.specs.Actions.{DoesAction, DrawsFor, IsMade};
ghost use Rattle.cyr_top.specs.Asked.{asking, is_done};
ghost use Rattle.db_core.specs.Sessions.{DbLaws};
ghost use Rattle.db_exercise.specs.declared.changes.TheConstants.{ROUND_LIMIT};
ghost use Rattle.db_tool.specs.Tasks.{CanAct, given};
ghost use Rattle.rand_core.specs.Stream.{Stream};

use crate::checking::{end_with, flaw_of, line_of_flaw};
use crate::files::Files;
use crate::getting::Acts;
use base_devices::{Failed, Host};
use base_notes::{Action, Device, Note};
use db_core::Db;
use db_exercise::exercise;
use db_tool::{HOST_FAULT, act, note_of_opening};
use rand_core::Rng;
use std::alloc::Global;

/// Makes the main file where it is absent.
pub(crate) fn make_absent<H: Host, B: Db<H> + Drop, F: Files<H, B>>(
    host: &mut H,
) -> Result<(), Failed>
    ensures made { IsMade B.kind (H.state host.old) (H.state host.new) result }
    ensures cause { HasCause (H.state host.old).faults (H.state host.new).faults result }
    ensures rest { H.disk_rest host.old host.new }
{
    match host.length() {
        Ok(Some(_)) => Ok(()),
        Ok(None) => F::create(host),
        Err(fault) => Err(fault),
    }
}

// Prints whether the main file opens, or its first flaw. It only reads.
fn check<H: Host, B: Db<H> + Drop, F: Files<H, B>>(alloc: Global, host: &mut H) -> Note
    requires { DbLaws B.kind }
    ensures does { (words : Stream)
        → DoesAction (asking B.kind false Consistent (given words []))
        (moment (H.state host.old) (H.streams host.old))
        (moment (H.state host.new) (H.streams host.new)) result }
    ensures rest { H.host_rest host.old host.new }
{
    let fault = match F::verify_db(alloc, host) {
        Ok(()) => return end_with(host, "consistent\n", Note::Done),
        Err(fault) => fault,
    };
    match flaw_of(fault) {
        Some(flaw) => end_with(host, line_of_flaw(flaw).as_str(), Note::Answer),
        None => note_of_opening(Device::Host, fault),
    }
}

/// Opens the main file and does an action with it.
pub(crate) fn open_and_act<H: Host, B: Db<H> + Drop, F: Files<H, B>, R: Rng>(
    alloc: Global,
    action: &Action,
    host: &mut H,
    rng: &mut R,
) -> Note
    requires laws { DbLaws B.kind }
    requires can { CanAct action.now }
    ensures does { DoesAction (asking B.kind false action.now (given (R.stream rng.old) []))
        (moment (H.state host.old) (H.streams host.old))
        (moment (H.state host.new) (H.streams host.new)) result }
    ensures draws { DrawsFor (asking B.kind false action.now (given (R.stream rng.old) []))
        (H.state host.old) (R.stream rng.old) (R.stream rng.new) result }
    ensures rest { H.host_rest host.old host.new }
{
    match F::open_db(alloc, host) {
        Ok(mut db) => act(alloc, action, &mut db, host, rng).note,
        Err(fault) => note_of_opening(Device::Host, fault),
    }
}

// Opens the main file and does generated transactions with it.
fn open_and_exercise<H: Host, B: Db<H> + Drop, F: Files<H, B>, R: Rng>(
    alloc: Global,
    rounds: u32,
    host: &mut H,
    rng: &mut R,
) -> Note
    requires laws { DbLaws B.kind }
    requires rounds { rounds ≤ ROUND_LIMIT }
    ensures does { DoesAction (asking B.kind false (Exercise rounds) (given (R.stream rng.old) []))
        (moment (H.state host.old) (H.streams host.old))
        (moment (H.state host.new) (H.streams host.new)) result }
    ensures draws { DrawsFor (asking B.kind false (Exercise rounds) (given (R.stream rng.old) []))
        (H.state host.old) (R.stream rng.old) (R.stream rng.new) result }
    ensures rest { H.host_rest host.old host.new }
{
    match F::open_db(alloc, host) {
        Ok(mut db) => exercise(alloc, rounds, &mut db, host, rng).note,
        Err(fault) => note_of_opening(Device::Host, fault),
    }
}

// Does an action over the main file as it is.
fn do_action<H: Host, B: Db<H> + Drop, F: Acts<H, B>, R: Rng>(
    alloc: Global,
    action: &Action,
    host: &mut H,
    rng: &mut R,
) -> Note
    requires laws { DbLaws B.kind }
    requires done { is_done action.now ≡ true }
    ensures does { DoesAction (asking B.kind false action.now (given (R.stream rng.old) []))
        (moment (H.state host.old) (H.streams host.old))
        (moment (H.state host.new) (H.streams host.new)) result }
    ensures draws { DrawsFor (asking B.kind false action.now (given (R.stream rng.old) []))
        (H.state host.old) (R.stream rng.old) (R.stream rng.new) result }
    ensures rest { H.host_rest host.old host.new }
{
    match action {
        Action::Consistent => check::<H, B, F>(alloc, host),
        Action::Exercise { rounds } => {
            open_and_exercise::<H, B, F, R>(alloc, *rounds, host, rng)
        }
        _ => F::act(alloc, action, host, rng),
    }
}

/// Does an action over the main file, which is made first where it is absent and `make` asks for it.
pub(crate) fn on_files<H: Host, B: Db<H> + Drop, F: Acts<H, B>, R: Rng>(
    alloc: Global,
    make: bool,
    action: &Action,
    host: &mut H,
    rng: &mut R,
) -> Note
    requires laws { DbLaws B.kind }
    requires done { is_done action.now ≡ true }
    ensures does { DoesAction (asking B.kind make action.now (given (R.stream rng.old) []))
        (moment (H.state host.old) (H.streams host.old))
        (moment (H.state host.new) (H.streams host.new)) result }
    ensures draws { DrawsFor (asking B.kind make action.now (given (R.stream rng.old) []))
        (H.state host.old) (R.stream rng.old) (R.stream rng.new) result }
    ensures rest { H.host_rest host.old host.new }
{
    if !make {
        return do_action::<H, B, F, R>(alloc, action, host, rng);
    }
    match make_absent::<H, B, F>(host) {
        Ok(()) => do_action::<H, B, F, R>(alloc, action, host, rng),
        Err(_) => HOST_FAULT,
    }
}
