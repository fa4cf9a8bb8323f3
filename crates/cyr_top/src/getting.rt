// An action over the main file by what each backend is best at: of flat text one value is looked for,
// and a text is shown as it stands, and no map is made.
ghost use Rattle.std.specs.Prelude.{◌≡◌, [], false};
ghost use Rattle.base_devices.specs.HostCalls.{moment};
ghost use Rattle.base_notes.specs.declared.action.Action.TheVariants.{Get, Show};
ghost use Rattle.cyr_top.specs.Actions.{DoesAction, DrawsFor};
ghost use Rattle.cyr_top.specs.Asked.{asking};
ghost use Rattle.db_core.specs.Sessions.{DbLaws};
ghost use Rattle.db_tool.specs.Tasks.{CanAct, given};
ghost use Rattle.flat_db.specs.Sessions.{flat_kind};
ghost use Rattle.rand_core.specs.Stream.{Stream};

use crate::acting::open_and_act;
use crate::files::{Files, FlatFiles, TwoskipFiles};
use base_devices::Host;
use base_notes::{Action, Device, Note};
use db_core::Db;
use db_tool::{act, note_of_opening, print_text, print_value};
use flat_db::{FlatDb, Shown, fetch_db, open_shown};
use rand_core::Rng;
use std::alloc::Global;
use twoskip::Twoskip;

/// The actions over the files of a backend.
pub(crate) trait Acts<H: Host, B: Db<H>>: Files<H, B> {
    /// Does an action other than a check over the main file as it is.
    fn act<R: Rng>(alloc: Global, action: &Action, host: &mut H, rng: &mut R) -> Note
        requires laws { DbLaws B.kind }
        requires can { CanAct action.now }
        ensures does { DoesAction (asking B.kind false action.now (given (R.stream rng.old) []))
            (moment (H.state host.old) (H.streams host.old))
            (moment (H.state host.new) (H.streams host.new)) result }
        ensures draws { DrawsFor (asking B.kind false action.now (given (R.stream rng.old) []))
            (H.state host.old) (R.stream rng.old) (R.stream rng.new) result }
        ensures rest { H.host_rest host.old host.new };
}

// Prints the value of a key in the main file, which is flat text.
fn get_flat<H: Host>(alloc: Global, key: &[u8], host: &mut H) -> Note
    requires { DbLaws flat_kind }
    ensures does { (words : Stream)
        → DoesAction (asking flat_kind false (Get key.now) (given words []))
        (moment (H.state host.old) (H.streams host.old))
        (moment (H.state host.new) (H.streams host.new)) result }
    ensures draws { (words : Stream)
        → DrawsFor (asking flat_kind false (Get key.now) (given words []))
        (H.state host.old) words words result }
    ensures rest { H.host_rest host.old host.new }
{
    match fetch_db(alloc, host, key) {
        Ok(value) => print_value(alloc, key, &value, host),
        Err(fault) => note_of_opening(Device::Host, fault),
    }
}

// Prints all pairs of the main file, which is flat text.
fn show_flat<H: Host, R: Rng>(alloc: Global, action: &Action, host: &mut H, rng: &mut R) -> Note
    requires laws { DbLaws flat_kind }
    requires all { action.now ≡ Show [] }
    ensures does { DoesAction (asking flat_kind false action.now (given (R.stream rng.old) []))
        (moment (H.state host.old) (H.streams host.old))
        (moment (H.state host.new) (H.streams host.new)) result }
    ensures draws { DrawsFor (asking flat_kind false action.now (given (R.stream rng.old) []))
        (H.state host.old) (R.stream rng.old) (R.stream rng.new) result }
    ensures rest { H.host_rest host.old host.new }
{
    match open_shown(alloc, host) {
        Ok(Shown::Text(text)) => print_text(alloc, &text, host),
        Ok(Shown::Session(db)) => {
            let mut db = db;
            act(alloc, action, &mut db, host, rng).note
        }
        Err(fault) => note_of_opening(Device::Host, fault),
    }
}

impl<H: Host> Acts<H, FlatDb> for FlatFiles {
    fn act<R: Rng>(alloc: Global, action: &Action, host: &mut H, rng: &mut R) -> Note {
        match action {
            Action::Get { key } => get_flat(alloc, key.as_slice(), host),
            Action::Show { prefix } if prefix.as_slice().is_empty() => {
                show_flat(alloc, action, host, rng)
            }
            _ => open_and_act::<H, FlatDb, FlatFiles, R>(alloc, action, host, rng),
        }
    }
}

impl<H: Host> Acts<H, Twoskip> for TwoskipFiles {
    fn act<R: Rng>(alloc: Global, action: &Action, host: &mut H, rng: &mut R) -> Note {
        open_and_act::<H, Twoskip, TwoskipFiles, R>(alloc, action, host, rng)
    }
}
