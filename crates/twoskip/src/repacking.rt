// A twoskip file is rewritten afresh: a fresh layout of its live records, with the levels that they have.
ghost use Rattle.std.specs.Prelude.{◌≡◌, ◌<◌, None, IfOk, IfErr, OnOk, false, length};
ghost use Rattle.db_core.specs.Refusals.{IsDiskFault, LeavesDisk};
ghost use Rattle.db_core.specs.Sessions.{over};
ghost use Rattle.db_repack.specs.Repacking.{MayRefuse, Repacks, repack_refusal};
ghost use Rattle.skip_kind.specs.Kind.{skip_kind};
ghost use Rattle.skip_layout.specs.Items.{items_in};
ghost use Rattle.skip_seek.specs.Searches.{IsLive, live_of};
ghost use Rattle.skip_spec.specs.Layout.{Repacked};
ghost use Rattle.skip_txn.specs.Sessions.{Tied, bytes_of, session_state};
ghost use Rattle.twoskip.specs.Repacking.{IsRepackedFile, IsTidyFile, live_items_of, repacked_file, skip_repack};

use crate::opening::are_bytes;
use crate::replacing::replace_by;
use crate::session::Twoskip;
use base_bytes::{NoMemory, SKIP_LIMIT, Steps};
use base_devices::Disk;
use db_core::DbFault;
use skip_image::Image;
use skip_layout::{LayoutItem, lay_out, layout_size};
use skip_txn::Session;
use std::alloc::Global;
use std::marker::Brand;
use std::sync::ledger::{Blank, Ledger};

// Where the dummy stands, from which the live records are reached.
const DUMMY: u64 = 64;

fn live_items_counted<'a, L: Ledger>(
    blank: Blank,
    alloc: Global,
    image: &'a Image,
    count: u64,
) -> Result<Vec<LayoutItem<'a>>, NoMemory>
    requires name { blank.name ≡ L.name }
    requires parts { blank.parts ≡ L.parts }
    requires some { 0 < blank.parts }
    requires live { IsLive image.now.bytes }
    requires counted { count ≡ length (live_of image.now.bytes) }
    ensures { IfOk result (λ items. items_in items.items ≡ live_items_of image.now.bytes) }
{
    let mut steps = Steps::<L>::new(blank);
    let mut items = Vec::new(alloc);
    let Ok(()) = items.reserve(count as usize) else {
        return Err(NoMemory);
    };
    let mut at = image.successor(DUMMY, image.length(), &mut steps);
    for _ in 0..count {
        let (level, key, value) = (image.level(at), image.key(at), image.value(at));
        let Ok(()) = items.push(LayoutItem { level, key, value }) else {
            return Err(NoMemory);
        };
        at = image.successor(at, image.length(), &mut steps);
    }
    Ok(items)
}

// Level, key and value of each live record, of which there are so many. The steps from one to the next are not counted.
fn live_items<'a>(
    alloc: Global,
    image: &'a Image,
    count: u64,
) -> Result<Vec<LayoutItem<'a>>, NoMemory>
    requires live { IsLive image.now.bytes }
    requires counted { count ≡ length (live_of image.now.bytes) }
    ensures { IfOk result (λ items. items_in items.items ≡ live_items_of image.now.bytes) }
{
    live_items_counted::<Brand>(Blank::new(1), alloc, image, count)
}

// The file of the live records alone, in memory.
fn repacked_image(alloc: Global, session: &Session) -> Result<Image, DbFault>
    requires sound { (session_state session.now).is_broken ≡ false }
    requires tidy { IsTidyFile (bytes_of session.now) }
    ensures repacked { Repacked (bytes_of session.now) (repacked_file (bytes_of session.now)) }
    ensures bytes { IfOk result (λ image. image.bytes ≡ repacked_file (bytes_of session.now)) }
    ensures tidy { IfOk result (λ image. IsRepackedFile (bytes_of session.now) image.bytes) }
    ensures allowed { OnOk result (repack_refusal skip_kind (session_state session.now)
        (length (repacked_file (bytes_of session.now))) ≡ None) }
    ensures refused { IfErr result (λ fault. ¬ IsDiskFault fault
        × MayRefuse skip_kind (session_state session.now)
        (length (repacked_file (bytes_of session.now))) fault) }
{
    let image = session.image();
    are_bytes(image.bytes());
    let header = image.header();
    let Ok(items) = live_items(alloc, image, header.num_records) else {
        return Err(DbFault::NoMemory);
    };
    let size = layout_size(&items);
    if size > SKIP_LIMIT {
        return Err(DbFault::Full { size });
    }
    let generation = header.generation.saturating_add(1);
    let Ok(file) = lay_out(alloc, generation, header.flags / 2 * 2, &items) else {
        return Err(DbFault::NoMemory);
    };
    match Image::of(alloc, file) {
        Ok(image) => Ok(image),
        Err(_) => Err(DbFault::NoMemory),
    }
}

/// Publishes a fresh layout of a session's live records in the place of its file: no dead record, the levels that they
/// have, a generation later (2^64 - 1 stays), and the flags without DIRTY. The map stays, and the session goes on over
/// the new file, which is not read.
///
/// It answers `Broken`; `Full` with the bytes that the file would have, where these are more than `SKIP_LIMIT`;
/// `NoMemory`, which may come before the size is known; and `DiskFault`, after which the session is broken. Each other
/// refusal leaves session and disk as before. Wherever it stops, the file opens to the same map, and after Ok it is
/// the new one.
pub fn repack<D: Disk>(alloc: Global, db: &mut Twoskip, disk: &mut D) -> Result<(), DbFault>
    requires closed { (session_state db.old).is_broken ≡ false
        → (session_state db.old).in_transaction ≡ false }
    requires tied { Tied db.old (D.state disk.old) }
    ensures repacks { Repacks skip_repack (repacked_file (bytes_of db.old))
        (over (D.state disk.old) (session_state db.old))
        (over (D.state disk.new) (session_state db.new)) result }
    ensures unharmed { LeavesDisk result disk.old disk.new }
    ensures tied { Tied db.new (D.state disk.new) }
    ensures rest { D.disk_rest disk.old disk.new }
{
    if db.session.broken() {
        return Err(DbFault::Broken);
    }
    let image = match repacked_image(alloc, &db.session) {
        Ok(image) => image,
        Err(fault) => return Err(fault),
    };
    match replace_by(&image, disk) {
        Ok(()) => {
            db.session = Session::new(image);
            Ok(())
        }
        Err(_) => {
            db.session.give_up();
            Err(DbFault::DiskFault)
        }
    }
}
