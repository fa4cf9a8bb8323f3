// Searches in generated files beside a second climb.
ghost use Rattle.std.specs.Prelude.{◌≡◌, ◌<◌, IfOk};
ghost use Rattle.skip_seek.specs.Searches.{IsLive};

use super::climbs::{Climb, bound_of, climb_to, levels_before};
use super::files::{EMPTY, TWO_LEVELS};
use super::histories::changes_of;
use super::listing::{KEYS, key_bytes, key_of};
use super::open_file::open_bytes;
use super::stops::{Transaction, run};
use base_bytes::Steps;
use rand_core::utils::NextWord;
use rand_pcg::Pcg32;
use skip_image::Image;
use skip_seek::{Found, seek};
use std::alloc::Global;
use std::marker::Brand;
use std::process::Abort;
use std::sync::ledger::{Blank, Ledger};
use std::test::Fail;

const FILES: u32 = 300;

const ROOM: u64 = 1_000_000;

// The image of a clean file.
fn image_of(alloc: Global, file: &[u8]) -> Result<Image, Fail>
    ensures { IfOk result (λ i. IsLive i.bytes) }
{
    if file.len() as u64 > ROOM {
        return Err("the file is too long for the test".into());
    }
    let mut image = Image::of(alloc, file.to_vec(alloc)?)?;
    match image.verify() {
        Ok(found) if found.clean => Ok(image),
        _ => Err("the file is not clean".into()),
    }
}

fn found_by<L: Ledger>(blank: Blank, image: &Image, key: &[u8]) -> Found
    requires name { blank.name ≡ L.name }
    requires parts { blank.parts ≡ L.parts }
    requires some { 0 < blank.parts }
    requires live { IsLive image.now.bytes }
{
    let mut steps = Steps::<L>::new(blank);
    seek(image, key, &mut steps)
}

// The search for a key, by the second climb as by the first. Answers the steps and their bound.
fn assert_found(
    rt: &impl Abort,
    alloc: Global,
    image: &Image,
    key: &[u8],
) -> Result<(u64, u64), Fail>
    requires { IsLive image.now.bytes }
{
    let found = found_by::<Brand>(Blank::new(1), image, key);
    let second = climb_to(image.bytes(), key);
    let same = found.here == second.here
        && found.before == second.before
        && found.exact == second.exact;
    assert!(rt; same, "{key:?}");
    let levels = levels_before(alloc, image.bytes(), key)?;
    Ok((second.steps, bound_of(&levels)))
}

// A file of up to 20 transactions.
fn file_of(alloc: Global, rng: &mut Pcg32) -> Result<Vec<u8>, Fail> {
    let mut file = open_bytes(alloc, &EMPTY, ROOM, &[])?;
    for _ in 0..rng.next_word() % 20 {
        let changes = changes_of(alloc, rng)?;
        let transaction = Transaction {
            changes: &changes,
            commits: true,
        };
        let Ok(()) = run(&mut file, transaction) else {
            return Err("a transaction failed".into());
        };
    }
    Ok(file.bytes().to_vec(alloc)?)
}

// Searches each key in a file, and answers how many of the searches take as many steps as they may.
fn assert_file(rt: &impl Abort, alloc: Global, file: &[u8]) -> Result<u32, Fail> {
    let image = image_of(alloc, file)?;
    let mut equal = 0u32;
    for number in 0..KEYS {
        let bytes = key_bytes(number);
        let (steps, bound) = assert_found(rt, alloc, &image, key_of(&bytes))?;
        assert!(rt; steps <= bound, "{steps} steps of {bound}");
        if steps == bound {
            equal = equal.wrapping_add(1);
        }
    }
    Ok(equal)
}

// The bounds for four lists of levels, and the climb to `b` in the file of levels 2 and 1.
fn assert_known(rt: &impl Abort, alloc: Global) -> Result<(), Fail> {
    for (levels, bound) in [
        ([].as_slice(), 32),
        (&[2], 33),
        (&[1, 1, 1], 38),
        (&[3, 1, 2, 1], 36),
    ] {
        assert_eq!(rt; bound_of(levels), bound);
    }
    let Climb { here, before, .. } = climb_to(&TWO_LEVELS, b"b");
    assert_eq!(rt;
        (here, before[0], before[1], before[2]),
        (408, 336, 336, 64)
    );
    let (steps, bound) = assert_found(rt, alloc, &image_of(alloc, &TWO_LEVELS)?, b"b")?;
    assert_eq!(rt; (steps, bound), (32, 33));
    Ok(())
}

#[test]
fn searches_stay_within_their_steps(rt: HostRuntime) -> Result<(), Fail> {
    let alloc = rt.alloc();
    let mut rng = Pcg32::new(42, 54);
    assert_known(&rt, alloc)?;
    let mut files = 0u32;
    for _ in 0..FILES {
        let file = file_of(alloc, &mut rng)?;
        if assert_file(&rt, alloc, &file)? > 0 {
            files = files.wrapping_add(1);
        }
    }
    assert!(rt; files > 10, "{files} files");
    Ok(())
}
