// Reads of a session. Each counts the steps of its search by a counter of its own, which is of no use here.
ghost use Rattle.std.specs.Prelude.{◌≡◌, ◌<◌, false};
ghost use Rattle.std.specs.Option.{option_copied};
ghost use Rattle.base_bytes.specs.OrderedMap.{Map, first_above, first_from, pairs_from, value_at};
ghost use Rattle.db_core.specs.Refusals.{pair_of};
ghost use Rattle.skip_seek.specs.Walks.{Leaves, StepsOver};
ghost use Rattle.skip_txn.specs.Sessions.{bytes_of, session_state};

use base_bytes::{Pair, Steps};
use skip_seek::Passed;
use skip_txn::Session;
use std::marker::Brand;
use std::sync::ledger::{Blank, Ledger};

fn fetch_counted<'a, L: Ledger>(blank: Blank, session: &'a Session, key: &[u8]) -> Option<&'a [u8]>
    requires name { blank.name ≡ L.name }
    requires parts { blank.parts ≡ L.parts }
    requires some { 0 < blank.parts }
    requires sound { (session_state session.now).is_broken ≡ false }
    ensures { option_copied result ≡ value_at (session_state session.now).seen key.now }
{
    let mut steps = Steps::<L>::new(blank);
    session.fetch(key, &mut steps)
}

// The value of the key in the map seen.
pub(crate) fn fetch<'a>(session: &'a Session, key: &[u8]) -> Option<&'a [u8]>
    requires { (session_state session.now).is_broken ≡ false }
    ensures { option_copied result ≡ value_at (session_state session.now).seen key.now }
{
    fetch_counted::<Brand>(Blank::new(1), session, key)
}

fn at_least_counted<'a, L: Ledger>(
    blank: Blank,
    session: &'a Session,
    key: &[u8],
) -> Option<Pair<'a>>
    requires name { blank.name ≡ L.name }
    requires parts { blank.parts ≡ L.parts }
    requires some { 0 < blank.parts }
    requires sound { (session_state session.now).is_broken ≡ false }
    ensures { pair_of result ≡ first_from (session_state session.now).seen key.now }
{
    let mut steps = Steps::<L>::new(blank);
    session.at_least(key, &mut steps)
}

// The first pair of the map seen whose key is not below this one.
pub(crate) fn at_least<'a>(session: &'a Session, key: &[u8]) -> Option<Pair<'a>>
    requires { (session_state session.now).is_broken ≡ false }
    ensures { pair_of result ≡ first_from (session_state session.now).seen key.now }
{
    at_least_counted::<Brand>(Blank::new(1), session, key)
}

fn after_counted<'a, L: Ledger>(blank: Blank, session: &'a Session, key: &[u8]) -> Option<Pair<'a>>
    requires name { blank.name ≡ L.name }
    requires parts { blank.parts ≡ L.parts }
    requires some { 0 < blank.parts }
    requires sound { (session_state session.now).is_broken ≡ false }
    ensures { pair_of result ≡ first_above (session_state session.now).seen key.now }
{
    let mut steps = Steps::<L>::new(blank);
    session.after(key, &mut steps)
}

// The first pair of the map seen whose key is above this one.
pub(crate) fn after<'a>(session: &'a Session, key: &[u8]) -> Option<Pair<'a>>
    requires { (session_state session.now).is_broken ≡ false }
    ensures { pair_of result ≡ first_above (session_state session.now).seen key.now }
{
    after_counted::<Brand>(Blank::new(1), session, key)
}

fn walk_from_counted<L: Ledger>(blank: Blank, session: &Session, key: &[u8]) -> u64
    requires name { blank.name ≡ L.name }
    requires parts { blank.parts ≡ L.parts }
    requires some { 0 < blank.parts }
    requires sound { (session_state session.now).is_broken ≡ false }
    ensures { Leaves (bytes_of session.now) result
        (pairs_from (session_state session.now).seen key.now) }
{
    let mut steps = Steps::<L>::new(blank);
    session.walk_from(key, &mut steps)
}

// The place at which the pairs of the map seen are left whose keys are not below this one.
pub(crate) fn walk_from(session: &Session, key: &[u8]) -> u64
    requires { (session_state session.now).is_broken ≡ false }
    ensures { Leaves (bytes_of session.now) result
        (pairs_from (session_state session.now).seen key.now) }
{
    walk_from_counted::<Brand>(Blank::new(1), session, key)
}

fn step_counted<'a, L: Ledger>(blank: Blank, session: &'a Session, place: u64) -> Option<Passed<'a>>
    requires name { blank.name ≡ L.name }
    requires parts { blank.parts ≡ L.parts }
    requires some { 0 < blank.parts }
    requires sound { (session_state session.now).is_broken ≡ false }
    requires at { (left : Map) × Leaves (bytes_of session.now) place left }
    ensures { (left : Map) → Leaves (bytes_of session.now) place left
        → StepsOver (bytes_of session.now) left result }
{
    let mut steps = Steps::<L>::new(blank);
    session.step(place, &mut steps)
}

// The pair at a place of a walk, and the next place.
pub(crate) fn step<'a>(session: &'a Session, place: u64) -> Option<Passed<'a>>
    requires sound { (session_state session.now).is_broken ≡ false }
    requires at { (left : Map) × Leaves (bytes_of session.now) place left }
    ensures { (left : Map) → Leaves (bytes_of session.now) place left
        → StepsOver (bytes_of session.now) left result }
{
    step_counted::<Brand>(Blank::new(1), session, place)
}
