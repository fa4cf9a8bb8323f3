// What is read of a session: slices of its image, by a search.
use crate::session::Session;
use base_bytes::{Pair, Steps};
use skip_seek::Passed;
use std::sync::ledger::Ledger;

impl Session {
    ghost use Rattle.std.specs.Prelude.{◌≡◌, ◌≤◌, ◌+◌, false, length};
    ghost use Rattle.std.specs.Option.{option_copied};
    ghost use Rattle.base_bytes.specs.OrderedMap.{Map, IsDbMap, first_above, first_from, pairs_from, value_at};
    ghost use Rattle.skip_seek.specs.Searches.{StaysInBound, pair_of};
    ghost use Rattle.skip_seek.specs.Walks.{Leaves, StepsOver};
    ghost use Rattle.skip_txn.specs.Sessions.{bytes_of, session_state};

    /// How many pairs the map seen has. The keys of both maps rise strictly, and none is empty.
    pub fn count(&self) -> u64
        requires { (session_state self.now).is_broken ≡ false }
        ensures count { result ≡ length (session_state self.now).seen }
        ensures seen { IsDbMap (session_state self.now).seen }
        ensures committed { IsDbMap (session_state self.now).committed }
    {
        self.state.count
    }

    /// The value of the key in the map seen.
    pub fn fetch<L: Ledger>(&self, key: &[u8], steps: &mut Steps<L>) -> Option<&[u8]>
        requires { (session_state self.now).is_broken ≡ false }
        ensures value { option_copied result ≡ value_at (session_state self.now).seen key.now }
        ensures cost { StaysInBound (bytes_of self.now) key.now 0 steps.old steps.new }
    {
        skip_seek::fetch(&self.image, key, steps)
    }

    /// The first pair of the map seen whose key is not below this one.
    pub fn at_least<L: Ledger>(&self, key: &[u8], steps: &mut Steps<L>) -> Option<Pair<'_>>
        requires { (session_state self.now).is_broken ≡ false }
        ensures pair { pair_of result ≡ first_from (session_state self.now).seen key.now }
        ensures cost { StaysInBound (bytes_of self.now) key.now 0 steps.old steps.new }
    {
        skip_seek::at_least(&self.image, key, steps)
    }

    /// The first pair of the map seen whose key is above this one.
    pub fn after<L: Ledger>(&self, key: &[u8], steps: &mut Steps<L>) -> Option<Pair<'_>>
        requires { (session_state self.now).is_broken ≡ false }
        ensures pair { pair_of result ≡ first_above (session_state self.now).seen key.now }
        ensures cost { StaysInBound (bytes_of self.now) key.now 2 steps.old steps.new }
    {
        skip_seek::after(&self.image, key, steps)
    }

    /// Begins a walk: the place of the first pair of the map seen whose key is not below this one, or 0.
    pub fn walk_from<L: Ledger>(&self, key: &[u8], steps: &mut Steps<L>) -> u64
        requires { (session_state self.now).is_broken ≡ false }
        ensures place { Leaves (bytes_of self.now) result
            (pairs_from (session_state self.now).seen key.now) }
        ensures cost { StaysInBound (bytes_of self.now) key.now 0 steps.old steps.new }
    {
        skip_seek::walk_from(&self.image, key, steps)
    }

    /// The pair at a place of a walk, and the next place; None at the end of the map. It does not search.
    pub fn step<L: Ledger>(&self, place: u64, steps: &mut Steps<L>) -> Option<Passed<'_>>
        requires sound { (session_state self.now).is_broken ≡ false }
        requires at { (left : Map) × Leaves (bytes_of self.now) place left }
        ensures step { (left : Map) → Leaves (bytes_of self.now) place left
            → StepsOver (bytes_of self.now) left result }
        ensures cost { steps.new ≤ steps.old + 2 }
    {
        skip_seek::step(&self.image, place, steps)
    }
}
