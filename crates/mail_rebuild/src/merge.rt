// The names of messages and the usable records of the old index, merged by uid.
ghost use Rattle.std.specs.Prelude.{◌≡◌, MatchOption, map, drop, [], ◌∷◌};
ghost use Rattle.std.specs.List.Sorted.{IsStrictlyIncreasing};
ghost use Rattle.mail_scan.specs.Listing.{uid_in};

use index_form::{IndexView, RecordView, Usable};
use mail_scan::Listing;
use std::cmp::Ordering;

/// The uid of a message's name and the usable record of this uid, or one of them without the other.
#[derive(Clone, Copy)]
pub enum Pairing<'a> {
    /// A message, and the record of its uid.
    Both { uid: u32, old: RecordView<'a> },
    /// A message without a record.
    File { uid: u32 },
    /// A record without a message.
    Old { old: RecordView<'a> },
}

/// The message names of a folder and the usable records of an old index, by rising uid. It takes no memory.
#[derive(Drop)]
pub struct Merge<'a> {
    // The uids of the names that are still to come.
    uids: &'a [u32],
    // The next usable record, and those behind it.
    item: Option<RecordView<'a>>,
    behind: Option<Usable<'a>>,
}

impl<'a> Merge<'a> {
    ghost use Rattle.std.specs.Iterator.{YieldsFirstBy};
    ghost use Rattle.mail_rebuild.specs.Merging.{IsMerge, merged, pair_of, pairs_left, records_behind, records_left, usable_of};

    /// Nothing was given yet. Where the uids of the names rise strictly, each name and each usable record stands in
    /// one pair, and these are by rising uid.
    pub fn new(old: Option<IndexView<'a>>, listing: &'a Listing) -> Merge<'a>
        ensures value { pairs_left result ≡ merged listing.now.messages (usable_of old.entry) }
        ensures whole { IsStrictlyIncreasing (map uid_in listing.now.messages) →
            IsMerge listing.now.messages (usable_of old.entry) (pairs_left result) }
    {
        let mut merge = Merge {
            uids: listing.uids(),
            item: None,
            behind: old.map(|view| view.usable()),
        };
        merge.pass_record();
        merge
    }

    // Goes on to the next usable record.
    fn pass_record(&mut self)
        ensures records { records_left self.new.item self.new.behind
            ≡ records_behind self.old.behind }
        ensures uids { self.new.uids.now ≡ self.old.uids.now }
    {
        self.item = match &mut self.behind {
            Some(usable) => usable.next().map(|placed| placed.1),
            None => None,
        };
    }

    // The next pair, where no name is left.
    fn next_record(&mut self) -> Option<Pairing<'a>>
        requires { self.old.uids.now ≡ [] }
        ensures { YieldsFirstBy pair_of pairs_left self.old result self.new }
    {
        let old = self.item?;
        self.pass_record();
        Some(Pairing::Old { old })
    }

    // The next pair, where the name of this uid is the next one.
    #[tactic(auto, using(mail_scan::proofs::NameLemmas::spelled_uid))]
    fn next_with(&mut self, uid: u32, others: &'a [u32]) -> Pairing<'a>
        requires { self.old.uids.now ≡ uid ∷ others.now }
        ensures { pairs_left self.old ≡ pair_of result ∷ pairs_left self.new }
    {
        let Some(old) = self.item else {
            self.uids = others;
            return Pairing::File { uid };
        };
        match uid.cmp(&old.uid()) {
            Ordering::Less => {
                self.uids = others;
                Pairing::File { uid }
            }
            Ordering::Equal => {
                self.uids = others;
                self.pass_record();
                Pairing::Both { uid, old }
            }
            Ordering::Greater => {
                self.pass_record();
                Pairing::Old { old }
            }
        }
    }
}

impl<'a> Iterator for Merge<'a> {
    ghost use Rattle.std.specs.Iterator.{YieldsFirstBy, item_count};
    ghost use Rattle.mail_rebuild.specs.Merging.{pair_of, pairs_left};

    type Item = Pairing<'a>;

    ghost next_gives = { YieldsFirstBy pair_of pairs_left };

    ghost remaining = { item_count pairs_left };

    fn next(&mut self) -> Option<Pairing<'a>> {
        match self.uids.split_first() {
            None => self.next_record(),
            Some((uid, others)) => Some(self.next_with(*uid, others)),
        }
    }
}
