// Each message is scanned, beside the usable record of its uid.
ghost use Rattle.std.specs.Prelude.{◌≡◌, ◌≤◌, ◌++◌, List, [], length, Some, IfErr, IfOk, OnOk};
ghost use Rattle.std.specs.List.{AllByRecursion};
ghost use Rattle.std.specs.List.Sorted.{IsPermutation, IsSorted};
ghost use Rattle.base_bytes.specs.declared.limits.TheConstants.{FILES_LIMIT};
ghost use Rattle.base_bytes.specs.OrderedMap.{key_order};
ghost use Rattle.base_devices.specs.CrashImages.{Image};
ghost use Rattle.base_devices.specs.Causes.{FaultHasCause};
ghost use Rattle.base_devices.specs.SpoolCalls.{MessageFile, shown_files};
ghost use Rattle.mail_scan.specs.Names.{name_of};
ghost use Rattle.mail_rebuild.specs.NewIndex.{CountsOne, HasRoom};
ghost use Rattle.mail_rebuild.specs.OldIndex.{IsOldIndex, IsShort, view_of};
ghost use Rattle.mail_rebuild.specs.Rebuilt.{old_header, whole_index};
ghost use Rattle.mail_rebuild.specs.Merging.{merged, pair_of, usable_of};
ghost use Rattle.mail_rebuild.specs.Taking.{HasItsFile, HoldsPairs, IsNoMessage, IsNumbered, IsSpoolFault, IsTakeRefusal, IsTaken, NamesFile, TakesPair, odd_of, pair_with};

use crate::RebuildFault;
use crate::merge::{Merge, Pairing};
use crate::new_index::NewIndex;
use crate::old_index::OldIndex;
use base_bytes::{NoMemory, compare_keys};
use base_devices::{Name, Spool};
use index_form::RecordView;
use mail_scan::{Listing, message_name, scan};
use std::alloc::Global;

// What was made of some names and old records.
#[derive(Drop)]
pub(crate) struct Made {
    pub(crate) index: NewIndex,
    // The odd names among them.
    pub(crate) odd: Vec<Name>,
}

impl Made {
    // A name whose file is no message, and the record of its uid if there is one.
    fn add_odd(&mut self, name: Name, old: Option<RecordView<'_>>) -> Result<(), NoMemory>
        requires { HasRoom self.old.index }
        ensures added { OnOk result ((files : List MessageFile) → IsNoMessage files name →
            TakesPair files (pair_with name old.entry) self.old self.new) }
        ensures counted { OnOk result (CountsOne self.old.index self.new.index) }
    {
        let Ok(()) = self.odd.push(name) else {
            return Err(NoMemory);
        };
        match old {
            Some(old) => self.index.add_old(old),
            None => Ok(()),
        }
    }

    // The name of a uid, and the record of this uid if there is one.
    fn take_name<S: Spool>(
        &mut self,
        spool: &mut S,
        uid: u32,
        old: Option<RecordView<'_>>,
    ) -> Result<(), RebuildFault>
        requires { HasRoom self.old.index }
        ensures taken { OnOk result ((files : List MessageFile) →
            shown_files (S.state spool.old) ≡ Some files → NamesFile files (name_of uid) →
            TakesPair files (pair_with (name_of uid) old.entry) self.old self.new) }
        ensures counted { OnOk result (CountsOne self.old.index self.new.index) }
        ensures refused { IfErr result IsTakeRefusal }
        ensures cause { FaultHasCause IsSpoolFault (S.state spool.old).faults
            (S.state spool.new).faults result }
        ensures folder { (S.state spool.new).folder ≡ (S.state spool.old).folder }
        ensures rest { S.spool_rest spool.old spool.new }
    {
        let name = message_name(uid);
        let Ok(scanned) = scan(spool, &name) else {
            return Err(RebuildFault::SpoolFault);
        };
        let added = match scanned {
            Some(found) => self.index.add_message(uid, &found, old),
            None => self.add_odd(name, old),
        };
        match added {
            Ok(()) => Ok(()),
            Err(_) => Err(RebuildFault::NoMemory),
        }
    }

    // A name, a record, or both.
    fn take<S: Spool>(&mut self, spool: &mut S, pair: Pairing<'_>) -> Result<(), RebuildFault>
        requires { HasRoom self.old.index }
        ensures taken { OnOk result ((files : List MessageFile) →
            shown_files (S.state spool.old) ≡ Some files → HasItsFile files (pair_of pair.entry) →
            TakesPair files (pair_of pair.entry) self.old self.new) }
        ensures counted { OnOk result (CountsOne self.old.index self.new.index) }
        ensures refused { IfErr result IsTakeRefusal }
        ensures cause { FaultHasCause IsSpoolFault (S.state spool.old).faults
            (S.state spool.new).faults result }
        ensures folder { (S.state spool.new).folder ≡ (S.state spool.old).folder }
        ensures rest { S.spool_rest spool.old spool.new }
    {
        match pair {
            Pairing::Both { uid, old } => self.take_name(spool, uid, Some(old)),
            Pairing::File { uid } => self.take_name(spool, uid, None),
            Pairing::Old { old } => match self.index.add_old(old) {
                Ok(()) => Ok(()),
                Err(_) => Err(RebuildFault::NoMemory),
            },
        }
    }

    // Odd names of the folder, before those found so far.
    fn add_names(&mut self, mut names: Vec<Name>) -> Result<(), NoMemory>
        ensures added { OnOk result (odd_of self.new ≡ names.items ++ odd_of self.old) }
        ensures index { self.new.index ≡ self.old.index }
    {
        let Ok(()) = names.append(&mut self.odd) else {
            return Err(NoMemory);
        };
        self.odd = names;
        Ok(())
    }

    // Puts the odd names in order.
    fn sort(&mut self)
        ensures sorted { IsSorted key_order (odd_of self.new) }
        ensures same { IsPermutation (odd_of self.old) (odd_of self.new) }
        ensures index { self.new.index ≡ self.old.index }
    {
        self.odd.sort_unstable_by(|a, b| compare_keys(
            a.as_str().as_bytes(),
            b.as_str().as_bytes(),
        ));
    }
}

// Takes all names and all usable records.
fn take_pairs<S: Spool>(
    spool: &mut S,
    made: &mut Made,
    old: OldIndex<'_>,
    listing: &Listing,
) -> Result<(), RebuildFault>
    requires counts { (made.old.index.totals.num_records ≡ 0) × (made.old.index.tally.dropped ≡ 0) }
    requires few { length listing.now.messages ≤ FILES_LIMIT }
    requires short { IsShort old }
    ensures taken { OnOk result ((files : List MessageFile) →
        shown_files (S.state spool.old) ≡ Some files →
        AllByRecursion (NamesFile files) listing.now.messages → HoldsPairs files [] made.old →
        HoldsPairs files (merged listing.now.messages (usable_of (view_of old.entry))) made.new) }
    ensures numbers { OnOk result ((made.new.index.modseq ≡ made.old.index.modseq)
        × (made.new.index.time ≡ made.old.index.time)) }
    ensures refused { IfErr result IsTakeRefusal }
    ensures cause { FaultHasCause IsSpoolFault (S.state spool.old).faults
        (S.state spool.new).faults result }
    ensures folder { (S.state spool.new).folder ≡ (S.state spool.old).folder }
    ensures rest { S.spool_rest spool.old spool.new }
{
    let mut merge = Merge::new(old.view(), listing);
    while let Some(pair) = merge.next() {
        made.take(spool, pair)?;
    }
    Ok(())
}

// Takes all names of a folder and all usable records of its old index.
pub(crate) fn take_all<S: Spool>(
    alloc: Global,
    spool: &mut S,
    listing: Listing,
    old: OldIndex<'_>,
    now: u64,
) -> Result<Made, RebuildFault>
    requires few { length listing.messages ≤ FILES_LIMIT }
    requires short { IsShort old }
    ensures taken { IfOk result (λ made. (files : List MessageFile) →
        shown_files (S.state spool.old) ≡ Some files →
        AllByRecursion (NamesFile files) listing.messages →
        IsTaken files listing (usable_of (view_of old.entry)) made) }
    ensures numbers { IfOk result (λ made. (image : Image) → IsOldIndex image old.entry →
        IsNumbered (old_header (whole_index image)) now made.index) }
    ensures refused { IfErr result IsTakeRefusal }
    ensures cause { FaultHasCause IsSpoolFault (S.state spool.old).faults
        (S.state spool.new).faults result }
    ensures folder { (S.state spool.new).folder ≡ (S.state spool.old).folder }
    ensures rest { S.spool_rest spool.old spool.new }
{
    let Ok(index) = NewIndex::new(alloc, listing.uids().len(), &old.header(), now) else {
        return Err(RebuildFault::NoMemory);
    };
    let mut made = Made {
        index,
        odd: Vec::new(alloc),
    };
    take_pairs(spool, &mut made, old, &listing)?;
    let Ok(()) = made.add_names(listing.into_odd()) else {
        return Err(RebuildFault::NoMemory);
    };
    made.sort();
    Ok(made)
}
