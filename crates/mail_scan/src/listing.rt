// A folder is listed: its names are sorted out.
ghost use Rattle.std.specs.Prelude.{◌≡◌, ◌≤◌, ◌++◌, [], ◌∷◌, ℕ, All, List, Some, Err, IfOk, IfErr, OnOk};
ghost use Rattle.base_bytes.specs.declared.limits.TheConstants.{FILES_LIMIT};
ghost use Rattle.base_devices.specs.Causes.{FaultHasCause};
ghost use Rattle.base_devices.specs.SpoolCalls.{Folder, GaveNoName, shown_files};
ghost use Rattle.mail_scan.specs.Listing.{SortsOut, IsInOrder, IsSpoolFault, GaveTooMany, ListsFolder};

use crate::{ScanFault, uid_of_name};
use base_bytes::{FILES_LIMIT, compare_keys};
use base_devices::{Name, Spool};
use std::alloc::Global;
use std::marker::Model;

// How the names of the server's own files begin.
const OWN_PREFIX: &[u8] = b"cyrus.";

/// The names of a folder: those of messages by rising uid, and the odd ones by their bytes. Those that begin with
/// `cyrus.` are passed over. Of a message's name its uid is kept, by which the name is spelled again.
#[derive(Drop)]
pub struct Listing {
    uids: Vec<u32>,
    odd: Vec<Name>,
    ghost short: { All (λ uid. uid ≤ 4294967295) uids.items },
}

impl Model for Listing {
    ghost use Rattle.std.specs.Prelude.{map};
    ghost use Rattle.mail_scan.specs.Listing.{Names};
    ghost use Rattle.mail_scan.specs.Names.{name_of};

    ghost Value = { Names };

    ghost view = { λ l. record { messages = map name_of l.uids.items; odd = l.odd.items } };
}

impl Listing {
    ghost use Rattle.std.specs.Prelude.{map};
    ghost use Rattle.mail_scan.specs.Names.{name_of};

    fn new(alloc: Global) -> Listing
        ensures { result ≡ record { messages = []; odd = [] } }
    {
        Listing {
            uids: Vec::new(alloc),
            odd: Vec::new(alloc),
        }
    }

    /// The uids of messages, rising.
    pub fn uids(&self) -> &[u32]
        ensures { map name_of result.now ≡ self.now.messages }
    {
        &self.uids
    }

    /// The odd names, by their bytes.
    pub fn odd(&self) -> &[Name]
        ensures { result.now ≡ self.now.odd }
    {
        &self.odd
    }

    /// The odd names, by their bytes, where the uids are not needed any more.
    pub fn into_odd(self) -> Vec<Name>
        ensures { result.items ≡ self.odd }
    {
        let Listing { uids: _, odd } = self;
        odd
    }

    // Puts a name where it belongs.
    fn add(&mut self, name: Name) -> Result<(), ScanFault>
        ensures added { OnOk result ((given : List (List ℕ)) → SortsOut given self.old →
            SortsOut (given ++ name ∷ []) self.new) }
        ensures refused { IfErr result (λ fault. fault ≡ ScanFault.NoMemory) }
    {
        if name.as_str().as_bytes().starts_with(OWN_PREFIX) {
            return Ok(());
        }
        let is_pushed = match uid_of_name(name.as_str()) {
            Some(uid) => self.uids.push(uid).is_ok(),
            None => self.odd.push(name).is_ok(),
        };
        if is_pushed {
            Ok(())
        } else {
            Err(ScanFault::NoMemory)
        }
    }

    // Puts both lists in order.
    fn sort(&mut self)
        ensures order { IsInOrder self.new }
        ensures same { (given : List (List ℕ)) → SortsOut given self.old →
            SortsOut given self.new }
    {
        self.uids.sort_unstable();
        self.odd.sort_unstable_by(|a, b| compare_keys(
            a.as_str().as_bytes(),
            b.as_str().as_bytes(),
        ));
    }
}

/// Lists the folder of a spool. It takes 4 bytes for each message and 264 for each odd name, and at most twice as much
/// besides while a list of them grows.
pub fn list<S: Spool>(alloc: Global, spool: &mut S) -> Result<Listing, ScanFault>
    requires { GaveNoName (S.state spool.old) }

    // All names of the folder, in order, where the spool shows it.
    ensures names { IfOk result (λ listing. (folder : Folder) →
        (S.state spool.old).folder ≡ Some folder → ListsFolder folder FILES_LIMIT listing) }
    ensures order { IfOk result (λ listing. IsInOrder listing) }

    // Why it may be refused.
    ensures too_many { result ≡ Err ScanFault.TooMany → (folder : Folder) →
        (S.state spool.old).folder ≡ Some folder →
        GaveTooMany folder (S.state spool.new).folder FILES_LIMIT }
    ensures cause { FaultHasCause IsSpoolFault (S.state spool.old).faults
        (S.state spool.new).faults result }

    // What stays.
    ensures files { shown_files (S.state spool.new) ≡ shown_files (S.state spool.old) }
    ensures rest { S.spool_rest spool.old spool.new }
{
    let mut listing = Listing::new(alloc);
    gather(spool, &mut listing)?;
    listing.sort();
    Ok(listing)
}

// Gathers the names that the spool gives.
fn gather<S: Spool>(spool: &mut S, listing: &mut Listing) -> Result<(), ScanFault>
    requires none { GaveNoName (S.state spool.old) }
    requires empty { listing.old ≡ record { messages = []; odd = [] } }
    ensures names { OnOk result ((folder : Folder) → (S.state spool.old).folder ≡ Some folder →
        ListsFolder folder FILES_LIMIT listing.new) }
    ensures too_many { result ≡ Err ScanFault.TooMany → (folder : Folder) →
        (S.state spool.old).folder ≡ Some folder →
        GaveTooMany folder (S.state spool.new).folder FILES_LIMIT }
    ensures cause { FaultHasCause IsSpoolFault (S.state spool.old).faults
        (S.state spool.new).faults result }
    ensures files { shown_files (S.state spool.new) ≡ shown_files (S.state spool.old) }
    ensures rest { S.spool_rest spool.old spool.new }
{
    let mut given = 0;
    loop {
        match spool.next_name() {
            Err(_) => return Err(ScanFault::SpoolFault),
            Ok(None) => return Ok(()),
            Ok(Some(_)) if given == FILES_LIMIT => return Err(ScanFault::TooMany),
            Ok(Some(name)) => listing.add(name)?,
        }
        given += 1;
    }
}
