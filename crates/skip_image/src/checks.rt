// One check after the other.
ghost use Rattle.skip_spec.specs.FirstFlaw as first_flaw;
ghost use Rattle.skip_image.specs.Verifying.{Finds};

use base_bytes::{Damage, Flaw};

/// What the header says of the log.
#[derive(Clone, Copy, Debug, PartialEq, Eq)]
pub(crate) struct Log {
    /// The committed end, in bytes.
    pub(crate) end: u64,
    pub(crate) dirty: bool,
    /// How many live records there are, where the file is clean.
    pub(crate) records: u64,
}

/// A check that holds goes on, and else there is this flaw at this place.
pub(crate) fn unless(holds: bool, at: u64, check: Flaw) -> Result<(), Damage>
    ensures { Finds (first_flaw.unless holds at check) result }
{
    if holds {
        Ok(())
    } else {
        Err(Damage { at, check })
    }
}
