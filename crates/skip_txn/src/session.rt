// A session, and its reads.
ghost use Rattle.std.specs.Prelude.{◌≡◌, false};
ghost use Rattle.std.specs.Option.{option_copied};
ghost use Rattle.base_bytes.specs.OrderedMap.{first_above, first_from, value_at};
ghost use Rattle.skip_spec.specs.Opens.{Contents, Reads, Tidy};
ghost use Rattle.skip_seek.specs.Searches.{StaysInBound, pair_of};
ghost use Rattle.skip_txn.specs.Sessions.{broken, bytes_of, resting, session_state};

use base_bytes::{Pair, Steps};
use skip_image::Image;
use std::marker::Model;
use std::sync::ledger::Ledger;

/// Where a session stands.
#[derive(Clone, Copy)]
pub(crate) enum Stage {
    /// No transaction is open.
    Resting,
    /// A transaction is open that began at a committed end.
    Open { committed: u64, has_changed: bool },
    /// An earlier call met a fault of the disk.
    Broken,
}

/// How many live records the image has, and where the session stands.
#[derive(Clone, Copy)]
pub(crate) struct SessionState {
    pub(crate) count: u64,
    pub(crate) stage: Stage,
}

/// An open twoskip file: its image, which a transaction changes in place together with the disk. A contract sees the
/// file's bytes, and whether a transaction is open.
#[derive(Drop)]
pub struct Session {
    pub(crate) image: Image,
    pub(crate) state: SessionState,
}

impl Model for Session {
    ghost use Rattle.skip_txn.specs.Sessions.{SkipSession, IsSession, session_of};

    ghost Value = { SkipSession };

    ghost view = { λ s. session_of s.image.bytes s.state.stage };

    ghost invariant = { λ s. IsSession s.image s.state s.state.stage };
}

impl Session {
    /// A session at rest over the image of a tidy file. It takes no memory.
    pub fn new(image: Image) -> Session
        requires tidy { (says : Contents) × Reads image.bytes says × Tidy image.bytes says }
        ensures { result ≡ resting image.bytes }
    {
        let count = image.header().num_records;
        Session {
            image,
            state: SessionState {
                count,
                stage: Stage::Resting,
            },
        }
    }

    /// The image of the file.
    pub fn image(&self) -> &Image
        requires { (session_state self.now).is_broken ≡ false }
        ensures { result.now.bytes ≡ bytes_of self.now }
    {
        &self.image
    }

    /// Whether a transaction is open. In a broken session none is.
    pub fn in_transaction(&self) -> bool
        ensures { result ≡ (session_state self.now).in_transaction }
    {
        matches!(self.state.stage, Stage::Open { .. })
    }

    /// Ends the session after a fault of the disk that a call outside of it met: from here on it is broken.
    pub fn give_up(&mut self)
        ensures { self.new ≡ broken }
    {
        self.state.stage = Stage::Broken;
    }

    /// Whether an earlier call met a fault of the disk.
    pub fn broken(&self) -> bool
        ensures { result ≡ (session_state self.now).is_broken }
    {
        matches!(self.state.stage, Stage::Broken)
    }
}
