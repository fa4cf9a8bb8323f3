// A session over a twoskip file, whose bytes are changed in place.
ghost use Rattle.std.specs.Prelude.{◌≡◌};

use crate::reads;
use base_bytes::Pair;
use base_devices::Disk;
use db_core::{Cursor, Db, DbFault, Step};
use skip_txn::Session;
use std::marker::Model;

/// An open twoskip file. A contract sees its bytes, and whether a transaction is open.
#[derive(Drop)]
pub struct Twoskip {
    pub(crate) session: Session,
}

impl Model for Twoskip {
    ghost use Rattle.skip_txn.specs.Sessions.{SkipSession};

    ghost Value = { SkipSession };

    ghost view = { λ s. s.session };
}

impl Twoskip {
    // The database of a session.
    pub(crate) fn over(session: Session) -> Twoskip
        ensures { result ≡ session }
    {
        Twoskip { session }
    }
}

impl<D: Disk> Db<D> for Twoskip {
    ghost use Rattle.skip_kind.specs.Kind.{skip_kind};
    ghost use Rattle.skip_seek.specs.Walks.{Leaves};
    ghost use Rattle.skip_txn.specs.Sessions.{Tied, broken_rests, broken_ties, bytes_of, outside_same, session_state};
    ghost use Rattle.twoskip.specs.TieLaws.{tied_opens, tied_rests};

    ghost kind = { skip_kind };

    ghost state = { session_state };

    ghost tie = { λ s d. Tied s (D.state d) };

    // A place is the offset of a record, or 0 at the end.
    ghost walks = { λ s place left. Leaves (bytes_of s) place left };

    fn in_transaction(&self) -> bool {
        self.session.in_transaction()
    }

    fn broken(&self) -> bool {
        self.session.broken()
    }

    fn count(&self) -> u64 {
        self.session.count()
    }

    fn fetch(&self, key: &[u8]) -> Option<&[u8]> {
        reads::fetch(&self.session, key)
    }

    fn at_least(&self, key: &[u8]) -> Option<Pair<'_>> {
        reads::at_least(&self.session, key)
    }

    fn after(&self, key: &[u8]) -> Option<Pair<'_>> {
        reads::after(&self.session, key)
    }

    fn walk_from(&self, key: &[u8]) -> Cursor {
        Cursor {
            place: reads::walk_from(&self.session, key),
        }
    }

    fn step(&self, cursor: Cursor) -> Option<Step<'_>> {
        match reads::step(&self.session, cursor.place) {
            Some(passed) => Some(Step {
                pair: passed.pair,
                next: Cursor { place: passed.next },
            }),
            None => None,
        }
    }

    fn begin(&mut self) -> Result<(), DbFault> {
        self.session.begin()
    }

    fn store(&mut self, disk: &mut D, word: u32, key: &[u8], value: &[u8]) -> Result<(), DbFault> {
        self.session.store(disk, word, key, value)
    }

    fn delete(&mut self, disk: &mut D, key: &[u8]) -> Result<bool, DbFault> {
        self.session.delete(disk, key)
    }

    fn commit(&mut self, disk: &mut D) -> Result<(), DbFault> {
        self.session.commit(disk)
    }

    fn abort(&mut self, disk: &mut D) -> Result<(), DbFault> {
        self.session.abort(disk)
    }

    ghost tie_rests = { λ b old new reads leaves tie. tied_rests b (D.state old) (D.state new) reads leaves tie };

    ghost tie_opens = { λ b d sound tie c left. tied_opens b (D.state d) sound tie c left };

    ghost broken_tied = { λ b d is. broken_ties b (D.state d) is };

    ghost outside = { λ b sound closed. outside_same b sound closed };

    ghost broken_outside = { λ b broken. broken_rests b broken };
}
