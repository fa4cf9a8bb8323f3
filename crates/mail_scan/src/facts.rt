// The facts of a message whose bytes come in pieces.
ghost use Rattle.std.specs.Prelude.{◌≡◌, ◌+◌, ◌≤◌, length, count_by};
ghost use Rattle.mail_scan.specs.MessageText.{line_count};

use crate::date_field::DateField;
use crate::header::{HeaderState, header_part};
use sha1::Sha1;

/// The facts of a message.
#[derive(Clone, Copy, Debug, PartialEq, Eq)]
pub struct Scanned {
    /// How many bytes it has.
    pub size: u32,
    /// How many of them stand up to and with the first empty line, or all where no line is empty.
    pub header_size: u32,
    /// How many line feeds stand behind the header.
    pub lines: u32,
    /// The SHA-1 of all bytes.
    pub digest: [u8; 20],
    /// The seconds since 1970 of the first Date field, where it has such a date.
    pub date: Option<u32>,
    /// The file's time, in seconds since 1970.
    pub time: u64,
}

// The largest message.
const SIZE_LIMIT: u64 = 4_294_967_295;

// What is known of a message once some of its bytes were read.
#[derive(Drop)]
pub(crate) struct Facts {
    digest: Sha1,
    size: u64,
    state: HeaderState,
    header_size: u64,
    lines: u64,
    date: DateField,
    ghost within: { header_size + lines ≤ size },
}

impl Facts {
    ghost use Rattle.std.specs.Prelude.{[], ◌++◌, ℕ, List};
    ghost use Rattle.mail_scan.specs.Facts.{KnowsFacts, IsScan};

    // Before the first byte.
    pub(crate) fn new() -> Facts
        ensures knows { KnowsFacts [] result }
        ensures size { result.size ≡ 0 }
    {
        Facts {
            digest: Sha1::new(),
            size: 0,
            state: HeaderState::LineStart,
            header_size: 0,
            lines: 0,
            date: DateField::new(),
        }
    }

    // How many bytes were read.
    pub(crate) fn size(&self) -> u64
        ensures { result ≡ self.now.size }
    {
        self.size
    }

    // Reads the next bytes.
    pub(crate) fn add(&mut self, piece: &[u8])
        requires { self.old.size + length piece.now ≤ 4294967296 }
        ensures knows { (read : List ℕ) → KnowsFacts read self.old →
            KnowsFacts (read ++ piece.now) self.new }
        ensures size { self.new.size ≡ self.old.size + length piece.now }
    {
        self.digest.update(piece);
        let part = header_part(&mut self.state, piece);
        self.date.add(&piece[..part]);
        let lines = count_lines(&piece[part..]);
        self.size += piece.len() as u64;
        self.header_size += part as u64;
        self.lines += lines;
    }

    // The facts once all bytes were read, or None where it has not the size of a message.
    pub(crate) fn finish(self, time: u64) -> Option<Scanned>
        ensures { (read : List ℕ) → KnowsFacts read self → IsScan read time result }
    {
        let Facts {
            digest,
            size,
            state: _,
            header_size,
            lines,
            date,
        } = self;
        let date = date.date();
        let digest = digest.finalize();
        if size == 0 || size > SIZE_LIMIT {
            return None;
        }
        Some(Scanned {
            size: size as u32,
            header_size: header_size as u32,
            lines: lines as u32,
            digest,
            date,
            time,
        })
    }
}

// How many line feeds stand in a piece.
fn count_lines(piece: &[u8]) -> u64
    ensures count { result ≡ line_count piece.now }
    ensures within { result ≤ length piece.now }
{
    piece.iter().filter(|byte| **byte == b'\n').count() as u64
}
