// Bytes of the open file that were read before they were asked.
ghost use Rattle.std.specs.Prelude.{◌≡◌, ◌<◌, ◌≤◌, ◌-◌, [], length, take, drop, min};

// How much is read at once.
const AHEAD: usize = 16_384;

// Some bytes of a file, and their offset in it.
#[derive(Drop)]
pub(crate) struct Ahead {
    pub(crate) piece: [u8; AHEAD],
    count: usize,
    at: u64,
    ghost within: { count ≤ 16384 },
}

impl Ahead {
    pub(crate) fn new() -> Ahead
        ensures { result.count ≡ 0 }
    {
        Ahead {
            piece: [0; AHEAD],
            count: 0,
            at: 0,
        }
    }

    // Nothing is kept.
    pub(crate) fn forget(&mut self)
        ensures { self.new.count ≡ 0 }
    {
        self.count = 0;
    }

    // So many bytes were read into the piece, from an offset on.
    pub(crate) fn keep(&mut self, at: u64, count: usize)
        requires { count ≤ 16384 }
        ensures count { self.new.count ≡ count }
        ensures at { self.new.at ≡ at }
        ensures piece { self.new.piece ≡ self.old.piece }
    {
        self.count = count;
        self.at = at;
    }

    // The bytes from an offset on that are kept.
    pub(crate) fn from(&self, at: u64) -> &[u8]
        ensures before { at < self.now.at → result.now ≡ [] }
        ensures behind { self.now.at ≤ at →
            result.now ≡ drop (at - self.now.at) (take self.now.count self.now.piece) }
    {
        if at < self.at {
            return &[];
        }
        let kept = &self.piece[..self.count];
        &kept[((at - self.at) as usize).min(kept.len())..]
    }
}

// Copies as many bytes as both have, and answers how many.
pub(crate) fn copy_front(bytes: &[u8], into: &mut [u8]) -> usize
    ensures count { result ≡ min (length bytes.now) (length into.old) }
    ensures copied { take result into.new ≡ take result bytes.now }
{
    let count = bytes.len().min(into.len());
    into[..count].copy_from_slice(&bytes[..count]);
    count
}
