// How many landings a write makes, how many a disk in memory made, and when it stops.
ghost use Rattle.std.specs.Prelude.{◌≡◌, ◌≤◌, ◌<◌, ◌+◌, ◌*◌, ◌^◌, ◌↔◌, IsTrue, None, max};
ghost use Rattle.mem_devices.specs.Landings.{line_count_of, first_bytes_of, landings_before, PassesStop};

/// How many lines these bytes touch: aligned stretches of 64 bytes.
pub(crate) fn line_count(at: u64, size: u64) -> u64
    requires { at + size < 2 ^ 64 }
    ensures { result ≡ line_count_of at size }
{
    if size == 0 {
        return 0;
    }
    (at + (size - 1)) / 64 - at / 64 + 1
}

/// How many of these bytes lie in the first of their lines, so many.
pub(crate) fn first_bytes(at: u64, size: u64, lines: u64) -> u64
    requires room { at + size < 2 ^ 63 }
    requires lines { lines ≤ line_count_of at size }
    ensures { result ≡ first_bytes_of at size lines }
{
    if lines == 0 {
        return 0;
    }
    size.min((at / 64 + lines) * 64 - at)
}

/// Counts of landings.
#[derive(Clone, Copy, Debug, PartialEq, Eq)]
pub struct Landings {
    /// All that were made.
    pub(crate) made: u64,
    /// Those that are not on the disk for sure.
    pub(crate) pending: u64,
    /// After how many landings every call fails.
    pub(crate) stop: Option<u64>,
}

impl Landings {
    pub(crate) fn new() -> Landings
        ensures { result ≡ record { made = 0; pending = 0; stop = None } }
    {
        Landings {
            made: 0,
            pending: 0,
            stop: None,
        }
    }

    /// How many of so many further landings come before the stop.
    pub(crate) fn before_stop(&self, count: u64) -> u64
        ensures { result ≡ landings_before self.now.stop self.now.made count }
    {
        match self.stop {
            Some(stop) => count.min(stop.saturating_sub(self.made)),
            None => count,
        }
    }

    /// Whether the stop is met, or so many further landings pass it.
    pub(crate) fn is_stopped(&self, count: u64) -> bool
        ensures { IsTrue result ↔ PassesStop self.now.stop (self.now.made + max 1 count) }
    {
        let count = count.max(1);
        self.before_stop(count) < count
    }

    /// Whether so many bytes are room for so many further landings that are pending.
    pub(crate) fn has_room(&self, room: u64, count: u64) -> bool
        requires { 64 * self.now.pending ≤ room }
        ensures { IsTrue result ↔ (64 * (self.now.pending + count) ≤ room) }
    {
        count <= room / 64 - self.pending
    }

    /// So many landings more.
    pub(crate) fn add(&mut self, count: u64)
        requires made { self.old.made + count < 2 ^ 64 }
        requires pending { self.old.pending + count < 2 ^ 64 }
        ensures { self.new ≡ record self.old {
          made = self.old.made + count;
          pending = self.old.pending + count;
        } }
    {
        self.made += count;
        self.pending += count;
    }

    /// All landings are on the disk for sure.
    pub(crate) fn settle(&mut self)
        ensures { self.new ≡ record self.old { pending = 0 } }
    {
        self.pending = 0;
    }
}
