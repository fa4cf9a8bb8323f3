// Why a rebuild was refused.

/// Why an index was not rebuilt.
#[derive(Clone, Copy, Debug, PartialEq, Eq)]
pub enum RebuildFault {
    /// The folder could not be listed, or a message could not be read.
    SpoolFault,
    /// The folder gave a 1,048,577th name.
    TooMany,
    /// The old index has so many bytes, which is more than 268,435,456.
    TooBig { size: u64 },
    /// A modification number is due after the last one, 18,446,744,073,709,551,615.
    ModseqFull,
    /// A call of the host failed that was no print.
    DiskFault,
    /// The report could not be printed in full.
    WriteFault,
    NoMemory,
}
