// Why a folder could not be listed.

/// Why a folder could not be listed.
#[derive(Clone, Copy, Debug, PartialEq, Eq)]
pub enum ScanFault {
    /// The spool failed.
    SpoolFault,
    /// The spool gave a 1,048,577th name.
    TooMany,
    NoMemory,
}
