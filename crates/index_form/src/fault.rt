// What can be wrong with an index.

/// What is wrong with an index: the first of these, in this order.
#[derive(Clone, Copy, Debug, PartialEq, Eq)]
pub enum IndexFault {
    /// Fewer than 128 bytes.
    Short,
    /// The header's check word is not that of its first 124 bytes.
    Check,
    /// The minor version is not 12.
    MinorVersion,
    /// The size of a record is not 96.
    RecordSize,
    /// The records do not begin at 128.
    StartOffset,
    /// The records pass the end of the file.
    Count,
}
