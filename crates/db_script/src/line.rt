// What a line of a script asks for.

/// A line of a script. Its fields are slices of the script's own buffer.
#[derive(Clone, Copy, Debug, PartialEq, Eq)]
pub enum Line<'a> {
    /// Begins a transaction.
    Begin,
    /// Commits the open one.
    Commit,
    /// Gives the open one up.
    Abort,
    /// Asks for each pair whose key has the prefix.
    Show { prefix: &'a [u8] },
    /// Asks for the value of a key.
    Get { key: &'a [u8] },
    /// Puts a pair.
    Set { key: &'a [u8], value: &'a [u8] },
    /// Takes a key out.
    Delete { key: &'a [u8] },
}
