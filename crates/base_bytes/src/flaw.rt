// What can be wrong with a database file, and how it is printed.
ghost use Rattle.std.specs.Prelude.{◌≡◌, ◌≤◌, length};
ghost use Rattle.base_bytes.specs.Flaws.{flaw_text};

/// What is wrong with a database file, by the check that finds it.
#[derive(Clone, Copy, Debug, PartialEq, Eq)]
pub enum Flaw {
    /// Fewer bytes than the thing at this place needs.
    Short,
    /// The file does not begin as a twoskip file does.
    Magic,
    /// The file's version is not 1.
    Version,
    /// The check word of a header or of a record's head is wrong.
    Check,
    /// A record has a type that may not stand at this place.
    Kind,
    /// A record has a level that its type may not have.
    Level,
    /// A byte of the padding behind a record is not zero.
    Padding,
    /// A key or value has a 64-bit length, which is not read.
    Extended,
    /// The check word of a record's key and value is wrong.
    Tail,
    /// The committed end does not fit the file.
    Size,
    /// A pointer leads to no record.
    Place,
    /// A record has no pointer below the committed end.
    Slot,
    /// A key is not above the key before it.
    Order,
    /// A pointer of an upper level leads past a record.
    Link,
    /// The header counts another number of records.
    Count,
    /// A line of flat text has no TAB.
    NoTab,
    /// An escape byte of flat text begins no escape.
    BadEscape,
    /// A line of flat text has an empty key.
    EmptyKey,
}

/// The first flaw of a file, and the offset of the bytes that show it.
#[derive(Clone, Copy, Debug, PartialEq, Eq)]
pub struct Damage {
    /// In bytes from the file's start.
    pub at: u64,
    pub check: Flaw,
}

impl Flaw {
    /// The name as it is printed.
    pub fn name(self) -> &'static str
        ensures name { result.now ≡ flaw_text self }
        ensures short { length result.now ≤ 9 }
    {
        match self {
            Flaw::Short => "Short",
            Flaw::Magic => "Magic",
            Flaw::Version => "Version",
            Flaw::Check => "Check",
            Flaw::Kind => "Kind",
            Flaw::Level => "Level",
            Flaw::Padding => "Padding",
            Flaw::Extended => "Extended",
            Flaw::Tail => "Tail",
            Flaw::Size => "Size",
            Flaw::Place => "Place",
            Flaw::Slot => "Slot",
            Flaw::Order => "Order",
            Flaw::Link => "Link",
            Flaw::Count => "Count",
            Flaw::NoTab => "NoTab",
            Flaw::BadEscape => "BadEscape",
            Flaw::EmptyKey => "EmptyKey",
        }
    }
}
