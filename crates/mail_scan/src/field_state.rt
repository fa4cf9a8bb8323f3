// Where in the search for a Date field the bytes read so far end.
ghost use Rattle.std.specs.Prelude.{◌≡◌, ◌==◌, [], ◌∷◌, ◌++◌, ℕ, List};
ghost use Rattle.mail_scan.specs.FieldState.{IsDateName, ReadsLine, ReadsOn};
ghost use Rattle.mail_scan.specs.MessageText.{date_value, date_value_from};

// The name of the field, as small letters, with its colon.
const DATE_NAME: [u8; 5] = *b"date:";

// Where the bytes read so far end.
#[derive(Clone, Copy, PartialEq, Eq)]
pub(crate) enum FieldState {
    // In a line that so far is the front of the name, so many bytes.
    Name(usize),
    // In another line.
    InLine,
    // In the value.
    Value,
    // In the value behind a CR, which belongs to it unless LF follows.
    ValueCr,
    // Behind a line of the value, which goes on if the next one begins with white space.
    ValueLf,
    // Behind the value.
    Done,
}

pub(crate) fn behind_name(size: usize, byte: u8) -> FieldState
    ensures { (header line : List ℕ) → IsDateName line size → ReadsLine line header →
        ReadsOn result [] (header ++ byte ∷ []) }
{
    if size < 5 && byte.to_ascii_lowercase() == DATE_NAME[size] {
        if size == 4 {
            FieldState::Value
        } else {
            FieldState::Name(size + 1)
        }
    } else {
        behind_other(byte)
    }
}

pub(crate) fn behind_other(byte: u8) -> FieldState
    ensures { (header : List ℕ) →
        ((rest : List ℕ) → date_value (header ++ byte ∷ rest) ≡ date_value_from (byte == 10) rest) →
        ReadsOn result [] (header ++ byte ∷ []) }
{
    if byte == b'\n' {
        FieldState::Name(0)
    } else {
        FieldState::InLine
    }
}
