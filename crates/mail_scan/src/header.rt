// The header of a message that comes in pieces.
ghost use Rattle.std.specs.Prelude.{◌≡◌, ◌≢◌, ◌≤◌, ◌∷◌, ◌++◌, ℕ, List, length, take};
ghost use Rattle.mail_scan.specs.HeaderState.{header_rest};

// Where the bytes read so far end.
#[derive(Clone, Copy, PartialEq, Eq)]
pub(crate) enum HeaderState {
    // A line starts here.
    LineStart,
    // Behind a CR with which a line started.
    Cr,
    InLine,
    // Behind the first empty line.
    Ended,
}

// Behind one byte more.
fn behind(state: HeaderState, byte: u8) -> HeaderState
    requires { state ≢ HeaderState.Ended }
    ensures { (rest : List ℕ) → header_rest state (byte ∷ rest) ≡ byte ∷ header_rest result rest }
{
    match state {
        HeaderState::LineStart => match byte {
            b'\n' => HeaderState::Ended,
            b'\r' => HeaderState::Cr,
            _ => HeaderState::InLine,
        },
        HeaderState::Cr if byte == b'\n' => HeaderState::Ended,
        HeaderState::InLine if byte == b'\n' => HeaderState::LineStart,
        _ => HeaderState::InLine,
    }
}

// How many bytes at the front of a piece belong to the header.
pub(crate) fn header_part(state: &mut HeaderState, piece: &[u8]) -> usize
    ensures within { result ≤ length piece.now }
    ensures part { (rest : List ℕ) → header_rest state.old (piece.now ++ rest)
        ≡ take result piece.now ++ header_rest state.new rest }
    ensures ended { state.old ≡ HeaderState.Ended → result ≡ 0 }
    ensures stays { state.old ≡ HeaderState.Ended → state.new ≡ HeaderState.Ended }
    ensures whole { result ≢ length piece.now → state.new ≡ HeaderState.Ended }
{
    let mut count = 0;
    while count < piece.len() && *state != HeaderState::Ended {
        *state = behind(*state, piece[count]);
        count += 1;
    }
    count
}
