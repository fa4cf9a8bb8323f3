// The Date field of a header that comes in pieces.
ghost use Rattle.std.specs.Prelude.{◌≡◌};

use crate::dates::{date_seconds, is_space};
use crate::field_state::{FieldState, behind_name, behind_other};
use arrayvec::ArrayVec;

// The first Date field, and the first 128 bytes of its value.
#[derive(Drop)]
pub(crate) struct DateField {
    state: FieldState,
    kept: ArrayVec<u8, 128>,
}

impl DateField {
    ghost use Rattle.std.specs.Prelude.{[], ◌∷◌, ◌++◌, ℕ, List, Some, take};
    ghost use Rattle.mail_scan.specs.DateField.{KnowsDate};
    ghost use Rattle.mail_scan.specs.MessageText.{date_value, field_value};
    ghost use Rattle.mail_scan.specs.DateGrammar.{date_seconds_of};
    ghost use Rattle.std.specs.Option.{option_and_then};

    pub(crate) fn new() -> DateField
        ensures { KnowsDate [] result }
    {
        DateField {
            state: FieldState::Name(0),
            kept: ArrayVec::new(),
        }
    }

    // Reads the next bytes of the header.
    pub(crate) fn add(&mut self, bytes: &[u8])
        ensures { (header : List ℕ) → KnowsDate header self.old →
            KnowsDate (header ++ bytes.now) self.new }
    {
        for byte in bytes {
            self.step(*byte);
        }
    }

    fn step(&mut self, byte: u8)
        ensures { (header : List ℕ) → KnowsDate header self.old →
            KnowsDate (header ++ byte ∷ []) self.new }
    {
        match self.state {
            FieldState::Name(size) => self.state = behind_name(size, byte),
            FieldState::InLine => self.state = behind_other(byte),
            FieldState::Value => self.read_value(byte),
            FieldState::ValueCr => {
                if byte != b'\n' {
                    self.keep(b'\r');
                }
                self.read_value(byte);
            }
            FieldState::ValueLf => {
                if is_space(byte) {
                    self.read_value(byte);
                } else {
                    self.state = FieldState::Done;
                }
            }
            FieldState::Done => {}
        }
    }

    // Reads a byte of the value, or of the end of its line.
    fn read_value(&mut self, byte: u8)
        ensures { (header value : List ℕ) → self.old.kept.items ≡ take 128 value →
            ((rest : List ℕ) → date_value (header ++ byte ∷ rest)
            ≡ Some (value ++ field_value (byte ∷ rest))) →
            KnowsDate (header ++ byte ∷ []) self.new }
    {
        match byte {
            b'\n' => self.state = FieldState::ValueLf,
            b'\r' => self.state = FieldState::ValueCr,
            _ => {
                self.state = FieldState::Value;
                self.keep(byte);
            }
        }
    }

    // Keeps a byte of the value, if it is among the first 128.
    fn keep(&mut self, byte: u8)
        ensures kept { self.new.kept.items ≡ take 128 (self.old.kept.items ++ byte ∷ []) }
        ensures state { self.new.state ≡ self.old.state }
    {
        let _ = self.kept.try_push(byte);
    }

    // The date, once the header was read.
    pub(crate) fn date(mut self) -> Option<u32>
        ensures { (header : List ℕ) → KnowsDate header self →
            result ≡ option_and_then (λ value. date_seconds_of (take 128 value))
            (date_value header) }
    {
        match self.state {
            FieldState::Name(_) | FieldState::InLine => None,
            FieldState::ValueCr => {
                self.keep(b'\r');
                date_seconds(&self.kept)
            }
            FieldState::Value | FieldState::ValueLf | FieldState::Done => date_seconds(&self.kept),
        }
    }
}
