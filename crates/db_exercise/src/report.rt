// The digest of a map, and the lines that are printed.
ghost use Rattle.std.specs.Prelude.{◌≡◌, ◌++◌, IfOk, OnOk, false, codes};
ghost use Rattle.base_devices.specs.HostCalls.{moment};
ghost use Rattle.base_notes.specs.declared.note.Note.TheVariants.{Done};
ghost use Rattle.db_exercise.specs.Exercise.{report_text};
ghost use Rattle.db_tool.specs.Doing.{Looks};
ghost use Rattle.db_tool.specs.Printing.{shown};
ghost use Rattle.hex.specs.Hex.{encode_lower};
ghost use Rattle.sha1.specs.Sha1.{sha1};

use base_bytes::NoMemory;
use base_devices::Host;
use base_notes::Note;
use db_core::Db;
use db_tool::print_text;
use itoa::Buffer;
use sha1::Sha1;
use std::alloc::Global;

// The SHA-1 of all that is shown of a map, in one walk over its pairs.
fn digest_of<H: Host, B: Db<H>>(db: &B) -> [u8; 20]
    requires { (B.state db.now).is_broken ≡ false }
    ensures { result ≡ sha1 (shown (B.state db.now).seen) }
{
    let mut digest = Sha1::new();
    let mut cursor = db.walk_from(b"");
    for _ in 0..db.count() {
        let Some(step) = db.step(cursor) else {
            break;
        };
        digest.update(step.pair.key);
        digest.update(b"\t");
        digest.update(step.pair.value);
        digest.update(b"\n");
        cursor = step.next;
    }
    digest.finalize()
}

// A digest in hexadecimal.
fn hex_of(digest: [u8; 20]) -> [u8; 40]
    ensures { result ≡ encode_lower digest }
{
    let mut text = [0; 40];
    let _fits = hex::encode_to_slice(digest, &mut text);
    text
}

// Adds bytes to a text.
fn append(text: &mut Vec<u8>, bytes: &[u8]) -> Result<(), NoMemory>
    ensures { OnOk result (text.new.items ≡ text.old.items ++ bytes.now) }
{
    match text.extend_from_slice(bytes) {
        Ok(()) => Ok(()),
        Err(_) => Err(NoMemory),
    }
}

// Adds a line: a word with the space behind it, and a field.
fn append_line(text: &mut Vec<u8>, word: &[u8], field: &[u8]) -> Result<(), NoMemory>
    ensures { OnOk result (text.new.items
        ≡ text.old.items ++ (word.now ++ (field.now ++ codes "\n"))) }
{
    append(text, word)?;
    append(text, field)?;
    append(text, b"\n")
}

// The three lines of a report.
fn text_of<H: Host, B: Db<H>>(alloc: Global, rounds: u32, db: &B) -> Result<Vec<u8>, NoMemory>
    requires { (B.state db.now).is_broken ≡ false }
    ensures { IfOk result (λ text. text.items ≡ report_text rounds (B.state db.now).seen) }
{
    let mut buffer = Buffer::new();
    let mut text = Vec::new(alloc);
    append_line(
        &mut text,
        b"transactions ",
        buffer.format(rounds).as_bytes(),
    )?;
    append_line(&mut text, b"pairs ", buffer.format(db.count()).as_bytes())?;
    append_line(&mut text, b"sha1 ", &hex_of(digest_of(db)))?;
    Ok(text)
}

// Prints the report in full before it ends.
pub(crate) fn report<H: Host, B: Db<H>>(alloc: Global, rounds: u32, db: &B, host: &mut H) -> Note
    requires { (B.state db.now).is_broken ≡ false }
    ensures looks { Looks Done (report_text rounds (B.state db.now).seen)
        (moment (H.state host.old) (H.streams host.old))
        (moment (H.state host.new) (H.streams host.new)) result }
    ensures rest { H.host_rest host.old host.new }
{
    match text_of(alloc, rounds, db) {
        Ok(text) => print_text(alloc, text.as_slice(), host),
        Err(_) => Note::Memory,
    }
}
