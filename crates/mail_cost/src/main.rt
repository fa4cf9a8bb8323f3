//! Lists a folder of message files, scans each message, and prints its digest as `sha1sum` does: what `tests/mail_cost`
//! measures. The words are the folder, and behind it `list`, where no message is to be scanned.
#![tactic(auto)]

use base_bytes::Text;
use base_devices::{Name, Spool};
use file_spool::FileSpool;
use mail_scan::{list, message_name, scan};
use std::env;
use std::io::{self, BufWriter, ErrorKind, Write};

// Prints the digest of a message and its name, and nothing for a file that is none.
fn print_digest<S: Spool, W: Write + Drop>(
    spool: &mut S,
    name: &Name,
    output: &mut W,
) -> io::Result<()> {
    let Ok(scanned) = scan(spool, name) else {
        return Err(ErrorKind::Other.into());
    };
    let Some(scanned) = scanned else {
        return Ok(());
    };
    for byte in &scanned.digest {
        write!(output, "{byte:02x}")?;
    }
    let name = name.as_str();
    writeln!(output, "  {name}")
}

fn main(rt: HostRuntime) -> io::Result<()> {
    let alloc = rt.alloc();
    let mut words = env::args(&rt)?.skip(1);
    let folder = words.next().ok_or(ErrorKind::InvalidInput)?;
    let folder = Text::of(alloc, folder.as_str())
        .ok()
        .ok_or(ErrorKind::OutOfMemory)?;
    let mut output = BufWriter::new(alloc, io::writer(&rt))?;
    let mut spool = FileSpool::new(&rt, folder);
    let listing = list(alloc, &mut spool).ok().ok_or(ErrorKind::Other)?;
    if words.next().is_none() {
        for uid in listing.uids() {
            print_digest(&mut spool, &message_name(*uid), &mut output)?;
        }
    }
    let messages = listing.uids().len();
    let odd = listing.odd().len();
    writeln!(output, "{messages} messages, {odd} odd names")?;
    output.flush()
}
