// A message is read once, in pieces.
ghost use Rattle.std.specs.Prelude.{◌≡◌, IfOk};
ghost use Rattle.base_devices.specs.Causes.{HasCause};
ghost use Rattle.base_devices.specs.SpoolCalls.{MessageFile, HasFile};
ghost use Rattle.mail_scan.specs.Facts.{IsScan};

use crate::Scanned;
use crate::facts::Facts;
use base_devices::{Failed, Name, Spool};

// How much of a file is read at once.
const PIECE: usize = 4096;

// Where reading stops: a longer file is no message.
const READ_LIMIT: u64 = 4_294_967_296;

/// The facts of a message file, or None exactly where it has no byte or more than 4,294,967,295. It asks the time, then
/// reads the file once from its start, 4,096 bytes at a time, and takes no memory.
pub fn scan<S: Spool>(spool: &mut S, name: &Name) -> Result<Option<Scanned>, Failed>
    ensures facts { IfOk result (λ scanned. (file : MessageFile) →
        HasFile (S.state spool.old).folder name.now file → IsScan file.bytes file.time scanned) }
    ensures cause { HasCause (S.state spool.old).faults (S.state spool.new).faults result }
    ensures folder { (S.state spool.new).folder ≡ (S.state spool.old).folder }
    ensures rest { S.spool_rest spool.old spool.new }
{
    let time = spool.time(name)?;
    let mut facts = Facts::new();
    let mut piece = [0; PIECE];
    while facts.size() < READ_LIMIT {
        let room = (READ_LIMIT - facts.size()).min(PIECE as u64) as usize;
        let count = spool.read(name, facts.size(), &mut piece[..room])?;
        if count == 0 {
            break;
        }
        facts.add(&piece[..count]);
    }
    Ok(facts.finish(time))
}
