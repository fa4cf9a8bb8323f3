// Output is gathered and printed in large pieces.
ghost use Rattle.std.specs.Prelude.{◌≡◌, ◌<◌, ◌≤◌, ◌+◌, ◌∷◌, ◌++◌, [], IsOk, OnOk, length};
ghost use Rattle.base_bytes.specs.declared.limits.TheConstants.{PIECE_SIZE};
ghost use Rattle.db_tool.specs.Printing.{Prints, holding};

use base_bytes::Piece;
use base_devices::{Failed, Host};

// Prints what is gathered, if anything.
pub(crate) fn flush<H: Host>(host: &mut H, output: &mut Piece) -> Result<(), Failed>
    ensures prints { Prints [] (holding output.old (H.state host.old) (H.streams host.old))
        (holding output.new (H.state host.new) (H.streams host.new)) result }
    ensures empty { OnOk result (output.new ≡ []) }
    ensures nothing { output.old ≡ [] → IsOk result × (host.new ≡ host.old) }
    ensures rest { H.host_rest host.old host.new }
{
    if output.as_slice().is_empty() {
        return Ok(());
    }
    if let Err(fault) = host.tell(output.as_slice()) {
        return Err(fault);
    }
    output.clear();
    Ok(())
}

// Prints what is gathered where it leaves no room.
fn make_room<H: Host>(host: &mut H, output: &mut Piece) -> Result<(), Failed>
    ensures prints { Prints [] (holding output.old (H.state host.old) (H.streams host.old))
        (holding output.new (H.state host.new) (H.streams host.new)) result }
    ensures room { OnOk result (length output.new < PIECE_SIZE) }
    ensures still { length output.old < PIECE_SIZE
        → (host.new ≡ host.old) × (output.new ≡ output.old) }
    ensures rest { H.host_rest host.old host.new }
{
    if output.room() == 0 {
        return flush(host, output);
    }
    Ok(())
}

// Prints the bytes: they are gathered, and printed in full pieces as they come. What fits the piece stays there.
pub(crate) fn print<H: Host>(host: &mut H, bytes: &[u8], output: &mut Piece) -> Result<(), Failed>
    ensures prints { Prints bytes.now (holding output.old (H.state host.old) (H.streams host.old))
        (holding output.new (H.state host.new) (H.streams host.new)) result }
    ensures gathered { length output.old + length bytes.now ≤ PIECE_SIZE → host.new ≡ host.old }
    ensures rest { H.host_rest host.old host.new }
{
    let mut at = 0;
    while at < bytes.len() {
        if let Err(fault) = make_room(host, output) {
            return Err(fault);
        }
        at += output.add(&bytes[at..]);
    }
    Ok(())
}

// Gathers a part of a line that leaves room, and the byte that ends it.
fn gather(part: &[u8], end: u8, output: &mut Piece)
    requires { length output.old + length part.now < PIECE_SIZE }
    ensures { output.new ≡ output.old ++ (part.now ++ end ∷ []) }
{
    if !part.is_empty() {
        output.add(part);
    }
    output.push(end);
}

// Prints a part of a line, and the byte that ends it.
pub(crate) fn print_part<H: Host>(
    host: &mut H,
    part: &[u8],
    end: u8,
    output: &mut Piece,
) -> Result<(), Failed>
    ensures prints { Prints (part.now ++ end ∷ [])
        (holding output.old (H.state host.old) (H.streams host.old))
        (holding output.new (H.state host.new) (H.streams host.new)) result }
    ensures rest { H.host_rest host.old host.new }
{
    if part.len() < output.room() {
        gather(part, end, output);
        return Ok(());
    }
    if let Err(fault) = print(host, part, output) {
        return Err(fault);
    }
    print(host, &[end], output)
}
