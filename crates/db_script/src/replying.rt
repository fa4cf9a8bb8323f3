// The reply of a line is printed.
ghost use Rattle.std.specs.Prelude.{◌≡◌, ◌++◌, false, Some, codes};
ghost use Rattle.base_bytes.specs.OrderedMap.{value_at, with_prefix};
ghost use Rattle.db_script.specs.Lines.{command_of};
ghost use Rattle.db_script.specs.Replies.{change_reply, pair_fields, pair_reply, pair_replies, value_reply, reply_in};
ghost use Rattle.db_tool.specs.Printing.{Prints, holding};

use crate::line::Line;
use crate::printing::{print, print_field};
use base_bytes::Piece;
use base_devices::{Failed, Host};
use db_core::Db;

// Prints a value.
fn print_value<H: Host>(host: &mut H, value: &[u8], output: &mut Piece) -> Result<(), Failed>
    ensures prints { Prints (value_reply (Some value.now))
        (holding output.old (H.state host.old) (H.streams host.old))
        (holding output.new (H.state host.new) (H.streams host.new)) result }
    ensures rest { H.host_rest host.old host.new }
{
    if let Err(fault) = print(host, b"VALUE\t", output) {
        return Err(fault);
    }
    print_field(host, value, b'\n', output)
}

// Prints the value of a key, or that there is none.
fn print_found<H: Host, B: Db<H>>(
    key: &[u8],
    db: &B,
    host: &mut H,
    output: &mut Piece,
) -> Result<(), Failed>
    requires { (B.state db.now).is_broken ≡ false }
    ensures prints { Prints (value_reply (value_at (B.state db.now).seen key.now))
        (holding output.old (H.state host.old) (H.streams host.old))
        (holding output.new (H.state host.new) (H.streams host.new)) result }
    ensures rest { H.host_rest host.old host.new }
{
    match db.fetch(key) {
        Some(value) => print_value(host, value, output),
        None => print(host, b"NONE\n", output),
    }
}

// Prints a pair.
fn print_pair<H: Host>(
    host: &mut H,
    key: &[u8],
    value: &[u8],
    output: &mut Piece,
) -> Result<(), Failed>
    ensures prints { Prints (pair_reply (key.now, value.now))
        (holding output.old (H.state host.old) (H.streams host.old))
        (holding output.new (H.state host.new) (H.streams host.new)) result }
    ensures rest { H.host_rest host.old host.new }
{
    if let Err(fault) = print(host, b"PAIR\t", output) {
        return Err(fault);
    }
    print_fields(host, key, value, output)
}

// Prints a key, TAB, and a value.
fn print_fields<H: Host>(
    host: &mut H,
    key: &[u8],
    value: &[u8],
    output: &mut Piece,
) -> Result<(), Failed>
    ensures prints { Prints (pair_fields (key.now, value.now))
        (holding output.old (H.state host.old) (H.streams host.old))
        (holding output.new (H.state host.new) (H.streams host.new)) result }
    ensures rest { H.host_rest host.old host.new }
{
    if let Err(fault) = print_field(host, key, b'\t', output) {
        return Err(fault);
    }
    print_field(host, value, b'\n', output)
}

// Prints the pairs whose key has the prefix: one search, and then from each pair to the next.
fn print_pairs<H: Host, B: Db<H>>(
    prefix: &[u8],
    db: &B,
    host: &mut H,
    output: &mut Piece,
) -> Result<(), Failed>
    requires { (B.state db.now).is_broken ≡ false }
    ensures prints { Prints (pair_replies (with_prefix (B.state db.now).seen prefix.now))
        (holding output.old (H.state host.old) (H.streams host.old))
        (holding output.new (H.state host.new) (H.streams host.new)) result }
    ensures rest { H.host_rest host.old host.new }
{
    let mut cursor = db.walk_from(prefix);
    for _ in 0..db.count() {
        let Some(step) = db.step(cursor) else {
            break;
        };
        if !step.pair.key.starts_with(prefix) {
            break;
        }
        if let Err(fault) = print_pair(host, step.pair.key, step.pair.value, output) {
            return Err(fault);
        }
        cursor = step.next;
    }
    Ok(())
}

// Prints the pairs, and that they are all.
fn print_map<H: Host, B: Db<H>>(
    prefix: &[u8],
    db: &B,
    host: &mut H,
    output: &mut Piece,
) -> Result<(), Failed>
    requires { (B.state db.now).is_broken ≡ false }
    ensures prints { Prints
        (pair_replies (with_prefix (B.state db.now).seen prefix.now) ++ codes "END\n")
        (holding output.old (H.state host.old) (H.streams host.old))
        (holding output.new (H.state host.new) (H.streams host.new)) result }
    ensures rest { H.host_rest host.old host.new }
{
    if let Err(fault) = print_pairs(prefix, db, host, output) {
        return Err(fault);
    }
    print(host, b"END\n", output)
}

// The reply of a change.
fn change_reply(in_transaction: bool) -> &'static [u8]
    ensures { result.now ≡ change_reply in_transaction }
{
    if in_transaction {
        b"OK\n"
    } else {
        b"COMMITTED\n"
    }
}

/// Prints the reply of a line that was done, where a transaction was open before it or none.
pub(crate) fn reply<H: Host, B: Db<H>>(
    in_transaction: bool,
    line: &Line<'_>,
    db: &B,
    host: &mut H,
    output: &mut Piece,
) -> Result<(), Failed>
    requires { (B.state db.now).is_broken ≡ false }
    ensures prints { Prints
        (reply_in in_transaction (B.state db.now).seen (command_of line.now))
        (holding output.old (H.state host.old) (H.streams host.old))
        (holding output.new (H.state host.new) (H.streams host.new)) result }
    ensures rest { H.host_rest host.old host.new }
{
    match line {
        Line::Begin => print(host, b"BEGUN\n", output),
        Line::Commit => print(host, b"COMMITTED\n", output),
        Line::Abort => print(host, b"ABORTED\n", output),
        Line::Show { prefix } => print_map(prefix, db, host, output),
        Line::Get { key } => print_found(key, db, host, output),
        Line::Set { .. } => print(host, change_reply(in_transaction), output),
        Line::Delete { .. } => print(host, change_reply(in_transaction), output),
    }
}
