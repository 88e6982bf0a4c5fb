//! Lines of a script, read as commands.
ghost use Rattle.std.specs.Prelude.{◌≡◌, option_copied, option_map};
ghost use Rattle.rows.specs.Names.{name_of};
ghost use Rattle.texts.specs.Fields.{field};
ghost use Rattle.script.specs.Shapes.{one_name, name_key, name_two_keys, name_key_value, one_count, count_up_to, bare};
ghost use Rattle.script.specs.Grammar.{command_of};

use crate::command::Command;
use rows::{Name, Value};
use texts::{cut, is_word, key, key_field};

/// The command that a line is, given without its line feed; `None` exactly where the line has more than 1,024 bytes or
/// is of no form.
pub fn read_line(line: &[u8]) -> Option<Command>
    ensures { result ≡ command_of line.now }
{
    if line.len() > 1024 {
        return None;
    }
    let (word, left) = cut(line);
    if is_word(word, b"create") {
        return create(left);
    }
    if is_word(word, b"begin") {
        return alone(Command::Begin, left);
    }
    if is_word(word, b"put") {
        return put(left);
    }
    if is_word(word, b"del") {
        return del(left);
    }
    if is_word(word, b"get") {
        return get(left);
    }
    if is_word(word, b"scan") {
        return scan(left);
    }
    if is_word(word, b"commit") {
        return alone(Command::Commit, left);
    }
    if is_word(word, b"abort") {
        return alone(Command::Abort, left);
    }
    if is_word(word, b"checkpoint") {
        return alone(Command::Checkpoint, left);
    }
    if is_word(word, b"drain") {
        return alone(Command::Drain, left);
    }
    if is_word(word, b"clean") {
        return clean(left);
    }
    None
}

fn alone(command: Command, left: Option<&[u8]>) -> Option<Command>
    ensures { result ≡ bare command (option_copied left.entry) }
{
    match left {
        None => Some(command),
        Some(_) => None,
    }
}

fn create(left: Option<&[u8]>) -> Option<Command>
    ensures { result ≡ one_name Command.Create (option_copied left.entry) }
{
    let (name, left) = name_field(left)?;
    alone(Command::Create(name), left)
}

fn put(left: Option<&[u8]>) -> Option<Command>
    ensures { result ≡ name_key_value Command.Put (option_copied left.entry) }
{
    let (name, left) = name_field(left)?;
    let (key, left) = key_field(left)?;
    let value = Value::from_bytes(left?)?;
    Some(Command::Put(name, key, value))
}

fn del(left: Option<&[u8]>) -> Option<Command>
    ensures { result ≡ name_key Command.Del (option_copied left.entry) }
{
    let (name, left) = name_field(left)?;
    let (key, left) = key_field(left)?;
    alone(Command::Del(name, key), left)
}

fn get(left: Option<&[u8]>) -> Option<Command>
    ensures { result ≡ name_key Command.Get (option_copied left.entry) }
{
    let (name, left) = name_field(left)?;
    let (key, left) = key_field(left)?;
    alone(Command::Get(name, key), left)
}

fn scan(left: Option<&[u8]>) -> Option<Command>
    ensures { result ≡ name_two_keys Command.Scan (option_copied left.entry) }
{
    let (name, left) = name_field(left)?;
    let (low, left) = key_field(left)?;
    let (high, left) = key_field(left)?;
    alone(Command::Scan(name, low, high), left)
}

fn clean(left: Option<&[u8]>) -> Option<Command>
    ensures { result ≡ one_count 65536 Command.Clean (option_copied left.entry) }
{
    let (count, left) = count_field(left)?;
    alone(Command::Clean(count), left)
}

/// A name, and what is left behind it.
fn name_field(left: Option<&[u8]>) -> Option<(Name, Option<&[u8]>)>
    ensures { option_map (λ p. (p.0, option_copied p.1)) result
        ≡ field name_of (option_copied left.entry) }
{
    let (word, left) = cut(left?);
    let name = Name::from_bytes(word)?;
    Some((name, left))
}

/// A count of pages from 1 to 65,536, and what is left behind it.
fn count_field(left: Option<&[u8]>) -> Option<(u32, Option<&[u8]>)>
    ensures { option_map (λ p. (p.0, option_copied p.1)) result
        ≡ field (count_up_to 65536) (option_copied left.entry) }
{
    let (word, left) = cut(left?);
    let count = key(word)?;
    if count < 1 || count > 65536 {
        return None;
    }
    Some((count as u32, left))
}
