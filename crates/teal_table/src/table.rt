//! The table itself.

ghost use Rattle.std.specs.Prelude.{◌≡◌, find};
ghost use Rattle.std.specs.Option.{option_map};
ghost use Rattle.std.specs.Str.{bytes_eq};
ghost use Rattle.teal_table.specs.Table.{row_of, name_of, opcode_at, opcode_in, opcode_named};
ghost use Rattle.teal_table.specs.Shown.{shown};

use crate::opcode::{Opcode, named_in};
use crate::shape::Version;
use crate::table_row::Row;

/// The row of a code, if it is one of the table's 76.
pub fn row(code: u8) -> Option<Row>
    ensures { option_map shown result ≡ option_map row_of (opcode_at code) }
{
    match Opcode::of(code) {
        Some(opcode) => Some(opcode.row()),
        None => None,
    }
}

/// The opcode of a code in programs of a version.
pub fn opcode_in(version: Version, code: u8) -> Option<Opcode>
    ensures { result ≡ opcode_in version code }
{
    match Opcode::of(code) {
        Some(opcode) if version.has(opcode.version()) => Some(opcode),
        _ => None,
    }
}

/// The row of a name of source text, if it is one of the table's 76.
pub fn by_name(name: &str) -> Option<Row>
    ensures { option_map shown result ≡ option_map row_of (opcode_named name.now) }
{
    match opcode_named(name.as_bytes()) {
        Some(opcode) => Some(opcode.row()),
        None => None,
    }
}

/// The opcode of a name of source text, which is given as its bytes.
pub fn opcode_named(name: &[u8]) -> Option<Opcode>
    ensures { result ≡ opcode_named name.now }
{
    opcode_with(named_in(name.len()), name)
}

// The first opcode with the name.
fn opcode_with(opcodes: &[Opcode], name: &[u8]) -> Option<Opcode>
    ensures { result ≡ find (λ o. bytes_eq (name_of o) name.now) opcodes.now }
{
    for opcode in opcodes {
        if opcode.name().as_bytes() == name {
            return Some(*opcode);
        }
    }
    None
}
