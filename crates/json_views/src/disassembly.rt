//! The listing of a program as JSON.

ghost use Rattle.std.specs.Prelude.{OnOk};
ghost use Rattle.json.specs.Tree.{json_tokens};
ghost use Rattle.json_views.specs.Writing.{Adds};
ghost use Rattle.json_views.specs.Disassembly.{shown_disassembly, shown_lines};

use crate::writing::{Writer, begin_array, end_array, put_text};
use std::alloc::{AllocError, Global};
use teal_check::Program;
use teal_dis::list;

/// The listing of a program, an item a line, and an empty item behind its last line feed: the line of the program's end.
pub(crate) fn put_disassembly(
    alloc: Global,
    out: &mut Writer,
    program: &Program,
) -> Result<(), AllocError>
    ensures { OnOk result (Adds out.old out.new (json_tokens (shown_disassembly program.now))) }
{
    let listing = list(alloc, program)?;
    put_lines(out, listing.as_str())
}

/// The parts of a text between its line feeds.
fn put_lines(out: &mut Writer, text: &str) -> Result<(), AllocError>
    ensures { OnOk result (Adds out.old out.new (json_tokens (shown_lines text.now))) }
{
    begin_array(out)?;
    let mut rest = text;
    while let Some((line, behind)) = rest.split_once('\n') {
        put_text(out, line)?;
        rest = behind;
    }
    put_text(out, rest)?;
    end_array(out)
}
