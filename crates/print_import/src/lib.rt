// What the programs print of a schema sheet, whose metadata is big-endian (`big`) or not: its field sheet, or `refused N`. The output buffer has 65,536 bytes.
#![tactic(auto)]

ghost use Rattle.std.specs.Prelude.{◌≡◌, IfOk, OnOk};
ghost use Rattle.std.specs.Io.KnownBytes.{Appends};
ghost use Rattle.print_import.specs.Printed.{printed_number, printed_text};

use std::io;
use std::io::Write;

const ROOM: usize = 65536;

// Prints what import answers; the number of the answer. Only a write fails.
pub fn print_import<W: Write, E: Write>(
    to: &mut W,
    err: &mut E,
    sheet: &[u8],
    big: bool,
) -> io::Result<u8>
    ensures number { IfOk result (λ n. n ≡ printed_number big sheet.now) }
    ensures printed { OnOk result (Appends (W.contents to.old) (W.contents to.new) (printed_text big sheet.now)) }
{
    let mut out = [0u8; ROOM];
    let answer = import_sheet::import(sheet, big, &mut out);
    print_answer::print_answer(to, err, &out, answer)
}
