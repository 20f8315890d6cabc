// A line of a schema sheet at a place: read and tested.
ghost use Rattle.std.specs.Prelude.{◌≡◌};
ghost use Rattle.schema_line.specs.Lines.{read_line};
ghost use Rattle.sheets.specs.Answer.{found};
ghost use Rattle.sheets.specs.Refusal.{bad_lines};

use crate::SchemaLine;
use columns::{number, text};

// The line from place at on.
pub fn read_line(s: &[u8], at: usize) -> Option<SchemaLine>
    ensures { found bad_lines result ≡ read_line s.now at }
{
    let format = text::c_string_column(s, at)?;
    let name = text::c_string_column(s, format + 1)?;
    let (flags, flags_end) = number::signed_column(s, name + 1)?;
    let metadata = text::text_column(s, flags_end + 1)?;
    let (children, children_end) = number::number_column(s, metadata + 1, b' ')?;
    let (dictionary, end) = number::number_column(s, children_end + 1, b'\n')?;
    if 1 < dictionary {
        return None;
    }
    Some(SchemaLine {
        format: columns::between(at, format),
        name: columns::between(format + 1, name),
        flags,
        metadata: columns::between(flags_end + 1, metadata),
        children,
        dictionary,
        end: end + 1,
    })
}
