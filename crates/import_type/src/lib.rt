// The columns `kind p q text more` of a field line, written from what the schema line's format says: the type of `to_dtype`.
#![tactic(auto)]

pub mod put;

ghost use Rattle.std.specs.Prelude.{◌+◌};
ghost use Rattle.sheets.specs.FieldSheet.{columns, of_dictionary};
ghost use Rattle.sheets.specs.Format.{read_format};
ghost use Rattle.hexadecimal.specs.Hex.{bytes_of};
ghost use Rattle.buffer.specs.Over.{IsUsize, PutAt};
ghost use Rattle.datatypes.specs.Places.{integer_place};
ghost use Rattle.field_line.specs.Columns.{columns_piece};
ghost use Rattle.import_type.specs.TypeColumns.{FormatPuts, CanPut};

use datatypes::{IntegerType, kind};
use format::read::Format;
use refusal::Refusal;

// Which subtrees a type visits: none, the first child, all children, the dictionary's values.
#[derive(Clone, Copy)]
pub enum Below {
    Nothing,
    First,
    All,
    Values,
}

// Writes the columns of the type that a format says, but for a dictionary's, as much as fits. `sorted` says that the keys of a map are. What stands in
// the buffer after a refusal is left open. The place after the columns and which subtrees the type visits, or why its format is refused.
pub fn put_format(
    out: &mut [u8],
    at: usize,
    f: &[u8],
    sorted: bool,
) -> Result<(usize, Below), Refusal>
    requires { CanPut f.now at }
    ensures { FormatPuts at (read_format sorted (bytes_of f.now)) out.old out.new result }
{
    match format::read::read_format(f, sorted)? {
        Format::Numbers(t) => Ok((
            crate::put::put_textless(out, at, t),
            crate::put::below_of(t),
        )),
        Format::Timestamp(unit, k) => Ok((
            crate::put::put_timestamp(out, at, unit, &f[k..]),
            Below::Nothing,
        )),
        Format::Union(mode, k) => crate::put::put_union(out, at, mode, &f[k..]),
    }
}

// The columns of a dictionary.
pub fn put_dictionary(out: &mut [u8], at: usize, index: IntegerType, ordered: bool) -> usize
    requires { IsUsize (at + 67) }
    ensures { PutAt at (columns_piece (columns (of_dictionary (integer_place index) ordered))) result out.old out.new }
{
    field_line::put_numbers(
        out,
        at,
        kind::DICTIONARY,
        index.place(),
        field_line::flag(ordered),
    )
}
