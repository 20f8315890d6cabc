// The fixed names of formats in hexadecimal, from the table that import reads.
ghost use Rattle.std.specs.Prelude.{◌≡◌};
ghost use Rattle.sheets.specs.Answer.{given};
ghost use Rattle.sheets.specs.Field.{leaf};
ghost use Rattle.sheets.specs.Format.{scalar_format};
ghost use Rattle.format_names.specs.Names.{row_at};
ghost use Rattle.put_format.specs.Formats.{Formats, CanPutRow, is_word, CanPutLeaf};

use format_names::names;
use refusal::Refusal;

// A kind without a name has some other kind's row.
const OTHER: usize = names::NULL;

// For each kind the row of the table that its unit is counted from: Time64 has names from its third unit on, after those of Time32.
const FIRST_ROWS: [u8; 41] = [
    names::NULL as u8,
    names::BOOLEAN as u8,
    names::INT8 as u8,
    names::INT16 as u8,
    names::INT32 as u8,
    names::INT64 as u8,
    names::INT128 as u8,
    names::UINT8 as u8,
    names::UINT16 as u8,
    names::UINT32 as u8,
    names::UINT64 as u8,
    names::UINT128 as u8,
    names::FLOAT16 as u8,
    names::FLOAT32 as u8,
    names::FLOAT64 as u8,
    OTHER as u8,
    names::DATE32 as u8,
    names::DATE64 as u8,
    names::TIME32 as u8,
    names::TIME32 as u8,
    names::DURATION as u8,
    names::INTERVAL as u8,
    names::BINARY as u8,
    OTHER as u8,
    names::LARGE_BINARY as u8,
    names::UTF8 as u8,
    names::LARGE_UTF8 as u8,
    OTHER as u8,
    OTHER as u8,
    OTHER as u8,
    OTHER as u8,
    OTHER as u8,
    OTHER as u8,
    OTHER as u8,
    OTHER as u8,
    OTHER as u8,
    OTHER as u8,
    OTHER as u8,
    names::BINARY_VIEW as u8,
    names::UTF8_VIEW as u8,
    OTHER as u8,
];

// Whether the name of row i has two bytes, as those of lists and structs have, and its four digits fit.
fn is_word(room: usize, at: usize, i: usize) -> bool
    requires { CanPutRow i at }
    ensures { result ≡ is_word room at i }
{
    if names::name_length(i) != 2 {
        return false;
    }
    at + 4 <= room
}

// The name of row i, as much as fits; four digits at once.
pub fn put_row(out: &mut [u8], at: usize, i: usize) -> Result<(usize, bool), Refusal>
    requires { CanPutRow i at }
    ensures { Formats (given (row_at i).name) at result out.old out.new }
{
    if is_word(out.len(), at, i) {
        words::put_word4(out, at, names::low_digits(i));
        return Ok((at + 4, false));
    }
    let mut text = [0u8; 16];
    words::put_word8(&mut text, 0, names::low_digits(i));
    words::put_word8(&mut text, 8, names::high_digits(i));
    let len = 2 * names::name_length(i);
    let end = buffer::put_at(out, at, &text[..len]);
    Ok((end, false))
}

// The format of a type that its kind and its unit tell. Where the row that is looked at is another kind's, the kind has no format in this unit.
pub fn put_leaf(out: &mut [u8], at: usize, kind: u64, unit: u64) -> Result<(usize, bool), Refusal>
    requires { CanPutLeaf kind unit at }
    ensures { Formats (scalar_format (leaf kind unit)) at result out.old out.new }
{
    let row = FIRST_ROWS[kind as usize] as usize + unit as usize;
    let found = format_names::row_at(row);
    if found.kind != kind {
        return Err(Refusal::NoFormat);
    }
    put_row(out, at, row)
}
