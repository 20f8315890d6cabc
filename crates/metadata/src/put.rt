// The pairs of a metadata block found by their entries, numbers that say where they stand, and written as columns.
ghost use Rattle.std.specs.Prelude.{◌≡◌};
ghost use Rattle.sheets.specs.Text.{hex};
ghost use Rattle.sheets.specs.FieldSheet.{pair_text};
ghost use Rattle.buffer.specs.Over.{PutAt};
ghost use Rattle.hexadecimal.specs.Hex.{bytes_of};
ghost use Rattle.metadata.specs.Entry.{pair_at};
ghost use Rattle.metadata.specs.Pairs.{pairs_column, value_column, EntryIn, CanPutPair, CanPut, CanPutValue};

// The hexadecimal text of an entry's value.
fn value_of(m: &[u8], e: u32, big: bool) -> &[u8]
    requires { EntryIn big m.now e }
    ensures { result.now ≡ hex (pair_at big (bytes_of m.now) e).1 }
{
    let k = key_order::end_of(e) / 2;
    let n = endian::word_at(m, k, big) as usize;
    let start = 2 * k + 8;
    let end = start + 2 * n;
    &m[start..end]
}

fn put_entry(out: &mut [u8], at: usize, m: &[u8], e: u32, big: bool) -> usize
    requires { CanPutPair big m.now e at }
    ensures { PutAt at (pair_text (pair_at big (bytes_of m.now) e)) result out.old out.new }
{
    field_line::put_pair(out, at, key_order::key_of(m, e), value_of(m, e, big))
}

// Writes the column `pairs` of the first `count` entries, as much as fits; the place after it.
pub fn put_pairs(
    out: &mut [u8],
    at: usize,
    m: &[u8],
    entries: &[u32],
    count: usize,
    big: bool,
) -> usize
    requires { CanPut big m.now entries.now count at }
    ensures { PutAt at (pairs_column big (bytes_of m.now) entries.now count) result out.old out.new }
{
    if count == 0 {
        return buffer::put_byte(out, at, b'~');
    }
    let mut end = put_entry(out, at, m, entries[0], big);
    for &e in &entries[1..count] {
        let start = buffer::put_byte(out, end, b',');
        end = put_entry(out, start, m, e, big);
    }
    end
}

// Writes the value of an entry as a column, `~` for 0; the place after it.
pub fn put_value(out: &mut [u8], at: usize, m: &[u8], e: u32, big: bool) -> usize
    requires { CanPutValue big m.now e at }
    ensures { PutAt at (value_column big (bytes_of m.now) e) result out.old out.new }
{
    if e == 0 {
        return buffer::put_byte(out, at, b'~');
    }
    let text = value_of(m, e, big);
    if text.len() == 0 {
        return buffer::put_byte(out, at, b'-');
    }
    buffer::put_at(out, at, text)
}
