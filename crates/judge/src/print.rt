// What the program `replay` prints: the counts, the first difference, where the list is malformed. Each writes to a lent writer and ends with the
// error of the write that failed. The stored output of `replay` is the test of the words.
use crate::Numbers;
use crate::tally::{COUNTS, DIFFER};
use recorded_list::call;
use recorded_list::records::Header;
use std::io;
use std::io::Write;

fn name<W: Write>(out: &mut W, of: u64) -> io::Result<()> {
    match of {
        call::IMPORT => out.write_all(b"import"),
        call::EXPORT => out.write_all(b"export"),
        call::PLAIN => out.write_all(b"plain"),
        call::TO_PHYSICAL_TYPE => out.write_all(b"to_physical_type"),
        call::UNDERLYING_PHYSICAL_TYPE => out.write_all(b"underlying_physical_type"),
        call::TO_STORAGE => out.write_all(b"to_storage"),
        call::TO_STORAGE_RECURSIVE => out.write_all(b"to_storage_recursive"),
        call::INNER_DTYPE => out.write_all(b"inner_dtype"),
        call::GET_CHILD => out.write_all(b"get_child"),
        call::IS_NESTED => out.write_all(b"is_nested"),
        call::CONTAINS_DICTIONARY => out.write_all(b"contains_dictionary"),
        call::FROM_INTEGER_TYPE => out.write_all(b"from_integer_type"),
        call::FROM_PRIMITIVE_TYPE => out.write_all(b"from_primitive_type"),
        call::PAGE => out.write_all(b"page"),
        call::MEASURE_IMPORT => out.write_all(b"measure_import"),
        call::MEASURE_EXPORT => out.write_all(b"measure_export"),
        call::STRICT_EXPORT => out.write_all(b"strict_export"),
        _ => out.write_all(b"no call"),
    }
}

pub fn bad_list<W: Write>(out: &mut W, record: u64) -> io::Result<()> {
    out.write_all(b"bad list at record ")?;
    streams::print_decimal(out, record)?;
    out.write_all(b"\n")
}

fn sheet_answer<W: Write>(
    out: &mut W,
    who: &[u8],
    n: u64,
    length: u64,
    sheet: &[u8],
) -> io::Result<()> {
    out.write_all(who)?;
    out.write_all(b": number ")?;
    streams::print_decimal(out, n)?;
    out.write_all(b", length ")?;
    streams::print_decimal(out, length)?;
    out.write_all(b"\n")?;
    out.write_all(sheet)
}

// What came, and a line if only the rest of the buffer can differ.
fn came<W: Write>(
    out: &mut W,
    h: Header,
    output: &[u8],
    n: u64,
    length: u64,
    lent: &[u8],
) -> io::Result<()> {
    let end = buffer::within(length as usize, lent.len());
    let sheet = &lent[..end];
    sheet_answer(out, b"came", n, length, sheet)?;
    if n == h.number && length == h.first && sheet == output {
        out.write_all(b"the buffer past the sheet differs\n")?;
    }
    Ok(())
}

fn numbers_answer<W: Write>(
    out: &mut W,
    who: &[u8],
    n: u64,
    first: u64,
    second: u64,
) -> io::Result<()> {
    out.write_all(who)?;
    out.write_all(b": number ")?;
    streams::print_decimal(out, n)?;
    out.write_all(b", values ")?;
    streams::print_decimal(out, first)?;
    out.write_all(b" ")?;
    streams::print_decimal(out, second)?;
    out.write_all(b"\n")
}

// The record that differs, if it does.
pub fn difference<W: Write>(
    out: &mut W,
    place: u64,
    h: Header,
    output: &[u8],
    r: Option<Numbers>,
    lent: &[u8],
) -> io::Result<()> {
    if let Some(c) = r {
        out.write_all(b"record ")?;
        streams::print_decimal(out, place)?;
        out.write_all(b" differs: ")?;
        name(out, h.call)?;
        out.write_all(b"\n")?;
        if crate::answers_numbers(h.call) {
            numbers_answer(out, b"expected", h.number, h.first, h.second)?;
            numbers_answer(out, b"came", c.number, c.first, c.second)?;
        } else {
            sheet_answer(out, b"expected", h.number, h.first, output)?;
            came(out, h, output, c.number, c.first, lent)?;
        }
    }
    Ok(())
}

// A line for a call that was replayed.
fn call_counts<W: Write>(out: &mut W, call: u64, replayed: u64, differ: u64) -> io::Result<()> {
    if replayed != 0 {
        name(out, call)?;
        out.write_all(b": ")?;
        streams::print_decimal(out, replayed)?;
        out.write_all(b" replayed, ")?;
        streams::print_decimal(out, differ)?;
        out.write_all(b" differ\n")?;
    }
    Ok(())
}

// The counts of each call, as `tally` keeps them.
pub fn counts<W: Write>(out: &mut W, kept: &[u64; COUNTS]) -> io::Result<()> {
    let (replayed, differ) = kept.split_at(DIFFER);
    for (c, (&r, &d)) in replayed.iter().zip(differ).enumerate() {
        call_counts(out, c as u64, r, d)?;
    }
    Ok(())
}
