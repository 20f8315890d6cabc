// Import: a schema sheet's bytes become a field sheet in a lent buffer; and how much buffer that takes.
#![tactic(auto)]

ghost use Rattle.std.specs.Prelude.{◌≡◌, ◌*◌, ◌≤◌, length};
ghost use Rattle.sheets.specs.Outcome.{import_outcome_in, measure_import_outcome};
ghost use Rattle.outcome.specs.Answers.{outcome_of, measure_of};
ghost use Rattle.node.specs.Info.{HasEntries};
ghost use Rattle.sheets.specs.Sheet.{sheet_limit};
ghost use Rattle.import_sheet.specs.Sheets.{SheetWrites, EndsAt, FirstOf, Converts};

use import_field::Tree;
use outcome::{Refused, Size};
use refusal::Refusal;

// Writes the heading and the field's lines, as far as they fit, and tests each line that it comes to.
fn put_sheet(
    s: &[u8],
    at: usize,
    big: bool,
    out: &mut [u8],
    entries: &mut [u32],
    spare: &mut [u32],
) -> Result<(usize, Size), Refusal>
    requires s_len_bound { (length s.now ≤ sheet_limit) × (at ≤ length s.now) }
    requires has_entries { HasEntries s.now entries.old spare.old }
    ensures { SheetWrites s.now at big out.old out.new result }
{
    let head = field_line::put_heading(out);
    let w = buffer::within(head, out.len());
    let tree = Tree {
        at,
        levels: schema_sheet::LEVELS,
        bare: false,
        big,
    };
    let (next, below) = import_field::to_first_field(s, tree, &mut out[w..], entries, spare)?;
    let size = Size {
        len: head + below.len,
        lines: below.lines,
    };
    Ok((next, size))
}

// A metadata pair takes 16 digits of the sheet, so N entries are enough for 16 times as many bytes. The entries of the pairs are lent down from here, so that
// they stand on the stack once and not at each of 32 levels; and there are two sizes, so that a short sheet does not pay for clearing 32,768 bytes.
fn put_with<const N: usize>(
    s: &[u8],
    at: usize,
    big: bool,
    out: &mut [u8],
) -> Result<(usize, Size), Refusal>
    requires entries_enough { (N ≤ 4096) × (length s.now ≤ 16 * N) }
    requires s_len_bound { (length s.now ≤ sheet_limit) × (at ≤ length s.now) }
    ensures { SheetWrites s.now at big out.old out.new result }
{
    let mut entries = [0u32; N];
    let mut spare = [0u32; N];
    put_sheet(s, at, big, out, &mut entries[..], &mut spare[..])
}

fn put_by_length(s: &[u8], at: usize, big: bool, out: &mut [u8]) -> Result<(usize, Size), Refusal>
    requires { (length s.now ≤ sheet_limit) × (at ≤ length s.now) }
    ensures { SheetWrites s.now at big out.old out.new result }
{
    if s.len() <= 2048 {
        return put_with::<128>(s, at, big, out);
    }
    put_with::<4096>(s, at, big, out)
}

// The lines were written in one pass, up to `next`, and none was wrong: one that is left over is.
fn all_read(s: &[u8], next: usize, size: Size) -> Result<(usize, Size), Refusal>
    ensures { EndsAt s.now next size result }
{
    if next < s.len() {
        return Err(Refusal::BadLines);
    }
    Ok((next, size))
}

// Something was refused on the way with r: 1, 2 and 3 come before it, wherever in the sheet they are, and only now they are looked for.
fn first_refusal(s: &[u8], r: Refusal) -> Refusal
    ensures { FirstOf s.now r result }
{
    match schema_sheet::read_sheet(s) {
        Err(q) => q,
        Ok(_) => r,
    }
}

// Writes the field sheet of a schema sheet, as far as it fits.
fn convert(s: &[u8], big: bool, out: &mut [u8]) -> Result<(usize, Size), Refusal>
    ensures { Converts big s.now out.old out.new result }
{
    if !schema_sheet::is_sheet(s) {
        return Err(Refusal::NotSheet);
    }
    match put_by_length(s, schema_sheet::HEADING, big, out) {
        Err(r) => Err(first_refusal(s, r)),
        Ok((next, size)) => all_read(s, next, size),
    }
}

// The field sheet of a schema sheet, whose metadata is big-endian (`big`) or not, written over the first bytes of out, and its length; or why it is
// refused, and out is zeros.
pub fn import(s: &[u8], big: bool, out: &mut [u8]) -> Result<usize, Refused>
    ensures { outcome_of result out.new ≡ import_outcome_in big s.now out.old }
{
    match convert(s, big, out) {
        Err(r) => outcome::refuse(out, r),
        Ok((_, size)) => outcome::written(out, size.len),
    }
}

// How long that field sheet is, and how many lines of the schema sheet are visited for it; or why it is refused. It is the same conversion, which
// counts on where its buffer ends: here nothing is lent.
pub fn measure_import(s: &[u8], big: bool) -> Result<Size, Refusal>
    ensures { measure_of result ≡ measure_import_outcome big s.now }
{
    let mut none: [u8; 0] = [];
    let (_, size) = convert(s, big, &mut none[..])?;
    Ok(size)
}
