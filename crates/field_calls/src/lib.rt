// The calls that take a field sheet's bytes and answer a sheet, or a page, in a lent buffer; and the measure of one of them, export.
#![tactic(auto)]

ghost use Rattle.std.specs.Prelude.{◌≡◌};
ghost use Rattle.sheets.specs.Outcome.{export_outcome_in, strict_export_outcome, export_outcome_as, plain_outcome, to_storage_recursive_outcome, underlying_physical_type_outcome, page_outcome, measure_export_outcome};
ghost use Rattle.buffer.specs.Over.{PutAt};
ghost use Rattle.outcome.specs.Answers.{outcome_of, SheetTold, measure_of};
ghost use Rattle.field_calls.specs.Answers.{opening_of, strict_of, answer_of, lines_of, call_outcome, HasField, SheetWrote};
ghost use Rattle.refusal.specs.Refusals.{answer_of as result_answer};

use field_walk::Call;
use outcome::{Refused, Size};
use refusal::Refusal;
use walks::Subtree;

// Writes what stands before the lines of the answer, as far as it fits; its length.
fn put_opening(call: Call, out: &mut [u8]) -> usize
    ensures { PutAt 0 (opening_of call) result out.old out.new }
{
    match call {
        Call::Export { big: _, strict: _ } => buffer::put_at(
            out,
            0,
            b"format name flags metadata children dictionary\n",
        ),
        Call::Plain => field_line::put_heading(out),
        Call::ToStorageRecursive => field_line::put_heading(out),
        Call::UnderlyingPhysicalType => field_line::put_heading(out),
        Call::Page => 0,
    }
}

// Writes the opening and the lines, as far as they fit.
fn put_sheet(call: Call, s: &[u8], at: usize, out: &mut [u8]) -> Result<(usize, Size), Refusal>
    requires { HasField s.now at }
    ensures { SheetWrote call s.now at out.old out.new result }
{
    let head = put_opening(call, out);
    let w = buffer::within(head, out.len());
    let tree = Subtree {
        at,
        levels: field_sheet::LEVELS,
        inside: false,
    };
    let (next, below) = field_walk::walk_first(call, s, tree, &mut out[w..])?;
    let size = Size {
        len: head + below.len,
        lines: below.lines,
    };
    Ok((next, size))
}

// Whether the sheet is read strictly.
fn is_strict(call: Call) -> bool
    ensures { result ≡ strict_of call }
{
    match call {
        Call::Export { big: _, strict } => strict,
        Call::Plain => false,
        Call::ToStorageRecursive => false,
        Call::UnderlyingPhysicalType => false,
        Call::Page => false,
    }
}

// What a call answers for the sheet, written over the first bytes of out as far as it fits, and its size; or why it is refused. A call that converts and one
// that measures are the same up to here.
fn convert(call: Call, s: &[u8], out: &mut [u8]) -> Result<(usize, Size), Refusal>
    ensures { SheetTold (answer_of call s.now) (lines_of call s.now) out.old out.new (result_answer result) }
{
    let at = field_sheet::read_as(s, is_strict(call))?;
    put_sheet(call, s, at, out)
}

// The answer of a call, written over the first bytes of out, and its length; or why it is refused, and out is zeros.
fn answer(call: Call, s: &[u8], out: &mut [u8]) -> Result<usize, Refused>
    ensures { outcome_of result out.new ≡ call_outcome call s.now out.old }
{
    match convert(call, s, out) {
        Err(r) => outcome::refuse(out, r),
        Ok((_, size)) => outcome::written(out, size.len),
    }
}

// The schema sheet of a field sheet, its metadata big-endian (`big`) or not. A strict export refuses a reserved key and a 128-bit dictionary index on any line, after
// the sheet's form and before all else: what it writes is sure to come back.
pub fn export_as(s: &[u8], strict: bool, big: bool, out: &mut [u8]) -> Result<usize, Refused>
    ensures { outcome_of result out.new ≡ export_outcome_as strict big s.now out.old }
{
    answer(Call::Export { big, strict }, s, out)
}

// The export that is not strict.
pub fn export(s: &[u8], big: bool, out: &mut [u8]) -> Result<usize, Refused>
    ensures { outcome_of result out.new ≡ export_outcome_in big s.now out.old }
{
    export_as(s, false, big, out)
}

// The strict one.
pub fn strict_export(s: &[u8], big: bool, out: &mut [u8]) -> Result<usize, Refused>
    ensures { outcome_of result out.new ≡ strict_export_outcome big s.now out.old }
{
    export_as(s, true, big, out)
}

// How long the schema sheet of a field sheet is, and how many lines export visits for it: an export that is lent no bytes, and goes on counting.
pub fn measure_export(s: &[u8], big: bool) -> Result<Size, Refusal>
    ensures { measure_of result ≡ measure_export_outcome big s.now }
{
    let mut none: [u8; 0] = [];
    let (_, size) = convert(Call::Export { big, strict: false }, s, &mut none[..])?;
    Ok(size)
}

// The plain form of a field sheet.
pub fn plain_form(s: &[u8], out: &mut [u8]) -> Result<usize, Refused>
    ensures { outcome_of result out.new ≡ plain_outcome s.now out.old }
{
    answer(Call::Plain, s, out)
}

// The field of a field sheet with every extension's storage type in its place; its type must have no map and no union.
pub fn to_storage_recursive(s: &[u8], out: &mut [u8]) -> Result<usize, Refused>
    ensures { outcome_of result out.new ≡ to_storage_recursive_outcome s.now out.old }
{
    answer(Call::ToStorageRecursive, s, out)
}

// The field of a field sheet with its underlying physical type.
pub fn underlying_physical_type(s: &[u8], out: &mut [u8]) -> Result<usize, Refused>
    ensures { outcome_of result out.new ≡ underlying_physical_type_outcome s.now out.old }
{
    answer(Call::UnderlyingPhysicalType, s, out)
}

// The page of a field sheet.
pub fn page(s: &[u8], out: &mut [u8]) -> Result<usize, Refused>
    ensures { outcome_of result out.new ≡ page_outcome s.now out.old }
{
    answer(Call::Page, s, out)
}
