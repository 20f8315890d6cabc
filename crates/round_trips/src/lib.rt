// Demand 3 as two calls: a field sheet goes out and back over four lent buffers, and what stands in them is compared; and two field sheets are
// compared by their exports and their plain forms; the metadata of all exports is big-endian (`big`) or not. A round trip's exports are strict (`strict`) or not. The first step that is refused is the answer, and then every lent byte is zero.
#![tactic(auto)]

ghost use Rattle.std.specs.Prelude.{◌≡◌, length, replicate, take};
ghost use Rattle.sheets.specs.Bytes.{same};
ghost use Rattle.sheets.specs.Outcome.{import_outcome_in, export_outcome_in, export_outcome_as, plain_outcome};
ghost use Rattle.sheets.specs.Demand3.{written};
ghost use Rattle.sheets.specs.RoundTrip.{round_trip_outcome_as, same_exports_outcome};
ghost use Rattle.outcome.specs.Answers.{outcome_of};
ghost use Rattle.round_trips.specs.Trips.{Told, four, trip_of, pair_of};

use outcome::Refused;

#[derive(Drop)]
pub enum RoundTrip {
    // Import gave the plain form, and the export of the plain form is the export of the field.
    AllSame,
    // A step was refused, the first that was, with why.
    ExportRefused(Refused),
    ImportRefused(Refused),
    PlainRefused(Refused),
    AgainRefused(Refused),
    // What import gave is not the plain form.
    ImportDiffers,
    // The export of the plain form is not the export of the field.
    AgainDiffers,
}

#[derive(Drop)]
pub enum SameExports {
    // Whether the exports are equal, and whether the plain forms are.
    Compared(bool, bool),
    // A step was refused, the first that was, with why.
    OneExportRefused(Refused),
    OtherExportRefused(Refused),
    OnePlainRefused(Refused),
    OtherPlainRefused(Refused),
}

// Two steps: the lengths that they wrote, or why the first that was refused was, and both buffers zeros.
#[derive(Drop)]
enum TwoSteps {
    Written(usize, usize),
    FirstRefused(Refused),
    SecondRefused(Refused),
}

// Whether the first n bytes of a are the first m bytes of b.
fn same_within(a: &[u8], n: usize, b: &[u8], m: usize) -> bool
    ensures { result ≡ same (take n a.now) (take m b.now) }
{
    let i = buffer::within(n, a.len());
    let j = buffer::within(m, b.len());
    buffer::same(&a[..i], &b[..j])
}

// Every byte of both 0.
fn clear_both(a: &mut [u8], b: &mut [u8])
    ensures { (a.new ≡ replicate (length a.old) 0) × (b.new ≡ replicate (length b.old) 0) }
{
    buffer::clear(a);
    buffer::clear(b);
}

// The export of the sheet, and the import of what that wrote.
fn out_and_back(
    sheet: &[u8],
    strict: bool,
    big: bool,
    first: &mut [u8],
    second: &mut [u8],
) -> TwoSteps
    ensures { Told (export_outcome_as strict big sheet.now first.old) (import_outcome_in big (written (export_outcome_as strict big sheet.now first.old)) second.old) first.old second.old first.new second.new result }
{
    let x = match field_calls::export_as(sheet, strict, big, first) {
        Err(refused) => {
            buffer::clear(second);
            return TwoSteps::FirstRefused(refused);
        }
        Ok(length) => length,
    };
    let n = buffer::within(x, first.len());
    let y = match import_sheet::import(&first[..n], big, second) {
        Err(refused) => {
            buffer::clear(first);
            return TwoSteps::SecondRefused(refused);
        }
        Ok(length) => length,
    };
    TwoSteps::Written(x, y)
}

// The plain form of the sheet, and the export of what that wrote.
fn plain_and_out(
    sheet: &[u8],
    strict: bool,
    big: bool,
    third: &mut [u8],
    fourth: &mut [u8],
) -> TwoSteps
    ensures { Told (plain_outcome sheet.now third.old) (export_outcome_as strict big (written (plain_outcome sheet.now third.old)) fourth.old) third.old fourth.old third.new fourth.new result }
{
    let p = match field_calls::plain_form(sheet, third) {
        Err(refused) => {
            buffer::clear(fourth);
            return TwoSteps::FirstRefused(refused);
        }
        Ok(length) => length,
    };
    let n = buffer::within(p, third.len());
    let z = match field_calls::export_as(&third[..n], strict, big, fourth) {
        Err(refused) => {
            buffer::clear(third);
            return TwoSteps::SecondRefused(refused);
        }
        Ok(length) => length,
    };
    TwoSteps::Written(p, z)
}

// The export of the sheet, the import of that, the plain form of the sheet, and the export of that, each in its buffer.
pub fn round_trip(
    sheet: &[u8],
    strict: bool,
    big: bool,
    first: &mut [u8],
    second: &mut [u8],
    third: &mut [u8],
    fourth: &mut [u8],
) -> RoundTrip
    ensures { trip_of result (four first.new second.new third.new fourth.new) ≡ round_trip_outcome_as strict big sheet.now (four first.old second.old third.old fourth.old) }
{
    match out_and_back(sheet, strict, big, first, second) {
        TwoSteps::FirstRefused(refused) => {
            clear_both(third, fourth);
            RoundTrip::ExportRefused(refused)
        }
        TwoSteps::SecondRefused(refused) => {
            clear_both(third, fourth);
            RoundTrip::ImportRefused(refused)
        }
        TwoSteps::Written(x, y) => match plain_and_out(sheet, strict, big, third, fourth) {
            TwoSteps::FirstRefused(refused) => {
                clear_both(first, second);
                RoundTrip::PlainRefused(refused)
            }
            TwoSteps::SecondRefused(refused) => {
                clear_both(first, second);
                RoundTrip::AgainRefused(refused)
            }
            TwoSteps::Written(p, z) => {
                if !same_within(second, y, third, p) {
                    return RoundTrip::ImportDiffers;
                }
                if !same_within(fourth, z, first, x) {
                    return RoundTrip::AgainDiffers;
                }
                RoundTrip::AllSame
            }
        },
    }
}

// The exports of two sheets.
fn exports(one: &[u8], other: &[u8], big: bool, first: &mut [u8], second: &mut [u8]) -> TwoSteps
    ensures { Told (export_outcome_in big one.now first.old) (export_outcome_in big other.now second.old) first.old second.old first.new second.new result }
{
    let x = match field_calls::export(one, big, first) {
        Err(refused) => {
            buffer::clear(second);
            return TwoSteps::FirstRefused(refused);
        }
        Ok(length) => length,
    };
    let y = match field_calls::export(other, big, second) {
        Err(refused) => {
            buffer::clear(first);
            return TwoSteps::SecondRefused(refused);
        }
        Ok(length) => length,
    };
    TwoSteps::Written(x, y)
}

// The plain forms of two sheets.
fn plains(one: &[u8], other: &[u8], third: &mut [u8], fourth: &mut [u8]) -> TwoSteps
    ensures { Told (plain_outcome one.now third.old) (plain_outcome other.now fourth.old) third.old fourth.old third.new fourth.new result }
{
    let p = match field_calls::plain_form(one, third) {
        Err(refused) => {
            buffer::clear(fourth);
            return TwoSteps::FirstRefused(refused);
        }
        Ok(length) => length,
    };
    let z = match field_calls::plain_form(other, fourth) {
        Err(refused) => {
            buffer::clear(third);
            return TwoSteps::SecondRefused(refused);
        }
        Ok(length) => length,
    };
    TwoSteps::Written(p, z)
}

// The exports of two field sheets and their plain forms, each in its buffer, compared.
pub fn same_exports(
    one: &[u8],
    other: &[u8],
    big: bool,
    first: &mut [u8],
    second: &mut [u8],
    third: &mut [u8],
    fourth: &mut [u8],
) -> SameExports
    ensures { pair_of result (four first.new second.new third.new fourth.new) ≡ same_exports_outcome big one.now other.now (four first.old second.old third.old fourth.old) }
{
    match exports(one, other, big, first, second) {
        TwoSteps::FirstRefused(refused) => {
            clear_both(third, fourth);
            SameExports::OneExportRefused(refused)
        }
        TwoSteps::SecondRefused(refused) => {
            clear_both(third, fourth);
            SameExports::OtherExportRefused(refused)
        }
        TwoSteps::Written(x, y) => match plains(one, other, third, fourth) {
            TwoSteps::FirstRefused(refused) => {
                clear_both(first, second);
                SameExports::OnePlainRefused(refused)
            }
            TwoSteps::SecondRefused(refused) => {
                clear_both(first, second);
                SameExports::OtherPlainRefused(refused)
            }
            TwoSteps::Written(p, z) => {
                let same_exports = same_within(first, x, second, y);
                let same_plains = same_within(third, p, fourth, z);
                SameExports::Compared(same_exports, same_plains)
            }
        },
    }
}
