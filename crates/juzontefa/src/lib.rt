// The calls for a host: over pointers and lengths, with nothing demanded of the caller. `include/juzontefa.h` declares them for C.
#![tactic(auto)]

ghost use Rattle.std.specs.Prelude.{◌≡◌};
ghost use Rattle.sheets.specs.Outcome.{is_yes, import_outcome_in, export_outcome_in, import_outcome, export_outcome, strict_export_outcome, measure_import_outcome, measure_export_outcome, plain_outcome, page_outcome, to_physical_type_outcome, underlying_physical_type_outcome, to_storage_outcome, to_storage_recursive_outcome, inner_dtype_outcome, get_child_outcome, is_nested_outcome, contains_dictionary_outcome, from_integer_type_outcome, from_primitive_type_outcome};
ghost use Rattle.sheets.specs.RoundTrip.{round_trip_outcome_in, strict_round_trip_outcome, round_trip_outcome};
ghost use Rattle.outcome.specs.Answers.{numbers_outcome};
ghost use Rattle.round_trips.specs.Trips.{four};
ghost use Rattle.juzontefa.specs.Answers.{answer_for, measure_told, measure_for, places_told, places_for, yes_no_told, yes_no_for};
ghost use Rattle.juzontefa.specs.Trips.{trip_for, host_told, host_trip};

use mapping_calls::physical::PhysicalPlaces;
use outcome::{Refused, Size};
use refusal::Refusal;
use round_trips::RoundTrip;

// The number, 0 for success, and the length of the answer.
#[repr(C)]
#[derive(Drop)]
pub struct Answer {
    pub number: u64,
    pub length: u64,
}

fn answer_of(answered: Result<usize, Refused>) -> Answer
    ensures { result ≡ answer_for answered }
{
    match answered {
        Ok(length) => Answer {
            number: 0,
            length: length as u64,
        },
        Err(refused) => Answer {
            number: refused.number() as u64,
            length: 0,
        },
    }
}

// The field sheet of a schema sheet.
#[unsafe(no_mangle)]
pub extern "C" fn juzontefa_import(sheet: &[u8], out: &mut [u8]) -> Answer
    ensures { numbers_outcome result.number result.length out.new ≡ import_outcome sheet.now out.old }
{
    answer_of(import_sheet::import(sheet, false, out))
}

// The same of metadata in the order that the caller says: big-endian unless the number is 0.
#[unsafe(no_mangle)]
pub extern "C" fn juzontefa_import_with_order(sheet: &[u8], big: u64, out: &mut [u8]) -> Answer
    ensures { numbers_outcome result.number result.length out.new ≡ import_outcome_in (is_yes big) sheet.now out.old }
{
    answer_of(import_sheet::import(sheet, big != 0, out))
}

// The schema sheet of a field sheet.
#[unsafe(no_mangle)]
pub extern "C" fn juzontefa_export(sheet: &[u8], out: &mut [u8]) -> Answer
    ensures { numbers_outcome result.number result.length out.new ≡ export_outcome sheet.now out.old }
{
    answer_of(field_calls::export(sheet, false, out))
}

// The same with metadata in the order that the caller says: big-endian unless the number is 0.
#[unsafe(no_mangle)]
pub extern "C" fn juzontefa_export_with_order(sheet: &[u8], big: u64, out: &mut [u8]) -> Answer
    ensures { numbers_outcome result.number result.length out.new ≡ export_outcome_in (is_yes big) sheet.now out.old }
{
    answer_of(field_calls::export(sheet, big != 0, out))
}

// The same of a field that is sure to come back: a reserved key or a 128-bit dictionary index on any of its lines is refused.
#[unsafe(no_mangle)]
pub extern "C" fn juzontefa_strict_export(sheet: &[u8], big: u64, out: &mut [u8]) -> Answer
    ensures { numbers_outcome result.number result.length out.new ≡ strict_export_outcome (is_yes big) sheet.now out.old }
{
    answer_of(field_calls::strict_export(sheet, big != 0, out))
}

// The number, 0 for success, the length of what the conversion would write, and how many lines of the sheet it would visit.
#[repr(C)]
#[derive(Drop)]
pub struct Measure {
    pub number: u64,
    pub length: u64,
    pub lines: u64,
}

fn measure_of(m: Result<Size, Refusal>) -> Measure
    ensures { result ≡ measure_for m }
{
    let (number, length, lines) = match m {
        Ok(size) => (0, size.len as u64, size.lines as u64),
        Err(reason) => (reason.number() as u64, 0, 0),
    };
    Measure {
        number,
        length,
        lines,
    }
}

// What the import of a schema sheet would write and visit, in the order that the caller says: big-endian unless the number is 0.
#[unsafe(no_mangle)]
pub extern "C" fn juzontefa_measure_import(sheet: &[u8], big: u64) -> Measure
    ensures { measure_told result ≡ measure_import_outcome (is_yes big) sheet.now }
{
    measure_of(import_sheet::measure_import(sheet, big != 0))
}

// What the export of a field sheet would write and visit, in the order that the caller says.
#[unsafe(no_mangle)]
pub extern "C" fn juzontefa_measure_export(sheet: &[u8], big: u64) -> Measure
    ensures { measure_told result ≡ measure_export_outcome (is_yes big) sheet.now }
{
    measure_of(field_calls::measure_export(sheet, big != 0))
}

// The plain form of a field sheet.
#[unsafe(no_mangle)]
pub extern "C" fn juzontefa_plain_form(sheet: &[u8], out: &mut [u8]) -> Answer
    ensures { numbers_outcome result.number result.length out.new ≡ plain_outcome sheet.now out.old }
{
    answer_of(field_calls::plain_form(sheet, out))
}

// The page of a field sheet: 73 bytes for each line below the heading.
#[unsafe(no_mangle)]
pub extern "C" fn juzontefa_page(sheet: &[u8], out: &mut [u8]) -> Answer
    ensures { numbers_outcome result.number result.length out.new ≡ page_outcome sheet.now out.old }
{
    answer_of(field_calls::page(sheet, out))
}

// What a round trip answers, by its place among the answers, and the number of the refusal, if one of the steps was refused.
#[repr(C)]
#[derive(Drop)]
pub struct Trip {
    pub answer: u64,
    pub number: u64,
}

// The place and the number of each answer.
fn trip_of(trip: RoundTrip) -> Trip
    ensures { result ≡ trip_for trip }
{
    match trip {
        RoundTrip::AllSame => Trip {
            answer: 0,
            number: 0,
        },
        RoundTrip::ExportRefused(refused) => Trip {
            answer: 1,
            number: refused.number() as u64,
        },
        RoundTrip::ImportRefused(refused) => Trip {
            answer: 2,
            number: refused.number() as u64,
        },
        RoundTrip::PlainRefused(refused) => Trip {
            answer: 3,
            number: refused.number() as u64,
        },
        RoundTrip::AgainRefused(refused) => Trip {
            answer: 4,
            number: refused.number() as u64,
        },
        RoundTrip::ImportDiffers => Trip {
            answer: 5,
            number: 0,
        },
        RoundTrip::AgainDiffers => Trip {
            answer: 6,
            number: 0,
        },
    }
}

// The export of the sheet, the import of that, the plain form of the sheet and the export of that, each in its buffer, and whether they came back the same.
#[unsafe(no_mangle)]
pub extern "C" fn juzontefa_round_trip(
    sheet: &[u8],
    exported: &mut [u8],
    imported: &mut [u8],
    plain: &mut [u8],
    again: &mut [u8],
) -> Trip
    ensures { host_told result.answer result.number (four exported.new imported.new plain.new again.new) ≡ host_trip (round_trip_outcome sheet.now (four exported.old imported.old plain.old again.old)) }
{
    trip_of(round_trips::round_trip(sheet, false, false, exported, imported, plain, again))
}

// The same with metadata in the order that the caller says: big-endian unless the number is 0.
#[unsafe(no_mangle)]
pub extern "C" fn juzontefa_round_trip_with_order(
    sheet: &[u8],
    big: u64,
    exported: &mut [u8],
    imported: &mut [u8],
    plain: &mut [u8],
    again: &mut [u8],
) -> Trip
    ensures { host_told result.answer result.number (four exported.new imported.new plain.new again.new) ≡ host_trip (round_trip_outcome_in (is_yes big) sheet.now (four exported.old imported.old plain.old again.old)) }
{
    trip_of(round_trips::round_trip(sheet, false, big != 0, exported, imported, plain, again))
}

// The same with both exports strict.
#[unsafe(no_mangle)]
pub extern "C" fn juzontefa_strict_round_trip(
    sheet: &[u8],
    big: u64,
    exported: &mut [u8],
    imported: &mut [u8],
    plain: &mut [u8],
    again: &mut [u8],
) -> Trip
    ensures { host_told result.answer result.number (four exported.new imported.new plain.new again.new) ≡ host_trip (strict_round_trip_outcome (is_yes big) sheet.now (four exported.old imported.old plain.old again.old)) }
{
    trip_of(round_trips::round_trip(sheet, true, big != 0, exported, imported, plain, again))
}

// The number, 0 for success, and the places of the physical type and of the primitive or index type that it carries, 0 if it carries none.
#[repr(C)]
#[derive(Drop)]
pub struct Places {
    pub number: u64,
    pub place: u64,
    pub inner: u64,
}

fn places_of(p: PhysicalPlaces) -> Places
    ensures { result ≡ places_for p }
{
    Places {
        number: p.number as u64,
        place: p.place,
        inner: p.inner,
    }
}

// `to_physical_type` of a field's type.
#[unsafe(no_mangle)]
pub extern "C" fn juzontefa_to_physical_type(sheet: &[u8]) -> Places
    ensures { places_told result ≡ to_physical_type_outcome sheet.now }
{
    places_of(PhysicalPlaces::of(mapping_calls::physical::to_physical_type(sheet)))
}

// A field with its type replaced by the one that it is physically.
#[unsafe(no_mangle)]
pub extern "C" fn juzontefa_underlying_physical_type(sheet: &[u8], out: &mut [u8]) -> Answer
    ensures { numbers_outcome result.number result.length out.new ≡ underlying_physical_type_outcome sheet.now out.old }
{
    answer_of(field_calls::underlying_physical_type(sheet, out))
}

// A field with its type replaced by the one inside all extensions.
#[unsafe(no_mangle)]
pub extern "C" fn juzontefa_to_storage(sheet: &[u8], out: &mut [u8]) -> Answer
    ensures { numbers_outcome result.number result.length out.new ≡ to_storage_outcome sheet.now out.old }
{
    answer_of(picked_types::to_storage(sheet, out))
}

// A field with its type replaced by the one without extensions at any depth.
#[unsafe(no_mangle)]
pub extern "C" fn juzontefa_to_storage_recursive(sheet: &[u8], out: &mut [u8]) -> Answer
    ensures { numbers_outcome result.number result.length out.new ≡ to_storage_recursive_outcome sheet.now out.old }
{
    answer_of(field_calls::to_storage_recursive(sheet, out))
}

// The type of a list's field.
#[unsafe(no_mangle)]
pub extern "C" fn juzontefa_inner_dtype(sheet: &[u8], out: &mut [u8]) -> Answer
    ensures { numbers_outcome result.number result.length out.new ≡ inner_dtype_outcome sheet.now out.old }
{
    answer_of(picked_types::inner_dtype(sheet, out))
}

// The type of the field at an index, from 0.
#[unsafe(no_mangle)]
pub extern "C" fn juzontefa_get_child(sheet: &[u8], index: u64, out: &mut [u8]) -> Answer
    ensures { numbers_outcome result.number result.length out.new ≡ get_child_outcome sheet.now index out.old }
{
    answer_of(picked_types::get_child(sheet, index, out))
}

// The number, 0 for success, and 1 for yes, 0 for no.
#[repr(C)]
#[derive(Drop)]
pub struct YesNo {
    pub number: u64,
    pub answer: u64,
}

fn yes_no_of(a: Result<bool, Refusal>) -> YesNo
    ensures { result ≡ yes_no_for a }
{
    let (number, answer) = match a {
        Ok(yes) => (0, field_line::flag(yes)),
        Err(reason) => (reason.number() as u64, 0),
    };
    YesNo { number, answer }
}

// Whether a field's type holds other types.
#[unsafe(no_mangle)]
pub extern "C" fn juzontefa_is_nested(sheet: &[u8]) -> YesNo
    ensures { yes_no_told result ≡ is_nested_outcome sheet.now }
{
    yes_no_of(mapping_calls::is_nested(sheet))
}

// Whether a dictionary stands anywhere in a field's type.
#[unsafe(no_mangle)]
pub extern "C" fn juzontefa_contains_dictionary(sheet: &[u8]) -> YesNo
    ensures { yes_no_told result ≡ contains_dictionary_outcome sheet.now }
{
    yes_no_of(mapping_calls::contains_dictionary(sheet))
}

// The type of a dictionary's index, by its place in `IntegerType`.
#[unsafe(no_mangle)]
pub extern "C" fn juzontefa_from_integer_type(place: u64, out: &mut [u8]) -> Answer
    ensures { numbers_outcome result.number result.length out.new ≡ from_integer_type_outcome place out.old }
{
    answer_of(mapping_calls::conversions::from_integer_type(place, out))
}

// The type that a primitive type stands for, by its place in `PrimitiveType`.
#[unsafe(no_mangle)]
pub extern "C" fn juzontefa_from_primitive_type(place: u64, out: &mut [u8]) -> Answer
    ensures { numbers_outcome result.number result.length out.new ≡ from_primitive_type_outcome place out.old }
{
    answer_of(mapping_calls::conversions::from_primitive_type(place, out))
}
