// The conversions from `IntegerType` and `PrimitiveType`: a sheet of one bare line.
ghost use Rattle.std.specs.Prelude.{◌≡◌};
ghost use Rattle.sheets.specs.Outcome.{from_integer_type_outcome, from_primitive_type_outcome};
ghost use Rattle.buffer.specs.Over.{PutAt};
ghost use Rattle.outcome.specs.Answers.{outcome_of};
ghost use Rattle.mapping_calls.specs.Conversions.{dtype_sheet, DtypeAnswered};

use datatypes::dtype::Dtype;
use datatypes::{IntegerType, PrimitiveType};
use outcome::Refused;
use refusal::Refusal;

// Writes the heading and the bare line of the type, as far as they fit; their length.
fn put_dtype(d: Dtype, out: &mut [u8]) -> usize
    ensures { PutAt 0 (dtype_sheet d) result out.old out.new }
{
    let head = field_line::put_heading(out);
    let own = field_line::put_numbers(out, head, d.kind, d.p, d.q);
    let children = field_line::put_bare(out, own);
    field_line::put_end(out, children, 0)
}

// Answers a type that there is.
fn answer_dtype(d: Dtype, out: &mut [u8]) -> Result<usize, Refused>
    ensures { DtypeAnswered d out.old (outcome_of result out.new) }
{
    let len = put_dtype(d, out);
    outcome::written(out, len)
}

// `From<IntegerType>`, by the place.
pub fn from_integer_type(place: u64, out: &mut [u8]) -> Result<usize, Refused>
    ensures { outcome_of result out.new ≡ from_integer_type_outcome place out.old }
{
    match IntegerType::at(place) {
        None => outcome::refuse(out, Refusal::UndefinedMapping),
        Some(t) => answer_dtype(Dtype::from_integer_type(t), out),
    }
}

// `From<PrimitiveType>`, by the place.
pub fn from_primitive_type(place: u64, out: &mut [u8]) -> Result<usize, Refused>
    ensures { outcome_of result out.new ≡ from_primitive_type_outcome place out.old }
{
    match PrimitiveType::at(place) {
        None => outcome::refuse(out, Refusal::UndefinedMapping),
        Some(t) => answer_dtype(Dtype::from_primitive_type(t), out),
    }
}
