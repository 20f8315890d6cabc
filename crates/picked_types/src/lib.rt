// The calls that answer a type of a field: `to_storage`, `inner_dtype` and `get_child`. Its lines are copied, the first with the columns of the field or bare.
#![tactic(auto)]

pub mod child;
pub mod inner;
pub mod pick;

ghost use Rattle.std.specs.Prelude.{◌≡◌};
ghost use Rattle.sheets.specs.Outcome.{to_storage_outcome, inner_dtype_outcome, get_child_outcome};
ghost use Rattle.outcome.specs.Answers.{outcome_of};
ghost use Rattle.picked_types.specs.Sheets.{columns_for, CanPut, SheetPut, CanAnswer, PickAnswered, HasColumnsOf, choice_outcome};

use crate::pick::{Choice, PickedType};
use columns::Part;
use mapping_line::put;
use outcome::Refused;
use read_field_line::FieldLine;
use refusal::Refusal;

// The columns that the first line gets: `to_storage` answers the field with its type replaced, the others a bare line.
fn own_columns(choice: Choice, first: FieldLine) -> Option<Part>
    requires { HasColumnsOf first }
    ensures { result ≡ columns_for choice first }
{
    match choice {
        Choice::Storage => put::field_columns(first),
        Choice::Inner => None,
        Choice::Child(_) => None,
    }
}

// Writes the heading and the lines of the type, as far as they fit; their length. What is below the first line is one copy.
fn put_type(s: &[u8], t: PickedType, own: Option<Part>, out: &mut [u8]) -> usize
    requires { CanPut s.now t own }
    ensures { SheetPut s.now t own out.old out.new result }
{
    let head = field_line::put_heading(out);
    let w = buffer::within(head, out.len());
    let line = t.line;
    let len = put::put_line(s, t.at, line, own, &mut out[w..]);
    let start = line.end;
    let end = t.end;
    buffer::put_at(out, head + len, &s[start..end])
}

// Answers the type that was found, or refuses.
fn answer_pick(
    s: &[u8],
    p: Option<PickedType>,
    own: Option<Part>,
    out: &mut [u8],
) -> Result<usize, Refused>
    requires { CanAnswer s.now p own }
    ensures { PickAnswered s.now p own out.old (outcome_of result out.new) }
{
    match p {
        None => outcome::refuse(out, Refusal::UndefinedMapping),
        Some(t) => {
            let len = put_type(s, t, own, out);
            outcome::written(out, len)
        }
    }
}

fn answer(choice: Choice, s: &[u8], out: &mut [u8]) -> Result<usize, Refused>
    ensures { outcome_of result out.new ≡ choice_outcome choice s.now out.old }
{
    match field_sheet::read_sheet(s) {
        Err(r) => outcome::refuse(out, r),
        Ok(at) => {
            let first = read_field_line::field_line_at(s, at);
            let p = crate::pick::pick_type(choice, s, at, first);
            let own = own_columns(choice, first);
            answer_pick(s, p, own, out)
        }
    }
}

// The field with the type in all extensions.
pub fn to_storage(s: &[u8], out: &mut [u8]) -> Result<usize, Refused>
    ensures { outcome_of result out.new ≡ to_storage_outcome s.now out.old }
{
    answer(Choice::Storage, s, out)
}

// The type of a list's field.
pub fn inner_dtype(s: &[u8], out: &mut [u8]) -> Result<usize, Refused>
    ensures { outcome_of result out.new ≡ inner_dtype_outcome s.now out.old }
{
    answer(Choice::Inner, s, out)
}

// The type of the field at `index`, from 0.
pub fn get_child(s: &[u8], index: u64, out: &mut [u8]) -> Result<usize, Refused>
    ensures { outcome_of result out.new ≡ get_child_outcome s.now index out.old }
{
    answer(Choice::Child(index), s, out)
}
