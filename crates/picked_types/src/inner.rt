// The type that `inner_dtype` answers. It does not look into extensions.
ghost use Rattle.std.specs.Prelude.{◌≡◌};
ghost use Rattle.picked_types.specs.Picks.{has_inner, HasLine, InnerTold};
ghost use Rattle.sheets.specs.Answer.{found};
ghost use Rattle.sheets.specs.Refusal.{undefined_mapping};

use crate::pick::PickedType;
use nesting::Nesting;
use read_field_line::FieldLine;

// The lists have an inner type.
fn has_inner(n: Nesting) -> bool
    ensures { result ≡ has_inner n }
{
    match n {
        Nesting::Nothing => false,
        Nesting::List => true,
        Nesting::Map => false,
        Nesting::Fields => false,
        Nesting::Dictionary => false,
        Nesting::Extension => false,
    }
}

// The type of a list's field, whose lines end with the sheet.
pub fn inner_type(s: &[u8], first: FieldLine) -> Option<PickedType>
    requires { HasLine s.now first }
    ensures { InnerTold s.now first (found undefined_mapping result) }
{
    if !has_inner(nesting::nesting_of(first.kind)) {
        return None;
    }
    let at = first.end;
    let line = read_field_line::field_line_at(s, at);
    Some(PickedType {
        at,
        line,
        end: s.len(),
    })
}
