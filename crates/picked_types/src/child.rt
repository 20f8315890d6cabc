// The type that `get_child` answers.
ghost use Rattle.std.specs.Prelude.{◌≡◌, false};
ghost use Rattle.sheets.specs.Sheet.{level_limit};
ghost use Rattle.walks.specs.Places.{HasType};
ghost use Rattle.picked_types.specs.declared.pick.Choice.TheVariants.{Child};
ghost use Rattle.picked_types.specs.Picks.{has_fields, HasField, HasNth, Picks, NthTold, WholeTold};
ghost use Rattle.sheets.specs.Answer.{found};
ghost use Rattle.sheets.specs.Refusal.{undefined_mapping};

use crate::pick::PickedType;
use field_sheet::{levels, subtrees};
use nesting::Nesting;
use read_field_line::FieldLine;
use walks::Subtree;

// Lists, maps, structs and unions have fields.
fn has_fields(n: Nesting) -> bool
    ensures { result ≡ has_fields n }
{
    match n {
        Nesting::Nothing => false,
        Nesting::List => true,
        Nesting::Map => true,
        Nesting::Fields => true,
        Nesting::Dictionary => false,
        Nesting::Extension => false,
    }
}

// The type that stands at `at`, up to its end.
fn whole_type(s: &[u8], at: usize) -> Option<PickedType>
    requires { HasType s.now at level_limit false }
    ensures { WholeTold s.now at (found undefined_mapping result) }
{
    let line = read_field_line::field_line_at(s, at);
    let inside = levels::is_extension(line.kind);
    // The whole sheet was read before, and no type has more levels: this never comes.
    let end = subtrees::skip_row(s, line.end, line.children, inside, field_sheet::LEVELS)?;
    Some(PickedType { at, line, end })
}

// The type of one of the fields that stand from `at` on, where there are more than `index`.
fn nth_type(s: &[u8], at: usize, index: u64) -> Option<PickedType>
    requires { HasNth s.now at index }
    ensures { NthTold s.now at index (found undefined_mapping result) }
{
    // The whole sheet was read before, and no type has more levels: this never comes.
    let next = subtrees::skip_row(s, at, index, false, field_sheet::LEVELS)?;
    whole_type(s, next)
}

// The type of a field of the type in all extensions.
pub fn child_type(s: &[u8], at: usize, first: FieldLine, index: u64) -> Option<PickedType>
    requires { HasField s.now at first }
    ensures { Picks (Child index) s.now at (found undefined_mapping result) }
{
    let tree = Subtree {
        at,
        levels: field_sheet::LEVELS,
        inside: false,
    };
    let inner = storage_line::storage_line(s, tree, first);
    let line = inner.line;
    if !has_fields(nesting::nesting_of(line.kind)) {
        return None;
    }
    if line.children <= index {
        return None;
    }
    nth_type(s, line.end, index)
}
