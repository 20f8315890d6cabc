// The type that a call answers, found among the lines of the field's type.
ghost use Rattle.picked_types.specs.Picks.{HasField, Picks};
ghost use Rattle.sheets.specs.Answer.{found};
ghost use Rattle.sheets.specs.Refusal.{undefined_mapping};

use read_field_line::FieldLine;
use walks::Subtree;

// Which type is answered.
#[derive(Clone, Copy)]
pub enum Choice {
    Storage,
    Inner,
    Child(u64),
}

// A type that stands at `at`: its first line, and where its lines end.
#[derive(Drop)]
pub struct PickedType {
    pub at: usize,
    pub line: FieldLine,
    pub end: usize,
}

// The type in all extensions, whose lines end with the sheet.
fn storage_type(s: &[u8], at: usize, first: FieldLine) -> Option<PickedType>
    requires { HasField s.now at first }
    ensures { Picks Choice.Storage s.now at (found undefined_mapping result) }
{
    let tree = Subtree {
        at,
        levels: field_sheet::LEVELS,
        inside: false,
    };
    let inner = storage_line::storage_line(s, tree, first);
    let line = inner.line;
    Some(PickedType {
        at: inner.at,
        line,
        end: s.len(),
    })
}

// `first` is the line at `at`, the field's.
pub fn pick_type(choice: Choice, s: &[u8], at: usize, first: FieldLine) -> Option<PickedType>
    requires { HasField s.now at first }
    ensures { Picks choice s.now at (found undefined_mapping result) }
{
    match choice {
        Choice::Storage => storage_type(s, at, first),
        Choice::Inner => crate::inner::inner_type(s, first),
        Choice::Child(index) => crate::child::child_type(s, at, first, index),
    }
}
