// The line of a type inside all extensions around it; [below] what stands below a line.
#![tactic(auto)]

pub mod below;

ghost use Rattle.walks.specs.Places.{HasType};
ghost use Rattle.read_field_line.specs.FieldLines.{FieldLineAt};
ghost use Rattle.storage_line.specs.StorageLines.{StorageTold};

use datatypes::kind;
use field_sheet::levels;
use read_field_line::FieldLine;
use walks::Subtree;

// The line, the place where it stands, and how many extensions' lines stand before it.
#[derive(Drop)]
pub struct StorageLine {
    pub at: usize,
    pub line: FieldLine,
    pub passed: usize,
}

// An extension's inner type stands in the next line, directly inside it. `first` is the line at `tree.at`.
pub fn storage_line(s: &[u8], tree: Subtree, first: FieldLine) -> StorageLine
    requires { HasType s.now tree.at tree.levels tree.inside × FieldLineAt s.now tree.at first }
    ensures { StorageTold s.now tree result }
{
    if first.kind != kind::EXTENSION {
        return StorageLine {
            at: tree.at,
            line: first,
            passed: 0,
        };
    }
    let inner = read_field_line::field_line_at(s, first.end);
    let cost = levels::line_cost(tree.inside, true);
    let below = Subtree {
        at: first.end,
        levels: tree.levels - cost,
        inside: true,
    };
    let found = storage_line(s, below, inner);
    let line = found.line;
    StorageLine {
        at: found.at,
        line,
        passed: found.passed + 1,
    }
}
