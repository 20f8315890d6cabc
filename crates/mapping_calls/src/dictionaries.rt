// A dictionary looked for among the lines of a type, by a recursion on the levels left.
ghost use Rattle.walks.specs.Places.{HasType, HasRow};
ghost use Rattle.mapping_calls.specs.Searches.{TypeSearched, RowSearched};

use datatypes::kind;
use field_sheet::levels;
use walks::{Subtree, Subtrees};

// Where the lines of the type end; or there is a dictionary among them. A leaf's short line is recognised at once, and is no dictionary.
#[cycle(search_row_search_type)]
pub fn search_type(s: &[u8], tree: Subtree) -> Option<usize>
    requires { HasType s.now tree.at tree.levels tree.inside }
    ensures { TypeSearched s.now tree result }
{
    if let Some(leaf) = field_leaf::leaf_at(s, tree.at) {
        return Some(leaf.end + field_leaf::AFTER_NAME);
    }
    let l = read_field_line::field_line_at(s, tree.at);
    if l.kind == kind::DICTIONARY {
        return None;
    }
    let inside = levels::is_extension(l.kind);
    let cost = levels::line_cost(tree.inside, inside);
    let row = Subtrees {
        at: l.end,
        count: l.children,
        levels: tree.levels - cost,
        inside,
    };
    search_row(s, row)
}

// The same of types that stand one after the other.
#[cycle(search_row_search_type)]
fn search_row(s: &[u8], row: Subtrees) -> Option<usize>
    requires { HasRow s.now row.at row.count row.levels row.inside }
    ensures { RowSearched s.now row result }
{
    let mut here = row.at;
    for i in 0..row.count {
        let tree = Subtree {
            at: here,
            levels: row.levels,
            inside: row.inside,
        };
        here = search_type(s, tree)?;
    }
    Some(here)
}
