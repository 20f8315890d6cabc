// Trees of a schema sheet read and tested: by the levels left, or by a forward count where there are too many.
ghost use Rattle.std.specs.Prelude.{◌≤◌, length};
ghost use Rattle.schema_sheet.specs.Trees.{Forms, ReadsTree, ReadsRow};
ghost use Rattle.refusal.specs.Refusals.{answer_of};

use refusal::Refusal;

// Whether one tree stands from place at on and nothing after it. No recursion: a sheet of any depth is tested.
pub fn form(s: &[u8], at: usize) -> bool
    ensures { Forms s.now at result }
{
    let mut here = at;
    // the subtrees still to come
    let mut due: usize = 1;
    while 0 < due {
        let Some(l) = schema_line::read::read_line(s, here) else {
            return false;
        };
        let room = s.len() - l.end;
        // no more than there are bytes, so that no sum wraps
        let other = due - 1 + l.dictionary as usize;
        if room < other {
            return false;
        }
        if room - other < l.children as usize {
            return false;
        }
        due = other + l.children as usize;
        here = l.end;
    }
    s.len() <= here
}

// The end of the tree from place at on, every line of it tested; or that it has more levels than there may be, or that there is none.
#[cycle(next_tree_read_row_read_tree)]
pub fn read_tree(s: &[u8], at: usize, levels: usize) -> Result<usize, Refusal>
    ensures { ReadsTree s.now at levels (answer_of result) }
{
    if levels == 0 {
        return Err(Refusal::TooDeep);
    }
    let Some(l) = schema_line::read::read_line(s, at) else {
        return Err(Refusal::BadLines);
    };
    // no more than there are bytes, so that the sum does not wrap
    if s.len() - l.end < l.children as usize {
        return Err(Refusal::BadLines);
    }
    read_row(s, l.end, l.dictionary + l.children, levels - 1)
}

// The same of `count` trees from place at on.
#[cycle(next_tree_read_row_read_tree)]
pub fn read_row(s: &[u8], at: usize, count: u64, levels: usize) -> Result<usize, Refusal>
    requires { at ≤ length s.now }
    ensures { ReadsRow s.now at count levels (answer_of result) }
{
    let mut here = at;
    for i in 0..count {
        here = next_tree(s, here, levels)?;
    }
    Ok(here)
}

// The same as `read_tree`; a leaf's line is recognised at once.
#[cycle(next_tree_read_row_read_tree)]
fn next_tree(s: &[u8], at: usize, levels: usize) -> Result<usize, Refusal>
    ensures { ReadsTree s.now at levels (answer_of result) }
{
    if levels == 0 {
        return Err(Refusal::TooDeep);
    }
    if let Some(leaf) = leaf_line::leaf_at(s, at) {
        return Ok(leaf.end + leaf_line::AFTER_NAME);
    }
    read_tree(s, at, levels)
}
