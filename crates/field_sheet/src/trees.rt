// Trees of a field sheet read and tested: by the levels left, or by a forward count where there are too many. `bare` says what the line above asks of the
// first line, `inside` that it stands directly in an extension, `strict` that lines are tested for what a strict export refuses.
ghost use Rattle.std.specs.Prelude.{◌≤◌, length};
ghost use Rattle.sheets.specs.Sheet.{sheet_limit};
ghost use Rattle.field_sheet.specs.Trees.{Alone, Forms, ReadsTree, ReadsRow};

use refusal::Refusal;

// Why no tree's end is answered: it has too many levels; there is none; a strict export refuses it, by its first line with a cause.
#[derive(Drop)]
pub enum NoTree {
    Deep,
    Bad,
    Held(Refusal),
}

// Whether one tree that is not bare stands from place at on and nothing after it. No recursion: a sheet of any depth is tested.
pub fn form(s: &[u8], at: usize) -> bool
    ensures { Forms s.now at result }
{
    let mut here = at;
    // the trees still to come, and whether the next one is to be bare
    let mut due: usize = 1;
    let mut bare = false;
    while 0 < due {
        let Some(l) = read_field_line::read_field_line(s, here) else {
            return false;
        };
        if l.bare != bare {
            return false;
        }
        let room = s.len() - l.end;
        // no more than there are bytes, so that no sum wraps
        let other = due - 1;
        if room < other {
            return false;
        }
        if room - other < l.children as usize {
            return false;
        }
        due = other + l.children as usize;
        bare = field_kinds::is_bare_below(l.kind);
        here = l.end;
    }
    s.len() <= here
}

// The end of the tree from place at on, every line of it tested, unless it has more levels than there may be. A leaf's short line is recognised at once.
#[cycle(read_row_read_tree)]
pub fn read_tree(
    s: &[u8],
    at: usize,
    bare: bool,
    inside: bool,
    levels: usize,
    strict: bool,
) -> Result<usize, NoTree>
    requires { length s.now ≤ sheet_limit }
    ensures { ReadsTree s.now at bare inside levels strict result }
{
    if levels == 0 {
        return Err(NoTree::Deep);
    }
    if !bare {
        if let Some(leaf) = field_leaf::leaf_at(s, at) {
            return Ok(leaf.end + field_leaf::AFTER_NAME);
        }
    }
    let Some(l) = read_field_line::read_field_line(s, at) else {
        return Err(NoTree::Bad);
    };
    if l.bare != bare {
        return Err(NoTree::Bad);
    }
    // no more than there are bytes
    if s.len() - l.end < l.children as usize {
        return Err(NoTree::Bad);
    }
    match crate::strict::line_returns(s, l, strict) {
        Err(r) => Err(NoTree::Held(r)),
        Ok(()) => {
            let extension = crate::levels::is_extension(l.kind);
            let left = levels - crate::levels::line_cost(inside, extension);
            let below = field_kinds::is_bare_below(l.kind);
            read_row(s, l.end, l.children, below, extension, left, strict)
        }
    }
}

// The same of `count` trees from place at on, of which only a single one can be bare.
#[cycle(read_row_read_tree)]
fn read_row(
    s: &[u8],
    at: usize,
    count: u64,
    bare: bool,
    inside: bool,
    levels: usize,
    strict: bool,
) -> Result<usize, NoTree>
    requires s_len_bound { length s.now ≤ sheet_limit }
    requires at_in_bounds { at ≤ length s.now }
    requires alone { Alone bare count }
    ensures { ReadsRow s.now at count bare inside levels strict result }
{
    let mut here = at;
    let mut next = bare;
    for i in 0..count {
        here = read_tree(s, here, next, inside, levels, strict)?;
        next = false;
    }
    Ok(here)
}
