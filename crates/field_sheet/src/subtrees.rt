// Trees of a field sheet that are known to stand: skipped by a recursion on the levels left.
ghost use Rattle.sheets.specs.FieldTrees.{fields};
ghost use Rattle.sheets.specs.TreeWalks.{HasTree, HasRow};
ghost use Rattle.field_sheet.specs.Subtrees.{SkipsTree, SkipsRow};
ghost use Rattle.sheets.specs.Answer.{found};
ghost use Rattle.sheets.specs.Refusal.{too_deep};

// The end of the tree from place at on, unless it has more levels than `most`; `inside` says that it stands directly in an extension.
#[cycle(skip_skip_row)]
pub fn skip(s: &[u8], at: usize, inside: bool, most: usize) -> Option<usize>
    requires { HasTree fields s.now at }
    ensures { SkipsTree s.now at inside most (found too_deep result) }
{
    if most == 0 {
        return None;
    }
    if let Some(leaf) = field_leaf::leaf_at(s, at) {
        return Some(leaf.end + field_leaf::AFTER_NAME);
    }
    let l = read_field_line::field_line_at(s, at);
    let extension = crate::levels::is_extension(l.kind);
    let cost = crate::levels::line_cost(inside, extension);
    skip_row(s, l.end, l.children, extension, most - cost)
}

// The end of `count` trees from place at on, unless one of them has more levels than `most`.
#[cycle(skip_skip_row)]
pub fn skip_row(s: &[u8], at: usize, count: u64, inside: bool, most: usize) -> Option<usize>
    requires { HasRow fields s.now at count }
    ensures { SkipsRow s.now at count inside most (found too_deep result) }
{
    let mut here = at;
    for i in 0..count {
        here = skip(s, here, inside, most)?;
    }
    Some(here)
}
