// A line of a field sheet at a place: read and tested, or, where it is known to stand, found again.
#![tactic(auto)]

pub mod own;
pub mod types;

ghost use Rattle.sheets.specs.TreeWalks.{HasTree};
ghost use Rattle.sheets.specs.FieldTrees.{fields};
ghost use Rattle.read_field_line.specs.FieldLines.{ReadsLine, FieldLineAt};
ghost use Rattle.sheets.specs.Answer.{found};
ghost use Rattle.sheets.specs.Refusal.{bad_lines};

use columns::{Part, number};

// `kind p q text more name nullable pairs children`; a bare line has no name, and `nullable` is false there; `end` is the place after the line's byte 10.
#[derive(Clone, Copy)]
pub struct FieldLine {
    pub kind: u64,
    pub p: u64,
    pub q: u64,
    pub text: Part,
    pub more: Part,
    pub name: Part,
    pub bare: bool,
    pub nullable: bool,
    pub pairs: Part,
    pub children: u64,
    pub end: usize,
}

// The line from place at on.
pub fn read_field_line(s: &[u8], at: usize) -> Option<FieldLine>
    ensures { ReadsLine s.now at (found bad_lines result) }
{
    let t = crate::types::read_type(s, at)?;
    let o = crate::own::read_own(s, t.end + 1)?;
    let (children, end) = number::number_column(s, o.end + 1, b'\n')?;
    if !field_kinds::children_fit(t.kind, children) {
        return None;
    }
    let text = t.text;
    let more = t.more;
    let name = o.name;
    let pairs = o.pairs;
    Some(FieldLine {
        kind: t.kind,
        p: t.p,
        q: t.q,
        text,
        more,
        name,
        bare: o.bare,
        nullable: o.nullable,
        pairs,
        children,
        end: end + 1,
    })
}

// The line from place at on, where a tree is known to stand: its texts and lists are not tested again.
pub fn field_line_at(s: &[u8], at: usize) -> FieldLine
    requires { HasTree fields s.now at }
    ensures { FieldLineAt s.now at result }
{
    let t = crate::types::known_type(s, at);
    let o = crate::own::known_own(s, t.end + 1);
    let children = number::number_at(s, o.end + 1);
    let text = t.text;
    let more = t.more;
    let name = o.name;
    let pairs = o.pairs;
    FieldLine {
        kind: t.kind,
        p: t.p,
        q: t.q,
        text,
        more,
        name,
        bare: o.bare,
        nullable: o.nullable,
        pairs,
        children: children.value,
        end: children.end + 1,
    }
}
