// The columns `kind p q text more` of a field line: what it says of its type.
ghost use Rattle.std.specs.Prelude.{◌≡◌};
ghost use Rattle.columns.specs.Columns.{stop_from};
ghost use Rattle.read_field_line.specs.Stages.{ReadsNumbers, ReadsType, HasTypeText, HasTypeColumns, TypeAt};
ghost use Rattle.sheets.specs.Answer.{found};
ghost use Rattle.sheets.specs.Refusal.{bad_lines};

use columns::{Part, number, text};
use datatypes::kind;

// The columns `kind p q`; `end` is the place after q.
#[derive(Drop)]
pub struct Numbers {
    pub kind: u64,
    pub p: u64,
    pub q: u64,
    pub end: usize,
}

// The columns `kind p q text more`; `end` is the place after `more`.
#[derive(Drop)]
pub struct TypeColumns {
    pub kind: u64,
    pub p: u64,
    pub q: u64,
    pub text: Part,
    pub more: Part,
    pub end: usize,
}

fn read_numbers(s: &[u8], at: usize) -> Option<Numbers>
    ensures { ReadsNumbers s.now at (found bad_lines result) }
{
    let (kind, kind_end) = number::number_column(s, at, b' ')?;
    let (p, p_end) = number::number_column(s, kind_end + 1, b' ')?;
    let (q, end) = number::number_column(s, p_end + 1, b' ')?;
    if !field_kinds::p_fits(kind, p) {
        return None;
    }
    if !field_kinds::q_fits(kind, q) {
        return None;
    }
    Some(Numbers { kind, p, q, end })
}

pub fn read_type(s: &[u8], at: usize) -> Option<TypeColumns>
    ensures { ReadsType s.now at (found bad_lines result) }
{
    let n = read_numbers(s, at)?;
    let start = n.end + 1;
    let text = field_columns::content_column(s, start, field_kinds::text_content(n.kind))?;
    let more = field_columns::content_column(s, text + 1, field_kinds::more_content(n.kind))?;
    Some(TypeColumns {
        kind: n.kind,
        p: n.p,
        q: n.q,
        text: columns::between(start, text),
        more: columns::between(text + 1, more),
        end: more,
    })
}

// The end of the column `text` that is known to stand from place at on. A union's ids are no pairs of digits; most other texts are `~`.
fn known_text(s: &[u8], at: usize, kind: u64) -> usize
    requires { HasTypeText s.now at kind }
    ensures { result ≡ stop_from s.now at }
{
    if kind == kind::UNION {
        return columns::text_end(s, at);
    }
    if s[at + 1] == b' ' {
        return at + 1;
    }
    text::known_pairs_end(s, at)
}

// The same where they are known to stand: no text is tested.
pub fn known_type(s: &[u8], at: usize) -> TypeColumns
    requires { HasTypeColumns s.now at }
    ensures { TypeAt s.now at result }
{
    let kind = number::number_at(s, at);
    let p = number::number_at(s, kind.end + 1);
    let q = number::number_at(s, p.end + 1);
    let start = q.end + 1;
    let text = known_text(s, start, kind.value);
    let more = text::known_text_end(s, text + 1);
    TypeColumns {
        kind: kind.value,
        p: p.value,
        q: q.value,
        text: columns::between(start, text),
        more: columns::between(text + 1, more),
        end: more,
    }
}
