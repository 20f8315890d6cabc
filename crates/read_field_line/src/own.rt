// The columns `name nullable pairs` of a field line: what it says of its field, or that it is bare.
ghost use Rattle.std.specs.Prelude.{◌≡◌, ◌+◌, drop};
ghost use Rattle.sheets.specs.Bytes.{space};
ghost use Rattle.buffer.specs.Over.{IsUsize};
ghost use Rattle.columns.specs.Columns.{one_of};
ghost use Rattle.field_kinds.specs.FieldKinds.{flag_content, pairs_content};
ghost use Rattle.read_field_line.specs.Stages.{is_none, bare_at, bare_own, ReadsOwn, HasOwnColumns, OwnAt};
ghost use Rattle.sheets.specs.Answer.{found};
ghost use Rattle.sheets.specs.Refusal.{bad_lines};

use columns::{Part, text};
use field_columns::Content;

// `end` is the place after `pairs`; `nullable` is false on a bare line.
#[derive(Drop)]
pub struct OwnColumns {
    pub name: Part,
    pub bare: bool,
    pub nullable: bool,
    pub pairs: Part,
    pub end: usize,
}

// What `nullable` must hold.
fn flag_content(bare: bool) -> Content
    ensures { result ≡ flag_content bare }
{
    if bare {
        return Content::Nothing;
    }
    Content::Flag
}

// What `pairs` must hold.
fn pairs_content(bare: bool) -> Content
    ensures { result ≡ pairs_content bare }
{
    if bare {
        return Content::Nothing;
    }
    Content::Pairs
}

// The columns of a bare line from place at on.
fn bare_own(at: usize) -> OwnColumns
    requires { IsUsize (at + 5) }
    ensures { result ≡ bare_own at }
{
    OwnColumns {
        name: columns::between(at, at + 1),
        bare: true,
        nullable: false,
        pairs: columns::between(at + 4, at + 5),
        end: at + 5,
    }
}

// Whether the column from place at on is `~`, and a space ends it.
fn one_none(s: &[u8], at: usize) -> bool
    ensures { result ≡ one_of is_none space (drop at s.now) }
{
    if !columns::one_byte(s, at, b' ') {
        return false;
    }
    s[at] == b'~'
}

// Whether the columns of a bare line stand from place at on.
fn is_bare(s: &[u8], at: usize) -> bool
    ensures { result ≡ bare_at s.now at }
{
    if !one_none(s, at) {
        return false;
    }
    if !one_none(s, at + 2) {
        return false;
    }
    one_none(s, at + 4)
}

// The same as `read_own`, for a line that is not bare or does not keep the rules.
fn any_own(s: &[u8], at: usize) -> Option<OwnColumns>
    ensures { ReadsOwn s.now at (found bad_lines result) }
{
    let name = field_columns::content_column(s, at, Content::OptionalText)?;
    let bare = field_columns::is_nothing(&s[at..name]);
    let start = name + 1;
    let flag = field_columns::content_column(s, start, flag_content(bare))?;
    let pairs = field_columns::content_column(s, flag + 1, pairs_content(bare))?;
    Some(OwnColumns {
        name: columns::between(at, name),
        bare,
        nullable: s[start] == b'1',
        pairs: columns::between(flag + 1, pairs),
        end: pairs,
    })
}

pub fn read_own(s: &[u8], at: usize) -> Option<OwnColumns>
    ensures { ReadsOwn s.now at (found bad_lines result) }
{
    if is_bare(s, at) {
        return Some(bare_own(at));
    }
    any_own(s, at)
}

// The same where they are known to stand: the first byte tells `~` from a name, and `nullable` is one byte.
pub fn known_own(s: &[u8], at: usize) -> OwnColumns
    requires { HasOwnColumns s.now at }
    ensures { OwnAt s.now at result }
{
    if s[at] == b'~' {
        return bare_own(at);
    }
    let name = text::known_text_end(s, at);
    let start = name + 1;
    let pairs = start + 2;
    let end = columns::text_end(s, pairs);
    OwnColumns {
        name: columns::between(at, name),
        bare: false,
        nullable: s[start] == b'1',
        pairs: columns::between(pairs, end),
        end,
    }
}
