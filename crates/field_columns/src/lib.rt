// The columns of a field line that are no numbers: found and tested where they stand.
#![tactic(auto)]

pub mod lists;

ghost use Rattle.std.specs.Prelude.{◌≡◌};
ghost use Rattle.sheets.specs.Bytes.{space};
ghost use Rattle.columns.specs.Columns.{column_of};
ghost use Rattle.field_columns.specs.FieldColumns.{is_nothing, is_some_text, is_optional_text, is_flag, is_content, is_usual, takes_text};

use columns::ascii_pairs;

// What a column must hold.
#[derive(Clone, Copy)]
pub enum Content {
    // `~`
    Nothing,
    // UTF-8, or `~`
    OptionalText,
    // UTF-8
    Text,
    // a union's ids
    Ids,
    // 0 or 1
    Flag,
    Pairs,
}

pub fn is_nothing(c: &[u8]) -> bool
    ensures { result ≡ is_nothing c.now }
{
    if c.len() != 1 {
        return false;
    }
    c[0] == b'~'
}

fn is_text(c: &[u8]) -> bool
    ensures { result ≡ is_some_text c.now }
{
    if c.len() == 0 {
        return false;
    }
    if c.len() == 1 {
        return c[0] == b'-';
    }
    if !hexadecimal::is_hex(c) {
        return false;
    }
    utf8::is_utf8_hex(c)
}

fn is_optional_text(c: &[u8]) -> bool
    ensures { result ≡ is_optional_text c.now }
{
    if is_nothing(c) {
        return true;
    }
    is_text(c)
}

fn is_flag(c: &[u8]) -> bool
    ensures { result ≡ is_flag c.now }
{
    if c.len() != 1 {
        return false;
    }
    if c[0] == b'0' {
        return true;
    }
    c[0] == b'1'
}

fn is_content(c: &[u8], content: Content) -> bool
    ensures { result ≡ is_content content c.now }
{
    match content {
        Content::Nothing => is_nothing(c),
        Content::OptionalText => is_optional_text(c),
        Content::Text => is_text(c),
        Content::Ids => crate::lists::is_ids(c),
        Content::Flag => is_flag(c),
        Content::Pairs => crate::lists::is_pairs(c),
    }
}

// The one byte that most columns are, by what they must hold.
fn is_usual(content: Content, b: u8) -> bool
    ensures { result ≡ is_usual content b }
{
    match content {
        Content::Nothing => b == b'~',
        Content::OptionalText => b == b'~',
        Content::Text => false,
        Content::Ids => b == b'~',
        Content::Flag => (b == b'0') | (b == b'1'),
        Content::Pairs => b == b'~',
    }
}

// Whether any text in UTF-8 may stand there.
fn takes_text(content: Content) -> bool
    ensures { result ≡ takes_text content }
{
    match content {
        Content::Nothing => false,
        Content::OptionalText => true,
        Content::Text => true,
        Content::Ids => false,
        Content::Flag => false,
        Content::Pairs => false,
    }
}

// The same as `content_column`, for a column of any bytes.
fn any_content(s: &[u8], at: usize, content: Content) -> Option<usize>
    ensures { result ≡ column_of (is_content content) space s.now at }
{
    let e = columns::column(s, at, columns::any_end(s, at), b' ')?;
    if is_content(&s[at..e], content) {
        return Some(e);
    }
    None
}

// The end of the column from place at on that holds this. Most are one byte or ASCII: then each byte is looked at once.
pub fn content_column(s: &[u8], at: usize, content: Content) -> Option<usize>
    ensures { result ≡ column_of (is_content content) space s.now at }
{
    if columns::one_byte(s, at, b' ') {
        if is_usual(content, s[at]) {
            return Some(at + 1);
        }
    }
    if takes_text(content) {
        if let Some(e) = ascii_pairs::pairs_column(s, at) {
            return Some(e);
        }
    }
    any_content(s, at, content)
}
