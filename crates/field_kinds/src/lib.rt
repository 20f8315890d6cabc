// What a field line's kind asks of its other columns.
#![tactic(auto)]

ghost use Rattle.std.specs.Prelude.{◌≡◌};
ghost use Rattle.sheets.specs.Field.{is_leaf};
ghost use Rattle.sheets.specs.FieldTrees.{kind_bare};
ghost use Rattle.field_kinds.specs.FieldKinds.{unit_fits, is_decimal, is_sized, p_fits, q_fits, text_content, more_content, has_one, children_fit};

use datatypes::kind;
use field_columns::Content;

// Whether a type is told by its place and a unit. Most lines' types are.
fn is_leaf(kind: u64) -> bool
    ensures { result ≡ is_leaf kind }
{
    if kind <= kind::FLOAT64 {
        return true;
    }
    if kind < kind::DATE32 {
        return false;
    }
    if kind <= kind::BINARY {
        return true;
    }
    if kind < kind::LARGE_BINARY {
        return false;
    }
    if kind <= kind::LARGE_UTF8 {
        return true;
    }
    if kind < kind::BINARY_VIEW {
        return false;
    }
    kind <= kind::UNKNOWN
}

// Whether p is the unit of such a type, or 0 where it has none.
fn unit_fits(kind: u64, p: u64) -> bool
    ensures { result ≡ unit_fits kind p }
{
    if kind < kind::TIME32 {
        return p == 0;
    }
    if kind::INTERVAL < kind {
        return p == 0;
    }
    p < 4
}

fn is_decimal(kind: u64) -> bool
    ensures { result ≡ is_decimal kind }
{
    if kind == kind::DECIMAL {
        return true;
    }
    if kind == kind::DECIMAL32 {
        return true;
    }
    if kind == kind::DECIMAL64 {
        return true;
    }
    kind == kind::DECIMAL256
}

// Whether p is a size or a precision, and so any number.
fn is_sized(kind: u64) -> bool
    ensures { result ≡ is_sized kind }
{
    if kind == kind::FIXED_SIZE_BINARY {
        return true;
    }
    if kind == kind::FIXED_SIZE_LIST {
        return true;
    }
    is_decimal(kind)
}

// Whether there is such a kind, and p is right for it.
pub fn p_fits(kind: u64, p: u64) -> bool
    ensures { result ≡ p_fits kind p }
{
    if is_leaf(kind) {
        return unit_fits(kind, p);
    }
    if kind == kind::TIMESTAMP {
        return p < 4;
    }
    if is_sized(kind) {
        return true;
    }
    if kind == kind::MAP {
        return p < 2;
    }
    if kind == kind::DICTIONARY {
        return p < 10;
    }
    if kind == kind::UNION {
        return p < 2;
    }
    if kind::UNION < kind {
        return false;
    }
    p == 0
}

pub fn q_fits(kind: u64, q: u64) -> bool
    ensures { result ≡ q_fits kind q }
{
    if is_decimal(kind) {
        return true;
    }
    if kind == kind::DICTIONARY {
        return q < 2;
    }
    q == 0
}

// What the column `text` must hold.
pub fn text_content(kind: u64) -> Content
    ensures { result ≡ text_content kind }
{
    if kind == kind::TIMESTAMP {
        return Content::OptionalText;
    }
    if kind == kind::EXTENSION {
        return Content::Text;
    }
    if kind == kind::UNION {
        return Content::Ids;
    }
    Content::Nothing
}

// What the column `more` must hold.
pub fn more_content(kind: u64) -> Content
    ensures { result ≡ more_content kind }
{
    if kind == kind::EXTENSION {
        return Content::OptionalText;
    }
    Content::Nothing
}

// Whether the line below is a bare one: a dictionary's values, an extension's inner type.
pub fn is_bare_below(kind: u64) -> bool
    ensures { result ≡ kind_bare kind }
{
    if kind == kind::DICTIONARY {
        return true;
    }
    kind == kind::EXTENSION
}

fn has_one(kind: u64) -> bool
    ensures { result ≡ has_one kind }
{
    if kind == kind::LIST {
        return true;
    }
    if kind == kind::FIXED_SIZE_LIST {
        return true;
    }
    if kind == kind::LARGE_LIST {
        return true;
    }
    if kind == kind::MAP {
        return true;
    }
    is_bare_below(kind)
}

pub fn children_fit(kind: u64, children: u64) -> bool
    ensures { result ≡ children_fit kind children }
{
    if kind == kind::STRUCT {
        return true;
    }
    if kind == kind::UNION {
        return true;
    }
    if has_one(kind) {
        return children == 1;
    }
    children == 0
}
