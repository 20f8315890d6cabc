// What becomes of a leaf's field line where it is recognised at once: its schema line, for export, and the line itself, as it is its own plain form
// and, unless it is a date's, its own underlying type.
#![tactic(auto)]

pub mod format;

ghost use Rattle.std.specs.Prelude.{◌≡◌, [], ◌∷◌, ◌++◌, ◌+◌, ◌%◌, ◌≤◌, ◌<◌, length};
ghost use Rattle.buffer.specs.Over.{PutAt};
ghost use Rattle.words.specs.Words.{low_bytes};
ghost use Rattle.put_schema_leaf.specs.Formats.{digits_text};
ghost use Rattle.put_schema_leaf.specs.Written.{schema_tail, SchemaLeafPuts, is_copied, LeafCopies};

use crate::format::Digits;
use datatypes::kind;
use field_leaf::FieldLeaf;

// Writes the len lowest bytes of w, two at once, from place at on; the place after them.
fn put_low(out: &mut [u8], at: usize, w: u64, len: usize) -> usize
    requires { (len % 2 ≡ 0) × (at + len ≤ length out.old) }
    ensures { PutAt at (low_bytes len w) result out.old out.new }
{
    let end = at + len;
    let mut rest = w;
    let mut i = at;
    while i < end {
        words::put_word2(out, i, rest);
        rest = rest / 65536;
        i += 2;
    }
    i
}

// Writes a format's digits and a space; the place after them. For names of any size.
fn put_long_format(out: &mut [u8], low: u64, high: u64, len: usize) -> usize
    requires { (len % 2 ≡ 0) × (len + 1 ≤ length out.old) }
    ensures { PutAt 0 (digits_text low high len ++ (32 ∷ [])) result out.old out.new }
{
    if len <= 8 {
        let end = put_low(out, 0, low, len);
        out[end] = b' ';
        return end + 1;
    }
    words::put_word8(out, 0, low);
    let end = put_low(out, 8, high, len - 8);
    out[end] = b' ';
    end + 1
}

// The same; the two digits of a name of one byte at once, as most names are.
fn put_format(out: &mut [u8], low: u64, high: u64, len: usize) -> usize
    requires { (len % 2 ≡ 0) × (len + 1 ≤ length out.old) }
    ensures { PutAt 0 (digits_text low high len ++ (32 ∷ [])) result out.old out.new }
{
    if len == 2 {
        words::put_word2(out, 0, low);
        out[2] = b' ';
        return 3;
    }
    put_long_format(out, low, high, len)
}

// Writes ` F ~ 0 0` and byte 10 from place at on, with F the flag of nullable; the place after it.
fn put_tail(out: &mut [u8], at: usize, nullable: u64) -> usize
    requires { (nullable < 2) × (at + 9 ≤ length out.old) }
    ensures { PutAt at (schema_tail nullable) result out.old out.new }
{
    let end = at + 9;
    words::put_word8(out, at, 0x302030207e203020 + nullable * 512);
    out[at + 8] = b'\n';
    end
}

// Writes the schema line of the leaf whose field line stands at `at`, if it is recognised, its type has a format and the line fits; where no byte is lent, as
// by a call that measures, it is only counted. Where the reading goes on and how many bytes the line has; or nothing is written.
pub fn put_schema_leaf(s: &[u8], at: usize, out: &mut [u8]) -> Option<(usize, usize)>
    ensures { SchemaLeafPuts s.now at out.old out.new result }
{
    let FieldLeaf {
        kind,
        start: from,
        end: e,
        nullable,
    } = field_leaf::leaf_at(s, at)?;
    let Digits { low, high, len } = format::format_of(kind)?;
    let name = e - from;
    if out.len() < name {
        if out.len() == 0 {
            return Some((e + 7, name + len + 10));
        }
        return None;
    }
    if out.len() - name < len + 10 {
        return None;
    }
    let to = put_format(out, low, high, len);
    let end = copy_part::copy_part(out, to, s, from, e);
    let written = put_tail(out, end, nullable);
    Some((e + 7, written))
}

// Whether the line of a leaf of this kind is copied: a date, which is another type underneath, only where dates are.
fn is_copied(dates: bool, kind: u64) -> bool
    ensures { result ≡ is_copied dates kind }
{
    if dates {
        return true;
    }
    if kind == kind::DATE32 {
        return false;
    }
    kind != kind::DATE64
}

// Copies the line of the leaf that stands at `at`, if it is recognised and fits; a date's only where `dates` are copied.
pub fn copy_leaf(s: &[u8], at: usize, dates: bool, out: &mut [u8]) -> Option<(usize, usize)>
    ensures { LeafCopies s.now at dates out.old out.new result }
{
    let FieldLeaf {
        kind,
        start: from,
        end: e,
        nullable,
    } = field_leaf::leaf_at(s, at)?;
    if !is_copied(dates, kind) {
        return None;
    }
    let next = e + 7;
    if out.len() < next - at {
        return None;
    }
    let len = copy_part::copy_part(out, 0, s, at, next);
    Some((next, len))
}
