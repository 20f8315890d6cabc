// What export writes for one field of a field sheet: the schema line of its type, from the first line of the field and the line of the type inside all
// extensions around it; and what is left to be visited below.
#![tactic(auto)]

ghost use Rattle.std.specs.Prelude.{◌≡◌, true, ◌<◌, None};
ghost use Rattle.walks.specs.Answers.{begun_answer};
ghost use Rattle.walks.specs.Places.{HasType};
ghost use Rattle.export_line.specs.Begins.{is_alone, columns_from, numbers_with, numbers_of, zero_pending, begun_with, ExportBegins};
ghost use Rattle.refusal.specs.Refusals.{answer_of};

use datatypes::kind;
use outcome::Size;
use put_schema_line::{LineColumns, LineNumbers};
use read_field_line::FieldLine;
use refusal::Refusal;
use storage_line::below;
use walks::{LineBegun, Subtree, Subtrees};

// Whether the type is a dictionary directly under extensions, which is written as its index type alone.
fn is_alone(outer: u64, inner: u64) -> bool
    ensures { result ≡ is_alone outer inner }
{
    if inner == kind::DICTIONARY {
        return outer == kind::EXTENSION;
    }
    false
}

// The outermost extension's keys are written: an extension inside another leaves nothing.
fn line_columns(first: FieldLine, l: FieldLine) -> LineColumns
    ensures { result ≡ columns_from first l }
{
    let text = l.text;
    let name = first.name;
    let pairs = first.pairs;
    let more = first.more;
    if first.kind == kind::EXTENSION {
        let extension = first.text;
        return LineColumns {
            text,
            name,
            pairs,
            extension,
            more,
        };
    }
    LineColumns {
        text,
        name,
        pairs,
        extension: more,
        more,
    }
}

fn numbers_with(
    nullable: bool,
    kind: u64,
    p: u64,
    q: u64,
    children: u64,
    dictionary: u64,
    big: bool,
) -> LineNumbers
    ensures { result ≡ numbers_with nullable kind p q children dictionary big }
{
    LineNumbers {
        kind,
        p,
        q,
        flags: put_schema_line::line_flags(nullable, kind, p, q),
        children,
        dictionary,
        big,
    }
}

// The integer types stand in `ArrowDataType` in the order of `IntegerType`.
fn line_numbers(nullable: bool, alone: bool, l: FieldLine, big: bool) -> LineNumbers
    requires { alone ≡ true → l.p < 10 }
    ensures { result ≡ numbers_of nullable alone l.kind l.p l.q l.children big }
{
    if alone {
        return numbers_with(nullable, l.p + kind::INT8, 0, 0, 0, 0, big);
    }
    if l.kind == kind::DICTIONARY {
        return numbers_with(nullable, l.kind, l.p, l.q, 0, 1, big);
    }
    numbers_with(nullable, l.kind, l.p, l.q, l.children, 0, big)
}

fn pending_of(zero: bool) -> Result<(), Refusal>
    ensures { answer_of result ≡ zero_pending zero }
{
    if zero {
        return Err(Refusal::ZeroByte);
    }
    Ok(())
}

// No format: refused at once. Byte 00: refused after what is below. The line and the extensions that were passed are visited.
fn line_begun(
    row: Subtrees,
    line: Result<(usize, bool), Refusal>,
    passed: usize,
) -> Result<LineBegun, Refusal>
    requires { passed < 65536 }
    ensures { begun_answer (λ levels inside. None) result ≡ begun_with row passed (answer_of line) }
{
    let (len, zero) = line?;
    let size = Size {
        len,
        lines: passed + 1,
    };
    let pending = pending_of(zero);
    Ok(LineBegun { row, size, pending })
}

// Writes the schema line of the field at `tree.at`, as much as fits. The bare line of a dictionary's values is nullable.
pub fn begin_export(
    s: &[u8],
    tree: Subtree,
    big: bool,
    out: &mut [u8],
) -> Result<LineBegun, Refusal>
    requires { HasType s.now tree.at tree.levels tree.inside }
    ensures { ExportBegins big s.now tree out.old out.new result }
{
    let first = read_field_line::field_line_at(s, tree.at);
    let inner = storage_line::storage_line(s, tree, first);
    let l = inner.line;
    let alone = is_alone(first.kind, l.kind);
    let row = below::row_below(s, tree, l, alone);
    let columns = line_columns(first, l);
    let numbers = line_numbers(first.bare | first.nullable, alone, l, big);
    let line = put_schema_line::put_schema_line(out, s, columns, numbers);
    line_begun(row, line, inner.passed)
}
