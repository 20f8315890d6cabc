// The type of a schema line's node: the columns that its format says, written, and which subtrees it visits.
ghost use Rattle.std.specs.Prelude.{◌≡◌, true, ◌<◌, length};
ghost use Rattle.hexadecimal.specs.Hex.{is_hex, bytes_of};
ghost use Rattle.import_type.specs.TypeColumns.{CanPut};
ghost use Rattle.node.specs.Types.{lacks_child, IsText, index_shape, format_shape, column_type, TypePuts};

use import_type::Below;
use refusal::Refusal;
use schema_line::SchemaLine;

// Whether a child that the type needs is absent.
fn lacks_child(b: Below, children: u64) -> bool
    ensures { result ≡ lacks_child b children }
{
    match b {
        Below::Nothing => false,
        Below::First => children == 0,
        Below::All => false,
        Below::Values => false,
    }
}

// The type of a line without a dictionary. A format is refused before a child that is absent.
fn put_plain(
    out: &mut [u8],
    f: &[u8],
    sorted: bool,
    children: u64,
) -> Result<(usize, Below), Refusal>
    requires { CanPut f.now 0 }
    ensures { TypePuts (format_shape (bytes_of f.now) sorted children) (length f.now) out.old out.new result }
{
    let (end, b) = import_type::put_format(out, 0, f, sorted)?;
    if lacks_child(b, children) {
        return Err(Refusal::NoChild);
    }
    Ok((end, b))
}

// The type of a line with a dictionary.
fn put_index(out: &mut [u8], f: &[u8], ordered: bool) -> Result<(usize, Below), Refusal>
    requires { is_hex f.now ≡ true }
    ensures { TypePuts (index_shape (bytes_of f.now) ordered) (length f.now) out.old out.new result }
{
    let index = format::dictionary::to_integer_type(f)?;
    Ok((
        import_type::put_dictionary(out, 0, index, ordered),
        Below::Values,
    ))
}

// The type that the format's column and the line's numbers tell: a null format is refused, then one that is not UTF-8, then what is no type.
pub fn put_type(out: &mut [u8], column: &[u8], line: SchemaLine) -> Result<(usize, Below), Refusal>
    requires { IsText column.now × (length column.now < 65536) }
    ensures { TypePuts (column_type column.now line) (length column.now) out.old out.new result }
{
    if buffer::same(column, b"~") {
        return Err(Refusal::NullFormat);
    }
    let f = schema_line::text_of(column);
    if utf8::is_utf8_hex(f) {
        if line.dictionary == 0 {
            return put_plain(out, f, line.sorted(), line.children);
        }
        return put_index(out, f, line.ordered());
    }
    Err(Refusal::NotUtf8)
}
