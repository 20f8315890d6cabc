// The lines of a node in a field sheet, written column by column, as much as fits. Each writer answers the place after what it wrote.
ghost use Rattle.std.specs.Prelude.{◌^◌, ◌<◌};
ghost use Rattle.hexadecimal.specs.Hex.{bytes_of};
ghost use Rattle.buffer.specs.Over.{PutAt};
ghost use Rattle.node.specs.Pieces.{shown_text, extension_piece, extension_text, CanShow, CanExtend};

use crate::name;
use datatypes::kind;
use metadata::Metadata;

// What a line shows of its field: nothing if it is bare, else its name, nullable, and the first `count` entries of its metadata as pairs. The metadata's
// lengths are big-endian (`big`) or not.
#[derive(Drop)]
pub struct Shown {
    pub bare: bool,
    pub nullable: bool,
    pub count: usize,
    pub big: bool,
}

// The columns `name nullable pairs`, from a schema's name column and the text of its metadata.
pub fn put_own(
    out: &mut [u8],
    at: usize,
    name: &[u8],
    m: &[u8],
    entries: &[u32],
    shown: Shown,
) -> usize
    requires { (at < 2 ^ 38) × CanShow name.now m.now entries.now shown }
    ensures { PutAt at (shown_text name.now m.now entries.now shown) result out.old out.new }
{
    if shown.bare {
        return field_line::put_bare(out, at);
    }
    let a = name::put_name(out, at, name, shown.nullable);
    let b = metadata::put::put_pairs(out, a, m, entries, shown.count, shown.big);
    buffer::put_byte(out, b, b' ')
}

// The columns `kind p q text more` of an extension, from the entries of its name and its metadata.
fn put_extension(out: &mut [u8], m: &[u8], d: Metadata, big: bool) -> usize
    requires { CanExtend big m.now d }
    ensures { PutAt 0 (extension_piece big (bytes_of m.now) d) result out.old out.new }
{
    let a = field_line::put_kind(out, 0, kind::EXTENSION, 0, 0);
    let b = metadata::put::put_value(out, a, m, d.name, big);
    let c = buffer::put_byte(out, b, b' ');
    let e = metadata::put::put_value(out, c, m, d.more, big);
    buffer::put_byte(out, e, b' ')
}

// The line of an extension; its inner line comes next.
pub fn put_extension_line(
    out: &mut [u8],
    name: &[u8],
    m: &[u8],
    entries: &[u32],
    shown: Shown,
    d: Metadata,
) -> usize
    requires { CanShow name.now m.now entries.now shown × CanExtend shown.big m.now d }
    ensures { PutAt 0 (extension_text name.now m.now entries.now shown d) result out.old out.new }
{
    let a = put_extension(out, m, d, shown.big);
    let b = put_own(out, a, name, m, entries, shown);
    field_line::put_end(out, b, 1)
}
