// One line of a schema sheet to the field lines of its node: what its metadata and its name say of its field, and its type.
#![tactic(auto)]

pub mod dtype;
pub mod info;
pub mod lines;
pub mod name;

ghost use Rattle.std.specs.Prelude.{◌≡◌};
ghost use Rattle.node.specs.Info.{HasEntries};
ghost use Rattle.node.specs.Pieces.{CanShow};
ghost use Rattle.node.specs.Nodes.{column_in, metadata_in, nothing_shown, refused_later, IsColumn, children_below, NodeIn, FieldBegins, TypeLinePuts};

use crate::lines::Shown;
use columns::Part;
use import_type::Below;
use refusal::Refusal;
use schema_line::SchemaLine;

// What a node's metadata and name say: the extension's line, if there is one, has `len` bytes and is written; `shown` is what the line of the
// type shows of the field; `pending` is the refusal that comes after what stands below, if one does.
#[derive(Drop)]
pub struct Begun {
    pub len: usize,
    pub shown: Shown,
    pub pending: Result<(), Refusal>,
}

fn column_of(s: &[u8], p: Part) -> &[u8]
    requires { IsColumn s.now p }
    ensures { result.now ≡ column_in s.now p }
{
    let start = p.start;
    let end = p.end;
    &s[start..end]
}

// A bare line.
fn nothing_shown(big: bool) -> Shown
    ensures { result ≡ nothing_shown big }
{
    Shown {
        bare: true,
        nullable: false,
        count: 0,
        big,
    }
}

// The metadata or the name is refused, after what stands below: nothing is written, and nothing of the field is shown.
fn refused_later(r: Refusal, big: bool) -> Begun
    ensures { result ≡ refused_later big r }
{
    Begun {
        len: 0,
        shown: nothing_shown(big),
        pending: Err(r),
    }
}

// Reads the metadata and the name of a node and writes the line of its extension, if its metadata names one, as far as it fits. A refusal of metadata or
// name is pending, since it comes after what stands below. The entries are for the pairs of the line's metadata: lent, since this is called at each
// of 32 levels.
pub fn begin_field(
    s: &[u8],
    line: SchemaLine,
    bare: bool,
    big: bool,
    out: &mut [u8],
    entries: &mut [u32],
    spare: &mut [u32],
) -> Begun
    requires { NodeIn s.now line × HasEntries s.now entries.old spare.old }
    ensures { FieldBegins s.now line bare big entries.new out.old out.new result }
{
    let name = column_of(s, line.name);
    let metadata = column_of(s, line.metadata);
    match info::read_own(name, metadata, big, entries, spare) {
        Err(r) => refused_later(r, big),
        Ok(d) => {
            let shown = Shown {
                bare,
                nullable: line.nullable(),
                count: d.count,
                big,
            };
            if d.name == 0 {
                return Begun {
                    len: 0,
                    shown,
                    pending: Ok(()),
                };
            }
            let m = schema_line::text_of(metadata);
            Begun {
                len: lines::put_extension_line(out, name, m, entries, shown, d),
                shown: nothing_shown(big),
                pending: Ok(()),
            }
        }
    }
}

// The number of children on the field line.
fn children_below(b: Below, children: u64) -> u64
    ensures { result ≡ children_below b children }
{
    match b {
        Below::Nothing => 0,
        Below::First => 1,
        Below::All => children,
        Below::Values => 1,
    }
}

// Reads the format of a node and writes the line of its type, as far as it fits.
pub fn put_type_line(
    s: &[u8],
    line: SchemaLine,
    shown: Shown,
    out: &mut [u8],
    entries: &[u32],
) -> Result<(usize, Below), Refusal>
    requires { NodeIn s.now line × CanShow (column_in s.now line.name) (metadata_in s.now line) entries.now shown }
    ensures { TypeLinePuts s.now line shown entries.now out.old out.new result }
{
    let format = column_of(s, line.format);
    let name = column_of(s, line.name);
    let metadata = column_of(s, line.metadata);
    let (end, b) = dtype::put_type(out, format, line)?;
    let m = schema_line::text_of(metadata);
    let own = lines::put_own(out, end, name, m, entries, shown);
    let len = field_line::put_end(out, own, children_below(b, line.children));
    Ok((len, b))
}
