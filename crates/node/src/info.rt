// What the metadata's column and the name of a schema line say of its field, or why they are refused.
ghost use Rattle.schema_line.specs.Texts.{text_in};
ghost use Rattle.node.specs.Types.{IsText};
ghost use Rattle.node.specs.Info.{metadata_of, own_answer, ReadsAs, HasBlock};

use metadata::Metadata;
use refusal::Refusal;

// What the metadata's column says; a null pointer has no pairs.
fn read_metadata(
    column: &[u8],
    big: bool,
    entries: &mut [u32],
    spare: &mut [u32],
) -> Result<Metadata, Refusal>
    requires { HasBlock column.now entries.old spare.old }
    ensures { ReadsAs big (metadata_of big column.now) (text_in column.now) entries.new result }
{
    if buffer::same(column, b"~") {
        return Ok(Metadata {
            count: 0,
            name: 0,
            more: 0,
        });
    }
    metadata::metadata_from_bytes(schema_line::text_of(column), big, entries, spare)
}

// The same, unless the name is refused: the metadata's refusal comes before the name's.
pub fn read_own(
    name: &[u8],
    column: &[u8],
    big: bool,
    entries: &mut [u32],
    spare: &mut [u32],
) -> Result<Metadata, Refusal>
    requires { IsText name.now × HasBlock column.now entries.old spare.old }
    ensures { ReadsAs big (own_answer big name.now column.now) (text_in column.now) entries.new result }
{
    let d = read_metadata(column, big, entries, spare)?;
    if utf8::is_utf8_hex(schema_line::text_of(name)) {
        return Ok(d);
    }
    Err(Refusal::NotUtf8)
}
