// The columns `name nullable` of a field line, from a schema's name column.
ghost use Rattle.std.specs.Prelude.{◌≡◌, ◌+◌, length};
ghost use Rattle.sheets.specs.Number.{decimal};
ghost use Rattle.sheets.specs.FieldSheet.{to_nat};
ghost use Rattle.buffer.specs.Over.{IsUsize, PutAt};
ghost use Rattle.field_line.specs.Columns.{column};
ghost use Rattle.node.specs.Names.{name_column, name_piece};

// A column as it stands, and a space.
fn put_column(out: &mut [u8], at: usize, text: &[u8]) -> usize
    requires { IsUsize (at + (1 + length text.now)) }
    ensures { PutAt at (column text.now) result out.old out.new }
{
    let end = buffer::put_at(out, at, text);
    buffer::put_byte(out, end, b' ')
}

// A field's name from a schema's name column: a null name is written as an empty one.
fn put_name_column(out: &mut [u8], at: usize, name: &[u8]) -> usize
    requires { IsUsize (at + (1 + length name.now)) }
    ensures { PutAt at (column (name_column name.now)) result out.old out.new }
{
    if buffer::same(name, b"~") {
        return buffer::put_at(out, at, b"- ");
    }
    put_column(out, at, name)
}

// `nullable`, 0 or 1.
fn put_flag(out: &mut [u8], at: usize, flag: bool) -> usize
    requires { IsUsize (at + 2) }
    ensures { PutAt at (column (decimal (to_nat flag))) result out.old out.new }
{
    if flag {
        return buffer::put_at(out, at, b"1 ");
    }
    buffer::put_at(out, at, b"0 ")
}

// The columns `name nullable` from a schema's name column; the pairs are left to the caller.
pub fn put_name(out: &mut [u8], at: usize, name: &[u8], nullable: bool) -> usize
    requires { IsUsize (at + (3 + length name.now)) }
    ensures { PutAt at (name_piece name.now nullable) result out.old out.new }
{
    let end = put_name_column(out, at, name);
    put_flag(out, end, nullable)
}
