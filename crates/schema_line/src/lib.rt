// A line of a schema sheet: its columns as parts of the sheet, the text of a column, and its flags.
#![tactic(auto)]

pub mod read;

ghost use Rattle.std.specs.Prelude.{◌≡◌};
ghost use Rattle.sheets.specs.Flags.{is_ordered, nullable, is_sorted};
ghost use Rattle.schema_line.specs.Texts.{text_in};

use columns::Part;

// `format name flags metadata children dictionary`; `end` is the place after the line's byte 10.
#[derive(Clone, Copy)]
pub struct SchemaLine {
    pub format: Part,
    pub name: Part,
    pub flags: i64,
    pub metadata: Part,
    pub children: u64,
    pub dictionary: u64,
    pub end: usize,
}

impl SchemaLine {
    pub const ORDERED: i64 = 1;

    pub const NULLABLE: i64 = 2;

    pub const SORTED: i64 = 4;

    // The dictionary's values are ordered.
    pub fn ordered(self) -> bool
        ensures { result ≡ is_ordered self.flags }
    {
        let flags = self.flags;
        flags & Self::ORDERED != 0
    }

    // The field may hold nulls. By bit, where the source divides: negative flags are read in two's complement.
    pub fn nullable(self) -> bool
        ensures { result ≡ nullable self.flags }
    {
        let flags = self.flags;
        flags & Self::NULLABLE != 0
    }

    // The map's keys are sorted.
    pub fn sorted(self) -> bool
        ensures { result ≡ is_sorted self.flags }
    {
        let flags = self.flags;
        flags & Self::SORTED != 0
    }
}

// The hexadecimal text of a text's column: none for `~` and `-`.
pub fn text_of(column: &[u8]) -> &[u8]
    ensures { result.now ≡ text_in column.now }
{
    if column.len() == 1 {
        return &column[1..];
    }
    column
}
