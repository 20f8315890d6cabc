// A text's column of a field line: what it says, and whether byte 00 stands in it.
#![tactic(auto)]

ghost use Rattle.std.specs.Prelude.{◌≡◌};
ghost use Rattle.sheets.specs.Format.{or_empty};
ghost use Rattle.column_text.specs.ColumnText.{column_text, has_zero, TextColumn};

// Whether byte 00 stands in the text of a column; there is none in `~` and `-`. Nothing is decoded.
pub fn has_zero(column: &[u8]) -> bool
    requires { TextColumn column.now }
    ensures { result ≡ has_zero (or_empty (column_text column.now)) }
{
    let text = schema_line::text_of(column);
    !columns::text::lacks_zero(text)
}
