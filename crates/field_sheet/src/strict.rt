// What a strict export asks of a line: no reserved key among its pairs, no dictionary index of 128 bits.
ghost use Rattle.std.specs.Prelude.{◌≡◌, ◌≤◌, length};
ghost use Rattle.sheets.specs.Sheet.{sheet_limit};
ghost use Rattle.field_sheet.specs.Strict.{is_wide, LineShown, LineTested};

use datatypes::kind;
use read_field_line::FieldLine;
use refusal::Refusal;

// The places of the index types Int128 and UInt128 in `IntegerType`.
const INT128: u64 = 4;

const UINT128: u64 = 9;

// Whether the line's column `p` is an index of 128 bits. Int128 and UInt128 as types have kinds of their own.
fn is_wide(kind: u64, p: u64) -> bool
    ensures { result ≡ is_wide kind p }
{
    if kind != kind::DICTIONARY {
        return false;
    }
    (p == INT128) | (p == UINT128)
}

// The key first. Nothing is asked of the line where the reading is not strict.
pub fn line_returns(s: &[u8], l: FieldLine, strict: bool) -> Result<(), Refusal>
    requires s_len_bound { length s.now ≤ sheet_limit }
    requires line_shown { LineShown s.now l }
    ensures { LineTested strict s.now l result }
{
    if !strict {
        return Ok(());
    }
    let pairs = l.pairs;
    let start = pairs.start;
    let end = pairs.end;
    let reserved = field_pairs::has_reserved(&s[start..end]);
    let wide = is_wide(l.kind, l.p);
    if reserved {
        return Err(Refusal::ReservedKey);
    }
    if wide {
        return Err(Refusal::WideIndex);
    }
    Ok(())
}
