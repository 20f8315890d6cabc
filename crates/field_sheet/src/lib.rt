// The reader of field sheets: heading, form and levels of the whole sheet, and what a strict export asks of it.
#![tactic(auto)]

pub mod levels;
pub mod strict;
pub mod subtrees;
pub mod trees;

ghost use Rattle.std.specs.Prelude.{◌≡◌};
ghost use Rattle.sheets.specs.FieldSheet.{field_heading};
ghost use Rattle.sheets.specs.Sheet.{is_headed};
ghost use Rattle.field_sheet.specs.Sheets.{sheet_body, body_as};
ghost use Rattle.refusal.specs.Refusals.{answer_of};

use crate::trees::NoTree;
use refusal::Refusal;

// A sheet has at most so many bytes.
const SHEET_LIMIT: usize = 65535;

// A tree has at most so many levels.
pub const LEVELS: usize = 32;

// The heading and its byte 10 have so many bytes.
const HEADING: usize = 48;

// Whether the sheet begins with the heading and its byte 10.
fn has_heading(s: &[u8]) -> bool
    ensures { result ≡ is_headed field_heading s.now }
{
    let heading = b"kind p q text more name nullable pairs children\n";
    if s.len() < heading.len() {
        return false;
    }
    buffer::same(&s[..heading.len()], heading)
}

// 1, 2 and 3 over the whole sheet in that order; where the reading is strict, then what a strict export asks of the lines. The place of the first line, or why
// the sheet is refused.
pub fn read_as(s: &[u8], strict: bool) -> Result<usize, Refusal>
    ensures { answer_of result ≡ body_as strict s.now }
{
    if SHEET_LIMIT < s.len() {
        return Err(Refusal::NotSheet);
    }
    if !has_heading(s) {
        return Err(Refusal::NotSheet);
    }
    match crate::trees::read_tree(s, HEADING, false, false, LEVELS, strict) {
        Err(NoTree::Bad) => Err(Refusal::BadLines),
        // 2 comes before 3, wherever in the sheet it is
        Err(NoTree::Deep) => {
            if crate::trees::form(s, HEADING) {
                return Err(Refusal::TooDeep);
            }
            Err(Refusal::BadLines)
        }
        Ok(end) => {
            if end < s.len() {
                return Err(Refusal::BadLines);
            }
            Ok(HEADING)
        }
        // 2 and 3 come before, wherever in the sheet they are
        Err(NoTree::Held(r)) => {
            if !crate::trees::form(s, HEADING) {
                return Err(Refusal::BadLines);
            }
            match crate::subtrees::skip(s, HEADING, false, LEVELS) {
                None => Err(Refusal::TooDeep),
                Some(_) => Err(r),
            }
        }
    }
}

// 1, 2 and 3 over the whole sheet in that order.
pub fn read_sheet(s: &[u8]) -> Result<usize, Refusal>
    ensures { answer_of result ≡ sheet_body s.now }
{
    read_as(s, false)
}
