// The calls that map a type and answer numbers, and the conversions of a type's place into a sheet.
#![tactic(auto)]

pub mod conversions;
pub mod dictionaries;
pub mod physical;

ghost use Rattle.std.specs.Prelude.{◌≡◌};
ghost use Rattle.sheets.specs.Outcome.{is_nested_outcome, contains_dictionary_outcome};
ghost use Rattle.mapping_calls.specs.Answers.{yes_no_of, nesting_nested};

use nesting::Nesting;
use refusal::Refusal;
use walks::Subtree;

// Whether a type holds others.
fn holds_types(n: Nesting) -> bool
    ensures { result ≡ nesting_nested n }
{
    match n {
        Nesting::Nothing => false,
        Nesting::List => true,
        Nesting::Map => true,
        Nesting::Fields => true,
        Nesting::Dictionary => true,
        Nesting::Extension => true,
    }
}

// `is_nested` of the field's type, which its first line tells.
pub fn is_nested(s: &[u8]) -> Result<bool, Refusal>
    ensures { yes_no_of result ≡ is_nested_outcome s.now }
{
    let at = field_sheet::read_sheet(s)?;
    let l = read_field_line::field_line_at(s, at);
    Ok(holds_types(nesting::nesting_of(l.kind)))
}

// `contains_dictionary` of the field's type: the lines are looked at up to the first dictionary.
pub fn contains_dictionary(s: &[u8]) -> Result<bool, Refusal>
    ensures { yes_no_of result ≡ contains_dictionary_outcome s.now }
{
    let at = field_sheet::read_sheet(s)?;
    let tree = Subtree {
        at,
        levels: field_sheet::LEVELS,
        inside: false,
    };
    match crate::dictionaries::search_type(s, tree) {
        None => Ok(true),
        Some(_) => Ok(false),
    }
}
