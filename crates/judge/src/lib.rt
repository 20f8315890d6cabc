// An answer held against the recorded one. Before a call that writes a sheet the lent buffer was filled with a byte that no sheet has. A sheet is lent
// as `&[u8]`: that it is unchanged needs no test.
#![tactic(auto)]

pub mod print;
pub mod tally;

ghost use Rattle.std.specs.Prelude.{◌≡◌, ◌-◌, ◌++◌, length, replicate, Some};
ghost use Rattle.sheets.specs.Bytes.{same};
ghost use Rattle.outcome.specs.Answers.{numbers_outcome};
ghost use Rattle.judge.specs.Judging.{recorded, difference, answers_numbers, recorded_numbers, numbers_difference};

use recorded_list::call;
use recorded_list::records::Header;

pub const FILLER: u8 = 165;

// What a record has of an answer besides a sheet: the number, the length or the first value, and the second value.
#[derive(Clone, Copy)]
pub struct Numbers {
    pub number: u64,
    pub first: u64,
    pub second: u64,
}

pub fn fill(out: &mut [u8], b: u8)
    ensures { out.new ≡ replicate (length out.old) b }
{
    out.fill(b);
}

fn all_are(s: &[u8], b: u8) -> bool
    ensures { result ≡ same s.now (replicate (length s.now) b) }
{
    s.iter().all(|&x| x == b)
}

// Whether s is x and then b up to its end.
fn is_then(s: &[u8], x: &[u8], b: u8) -> bool
    ensures { result ≡ same s.now (x.now ++ replicate (length s.now - length x.now) b) }
{
    match s.strip_prefix(x) {
        Some(rest) => all_are(rest, b),
        None => false,
    }
}

fn differs(number: u64, size: u64) -> Option<Numbers>
    ensures { result ≡ Some (record { number = number; first = size; second = 0 }) }
{
    Some(Numbers {
        number,
        first: size,
        second: 0,
    })
}

// What came, if an answer, with the buffer after it, is not the recorded one.
pub fn judge(number: u64, size: u64, h: Header, output: &[u8], lent: &[u8]) -> Option<Numbers>
    ensures { result ≡ difference (numbers_outcome number size lent.now) (recorded h output.now (length lent.now)) }
{
    if number != h.number {
        return differs(number, size);
    }
    if size != h.first {
        return differs(number, size);
    }
    if number != 0 {
        if all_are(lent, 0) {
            return None;
        }
        return differs(number, size);
    }
    if is_then(lent, output, FILLER) {
        return None;
    }
    differs(number, size)
}

// Whether the call answers numbers and writes no sheet.
pub fn answers_numbers(code: u64) -> bool
    ensures { result ≡ answers_numbers code }
{
    if code == call::TO_PHYSICAL_TYPE {
        return true;
    }
    if code == call::IS_NESTED {
        return true;
    }
    if code == call::CONTAINS_DICTIONARY {
        return true;
    }
    if code == call::MEASURE_IMPORT {
        return true;
    }
    code == call::MEASURE_EXPORT
}

// The numbers that came, if they are not the recorded ones.
pub fn judge_numbers(came: Numbers, h: Header) -> Option<Numbers>
    ensures { result ≡ numbers_difference came (recorded_numbers h) }
{
    if came.number != h.number {
        return Some(came);
    }
    if came.first != h.first {
        return Some(came);
    }
    if came.second != h.second {
        return Some(came);
    }
    None
}
