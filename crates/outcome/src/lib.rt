// What a call that answers a sheet tells its caller, once for all of them: the sheet's length, or why there is none; and the size that a call tells that
// measures such a sheet.
#![tactic(auto)]

ghost use Rattle.std.specs.Prelude.{◌≡◌};
ghost use Rattle.sheets.specs.Refusal.{number_of};
ghost use Rattle.sheets.specs.Outcome.{refusal};
ghost use Rattle.refusal.specs.Refusals.{refusal_of};
ghost use Rattle.outcome.specs.Answers.{refused_number, outcome_of, Tells};

use refusal::Refusal;

// How many bytes an answer has, whether they fit or not, and how many lines of the sheet were visited for it.
#[derive(Drop)]
pub struct Size {
    pub len: usize,
    pub lines: usize,
}

// Why a call answers no sheet: the sheet is refused for a reason of its own, or what is answered is longer than the buffer.
#[derive(Drop)]
pub enum Refused {
    Sheet(Refusal),
    NoRoom,
}

impl Refused {
    pub fn number(self) -> u8
        ensures { result ≡ refused_number self }
    {
        match self {
            Refused::Sheet(reason) => reason.number(),
            Refused::NoRoom => refusal::NO_ROOM,
        }
    }
}

// The sheet is refused for this reason: the buffer is cleared.
pub fn refuse(out: &mut [u8], reason: Refusal) -> Result<usize, Refused>
    ensures { outcome_of result out.new ≡ refusal (number_of (refusal_of reason)) out.old }
{
    buffer::clear(out);
    Err(Refused::Sheet(reason))
}

// A sheet of `len` bytes has been written over out as far as it fits: its length, or there is no room for it, and the buffer is cleared.
pub fn written(out: &mut [u8], len: usize) -> Result<usize, Refused>
    ensures { Tells out.old len result out.new }
{
    if out.len() < len {
        buffer::clear(out);
        return Err(Refused::NoRoom);
    }
    Ok(len)
}
