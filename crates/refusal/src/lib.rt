// Why a sheet is refused (document 01, 'Who is turned back', and the requests of document 02): the reasons by name, and the number of each.
#![tactic(auto)]

ghost use Rattle.std.specs.Prelude.{◌≡◌};
ghost use Rattle.sheets.specs.Refusal.{number_of};
ghost use Rattle.refusal.specs.Refusals.{refusal_of};

#[derive(Drop)]
pub enum Refusal {
    NotSheet = 1,
    BadLines = 2,
    TooDeep = 3,
    NullFormat = 4,
    NotUtf8 = 5,
    UnsupportedFormat = 6,
    BadNumber = 7,
    BadDecimal = 8,
    BadIndex = 9,
    NoChild = 10,
    BadMetadata = 11,
    NoFormat = 12,
    NoUnionIds = 13,
    ZeroByte = 14,
    UndefinedMapping = 15,
    ReservedKey = 17,
    WideIndex = 18,
}

// The caller's: the sheet is longer than the buffer. It is no reason of a sheet's, so it is no case of `Refusal`; it is tried last,
// though it is not the greatest number.
pub const NO_ROOM: u8 = 16;

impl Refusal {
    pub fn number(self) -> u8
        ensures { result ≡ number_of (refusal_of self) }
    {
        self as u8
    }
}
