// The hexadecimal digits of one byte, and of two, three and four, as one number, the first digit lowest.
ghost use Rattle.std.specs.Prelude.{◌≡◌, [], ◌∷◌, ◌<◌};
ghost use Rattle.sheets.specs.Text.{hex};
ghost use Rattle.sheets.specs.Metadata.{little_value};
ghost use Rattle.words.specs.Words.{WordOf};

// The byte's two digits; with the byte known, a constant.
pub fn pair_of(b: u8) -> u64
    ensures { (result ≡ little_value (hex (b ∷ []))) × (result < 65536) }
{
    let high = hexadecimal::put::digit_of(b / 16);
    let low = hexadecimal::put::digit_of(b % 16);
    buffer::wide(high) + buffer::wide(low) * 256
}

// The digits of two bytes, of three, of four; with the bytes known, a constant.
pub fn two_pairs(a: u8, b: u8) -> u64
    ensures { WordOf (hex (a ∷ b ∷ [])) result }
{
    pair_of(a) + pair_of(b) * 65536
}

pub fn three_pairs(a: u8, b: u8, c: u8) -> u64
    ensures { WordOf (hex (a ∷ b ∷ c ∷ [])) result }
{
    pair_of(a) + pair_of(b) * 65536 + pair_of(c) * 4294967296
}

pub fn four_pairs(a: u8, b: u8, c: u8, d: u8) -> u64
    ensures { WordOf (hex (a ∷ b ∷ c ∷ d ∷ [])) result }
{
    pair_of(a) + pair_of(b) * 65536 + pair_of(c) * 4294967296 + pair_of(d) * 281474976710656
}
