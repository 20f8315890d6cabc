// A pair of a metadata block, read and tested in place over the block's hexadecimal text; its lengths are big-endian (`big`) or not.
ghost use Rattle.std.specs.Prelude.{◌≡◌};
ghost use Rattle.hexadecimal.specs.Hex.{bytes_of};
ghost use Rattle.metadata.specs.PairReading.{BlockPlace, KeyIn, text_size, pair_places};
ghost use Rattle.refusal.specs.Refusals.{answer_of};

use refusal::Refusal;

// How many bytes the text has whose length stands at byte k: "A length is tested for sign, then extent, then text". A negative length is more than any block has room for, so that one test is for sign and extent:
// both are refused for the same reason.
fn read_text(m: &[u8], k: usize, big: bool) -> Result<usize, Refusal>
    requires { BlockPlace m.now k }
    ensures { answer_of result ≡ text_size big (bytes_of m.now) k }
{
    let room = m.len() - 2 * k;
    if room < 8 {
        return Err(Refusal::BadMetadata);
    }
    let n = endian::word_at(m, k, big) as usize;
    if (room - 8) / 2 < n {
        return Err(Refusal::BadMetadata); // a negative length, or one past the end
    }
    let start = 2 * k + 8;
    let end = start + 2 * n;
    if utf8::is_utf8_hex(&m[start..end]) {
        return Ok(n);
    }
    Err(Refusal::NotUtf8)
}

// The bytes of the key, n, and the place after the value, for a key from byte k on.
fn read_value(m: &[u8], k: usize, n: usize, big: bool) -> Result<(usize, usize), Refusal>
    requires { KeyIn big m.now k n }
    ensures { answer_of result ≡ pair_places big (bytes_of m.now) k }
{
    let at = k + 4 + n;
    let size = read_text(m, at, big)?;
    Ok((n, at + 4 + size))
}

pub fn read_pair(m: &[u8], k: usize, big: bool) -> Result<(usize, usize), Refusal>
    requires { BlockPlace m.now k }
    ensures { answer_of result ≡ pair_places big (bytes_of m.now) k }
{
    let n = read_text(m, k, big)?;
    read_value(m, k, n, big)
}
