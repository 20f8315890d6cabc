// One digit more: the step of every loop that reads a decimal number.
ghost use Rattle.std.specs.Prelude.{◌≡◌, ◌+◌};
ghost use Rattle.decimal.specs.Digits.{digit_after};

// The number that the digit b makes of the digits before it, whose value is v, if it is at most max.
pub fn after(v: u64, b: u8, max: u64) -> Option<u64>
    ensures { result ≡ digit_after (max + 1) v b }
{
    if b < b'0' {
        return None;
    }
    if b'9' < b {
        return None;
    }
    let d = (b - b'0') as u64;
    if max / 10 < v {
        return None;
    }
    if max - v * 10 < d {
        return None;
    }
    Some(v * 10 + d)
}
