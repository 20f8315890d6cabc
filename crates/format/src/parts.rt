// The parts of a format. Places are of bytes, two digits each.
ghost use Rattle.std.specs.Prelude.{◌≡◌, true, ◌+◌, drop};
ghost use Rattle.hexadecimal.specs.Hex.{is_hex, bytes_of};
ghost use Rattle.sheets.specs.Parts.{bytes_before};
ghost use Rattle.format.specs.Parts.{HasPart, IsPartText};

// The place of the first byte from `from` on that is b, or the end.
pub fn place_of(f: &[u8], from: usize, b: u8) -> usize
    requires { is_hex f.now ≡ true }
    ensures { result ≡ from + bytes_before b (drop from (bytes_of f.now)) }
{
    let n = f.len() / 2;
    for k in from..n {
        if hexadecimal::byte_at(f, k) == b {
            return k;
        }
    }
    from.max(n)
}

// The text of the bytes from `from` on and before `to`.
pub fn part_of(f: &[u8], from: usize, to: usize) -> &[u8]
    requires { HasPart f.now from to }
    ensures { IsPartText f.now from to result.now }
{
    let a = 2 * from;
    let e = 2 * to;
    &f[a..e]
}
