// The last argument of the programs that read or write metadata: `little` or `big`, the order of its count and lengths. Without it they are little-endian.
#![tactic(auto)]

ghost use Rattle.std.specs.Prelude.{◌≡◌, IfOk};
ghost use Rattle.std.specs.Io.KnownBytes.{Appends};
ghost use Rattle.endian_word.specs.Words.{order_named, usage_line};

use std::env::Env;
use std::io;
use std::io::Write;

// Whether the order of this name is big-endian.
fn named(word: &[u8]) -> Option<bool>
    ensures { result ≡ order_named word.now }
{
    if buffer::same(word, b"little") {
        return Some(false);
    }
    if buffer::same(word, b"big") {
        return Some(true);
    }
    None
}

// What the argument at a place asks, behind which there may be no other; the program's own name is at place 0.
pub fn order_at<E: Env>(env: &E, place: usize) -> Option<bool> {
    if !streams::has_argument(env, place) {
        return Some(false);
    }
    if streams::has_argument(env, place.saturating_add(1)) {
        return None;
    }
    let mut word = [0u8; streams::LONGEST_WORD];
    let n = streams::argument(env, place, &mut word);
    named(&word[..n])
}

// What the arguments of this program ask, which takes no other; if nothing, a line is written to err.
pub fn asked_order<E: Env, W: Write>(
    env: &E,
    err: &mut W,
    program: &[u8],
) -> io::Result<Option<bool>>
    ensures { IfOk result (λ a. Appends (W.contents err.old) (W.contents err.new) (usage_line a program.now)) }
{
    let asked = order_at(env, 1);
    if let None = asked {
        err.write_all(b"usage: ")?;
        err.write_all(program)?;
        err.write_all(b" [little|big]\n")?;
    }
    Ok(asked)
}
