// The program's arguments: the call's name, then its index or place, if it takes one.
use crate::call::Call;
use std::env::Env;
use std::io;
use std::io::Write;

// A number of 64 bits has no more digits.
const DIGITS: usize = 20;

fn complain<W: Write>(err: &mut W, name: &[u8], what: &[u8]) -> io::Result<Option<(Call, u64)>> {
    err.write_all(b"mapping: ")?;
    err.write_all(name)?;
    err.write_all(what)?;
    err.write_all(b"\n")?;
    Ok(None)
}

// The second argument as a number; one that is longer than a number can be is none.
fn index_word<E: Env>(env: &E) -> Option<u64> {
    let mut word = [0u8; DIGITS];
    let n = streams::argument(env, 2, &mut word);
    decimal::read_u64(&word[..n])
}

fn with_index<E: Env, W: Write>(
    env: &E,
    err: &mut W,
    call: Call,
    name: &[u8],
) -> io::Result<Option<(Call, u64)>> {
    if !streams::has_argument(env, 2) {
        return complain(err, name, b" needs an index or a place");
    }
    match index_word(env) {
        Some(index) => Ok(Some((call, index))),
        None => complain(
            err,
            name,
            b": the index is no number from 0 to 18446744073709551615",
        ),
    }
}

fn without_index<E: Env, W: Write>(
    env: &E,
    err: &mut W,
    call: Call,
    name: &[u8],
) -> io::Result<Option<(Call, u64)>> {
    if streams::has_argument(env, 2) {
        return complain(err, name, b" takes no index");
    }
    Ok(Some((call, 0)))
}

fn asked_by<E: Env, W: Write>(
    env: &E,
    err: &mut W,
    name: &[u8],
) -> io::Result<Option<(Call, u64)>> {
    let Some(call) = crate::call::call_named(name) else {
        return complain(err, name, b" is no mapping and no conversion");
    };
    if crate::call::takes_index(call) {
        return with_index(env, err, call, name);
    }
    without_index(env, err, call, name)
}

// The call that the arguments ask for, with its index, 0 where it takes none; or nothing, of which a line was written to standard error. The program's own name is at place 0.
pub fn ask_words<E: Env, W: Write>(env: &E, err: &mut W) -> io::Result<Option<(Call, u64)>> {
    let mut word = [0u8; streams::LONGEST_WORD];
    let n = streams::argument(env, 1, &mut word);
    if !streams::has_argument(env, 1) {
        return complain(err, b"usage", b": mapping CALL [INDEX]");
    }
    if streams::has_argument(env, 3) {
        return complain(err, b"usage", b": mapping CALL [INDEX]");
    }
    asked_by(env, err, &word[..n])
}
