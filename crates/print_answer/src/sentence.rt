// Why a sheet is refused and whose it is, in the words of README.md: one line on standard error.
use std::io;
use std::io::Write;

// The numbers of the refusals, by the names of crates/refusal.
const NOT_SHEET: u8 = 1;

const BAD_LINES: u8 = 2;

const TOO_DEEP: u8 = 3;

const NULL_FORMAT: u8 = 4;

const NOT_UTF8: u8 = 5;

const UNSUPPORTED_FORMAT: u8 = 6;

const BAD_NUMBER: u8 = 7;

const BAD_DECIMAL: u8 = 8;

const BAD_INDEX: u8 = 9;

const NO_CHILD: u8 = 10;

const BAD_METADATA: u8 = 11;

const NO_FORMAT: u8 = 12;

const NO_UNION_IDS: u8 = 13;

const ZERO_BYTE: u8 = 14;

const UNDEFINED_MAPPING: u8 = 15;

const NO_ROOM: u8 = 16;

const RESERVED_KEY: u8 = 17;

const WIDE_INDEX: u8 = 18;

// `NOT_SHEET` to `TOO_DEEP`.
fn say_maker<E: Write>(err: &mut E, number: u8) -> io::Result<()> {
    match number {
        NOT_SHEET => err.write_all(
            b"the sheet has over 65,535 bytes, a wrong heading, or no byte 10 after it",
        )?,
        BAD_LINES => err.write_all(b"a line breaks its rules, or lines are missing or left over")?,
        _ => err.write_all(b"the sheet has over 32 levels")?,
    }
    err.write_all(b" (the sheet's maker)\n")
}

// `NULL_FORMAT` to `BAD_METADATA`.
fn say_producer<E: Write>(err: &mut E, number: u8) -> io::Result<()> {
    match number {
        NULL_FORMAT => err.write_all(b"a format is null")?,
        NOT_UTF8 => err.write_all(b"a format, a name or a metadata text is not UTF-8")?,
        UNSUPPORTED_FORMAT => err.write_all(b"a format is unsupported")?,
        BAD_NUMBER => err.write_all(b"a number in a format is bad")?,
        BAD_DECIMAL => err.write_all(b"a decimal does not have 2 or 3 parts")?,
        BAD_INDEX => err.write_all(b"a dictionary's index format is outside `c C s S i I l L`")?,
        NO_CHILD => err.write_all(b"a needed child is absent")?,
        _ => err.write_all(b"metadata is cut short or has a negative length")?,
    }
    err.write_all(b" (the schema's producer)\n")
}

// `NO_FORMAT` to `UNDEFINED_MAPPING`, `RESERVED_KEY` and `WIDE_INDEX`.
fn say_owner<E: Write>(err: &mut E, number: u8) -> io::Result<()> {
    match number {
        NO_FORMAT => err.write_all(
            b"a type has no format: Time32 in micro- or nanoseconds, Time64 in seconds or milliseconds, MonthDayMillis or Unknown",
        )?,
        NO_UNION_IDS => err.write_all(b"the ids of a union are `-`, or `~` over no fields")?,
        ZERO_BYTE => err.write_all(b"byte 00 stands in a line's name or timezone")?,
        RESERVED_KEY => err.write_all(
            b"a reserved key, ARROW:extension:name or ARROW:extension:metadata, stands among the pairs of a line",
        )?,
        WIDE_INDEX => err.write_all(b"a dictionary has an index of 128 bits")?,
        _ => err.write_all(
            b"the mapping is undefined there, there is no such child (`inner_dtype` of other kinds too), or no such place to convert",
        )?,
    }
    err.write_all(b" (the field's owner)\n")
}

// `NO_ROOM`.
fn say_caller<E: Write>(err: &mut E) -> io::Result<()> {
    err.write_all(b"the sheet is longer than the buffer")?;
    err.write_all(b" (the caller)\n")
}

// Says nothing of a number that is no refusal's. Up to `NO_ROOM` the numbers stand by whose the refusal is; those that came later are the owner's.
pub fn say<E: Write>(err: &mut E, number: u8) -> io::Result<()> {
    if number == 0 {
        return Ok(());
    }
    if number <= TOO_DEEP {
        return say_maker(err, number);
    }
    if number <= BAD_METADATA {
        return say_producer(err, number);
    }
    if number <= UNDEFINED_MAPPING {
        return say_owner(err, number);
    }
    if number == NO_ROOM {
        return say_caller(err);
    }
    if number <= WIDE_INDEX {
        return say_owner(err, number);
    }
    Ok(())
}
