// Replays the recorded list of answers (differential/ANSWERS.md) that stands on standard input. Prints for each call how many records were
// replayed and how many differ, and in full the first that does; or at which record the list is malformed. Records are counted from 0.
#![tactic(auto)]

ghost use Rattle.std.specs.Prelude.{◌≡◌, length, IfOk};
ghost use Rattle.outcome.specs.Answers.{outcome_of, measure_of};
ghost use Rattle.mapping_calls.specs.Answers.{places_of, yes_no_of};
ghost use Rattle.recorded_list.specs.Answers.{record_in};
ghost use Rattle.recorded_list.specs.Moving.{longest_part, Within};
ghost use Rattle.judge.specs.Judging.{filled, recorded, difference, sheet_outcome, places_numbers, yes_no_numbers, measure_numbers, numbers_outcome, replayed};
ghost use Rattle.replay.specs.Turns.{longest_buffer, record_of, Lendable, proper, turn_option, ReplaysNext};

use judge::Numbers;
use judge::tally::COUNTS;
use mapping_calls::physical::PhysicalPlaces;
use outcome::{Refused, Size};
use recorded_list::call;
use recorded_list::records::Header;
use recorded_list::window::{LONGEST_PART, Window};
use refusal::Refusal;
use std::io;
use std::io::{Read, Write};

// The longest buffer that a record lends. It is longer than the text of any record, so a window of so many bytes holds one.
const LONGEST_BUFFER: usize = 1048576;

// What is still to be read after a record, its call, and what is told of it.
#[derive(Drop)]
struct Turn {
    rest: Window,
    call: u64,
    told: Option<Numbers>,
}

// A buffer for the window, or to be lent. Its length is all that is told of it: its bytes are written before they are read.
fn long_buffer() -> [u8; LONGEST_BUFFER]
    ensures { longest_buffer ≡ length result }
{
    [0; LONGEST_BUFFER]
}

// A buffer for a part of a record.
fn part_buffer() -> [u8; LONGEST_PART]
    ensures { longest_part ≡ length result }
{
    [0; LONGEST_PART]
}

// The answer of a call that writes a sheet. The last one has the code that is left.
fn ask(code: u64, argument: u64, s: &[u8], out: &mut [u8]) -> Result<usize, Refused>
    ensures { outcome_of result out.new ≡ sheet_outcome code argument s.now out.old }
{
    match code {
        call::IMPORT => import_sheet::import(s, argument != 0, out),
        call::EXPORT => field_calls::export(s, argument != 0, out),
        call::PLAIN => field_calls::plain_form(s, out),
        call::UNDERLYING_PHYSICAL_TYPE => field_calls::underlying_physical_type(s, out),
        call::TO_STORAGE => picked_types::to_storage(s, out),
        call::TO_STORAGE_RECURSIVE => field_calls::to_storage_recursive(s, out),
        call::INNER_DTYPE => picked_types::inner_dtype(s, out),
        call::GET_CHILD => picked_types::get_child(s, argument, out),
        call::PAGE => field_calls::page(s, out),
        call::STRICT_EXPORT => field_calls::strict_export(s, argument != 0, out),
        call::FROM_INTEGER_TYPE => mapping_calls::conversions::from_integer_type(argument, out),
        _ => mapping_calls::conversions::from_primitive_type(argument, out),
    }
}

// Such a call replayed on a filled buffer.
fn replay_sheet(h: Header, input: &[u8], output: &[u8], lent: &mut [u8]) -> Option<Numbers>
    ensures { result ≡ difference (sheet_outcome h.call h.argument input.now (filled (length lent.old))) (recorded h output.now (length lent.old)) }
{
    judge::fill(lent, judge::FILLER);
    match ask(h.call, h.argument, input, lent) {
        Ok(length) => judge::judge(0, length as u64, h, output, lent),
        Err(refused) => judge::judge(refused.number() as u64, 0, h, output, lent),
    }
}

fn physical_numbers(p: PhysicalPlaces) -> Numbers
    ensures { result ≡ places_numbers (places_of p) }
{
    Numbers {
        number: p.number as u64,
        first: p.place,
        second: p.inner,
    }
}

fn yes_no_numbers(y: Result<bool, Refusal>) -> Numbers
    ensures { result ≡ yes_no_numbers (yes_no_of y) }
{
    match y {
        Ok(yes) => Numbers {
            number: 0,
            first: yes as u64,
            second: 0,
        },
        Err(reason) => Numbers {
            number: reason.number() as u64,
            first: 0,
            second: 0,
        },
    }
}

fn measure_numbers(m: Result<Size, Refusal>) -> Numbers
    ensures { result ≡ measure_numbers (measure_of m) }
{
    match m {
        Ok(size) => Numbers {
            number: 0,
            first: size.len as u64,
            second: size.lines as u64,
        },
        Err(reason) => Numbers {
            number: reason.number() as u64,
            first: 0,
            second: 0,
        },
    }
}

// The answer of a call that answers numbers. The last one has the code that is left.
fn ask_numbers(code: u64, argument: u64, s: &[u8]) -> Numbers
    ensures { result ≡ numbers_outcome code argument s.now }
{
    match code {
        call::TO_PHYSICAL_TYPE => {
            physical_numbers(PhysicalPlaces::of(mapping_calls::physical::to_physical_type(s)))
        }
        call::IS_NESTED => yes_no_numbers(mapping_calls::is_nested(s)),
        call::CONTAINS_DICTIONARY => yes_no_numbers(mapping_calls::contains_dictionary(s)),
        call::MEASURE_IMPORT => measure_numbers(import_sheet::measure_import(s, argument != 0)),
        _ => measure_numbers(field_calls::measure_export(s, argument != 0)),
    }
}

// A record of one of the calls replayed.
fn replay(h: Header, input: &[u8], output: &[u8], lent: &mut [u8]) -> Option<Numbers>
    ensures { result ≡ replayed (length lent.old) (record_of h input.now output.now) }
{
    if judge::answers_numbers(h.call) {
        return judge::judge_numbers(ask_numbers(h.call, h.argument, input), h);
    }
    replay_sheet(h, input, output, lent)
}

// Replays a record whose parts stand in the first bytes of input and output; a difference is printed unless one was told before.
fn replay_record<W: Write>(
    out: &mut W,
    place: u64,
    told: bool,
    h: Header,
    input: &[u8],
    output: &[u8],
) -> io::Result<Option<Numbers>>
    requires { Lendable h (length input.now) (length output.now) }
    ensures { IfOk result (λ r. r ≡ replayed h.room (record_in input.now output.now h)) }
{
    let mut lent = long_buffer();
    let i = h.input as usize;
    let o = h.output as usize;
    let room = h.room as usize;
    let r = replay(h, &input[..i], &output[..o], &mut lent[..room]);
    if !told {
        judge::print::difference(out, place, h, &output[..o], r, &lent[..room])?;
    }
    Ok(r)
}

// Whether there is such a call, and no longer buffer is lent than there may be.
fn is_proper(h: Header) -> bool
    ensures { result ≡ proper h }
{
    if call::CALLS as u64 <= h.call {
        return false;
    }
    h.room as usize <= LONGEST_BUFFER
}

// Reads and replays the next record of the list, if there is one that can be replayed.
fn replay_next<R: Read, W: Write>(
    source: &mut R,
    out: &mut W,
    place: u64,
    told: bool,
    before: Window,
    text: &mut [u8],
    input: &mut [u8],
    output: &mut [u8],
) -> io::Result<Option<Turn>>
    requires { Within before (length text.old) }
    ensures { IfOk result (λ t. ReplaysNext (length input.new) (length output.new) text.old before text.new (turn_option t)) }
{
    let Some((h, rest)) = recorded_list::next_record(source, text, before, input, output)? else {
        return Ok(None);
    };
    if !is_proper(h) {
        return Ok(None);
    }
    let r = replay_record(out, place, told, h, input, output)?;
    Ok(Some(Turn {
        rest,
        call: h.call,
        told: r,
    }))
}

// Replays so many records, after which nothing may follow, and prints what is told of them.
fn replay_records<R: Read, W: Write>(
    source: &mut R,
    out: &mut W,
    records: u64,
    from: Window,
    text: &mut [u8],
    input: &mut [u8],
    output: &mut [u8],
) -> io::Result<()>
    requires { Within from (length text.old) }
{
    let mut counts = [0u64; COUNTS];
    let mut told = false;
    let mut w = from;
    for place in 0..records {
        match replay_next(source, out, place, told, w, text, input, output)? {
            None => return judge::print::bad_list(out, place),
            Some(turn) => {
                w = turn.rest;
                told = told | judge::tally::tally(turn.told, turn.call, &mut counts);
            }
        }
    }
    if !recorded_list::is_read(source, text, w)? {
        return judge::print::bad_list(out, records);
    }
    judge::print::counts(out, &counts)
}

// Reads the first line, which says how many records there are, and replays them.
fn main(rt: HostRuntime) -> io::Result<()> {
    let mut source = rt.stdin();
    let mut out = rt.stdout();
    let mut text = long_buffer();
    let mut input = part_buffer();
    let mut output = part_buffer();
    let Some((line, from)) = recorded_list::first_line(
        &mut source,
        &mut text,
        LONGEST_PART,
        LONGEST_PART,
    )?
    else {
        return judge::print::bad_list(&mut out, 0);
    };
    let i = line.input as usize;
    let o = line.output as usize;
    replay_records(
        &mut source,
        &mut out,
        line.records,
        from,
        &mut text,
        &mut input[..i],
        &mut output[..o],
    )
}
