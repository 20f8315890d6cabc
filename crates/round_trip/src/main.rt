// Reads a field sheet on standard input, exports it, imports that, makes its plain form and exports that, and prints `the same` if all came back as
// demand 3 says; or which step refused, with its number, or which step differs: `round_trip [little|big]`, which is the order of the metadata's lengths.
#![tactic(auto)]

use outcome::Refused;
use round_trips::RoundTrip;
use std::io;
use std::io::Write;

// More than any answer of a step has: 315,276 bytes of export at most (crates/rooms).
const ROOM: usize = 524288;

// A buffer for the answer of a step. Its length is all that is told of it: its bytes are written before they are read.
fn answer_buffer() -> [u8; ROOM] {
    [0; ROOM]
}

fn print_refused(rt: &HostRuntime, step: &[u8], refused: Refused) -> io::Result<()> {
    let mut out = rt.stdout();
    out.write_all(step)?;
    out.write_all(b" ")?;
    print_answer::print_refused(&mut out, &mut rt.stderr(), refused.number())?;
    Ok(())
}

fn print_trip(rt: &HostRuntime, trip: RoundTrip) -> io::Result<()> {
    match trip {
        RoundTrip::AllSame => rt.stdout().write_all(b"the same\n"),
        RoundTrip::ExportRefused(refused) => print_refused(rt, b"export", refused),
        RoundTrip::ImportRefused(refused) => print_refused(rt, b"import", refused),
        RoundTrip::PlainRefused(refused) => print_refused(rt, b"plain form", refused),
        RoundTrip::AgainRefused(refused) => print_refused(rt, b"second export", refused),
        RoundTrip::ImportDiffers => rt
            .stdout()
            .write_all(b"import differs from the plain form\n"),
        RoundTrip::AgainDiffers => rt
            .stdout()
            .write_all(b"second export differs from the export\n"),
    }
}

fn main(rt: HostRuntime) -> io::Result<()> {
    let Some(big) = endian_word::asked_order(&rt, &mut rt.stderr(), b"round_trip")? else {
        return Ok(());
    };
    // One byte more than a sheet may have, so that a longer input is known as such, however long it is.
    let mut sheet = [0u8; streams::SHEET_ROOM];
    let n = streams::read_full(&mut rt.stdin(), &mut sheet)?;
    let mut exported = answer_buffer();
    let mut imported = answer_buffer();
    let mut plain = answer_buffer();
    let mut again = answer_buffer();
    let trip = round_trips::round_trip(
        &sheet[..n],
        false,
        big,
        &mut exported,
        &mut imported,
        &mut plain,
        &mut again,
    );
    print_trip(&rt, trip)
}
