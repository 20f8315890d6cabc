// Maps the type of a field: `mapping CALL [INDEX]`. CALL is a mapping or a conversion by its name in the Rust, INDEX the place of `get_child`'s child or
// that of a conversion. A mapping reads a field sheet on standard input, a conversion reads nothing. Prints the sheet, the two places of a physical type,
// `yes` or `no`, or `refused N`. Arguments that ask nothing get one line on standard error; the status tells only of a read or a write that failed.
#![tactic(auto)]

mod arguments;
mod call;

use crate::call::Call;
use mapping_calls::physical::PhysicalPlaces;
use outcome::Refused;
use refusal::Refusal;
use std::io;
use std::io::Write;

// As much as a sheet that is handed in can have: no answer of a mapping is longer than its sheet, and a conversion's has at most 69 bytes.
const ROOM: usize = 65536;

fn print_places(rt: &HostRuntime, p: PhysicalPlaces) -> io::Result<()> {
    let mut out = rt.stdout();
    if p.number != 0 {
        print_answer::print_refused(&mut out, &mut rt.stderr(), p.number)?;
        return Ok(());
    }
    streams::print_decimal(&mut out, p.place)?;
    out.write_all(b" ")?;
    streams::print_decimal(&mut out, p.inner)?;
    out.write_all(b"\n")
}

fn print_yes_no(rt: &HostRuntime, y: Result<bool, Refusal>) -> io::Result<()> {
    let mut out = rt.stdout();
    match y {
        Err(reason) => {
            print_answer::print_refused(&mut out, &mut rt.stderr(), reason.number())?;
            Ok(())
        }
        Ok(true) => out.write_all(b"yes\n"),
        Ok(false) => out.write_all(b"no\n"),
    }
}

// The answer of a call that writes a sheet; the other three write none, and are not asked here.
fn ask(call: Call, index: u64, s: &[u8], out: &mut [u8]) -> Result<usize, Refused> {
    match call {
        Call::UnderlyingPhysicalType => field_calls::underlying_physical_type(s, out),
        Call::ToStorage => picked_types::to_storage(s, out),
        Call::ToStorageRecursive => field_calls::to_storage_recursive(s, out),
        Call::InnerDtype => picked_types::inner_dtype(s, out),
        Call::GetChild => picked_types::get_child(s, index, out),
        Call::FromIntegerType => mapping_calls::conversions::from_integer_type(index, out),
        _ => mapping_calls::conversions::from_primitive_type(index, out),
    }
}

fn print_sheet(rt: &HostRuntime, call: Call, index: u64, s: &[u8]) -> io::Result<()> {
    let mut out = [0u8; ROOM];
    let answer = ask(call, index, s, &mut out);
    print_answer::print_answer(&mut rt.stdout(), &mut rt.stderr(), &out, answer)?;
    Ok(())
}

fn print_mapped(rt: &HostRuntime, call: Call, index: u64, s: &[u8]) -> io::Result<()> {
    match call {
        Call::ToPhysicalType => {
            print_places(
                rt,
                PhysicalPlaces::of(mapping_calls::physical::to_physical_type(s)),
            )
        }
        Call::IsNested => print_yes_no(rt, mapping_calls::is_nested(s)),
        Call::ContainsDictionary => print_yes_no(rt, mapping_calls::contains_dictionary(s)),
        _ => print_sheet(rt, call, index, s),
    }
}

fn print_read(rt: &HostRuntime, call: Call, index: u64) -> io::Result<()> {
    // One byte more than a sheet may have, so that a longer input is known as such, however long it is.
    let mut sheet = [0u8; streams::SHEET_ROOM];
    let n = streams::read_full(&mut rt.stdin(), &mut sheet)?;
    print_mapped(rt, call, index, &sheet[..n])
}

fn main(rt: HostRuntime) -> io::Result<()> {
    let Some((call, index)) = arguments::ask_words(&rt, &mut rt.stderr())? else {
        return Ok(());
    };
    if call::reads_sheet(call) {
        print_read(&rt, call, index)
    } else {
        print_mapped(&rt, call, index, b"")
    }
}
