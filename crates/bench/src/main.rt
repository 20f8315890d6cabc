// The bench cases of document 01 that import answers, A1 to A11, one after the other: each prints its field sheet, or `refused N`. They are rows of
// the table in crates/sheets/specs/Bench.antt, and `case` demands that a sheet is its row's.
#![tactic(auto)]

ghost use Rattle.std.specs.Prelude.{◌≡◌, IfOk};
ghost use Rattle.bench.specs.Rows.{row_at, IsRow};

use std::io;
use std::io::Write;

// Prints what import answers to the sheet of a row of the table, from 0, and answers the number that the table wants.
fn case<W: Write, E: Write>(out: &mut W, err: &mut E, row: usize, sheet: &[u8]) -> io::Result<u8>
    requires { IsRow row sheet.now }
    ensures { IfOk result (λ n. n ≡ (row_at row).wanted.0) }
{
    print_import::print_import(out, err, sheet, false)
}

fn flags_and_sizes<W: Write, E: Write>(out: &mut W, err: &mut E) -> io::Result<()> {
    // A1
    case(
        out,
        err,
        0,
        b"format name flags metadata children dictionary\n2b6c 7065616b 2 ~ 1 0\n67 6974656d 0 ~ 0 0\n",
    )?;
    // A2
    case(
        out,
        err,
        1,
        b"format name flags metadata children dictionary\n67 - -3 ~ 0 0\n",
    )?;
    case(
        out,
        err,
        2,
        b"format name flags metadata children dictionary\n67 - 4 ~ 0 0\n",
    )?;
    // A3; row 4 is its export
    case(
        out,
        err,
        3,
        b"format name flags metadata children dictionary\n773a2b3136 - 0 ~ 0 0\n",
    )?;
    Ok(())
}

fn zones_decimals_and_unions<W: Write, E: Write>(out: &mut W, err: &mut E) -> io::Result<()> {
    // A4
    case(
        out,
        err,
        5,
        b"format name flags metadata children dictionary\n7473733a - 0 ~ 0 0\n",
    )?;
    case(
        out,
        err,
        6,
        b"format name flags metadata children dictionary\n747373 - 0 ~ 0 0\n",
    )?;
    // A5
    case(
        out,
        err,
        7,
        b"format name flags metadata children dictionary\n643a31392c31302c313030 - 0 ~ 0 0\n",
    )?;
    case(
        out,
        err,
        8,
        b"format name flags metadata children dictionary\n643a35 - 0 ~ 0 0\n",
    )?;
    // A6
    case(
        out,
        err,
        9,
        b"format name flags metadata children dictionary\n2b75733a - 0 ~ 0 0\n",
    )?;
    Ok(())
}

fn metadata_and_children<W: Write, E: Write>(out: &mut W, err: &mut E) -> io::Result<()> {
    // A7
    case(
        out,
        err,
        10,
        b"format name flags metadata children dictionary\n67 - 0 02000000010000006d0100000031010000006d0100000032 0 0\n",
    )?;
    // A8
    case(
        out,
        err,
        11,
        b"format name flags metadata children dictionary\n67 - 0 ffffffff 0 0\n",
    )?;
    // A9
    case(
        out,
        err,
        12,
        b"format name flags metadata children dictionary\n2b773a7a - 0 ~ 0 0\n",
    )?;
    case(
        out,
        err,
        13,
        b"format name flags metadata children dictionary\n2b773a33 - 0 ~ 0 0\n",
    )?;
    // A10
    case(
        out,
        err,
        14,
        b"format name flags metadata children dictionary\n6c - 0 ~ 1 0\n~ - 0 ~ 0 0\n",
    )?;
    Ok(())
}

fn levels<W: Write, E: Write>(out: &mut W, err: &mut E) -> io::Result<()> {
    // A11
    case(
        out,
        err,
        15,
        b"format name flags metadata children dictionary\n2b6c 70 2 ~ 1 0\n2b6c 70 2 ~ 1 0\n2b6c 70 2 ~ 1 0\n2b6c 70 2 ~ 1 0\n2b6c 70 2 ~ 1 0\n2b6c 70 2 ~ 1 0\n2b6c 70 2 ~ 1 0\n2b6c 70 2 ~ 1 0\n2b6c 70 2 ~ 1 0\n2b6c 70 2 ~ 1 0\n2b6c 70 2 ~ 1 0\n2b6c 70 2 ~ 1 0\n2b6c 70 2 ~ 1 0\n2b6c 70 2 ~ 1 0\n2b6c 70 2 ~ 1 0\n2b6c 70 2 ~ 1 0\n2b6c 70 2 ~ 1 0\n2b6c 70 2 ~ 1 0\n2b6c 70 2 ~ 1 0\n2b6c 70 2 ~ 1 0\n2b6c 70 2 ~ 1 0\n2b6c 70 2 ~ 1 0\n2b6c 70 2 ~ 1 0\n2b6c 70 2 ~ 1 0\n2b6c 70 2 ~ 1 0\n2b6c 70 2 ~ 1 0\n2b6c 70 2 ~ 1 0\n2b6c 70 2 ~ 1 0\n2b6c 70 2 ~ 1 0\n2b6c 70 2 ~ 1 0\n2b6c 70 2 ~ 1 0\n67 69 0 ~ 0 0\n",
    )?;
    case(
        out,
        err,
        16,
        b"format name flags metadata children dictionary\n2b6c 70 2 ~ 1 0\n2b6c 70 2 ~ 1 0\n2b6c 70 2 ~ 1 0\n2b6c 70 2 ~ 1 0\n2b6c 70 2 ~ 1 0\n2b6c 70 2 ~ 1 0\n2b6c 70 2 ~ 1 0\n2b6c 70 2 ~ 1 0\n2b6c 70 2 ~ 1 0\n2b6c 70 2 ~ 1 0\n2b6c 70 2 ~ 1 0\n2b6c 70 2 ~ 1 0\n2b6c 70 2 ~ 1 0\n2b6c 70 2 ~ 1 0\n2b6c 70 2 ~ 1 0\n2b6c 70 2 ~ 1 0\n2b6c 70 2 ~ 1 0\n2b6c 70 2 ~ 1 0\n2b6c 70 2 ~ 1 0\n2b6c 70 2 ~ 1 0\n2b6c 70 2 ~ 1 0\n2b6c 70 2 ~ 1 0\n2b6c 70 2 ~ 1 0\n2b6c 70 2 ~ 1 0\n2b6c 70 2 ~ 1 0\n2b6c 70 2 ~ 1 0\n2b6c 70 2 ~ 1 0\n2b6c 70 2 ~ 1 0\n2b6c 70 2 ~ 1 0\n2b6c 70 2 ~ 1 0\n2b6c 70 2 ~ 1 0\n2b6c 70 2 ~ 1 0\n67 69 0 ~ 0 0\n",
    )?;
    Ok(())
}

fn main(rt: HostRuntime) -> io::Result<()> {
    let mut out = rt.stdout();
    let mut err = rt.stderr();
    flags_and_sizes(&mut out, &mut err)?;
    zones_decimals_and_unions(&mut out, &mut err)?;
    metadata_and_children(&mut out, &mut err)?;
    levels(&mut out, &mut err)
}
