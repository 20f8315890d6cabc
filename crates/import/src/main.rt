// Reads a schema sheet on standard input and prints its field sheet, or `refused N`: `import [little|big]`, which is the order of the metadata's lengths.
#![tactic(auto)]

use std::io;

fn main(rt: HostRuntime) -> io::Result<()> {
    let mut err = rt.stderr();
    let Some(big) = endian_word::asked_order(&rt, &mut err, b"import")? else {
        return Ok(());
    };
    // One byte more than a sheet may have, so that a longer input is known as such, however long it is.
    let mut sheet = [0u8; streams::SHEET_ROOM];
    let n = streams::read_full(&mut rt.stdin(), &mut sheet)?;
    print_import::print_import(&mut rt.stdout(), &mut err, &sheet[..n], big)?;
    Ok(())
}
