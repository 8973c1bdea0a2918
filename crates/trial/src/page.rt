// Sheets as they are printed.
use std::io;

/// Prints the lines of a sheet, behind a bar each.
pub fn print_sheet(rt: &impl Print, sheet: &str) -> io::Result<()> {
    for line in sheet.lines() {
        println!(rt; "      | {line}")?;
    }
    Ok(())
}
