// What is printed for a case, on a line.
use checking::check;
use completing::complete;
use packing::TABLE_ROOM;
use std::io;
use workspace::areas::WORK_ROOM;

// What a file is by the layout.
pub fn print_verdict(out: &impl Print, file: &[u8]) -> io::Result<()> {
    let kind = if layout::sheets::sheet_fits(file) {
        "sheet"
    } else if layout::tables::table_fits(file) {
        "table"
    } else {
        "neither"
    };
    println!(out; "{kind}")
}

// A table against its sheet.
pub fn print_check(out: &impl Print, sheet: &[u8], table: &[u8]) -> io::Result<()> {
    match check(sheet, table) {
        Ok(()) => println!(out; "ok"),
        Err(f) => println!(out; "{f}"),
    }
}

// A sheet completed: the table's bytes in hexadecimal.
pub fn print_completion(out: &impl Print, sheet: &[u8]) -> io::Result<()> {
    let mut table = [0u8; TABLE_ROOM];
    let mut work = [0u8; WORK_ROOM];
    match complete(sheet, &mut table, &mut work) {
        Ok(size) => match table.get(..size as usize) {
            Some(bytes) => print_table(out, bytes),
            None => Ok(()),
        },
        Err(f) => println!(out; "{f}"),
    }
}

fn print_table(out: &impl Print, table: &[u8]) -> io::Result<()> {
    print!(out; "ok ")?;
    for byte in table {
        print!(out; "{byte:02x}")?;
    }
    println!(out;)
}
