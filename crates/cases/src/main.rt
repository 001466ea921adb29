// The gate's cases, from standard input, a line of output each: a file judged, a table checked against its sheet, a sheet completed. What is
// asked is told by the first letter of the case's name: f, t or s. `rust/drive/src/bin/cases.rs` makes the input and the output.

#![tactic(auto)]

mod answers; // what is printed for a case
mod input; // files from standard input

use answers::{print_check, print_completion, print_verdict};
use input::next_file;
use std::io;
use std::io::Read;

// A file's room: more than any file of the cases has. It stands for the length of a name or a first file that there is not, whose line is printed
// as ever.
const ROOM: usize = 65600;

// The answer that is asked for.
fn print_answer(out: &impl Print, asked: u8, first: &[u8], second: &[u8]) -> io::Result<()> {
    match asked {
        b'f' => print_verdict(out, first),
        b't' => print_check(out, first, second),
        _ => print_completion(out, first),
    }
}

// The next case, which is a name and two files; whether there was one. Of a name or a first file that there is not, the whole room is taken.
fn one_case<R: Read>(out: &impl Print, reader: &mut R) -> io::Result<bool> {
    let mut name = [0u8; ROOM];
    let mut first = [0u8; ROOM];
    let mut second = [0u8; ROOM];
    let n = next_file(reader, &mut name)?;
    let a = next_file(reader, &mut first)?;
    let Some(b) = next_file(reader, &mut second)? else {
        return Ok(false);
    };
    out.write_all(&name[..n.unwrap_or(ROOM)])?;
    out.write_all(b": ")?;
    print_answer(out, name[0], &first[..a.unwrap_or(ROOM)], &second[..b])?;
    Ok(true)
}

// A proved loop has to end, and nothing says that an input does: it counts its turns up to a number that no input uses up.
fn main(rt: HostRuntime) -> io::Result<()> {
    let mut reader = rt.stdin();
    for _ in 0..u64::MAX {
        if !one_case(&rt, &mut reader)? {
            break;
        }
    }
    Ok(())
}
