// Reads a sheet from standard input, completes it and prints the table, or the refusal. One byte more than the largest sheet tells that
// there is too much.

#![tactic(auto)]

use intake::read_full;
use listing::TEXT_ROOM;
use printing::{SHEET_ROOM, tell};
use std::io;

fn main(rt: HostRuntime) -> io::Result<()> {
    let mut input = [0u8; SHEET_ROOM + 1];
    let n = read_full(&mut rt.stdin(), &mut input)?;
    let mut text = [0u8; TEXT_ROOM];
    let size = tell(&input[..n], &mut text);
    rt.write_all(&text[..size])
}
