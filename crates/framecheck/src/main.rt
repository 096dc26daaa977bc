// Reads lines of hexadecimal from standard input and says of each which call it is, or why it is refused and what is answered.
#![tactic(auto)]

use answer_lines::write_answer;
use frames::read_line;
use hexlines::{INPUT_BYTES, Lines, readable};
use lists::FixedList;
use refusals::Refusal;
use std::io;
use std::io::{Read, Write};

fn show_refusal(rt: &HostRuntime, refusal: Refusal) -> io::Result<()> {
    print!(rt; "refused, {refusal}; the answer is ")?;
    let line = write_answer(&Err(refusal));
    rt.stdout().write_all(line.as_slice())?;
    println!(rt; "")
}

fn show_line(rt: &HostRuntime, line: &[u8]) -> io::Result<()> {
    let mut buffer = FixedList::new(0);
    match read_line(line, &mut buffer) {
        Ok(frame) => println!(rt; "{frame}"),
        Err(refusal) => show_refusal(rt, refusal),
    }
}

fn show_lines(rt: &HostRuntime, input: &[u8]) -> io::Result<()> {
    for line in Lines::new(readable(input)) {
        show_line(rt, line)?;
    }
    Ok(())
}

fn run(rt: &HostRuntime) -> anyhow::Result<()> {
    let mut input = Vec::new(rt.alloc());
    // one byte more than is read, to see whether there are more; usize has no From into u64
    rt.stdin()
        .take(INPUT_BYTES as u64 + 1)
        .read_to_end(&mut input)?;
    if input.len() > INPUT_BYTES {
        eprintln!(rt; "framecheck: the input past {INPUT_BYTES} bytes is not read")?;
    }
    show_lines(rt, input.as_slice())?;
    Ok(())
}

fn main(rt: HostRuntime) -> anyhow::Result<()> {
    run(&rt)
}
