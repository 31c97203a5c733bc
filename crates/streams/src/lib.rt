// What the programs share at their edge: reading until a buffer is full, and the line that says why a file or a stream failed.
#![tactic(auto)]

ghost use Rattle.streams.specs.Counts.{IsPrefixLen};

use std::fmt::InlineText;
use std::io::{Eprint, Error, Read};

// Reads until buf is full, the input ends or a read fails, and answers how many bytes it put at the start of buf. A read that a signal interrupts
// counts as one that failed.
pub fn read_full<R: Read>(input: &mut R, buf: &mut [u8]) -> usize
    ensures { IsPrefixLen result buf.new }
{
    // No range to go over: a step goes on by as many bytes as a read gave.
    let mut done: usize = 0;
    while done < buf.len() {
        match input.read(&mut buf[done..]) {
            Ok(0) | Err(_) => break,
            Ok(n) => done += n,
        }
    }
    done
}

// Writes a line to standard error: what failed, as the caller names it, a colon and the system's words for why, without the number that std
// writes behind them.
pub fn fail(rt: &impl Eprint, what: &str, why: Error) {
    let text = InlineText::<256>::of(why);
    let all = text.as_str();
    let words = all
        .split_once(" (os error ")
        .map_or(all, |(words, _)| words);
    let _ = eprintln!(rt; "{what}: {words}");
}
