// Reads a stream of cases on standard input, each a batch to be fed in pieces, and prints the report of each and an empty line.
// A case is a two-byte size of its pieces (0 for 65,536), a four-byte length and so many bytes. The file `stdout` has what
// the implementation in compare/ printed, which was not written from this code.
#![tactic(auto)]

ghost use Rattle.std.specs.Prelude.{◌+◌, ◌≤◌};

use report::Progress;
use report_batch::Window;
use std::io::Read;

const LARGEST: usize = 65536;

// Reads a piece behind the bytes at hand; none are kept where the report has stopped, whatever comes.
fn read_piece(input: &mut impl Read, window: &mut Window, piece: usize, progress: Progress)
    requires { window.old.len + piece ≤ 262144 }
{
    let n = streams::read_full(input, &mut window.bytes[window.len..window.len + piece]);
    if report_batch::has_stopped(progress) {
        window.len = 0;
    } else {
        window.len += n;
    }
}

fn finish(rt: &impl Print, progress: Progress) {
    let mut line = [0u8; report::MOST_TOTAL];
    let n = report_batch::finish(progress, &mut line);
    let _ = rt.write_all(&line[..n]);
    let _ = rt.write_all(b"\n");
}

// The report of a batch of so many bytes, which come in pieces of `size`.
fn case(rt: &impl Print, input: &mut impl Read, size: usize, bytes: usize) {
    let mut window = Window::new();
    let mut out = [0u8; 65536];
    let mut progress = Progress::Head;
    let mut left = bytes;
    loop {
        let taken = report_batch::take_entries(progress, window.held(), &mut out);
        progress = taken.progress;
        let _ = rt.write_all(&out[..taken.printed]);
        if taken.bytes != 0 {
            window.drop_front(taken.bytes);
        } else {
            let piece = size.min(left).min(report_batch::WINDOW - window.len);
            if piece == 0 {
                break;
            }
            read_piece(input, &mut window, piece, progress);
            left -= piece;
        }
    }
    finish(rt, progress);
}

// Reads the head of a case and answers whether it was there.
fn next_case(rt: &impl Print, input: &mut impl Read) -> bool {
    let mut head = [0u8; 6];
    if streams::read_full(input, &mut head) != 6 {
        return false;
    }
    let size = match base_words::read16(&head, 0) {
        0 => LARGEST,
        size => usize::from(size),
    };
    case(rt, input, size, base_words::read32(&head, 2) as usize);
    true
}

// Case after case. The bound is more than any stream has, and lets the loop be seen to end.
fn main(rt: HostRuntime) {
    let mut input = rt.stdin();
    for _ in 0..u64::MAX {
        if !next_case(&rt, &mut input) {
            return;
        }
    }
}
