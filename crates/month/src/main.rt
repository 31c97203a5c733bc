// Reads a batch on standard input and prints its report: a line for each entry, then the total, or `refused 75`. Writes no circuit.
#![tactic(auto)]

ghost use Rattle.std.specs.Prelude.{◌≡◌, ◌+◌, ◌<◌, IfOk};
ghost use Rattle.report.specs.Bounds.{Within};

use report::Progress;
use report_batch::Window;
use std::io;
use std::io::{Eprint, IsTerminal, Read};
use std::rt::Clock;

// What is printed at once: hundreds of lines.
const OUT: usize = 65536;

// How long the progress line has waited: the clock has not gone on yet; it has gone on by one, so that a whole second has passed at the next; the
// line was shown.
#[derive(Clone, Copy, PartialEq, Eq)]
enum Wait {
    First,
    Whole,
    Shown,
}

// When the progress line is shown: `second` is the last one seen. There is one where standard error is a terminal.
#[derive(Clone, Copy)]
struct Watch {
    second: u64,
    wait: Wait,
}

// A stream that failed, as it is named, and why.
#[derive(Drop)]
struct Failed {
    stream: &'static str,
    why: io::Error,
}

// Seconds since 1970; a clock that cannot be read stands still.
fn now(clock: &impl Clock) -> u64 {
    clock.since_1970().map_or(0, |time| time.as_secs())
}

fn begin(rt: &HostRuntime) -> Option<Watch> {
    if !rt.stderr().is_terminal() {
        return None;
    }
    Some(Watch {
        second: now(rt),
        wait: Wait::First,
    })
}

// The entries that are done, of those that the batch counts.
fn show(rt: &impl Eprint, done: usize, count: usize) {
    let _ = eprint!(rt; "\r{done} of {count} entries");
}

// Shows how far the report is, once a second and not in the first.
fn tick<R: Clock + Eprint>(rt: &R, w: Watch, done: usize, count: usize) -> Watch {
    let second = now(rt);
    if second == w.second {
        return w;
    }
    let wait = match w.wait {
        Wait::First => Wait::Whole,
        Wait::Whole | Wait::Shown => {
            show(rt, done, count);
            Wait::Shown
        }
    };
    Watch { second, wait }
}

// Takes the progress line away, so that nothing else is printed behind it.
fn wipe(rt: &impl Eprint, watch: Option<Watch>) {
    if let Some(w) = watch {
        if w.wait == Wait::Shown {
            let _ = rt.eprint("\r                        \r");
        }
    }
}

// How many entries are done, and how many the batch counts; nothing is shown before that is read.
fn tell<R: Clock + Eprint>(rt: &R, watch: Option<Watch>, progress: Progress) -> Option<Watch>
    requires { Within progress }
{
    match (watch, progress) {
        (Some(w), Progress::Entries(left, sums)) => {
            let done = sums.accepted + sums.refused;
            Some(tick(rt, w, done, done + left))
        }
        _ => watch,
    }
}

// Prints the text behind the progress line's place.
fn print<R: Print + Eprint>(rt: &R, watch: Option<Watch>, text: &[u8]) -> Result<(), Failed> {
    if !text.is_empty() {
        wipe(rt, watch);
    }
    rt.write_all(text).map_err(|why| Failed {
        stream: "standard output",
        why,
    })
}

// Reads behind the bytes at hand, and answers how many it read: none at the end of the input, an error where it cannot be read. There is room, or a
// full window would be taken for the end.
fn read_behind(input: &mut impl Read, window: &mut Window) -> io::Result<usize>
    requires { window.old.len < 262144 }
    ensures { IfOk result (λ n. window.new.len ≡ window.old.len + n) }
{
    let read = input.read(&mut window.bytes[window.len..])?;
    window.len += read;
    Ok(read)
}

// The last line, once nothing more is to be read.
fn finish<R: Print + Eprint>(
    rt: &R,
    watch: Option<Watch>,
    progress: Progress,
) -> Result<(), Failed> {
    let mut line = [0u8; report::MOST_TOTAL];
    let n = report_batch::finish(progress, &mut line);
    print(rt, watch, &line[..n])
}

// Prints what is whole of the bytes at hand; reads on where nothing is.
fn report(rt: &HostRuntime) -> Result<(), Failed> {
    let mut window = Window::new();
    let mut out = [0u8; OUT];
    let mut progress = Progress::Head;
    let mut watch = begin(rt);
    let mut input = rt.stdin();
    loop {
        let taken = report_batch::take_entries(progress, window.held(), &mut out);
        progress = taken.progress;
        print(rt, watch, &out[..taken.printed])?;
        if taken.bytes != 0 {
            window.drop_front(taken.bytes);
        } else if report_batch::has_stopped(progress) {
            break;
        } else {
            match read_behind(&mut input, &mut window) {
                Ok(0) => break,
                Ok(_) => watch = tell(rt, watch, progress),
                Err(why) => {
                    wipe(rt, watch);
                    return Err(Failed {
                        stream: "standard input",
                        why,
                    });
                }
            }
        }
    }
    finish(rt, watch, progress)
}

fn main(rt: HostRuntime) {
    if let Err(failed) = report(&rt) {
        streams::fail(&rt, failed.stream, failed.why);
    }
}
