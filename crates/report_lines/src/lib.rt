// The line that a program prints for an answer, and the last line of a report.
#![tactic(auto)]

ghost use Rattle.std.specs.Prelude.{◌≡◌, ◌++◌, ◌≤◌, length};
ghost use Rattle.base.specs.Buffers.{over};
ghost use Rattle.base.specs.Lists.{flat};
ghost use Rattle.report.specs.Line.{decimal, spaced, line, line_of, put_over, put_count};
ghost use Rattle.report.specs.Total.{spaced_less};
ghost use Rattle.report.specs.Batch.{total_of};

use base::Answer;
use report::Sums;

// The last refusal that is printed with its place.
const LAST_PLACED: u8 = 11;

// Copies a text that finds room to the buffer's start. Answers how many bytes it has.
fn copy(text: &[u8], out: &mut [u8]) -> usize
    requires { length text.now ≤ length out.old }
    ensures counted { result ≡ length text.now }
    ensures written { out.new ≡ over text.now out.old }
{
    let n = text.len();
    out[0..n].copy_from_slice(text);
    n
}

// The digits of n, the highest first: those of n / 10 and then the last. At most 20 calls deep. By hand, since std's formatting promises its text only where
// it answers Ok, and a crate that writes digits would be one more to trust.
fn put_decimal(n: usize, out: &mut [u8]) -> usize
    requires { length (decimal n) ≤ length out.old }
    ensures counted { result ≡ length (decimal n) }
    ensures written { out.new ≡ over (decimal n) out.old }
{
    if n < 10 {
        out[0] = 48 + (n as u8);
        return 1;
    }
    let at = put_decimal(n / 10, out);
    out[at] = 48 + ((n % 10) as u8);
    at + 1
}

fn put_spaced(n: usize, out: &mut [u8]) -> usize
    requires { length (spaced n) ≤ length out.old }
    ensures counted { result ≡ length (spaced n) }
    ensures written { out.new ≡ over (spaced n) out.old }
{
    out[0] = b' ';
    put_decimal(n, &mut out[1..]) + 1
}

// Each number in the rest behind those written.
fn put_numbers(numbers: &[usize], out: &mut [u8]) -> usize
    requires { length (flat spaced numbers.now) ≤ length out.old }
    ensures counted { result ≡ length (flat spaced numbers.now) }
    ensures written { out.new ≡ over (flat spaced numbers.now) out.old }
{
    let mut at = 0;
    for n in numbers {
        at += put_spaced(*n, &mut out[at..]);
    }
    at
}

// A word and the numbers behind it, without the line feed.
fn put_front(word: &[u8], numbers: &[usize], out: &mut [u8]) -> usize
    requires { length (word.now ++ flat spaced numbers.now) ≤ length out.old }
    ensures counted { result ≡ length (word.now ++ flat spaced numbers.now) }
    ensures written { out.new ≡ over (word.now ++ flat spaced numbers.now) out.old }
{
    let n = copy(word, out);
    n + put_numbers(numbers, &mut out[n..])
}

fn put_words(word: &[u8], numbers: &[usize], out: &mut [u8]) -> usize
    requires { length (line word.now numbers.now) ≤ length out.old }
    ensures counted { result ≡ length (line word.now numbers.now) }
    ensures written { out.new ≡ over (line word.now numbers.now) out.old }
{
    let n = put_front(word, numbers, out);
    out[n] = b'\n';
    n + 1
}

fn put_answer(answer: Answer, out: &mut [u8]) -> usize
    requires { length (line_of answer) ≤ length out.old }
    ensures counted { result ≡ length (line_of answer) }
    ensures written { out.new ≡ over (line_of answer) out.old }
{
    // An answer is C's struct: its number says whether it counts.
    if answer.number == 0 {
        let counts = [answer.gates, answer.wires, answer.before, answer.after];
        return put_words(b"accepted", &counts, out);
    }
    let number = usize::from(answer.number);
    if answer.number <= LAST_PLACED {
        return put_words(b"refused", &[number, answer.place], out);
    }
    put_words(b"refused", &[number], out)
}

// Before less after, with its sign where it is negative.
fn put_less(before: usize, after: usize, out: &mut [u8]) -> usize
    requires { length (spaced_less before after) ≤ length out.old }
    ensures counted { result ≡ length (spaced_less before after) }
    ensures written { out.new ≡ over (spaced_less before after) out.old }
{
    if after <= before {
        return put_spaced(before - after, out);
    }
    out[0] = b' ';
    out[1] = b'-';
    put_decimal(after - before, &mut out[2..]) + 2
}

fn put_total(sums: Sums, out: &mut [u8]) -> usize
    requires { length (total_of sums) ≤ length out.old }
    ensures counted { result ≡ length (total_of sums) }
    ensures written { out.new ≡ over (total_of sums) out.old }
{
    let counts = [sums.accepted, sums.refused, sums.before, sums.after];
    let n = put_front(b"total", &counts, out);
    let k = put_less(sums.before, sums.after, &mut out[n..]);
    out[n + k] = b'\n';
    n + k + 1
}

// All of the text or nothing: a buffer that is shorter than it is not touched. The 0 then is what `put_count` says, in the clauses of the three below.
// A line is not made by `write!`: what std promises of a text speaks of Ok alone, or lets it be cut, so the bytes have no clause to be proved by.
fn put_whole(text: &[u8], out: &mut [u8]) -> usize
    ensures counted { result ≡ put_count text.now out.old }
    ensures written { out.new ≡ put_over text.now out.old }
{
    if out.len() < text.len() {
        return 0;
    }
    copy(text, out)
}

// Writes n in decimal digits; no number has more than 20. Answers how many bytes it wrote.
pub fn write_decimal(n: usize, out: &mut [u8]) -> usize
    ensures counted { result ≡ put_count (decimal n) out.old }
    ensures written { out.new ≡ put_over (decimal n) out.old }
{
    let mut text = [0u8; 20];
    let k = put_decimal(n, &mut text);
    put_whole(&text[0..k], out)
}

// Writes the line of an answer. Answers how many bytes it wrote.
pub fn write_line(answer: Answer, out: &mut [u8]) -> usize
    ensures counted { result ≡ put_count (line_of answer) out.old }
    ensures written { out.new ≡ put_over (line_of answer) out.old }
{
    let mut text = [0u8; report::MOST_LINE];
    let n = put_answer(answer, &mut text);
    put_whole(&text[0..n], out)
}

// Writes the last line of a report. Answers how many bytes it wrote.
pub fn write_total(sums: Sums, out: &mut [u8]) -> usize
    ensures counted { result ≡ put_count (total_of sums) out.old }
    ensures written { out.new ≡ put_over (total_of sums) out.old }
{
    let mut text = [0u8; report::MOST_TOTAL];
    let n = put_total(sums, &mut text);
    put_whole(&text[0..n], out)
}
