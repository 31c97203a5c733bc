// Document 02, C-16: a batch read step by step, one entry at most a step, from the bytes at hand.
#![tactic(auto)]

ghost use Rattle.std.specs.Prelude.{◌≡◌, true, ◌+◌, ◌-◌, ◌≤◌, ◌<◌, length, take, drop, IfSome, IsNone};
ghost use Rattle.std.specs.Bool.{then_some};
ghost use Rattle.base.specs.Lists.{same};
ghost use Rattle.base.specs.Buffers.{over};
ghost use Rattle.report.specs.Line.{put_over, put_count};
ghost use Rattle.report.specs.Batch.{batch_mark, has_part, part_size, past_part, has_entry, entry_answer, plus};
ghost use Rattle.report.specs.Steps.{head_step, entry_step, step, has_stopped, ending};
ghost use Rattle.report.specs.Limits.{most_line};
ghost use Rattle.report.specs.Bounds.{Sized, Costs, Within, most_part, most_held, Nears, Few};
ghost use Rattle.report.specs.declared.Progress.TheVariants.{Head, Entries};
ghost use Rattle.report.specs.Promised.{took, Quiet, Does, Drains};

use base::{Answer, Row};
use report::{Progress, Sums, Taken};

// The bytes of a batch before its first entry.
const HEAD: usize = 7;

// The bytes of a window. The longest entry has 131,074, so one that holds no whole entry has room.
pub const WINDOW: usize = 262144;

// The bytes at hand of a batch that comes in pieces: the first `len` of a window.
#[derive(Clone, Copy)]
pub struct Window {
    pub bytes: [u8; WINDOW],
    pub len: usize,
    ghost within: { len ≤ 262144 },
}

impl Window {
    pub fn new() -> Window
        ensures { result.len ≡ 0 }
    {
        Window {
            bytes: [0u8; WINDOW],
            len: 0,
        }
    }

    pub fn held(&self) -> &[u8]
        ensures held { result.now ≡ take self.now.len self.now.bytes }
        ensures length { length result.now ≡ self.now.len }
    {
        &self.bytes[..self.len]
    }

    // Takes the first bytes off those at hand: the others move to the start.
    pub fn drop_front(&mut self, bytes: usize)
        requires { bytes ≤ self.old.len }
        ensures left { self.new.len ≡ self.old.len - bytes }
        ensures held { self.new.bytes ≡ over (take (self.old.len - bytes) (drop bytes self.old.bytes)) self.old.bytes }
    {
        self.len = drop_front(&mut self.bytes, self.len, bytes);
    }
}

// A step that prints nothing.
fn quiet(progress: Progress, bytes: usize) -> Taken
    ensures { result ≡ took progress bytes }
{
    Taken {
        progress,
        bytes,
        printed: 0,
    }
}

// The mark and the version stand at the start.
fn marked(s: &[u8]) -> bool
    ensures { result ≡ same (take 5 s.now) batch_mark }
{
    s.starts_with(b"BAT\x00\x01")
}

fn take_head(s: &[u8]) -> Taken
    ensures done { Quiet (head_step s.now) result }
    ensures kept { Within result.progress × Nears Head result }
    ensures few { Few result (length s.now) }
{
    if s.len() < HEAD {
        return quiet(Progress::Head, 0);
    }
    if !marked(s) {
        return quiet(Progress::Stopped, 0);
    }
    let count = usize::from(base_words::read16(s, 5));
    quiet(Progress::Entries(count, Sums::default()), HEAD)
}

// The bytes of the part at the start; none where it is not whole.
#[tactic(auto, using(crate::specs::TakenLaws::cut_short))]
fn part_size(s: &[u8]) -> Option<usize>
    ensures size { result ≡ then_some (has_part s.now) (part_size s.now) }
    ensures small { IfSome result (λ n. n ≤ most_part) }
    ensures short { IsNone result → length s.now < most_part }
{
    if s.len() < 2 {
        return None;
    }
    let size = 2 + usize::from(base_words::read16(s, 0));
    if s.len() < size {
        return None;
    }
    Some(size)
}

// The bytes of the rule and of the plan of the entry at the start; none where it is not whole.
fn entry_sizes(s: &[u8]) -> Option<(usize, usize)>
    ensures sizes { result ≡ then_some (has_entry s.now) (part_size s.now, part_size (past_part s.now)) }
    ensures small { IfSome result (λ n. n.0 + n.1 ≤ most_held) }
    ensures short { IsNone result → length s.now < most_held }
{
    let rule = part_size(s)?;
    let plan = part_size(&s[rule..])?;
    Some((rule, plan))
}

// What the tool answers for the entry at the start, which is whole; its parts have so many bytes.
fn answer_entry(s: &[u8], rule: usize, plan: usize) -> Answer
    requires whole { has_entry s.now ≡ true }
    requires parts { (rule ≡ part_size s.now) × (plan ≡ part_size (past_part s.now)) }
    ensures { result ≡ entry_answer s.now }
{
    fused_write::count(&s[2..rule], &s[rule + 2..rule + plan])
}

// The costs are those of the accepted entries alone.
fn add(sums: Sums, answer: Answer) -> Sums
    requires { Sized 1 sums × Costs answer }
    ensures { result ≡ plus sums answer }
{
    // The answer is C's struct of seven numbers.
    if answer.number != 0 {
        return Sums {
            refused: sums.refused + 1,
            ..sums
        };
    }
    Sums {
        accepted: sums.accepted + 1,
        before: sums.before + answer.before,
        after: sums.after + answer.after,
        ..sums
    }
}

// One of the entries to come, if it is whole, and its line.
fn take_entry(left: usize, sums: Sums, s: &[u8], out: &mut [u8]) -> Taken
    requires { (Sized left sums × (1 ≤ left)) × (most_line ≤ length out.old) }
    ensures done { Does (entry_step left sums s.now) result out.old out.new }
    ensures kept { Within result.progress × Nears (Entries left sums) result }
    ensures few { Few result (length s.now) }
{
    let Some((rule, plan)) = entry_sizes(s) else {
        return quiet(Progress::Entries(left, sums), 0);
    };
    let answer = answer_entry(s, rule, plan);
    let printed = report_lines::write_line(answer, out);
    Taken {
        progress: Progress::Entries(left - 1, add(sums, answer)),
        bytes: rule + plan,
        printed,
    }
}

// Nothing may be left behind the last entry.
fn take_end(sums: Sums, s: &[u8]) -> Taken
    requires { Sized 0 sums }
    ensures done { Quiet (entry_step 0 sums s.now) result }
    ensures kept { Within result.progress × Nears (Entries 0 sums) result }
    ensures few { Few result (length s.now) }
{
    if s.is_empty() {
        return quiet(Progress::Entries(0, sums), 0);
    }
    quiet(Progress::Stopped, 0)
}

// One step with the bytes at hand.
fn step(progress: Progress, s: &[u8], out: &mut [u8]) -> Taken
    requires { Within progress × (most_line ≤ length out.old) }
    ensures done { Does (step progress s.now) result out.old out.new }
    ensures kept { Within result.progress × Nears progress result }
    ensures few { Few result (length s.now) }
{
    match progress {
        Progress::Head => take_head(s),
        Progress::Entries(0, sums) => take_end(sums, s),
        Progress::Entries(left, sums) => take_entry(left, sums, s, out),
        Progress::Stopped => quiet(progress, 0),
    }
}

// Takes as many steps as the bytes at hand allow, for as long as there is room for a line.
pub fn take_entries(progress: Progress, s: &[u8], out: &mut [u8]) -> Taken
    requires { Within progress }
    ensures done { Drains progress s.now result out.old out.new }
    ensures kept { Within result.progress × Nears progress result }
    ensures few { most_line ≤ length out.old → Few result (length s.now) }
{
    let mut reached = progress;
    let mut bytes: usize = 0;
    let mut printed: usize = 0;
    loop {
        if out.len() - printed < report::MOST_LINE {
            break;
        }
        let taken = step(reached, &s[bytes..], &mut out[printed..]);
        reached = taken.progress;
        if taken.bytes == 0 {
            break;
        }
        bytes = bytes + taken.bytes;
        printed = printed + taken.printed;
    }
    Taken {
        progress: reached,
        bytes,
        printed,
    }
}

// Writes the last line, when the batch has ended and no step is left. Answers how many bytes it wrote.
pub fn finish(progress: Progress, out: &mut [u8]) -> usize
    ensures counted { result ≡ put_count (ending progress) out.old }
    ensures written { out.new ≡ put_over (ending progress) out.old }
{
    match progress {
        Progress::Entries(0, sums) => report_lines::write_total(sums, out),
        _ => report_lines::write_line(Answer::from(Row::Batch.at(0)), out),
    }
}

// The report is refused with 75, whatever comes.
pub fn has_stopped(progress: Progress) -> bool
    ensures { result ≡ has_stopped progress }
{
    matches!(progress, Progress::Stopped)
}

// Takes the first `bytes` off the `to` bytes at hand: the others move to the start, and nothing behind them is touched. Answers how many they are.
pub fn drop_front(window: &mut [u8], to: usize, bytes: usize) -> usize
    requires { (bytes ≤ to) × (to ≤ length window.old) }
    ensures left { result ≡ to - bytes }
    ensures held { window.new ≡ over (take (to - bytes) (drop bytes window.old)) window.old }
{
    window.copy_within(bytes..to, 0);
    to - bytes
}
