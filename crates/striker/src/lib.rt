// Striking: the log without the records that are marked, and the count line of those that are left. Every other byte is the log's own, spelling, claims
// and marks too: what they are worth then is for the judge to say.

#![tactic(auto)]

ghost use Rattle.std.specs.Prelude.{◌+◌, ◌-◌, ◌≤◌, length, get_or, cond, ◌≡◌};
ghost use Rattle.rules.specs.Answers.{bytes_of_writing, over};
ghost use Rattle.rules.specs.Rules.{base};
ghost use Rattle.rules.specs.Striking.{marked, place_after, strike_out};
ghost use Rattle.striker.specs.KeptText.{is_struck, kept_line, kept_lines, head_text};
ghost use Rattle.striker.specs.Given.{LinesLie, Strikable};
ghost use Rattle.striker.specs.Spread.{spread_at, spread_over};
ghost use Rattle.writer.specs.LogText.{wrote_by};
ghost use Rattle.writer.specs.Written.{Puts};

use rules::Refusal;

// # Measured

// A byte strikes its record, if it is not 0.
fn is_struck(mark: u8) -> bool
    ensures { result ≡ is_struck mark }
{
    mark != 0
}

// What is left of the records: how many there are, and how many bytes their lines take.
#[derive(Clone, Copy)]
struct Left {
    records: usize,
    bytes: usize,
}

// The records, the first of which begins at `first`, by where each ends.
fn measure(log: &[u8], first: usize, ends: &[u16], struck: &[u8]) -> Left
    requires { LinesLie log.now first ends.now × (length ends.now ≤ length struck.now) × (length log.now ≤ base.longest_log) }
    ensures records { result.records ≡ place_after (marked struck.now) (length ends.now) }
    ensures bytes { result.bytes ≡ length (kept_lines log.now first ends.now (marked struck.now)) }
    ensures few { (result.records ≤ length ends.now) × (result.bytes ≤ length log.now) }
{
    let mut records = 0;
    let mut bytes = 0;
    let mut start = first;
    for (i, end) in ends.iter().enumerate() {
        let next = writer::behind_end(*end);
        if !is_struck(struck[i]) {
            records += 1;
            bytes += next - start;
        }
        start = next;
    }
    Left { records, bytes }
}

// # Written

// The line of a record, from a place of the log to another, if it is kept.
fn put_line(out: &mut [u8], at: usize, log: &[u8], start: usize, next: usize, struck: bool) -> usize
    requires { (start ≤ next) × (next ≤ length log.now) × (at + length (kept_line log.now start next struck) ≤ length out.old) }
    ensures { Puts out.old at (kept_line log.now start next struck) out.new result }
{
    if struck {
        return at;
    }
    writer::put_text(out, at, &log[start..next])
}

// The lines of the records that are left, one behind the other.
fn put_lines(
    out: &mut [u8],
    at: usize,
    log: &[u8],
    first: usize,
    ends: &[u16],
    struck: &[u8],
) -> usize
    requires lines_lie { LinesLie log.now first ends.now × (length ends.now ≤ length struck.now) }
    requires struck_in_bounds { at + length (kept_lines log.now first ends.now (marked struck.now)) ≤ length out.old }
    ensures { Puts out.old at (kept_lines log.now first ends.now (marked struck.now)) out.new result }
{
    let mut to = at;
    let mut start = first;
    for (i, end) in ends.iter().enumerate() {
        let next = writer::behind_end(*end);
        to = put_line(out, to, log, start, next, is_struck(struck[i]));
        start = next;
    }
    to
}

// The log in front of its count line, and this line in its place.
fn put_head(out: &mut [u8], log: &[u8], front: usize, line: &[u8]) -> usize
    requires { (front ≤ length log.now) × (length (head_text log.now front line.now) ≤ length out.old) }
    ensures { Puts out.old 0 (head_text log.now front line.now) out.new result }
{
    let count = writer::put_text(out, 0, &log[..front]);
    let end = writer::put_text(out, count, line);
    writer::put_text(out, end, b"\r\n")
}

// # The log

// An accepted log, whose first record begins at `first` and whose records end where they are listed to. The result is measured before its first byte is
// written.
fn strike_read(
    log: &[u8],
    struck: &[u8],
    first: usize,
    ends: &[u16],
    out: &mut [u8],
) -> Result<usize, Refusal>
    requires { Strikable base log.now first ends.now }
    ensures answer { result ≡ wrote_by (strike_out base (length out.old) struck.now log.now) }
    ensures slice { out.new ≡ over (bytes_of_writing (strike_out base (length out.old) struck.now log.now)) out.old }
{
    if struck.len() < ends.len() {
        return Err(rules::refused(7));
    }
    let left = measure(log, first, ends, struck);
    let mut line = [0u8; writer::COUNT_LINE];
    let was = writer::count_line(&mut line, ends.len() as u64);
    let front = first - (was + 2);
    let count = writer::count_line(&mut line, left.records as u64);
    if out.len() < front + (count + 2) + left.bytes {
        return Err(rules::refused(8));
    }
    let at = put_head(out, log, front, &line[..count]);
    Ok(put_lines(out, at, log, first, ends, struck))
}

// A log is read, and written to the front of the slice without the records whose byte in `struck` is not 0. On a refusal no byte of the slice is changed.
pub fn strike(log: &[u8], struck: &[u8], out: &mut [u8]) -> Result<usize, Refusal>
    ensures answer { result ≡ wrote_by (strike_out base (length out.old) struck.now log.now) }
    ensures slice { out.new ≡ over (bytes_of_writing (strike_out base (length out.old) struck.now log.now)) out.old }
{
    let mut calls = [0u16; 0];
    let mut exchanges = [0u16; 0];
    let mut points = [0u16; 0];
    let mut pointsends = [0u16; 0];
    let mut ends = [0u16; rules::MOST_RECORDS];
    let read = reader::survey(
        log,
        &mut calls,
        &mut exchanges,
        &mut points,
        &mut pointsends,
        &mut ends,
    )?;
    strike_read(log, struck, read.first, &ends[..read.records], out)
}

// # What is told of those that are left

// The byte at a place of a list, and 0 behind its end.
fn byte_or_none(list: &[u8], i: usize) -> u8
    ensures { result ≡ get_or list.now i 0 }
{
    list.get(i).copied().unwrap_or(0)
}

// The verdicts of judging what is left of a log, each put at the place that its record has in the log; at the places of struck records all stays as it was.
pub fn spread(told: &[u8], struck: &[u8], among: &mut [u8])
    ensures { among.new ≡ spread_over (marked struck.now) told.now among.old }
{
    let mut left = 0;
    for (i, verdict) in among.iter_mut().enumerate() {
        if !is_struck(byte_or_none(struck, i)) {
            *verdict = byte_or_none(told, left);
            left += 1;
        }
    }
}
