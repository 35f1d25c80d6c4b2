// The mender of chewed logs: what a mail program did to the ends of lines, to records and to the count is put right, and each change is told. No
// copy of the log is made: a mended line is a part of the log without its end, so that the reader takes it where it lies, and the count line
// alone is made anew. The lines are counted first, then read and measured, and then written.

#![tactic(auto)]

ghost use Rattle.std.specs.Prelude.{◌+◌, ◌-◌, ◌≤◌, ◌<◌, Err, length, cond, ◌++◌, map, ◌≡◌, ltb};
ghost use Rattle.reader.specs.Contact.{between};
ghost use Rattle.rules.specs.Answers.{over};
ghost use Rattle.rules.specs.Log.{count_line, crlf, count_start};
ghost use Rattle.rules.specs.Mending.{digits_then_end, mended_text, changes_in, changes, mend, bytes_of_mending, kinds_of_mending, lines_of_mending};
ghost use Rattle.rules.specs.Reading.{refusal};
ghost use Rattle.rules.specs.Rules.{base};
ghost use Rattle.rules.specs.Text.{all, allowed, same};
ghost use Rattle.writer.specs.Written.{Puts};
ghost use Rattle.mender.specs.Lines.{Spans, EndsAt, Trims, Cuts, Lays, kinds_of, sets_count, end_kind, lines_at, text_laid, count_kind};
ghost use Rattle.mender.specs.Checking.{no_line_due, line_next, rest_told, checked_of};
ghost use Rattle.mender.specs.Answer.{rooms_of, mended_by, kept_as, kept_in, Mends};

use fields::{Besides, Digits};
use rules::{Due, Fault, Refusal, Region};

// # What is done to a line

// CR is put before a bare LF, the end of the last line is put, the spaces at the end are dropped, or the count is set. The list tells a kind by its
// number.
#[derive(Clone, Copy)]
pub enum Kind {
    ReturnPut = 1,
    EndPut = 2,
    SpacesDropped = 3,
    CountSet = 4,
}

// What is done to a line's text is that its count is set.
fn sets_count(done: Option<Kind>) -> bool
    ensures { result ≡ sets_count done }
{
    matches!(done, Some(Kind::CountSet))
}

// # Lines that end at LF

// A line of the log: where its text ends, behind which its CR and LF stand as far as they are there; where the next line begins; what has to be done
// to its end, if anything; and whether every character of its text is allowed.
#[derive(Clone, Copy)]
pub struct Cut {
    pub end: usize,
    pub next: usize,
    pub done: Option<Kind>,
    pub clean: bool,
}

// Where the text of a line ends that goes on up to this place: in front of a CR.
fn text_end(s: &[u8], at: usize, feed: usize) -> usize
    requires { (at ≤ feed) × (feed ≤ length s.now) }
    ensures { EndsAt s.now at feed result }
{
    if at < feed && s[feed - 1] == b'\r' {
        feed - 1
    } else {
        feed
    }
}

// What has to be done to the end of a line.
fn end_done(length: usize, feed: usize, end: usize) -> Option<Kind>
    ensures { result ≡ end_kind length feed end }
{
    if length <= feed {
        Some(Kind::EndPut)
    } else if end < feed {
        None
    } else {
        Some(Kind::ReturnPut)
    }
}

// The line that begins at a place.
fn cut_at(s: &[u8], at: usize) -> Cut
    requires { at < length s.now }
    ensures { Cuts s.now at result }
{
    let run = reader::allowed_run(s, at);
    let feed = fields::run(s, run, &Besides(b'\n'));
    let end = text_end(s, at, feed);
    Cut {
        end,
        next: feed + 1,
        done: end_done(s.len(), feed, end),
        clean: end <= run,
    }
}

// How many lines there are.
fn line_count(s: &[u8]) -> usize
    ensures { (result ≡ length (lines_at s.now 0)) × (result ≤ length s.now) }
{
    let mut n = 0;
    let mut at = 0;
    while at < s.len() {
        at = cut_at(s, at).next;
        n += 1;
    }
    n
}

// # What is done to a line

// Where the text between two places ends without the spaces at its end.
fn trimmed_end(s: &[u8], at: usize, end: usize) -> usize
    requires { (at ≤ end) × (end ≤ length s.now) }
    ensures { Trims s.now at end result }
{
    for i in (at..end).rev() {
        if s[i] != b' ' {
            return i + 1;
        }
    }
    at
}

// The text is one or more digits, and then `]` and no more.
fn digits_then_end(t: &[u8]) -> bool
    ensures { result ≡ digits_then_end t.now }
{
    let n = fields::run(t, 0, &Digits);
    n != 0 && header::same_text(&t[n..], b"]")
}

// A line is the count line of so many records.
fn is_count(n: usize, line: &[u8]) -> bool
    ensures { result ≡ same (count_line n) line.now }
{
    let mut word = [0u8; writer::COUNT_LINE];
    let end = writer::count_line(&mut word, n as u64);
    header::same_text(&word[..end], line)
}

// What has to be done to a line that begins as the count line does.
fn count_done(line: &[u8], follow: usize) -> Option<Kind>
    requires { length count_start ≤ length line.now }
    ensures { result ≡ count_kind follow line.now }
{
    if digits_then_end(&line[12..]) && !is_count(follow, line) {
        Some(Kind::CountSet)
    } else {
        None
    }
}

// A line of the log as it is mended: where its text ends, unless its count is set; where the next line begins; what was done to its end, and to its
// text, if anything; whether every character of the text is allowed; and where the next line lies.
#[derive(Clone, Copy)]
pub struct Laid {
    pub end: usize,
    pub next: usize,
    pub first: Option<Kind>,
    pub second: Option<Kind>,
    pub clean: bool,
    pub region: Region,
}

fn laid_as(c: Cut, end: usize, second: Option<Kind>, region: Region) -> Laid
    ensures { result ≡ record { end = end; next = c.next; first = c.done; second = second; clean = c.clean; region = region } }
{
    Laid {
        end,
        next: c.next,
        first: c.done,
        second,
        clean: c.clean,
        region,
    }
}

// The line that begins at a place, by where it lies and how many lines follow it.
fn lay(s: &[u8], at: usize, region: Region, follow: usize) -> Laid
    requires { at < length s.now }
    ensures { Lays region s.now at follow result }
{
    let c = cut_at(s, at);
    let end = c.end;
    match region {
        Region::Head => {
            if header::same_text(&s[at..end], b"[Remarks]") {
                return laid_as(c, end, None, Region::Remarks);
            }
            laid_as(c, end, None, Region::Head)
        }
        Region::Remarks => {
            if header::begins_with(b"[QSORecords;", &s[at..end]) {
                return laid_as(c, end, count_done(&s[at..end], follow), Region::Records);
            }
            laid_as(c, end, None, Region::Remarks)
        }
        Region::Records => {
            let last = trimmed_end(s, at, end);
            if last < end {
                return laid_as(c, last, Some(Kind::SpacesDropped), Region::Records);
            }
            laid_as(c, end, None, Region::Records)
        }
    }
}

// # Measured

// How long a count line is.
fn count_length(n: usize) -> usize
    ensures { (result ≡ length (count_line n)) × (result ≤ 33) }
{
    let mut word = [0u8; writer::COUNT_LINE];
    writer::count_line(&mut word, n as u64)
}

// How many bytes a mended line takes, with its CR LF.
fn line_length(s: &[u8], at: usize, l: Laid, follow: usize) -> usize
    requires { Spans s.now at l.end l.next }
    ensures { (result ≡ length (text_laid s.now at follow l ++ crlf)) × (result ≤ l.end - at + 35) }
{
    if sets_count(l.second) {
        return count_length(follow) + 2;
    }
    l.end - at + 2
}

// How many things were done: one, or none.
fn one_if(done: Option<Kind>) -> usize
    ensures { (result ≡ length (kinds_of done)) × (result ≤ 1) }
{
    usize::from(done.is_some())
}

// How long the mended log is, which has so many lines.
fn measure(s: &[u8], total: usize) -> usize
    requires { (total ≡ length (lines_at s.now 0)) × (length s.now ≤ base.longest_log) }
    ensures { result ≡ length (mended_text s.now) }
{
    let mut bytes = 0;
    let mut region = Region::Head;
    let mut at = 0;
    let mut follow = total;
    while at < s.len() {
        follow -= 1;
        let l = lay(s, at, region, follow);
        bytes += line_length(s, at, l, follow);
        region = l.region;
        at = l.next;
    }
    bytes
}

// # Read

// Why a log is refused where this is due and no line of a log stands.
#[tactic(auto, unfolding(crate::specs::Checking::no_line_due))]
fn no_line_due(due: Due) -> Fault
    ensures { result ≡ no_line_due due }
{
    match due {
        Due::End => Fault {
            number: 6,
            field: 0,
        },
        _ => Fault {
            number: 2,
            field: 0,
        },
    }
}

// What follows from the count line of so many records.
fn count_next(due: Due, n: usize) -> Result<Due, Fault>
    requires { n ≤ base.longest_log }
    ensures { result ≡ line_next base due (count_line n) }
{
    let mut word = [0u8; writer::COUNT_LINE];
    let end = writer::count_line(&mut word, n as u64);
    reader::step(due, &word[..end]).next
}

// What follows from a mended line.
fn laid_next(due: Due, s: &[u8], at: usize, l: Laid, follow: usize) -> Result<Due, Fault>
    requires { Spans s.now at l.end l.next × (all allowed (between s.now at l.end) ≡ l.clean) × (follow ≤ base.longest_log) }
    ensures { result ≡ line_next base due (text_laid s.now at follow l) }
{
    if sets_count(l.second) {
        return count_next(due, follow);
    }
    if !l.clean || rules::longest_line() < l.end - at {
        return Err(no_line_due(due));
    }
    reader::step(due, &s[at..l.end]).next
}

// How long the mended log and its list are.
#[derive(Clone, Copy)]
pub struct Mended {
    pub length: usize,
    pub changes: usize,
}

// What is told where the lines end and this is due.
#[tactic(auto, unfolding(crate::specs::Checking::rest_told))]
fn rest_told(due: Due, line: u32, length: usize, changes: usize) -> Result<Mended, Refusal>
    ensures { result ≡ rest_told due line length changes }
{
    match due {
        Due::End => Ok(Mended { length, changes }),
        Due::Record(_) => Err(rules::refused_at(6, line)),
        _ => Err(rules::refused_at(2, line)),
    }
}

// How long the mended log and the list are, or why the mended log is refused: its lines are read one after the other, as long as they are taken.
fn check(s: &[u8], total: usize) -> Result<Mended, Refusal>
    requires { (total ≡ length (lines_at s.now 0)) × (length s.now ≤ base.longest_log) × (total ≤ length s.now) }
    ensures { result ≡ checked_of base s.now }
{
    let mut due = Due::Identifier;
    let mut region = Region::Head;
    let mut at = 0;
    let mut line: u32 = 1;
    let mut follow = total;
    let mut bytes = 0;
    let mut listed = 0;
    while at < s.len() {
        follow -= 1;
        let l = lay(s, at, region, follow);
        match laid_next(due, s, at, l, follow) {
            Err(fault) => {
                return Err(fault.at(line));
            }
            Ok(next) => {
                bytes += line_length(s, at, l, follow);
                listed += one_if(l.first) + one_if(l.second);
                due = next;
                region = l.region;
                at = l.next;
                line += 1;
            }
        }
    }
    rest_told(due, line, bytes, listed)
}

// # Written

// The count line of so many records.
fn put_count(out: &mut [u8], to: usize, n: usize) -> usize
    requires { to + length (count_line n) ≤ length out.old }
    ensures { Puts out.old to (count_line n) out.new result }
{
    let mut word = [0u8; writer::COUNT_LINE];
    let end = writer::count_line(&mut word, n as u64);
    writer::put_text(out, to, &word[..end])
}

// The text of a mended line.
fn put_laid(out: &mut [u8], to: usize, s: &[u8], at: usize, l: Laid, follow: usize) -> usize
    requires { Spans s.now at l.end l.next × (to + length (text_laid s.now at follow l) ≤ length out.old) }
    ensures { Puts out.old to (text_laid s.now at follow l) out.new result }
{
    if sets_count(l.second) {
        return put_count(out, to, follow);
    }
    let end = l.end;
    writer::put_text(out, to, &s[at..end])
}

// The line with its CR LF.
fn put_line(out: &mut [u8], to: usize, s: &[u8], at: usize, l: Laid, follow: usize) -> usize
    requires { Spans s.now at l.end l.next × (to + length (text_laid s.now at follow l ++ crlf) ≤ length out.old) }
    ensures { Puts out.old to (text_laid s.now at follow l ++ crlf) out.new result }
{
    let end = put_laid(out, to, s, at, l, follow);
    writer::put_text(out, end, b"\r\n")
}

// What was done to a line is listed, where anything was.
fn note(kinds: &mut [u8], lines: &mut [u32], i: usize, done: Option<Kind>, line: u32) -> usize
    requires { (i + length (kinds_of done) ≤ length kinds.old) × (i + length (kinds_of done) ≤ length lines.old) }
    ensures kinds { Puts kinds.old i (map (λ c. c.kind) (changes_in line (kinds_of done))) kinds.new result }
    ensures lines { Puts lines.old i (map (λ c. c.line) (changes_in line (kinds_of done))) lines.new result }
{
    let Some(kind) = done else {
        return i;
    };
    kinds[i] = kind as u8;
    lines[i] = line;
    i + 1
}

// The mended log and the list, for which there is room.
fn put_lines(s: &[u8], total: usize, out: &mut [u8], kinds: &mut [u8], lines: &mut [u32])
    requires total_value { (total ≡ length (lines_at s.now 0)) × (length s.now ≤ base.longest_log) × (total ≤ length s.now) }
    requires s_in_bounds { (length (mended_text s.now) ≤ length out.old) × (length (changes s.now) ≤ length kinds.old) × (length (changes s.now) ≤ length lines.old) }
    ensures text { out.new ≡ over (mended_text s.now) out.old }
    ensures kinds { kinds.new ≡ over (map (λ c. c.kind) (changes s.now)) kinds.old }
    ensures lines { lines.new ≡ over (map (λ c. c.line) (changes s.now)) lines.old }
{
    let mut region = Region::Head;
    let mut at = 0;
    let mut line: u32 = 1;
    let mut follow = total;
    let mut to = 0;
    let mut i = 0;
    while at < s.len() {
        follow -= 1;
        let l = lay(s, at, region, follow);
        to = put_line(out, to, s, at, l, follow);
        i = note(kinds, lines, i, l.first, line);
        i = note(kinds, lines, i, l.second, line);
        region = l.region;
        at = l.next;
        line += 1;
    }
}

// # The answer

// A number whose line and field are 0.
fn refuse(number: u32) -> Result<Mended, Refusal>
    ensures { result ≡ Err (refusal number 0 0) }
{
    Err(rules::refused(number))
}

// A log that is accepted as it is comes out unchanged, with an empty list.
fn keep(log: &[u8], out: &mut [u8]) -> Result<Mended, Refusal>
    ensures answer { result ≡ kept_as log.now out.old }
    ensures slice { out.new ≡ kept_in log.now out.old }
{
    if out.len() < log.len() {
        return refuse(8);
    }
    Ok(Mended {
        length: writer::put_text(out, 0, log),
        changes: 0,
    })
}

// The mended log is handed over where it is accepted and there is room for it and for the list.
fn rework(
    log: &[u8],
    out: &mut [u8],
    kinds: &mut [u8],
    lines: &mut [u32],
) -> Result<Mended, Refusal>
    requires { length log.now ≤ base.longest_log }
    ensures { Mends base log.now result out.old kinds.old lines.old out.new kinds.new lines.new }
{
    let total = line_count(log);
    match check(log, total) {
        Err(r) => {
            if rules::longest_log() < measure(log, total) {
                return refuse(1);
            }
            Err(r)
        }
        Ok(mended) => {
            if rules::longest_log() < mended.length {
                return refuse(1);
            }
            if kinds.len() < mended.changes || lines.len() < mended.changes {
                return refuse(10);
            }
            if out.len() < mended.length {
                return refuse(8);
            }
            put_lines(log, total, out, kinds, lines);
            Ok(mended)
        }
    }
}

// Mends a chewed log: the result is laid over the front of `out`, and each thing that was changed in a line is listed, by its kind, 1 to 4, and the
// number of the line. On a refusal nothing is changed.
pub fn mend(
    log: &[u8],
    out: &mut [u8],
    kinds: &mut [u8],
    lines: &mut [u32],
) -> Result<Mended, Refusal>
    ensures answer { result ≡ mended_by (mend base (rooms_of out.old kinds.old lines.old) log.now) }
    ensures text { out.new ≡ over (bytes_of_mending (mend base (rooms_of out.old kinds.old lines.old) log.now)) out.old }
    ensures kinds { kinds.new ≡ over (kinds_of_mending (mend base (rooms_of out.old kinds.old lines.old) log.now)) kinds.old }
    ensures lines { lines.new ≡ over (lines_of_mending (mend base (rooms_of out.old kinds.old lines.old) log.now)) lines.old }
{
    if rules::longest_log() < log.len() {
        return refuse(1);
    }
    match reader::read(log) {
        Ok(_) => keep(log, out),
        Err(_) => rework(log, out, kinds, lines),
    }
}
