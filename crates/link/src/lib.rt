// The packet link: a log comes in pieces, its lines are read as they come, and its records are judged by what is kept of those before them. The link
// is a few numbers and the unfinished line; verdicts and what is worked lie in slices that are lent to each call.

#![tactic(auto)]

ghost use Rattle.std.specs.Prelude.{◌+◌, ◌-◌, ◌≤◌, ◌<◌, min, true, false, cond, not, [], ◌∷◌, ◌++◌, ◌≡◌, eqb, drop, length, take};
ghost use Rattle.rules.specs.Rules.{base};
ghost use Rattle.rules.specs.Reading.{at_rest, refusal, step};
ghost use Rattle.rules.specs.Link.{is_short};
ghost use Rattle.reader.specs.Contact.{between};
ghost use Rattle.judge.specs.Bounds.{most_worth};
ghost use Rattle.judge.specs.Narrow.{low};
ghost use Rattle.link.specs.Link.{accepted_by, announced, asked, begun, bytes_in, close, counted, declared_in, due_of, feed, finishes, head_goes, head_line, held_as, holding, if_long, is_end, is_open, is_sound, lent_of, line_of, no_rates, overrun, rated_by, record_line, rest_of, stopped_by, taken, unended, went_on, with_record, with_text};
ghost use Rattle.link.specs.Piece.{declares, held_on, is_ended, may_come, next_place, rested_by, run_end, takes_byte};

use judge::Counts;
use places::Declared;
use rules::{Due, Fault, Refusal, Totals};
use session::KeptLine;

// # The state

#[repr(C)]
#[derive(Clone, Copy, Default)]
pub struct Rated {
    pub squarebonus: u16,
    pub squaremultiplier: u16,
    pub exchangebonus: u16,
    pub exchangemultiplier: u16,
    pub countrybonus: u16,
    pub countrymultiplier: u16,
}

#[repr(C)]
#[derive(Clone, Copy)]
pub struct Link {
    pub refusal: Refusal,
    pub count: u32,
    pub lines: u32,
    pub points: u32,
    pub counts: Counts,
    pub rated: Rated,
    pub records: u16,
    pub done: u16,
    pub stage: u16,
    pub held: u16,
    pub returned: u8,
    pub line: [u8; rules::LONGEST_LINE],
}

// The stage where records are due.
const RECORDS: u16 = 39;

#[tactic(auto, unfolding(crate::specs::Link::no_rates))]
fn no_rates() -> Rated
    ensures { result ≡ no_rates }
{
    Rated::default()
}

// A refusal is kept, and nothing else.
#[tactic(auto, using(crate::proofs::StateLaws::stopped_bare))]
fn stopped(number: u32, line: u32, field: u32) -> Link
    ensures { result ≡ stopped_by (refusal number line field) }
{
    Link {
        refusal: Fault { number, field }.at(line),
        count: 0,
        lines: 0,
        points: 0,
        counts: judge::no_counts(),
        rated: no_rates(),
        records: 0,
        done: 0,
        stage: 0,
        held: 0,
        returned: 0,
        line: [0u8; rules::LONGEST_LINE],
    }
}

// A link to which nothing came yet.
pub fn opened() -> Link
    ensures { result ≡ stopped_by (refusal 0 0 0) }
{
    stopped(0, 0, 0)
}

// A refusal at the line that is coming.
#[tactic(auto, using(crate::proofs::TestLaws::log_fits))]
fn stopped_here(s: Link, number: u32, field: u32) -> Link
    requires { s.lines ≤ base.longest_log }
    ensures { result ≡ stopped_by (refusal number (line_of s) field) }
{
    stopped(number, s.lines + 1, field)
}

// The last two bytes of a number.
fn low(n: u64) -> u16
    ensures { result ≡ low n }
{
    (n % 65536) as u16
}

#[tactic(auto, unfolding(crate::specs::Link::declared_in))]
fn declared_of(r: Rated) -> Declared
    ensures { result ≡ declared_in r }
{
    Declared {
        squarebonus: u64::from(r.squarebonus),
        squaremultiplier: u64::from(r.squaremultiplier),
        exchangebonus: u64::from(r.exchangebonus),
        exchangemultiplier: u64::from(r.exchangemultiplier),
        countrybonus: u64::from(r.countrybonus),
        countrymultiplier: u64::from(r.countrymultiplier),
    }
}

// # What is due

#[tactic(auto, using(crate::proofs::StateLaws::due_laws))]
fn due_of(s: Link) -> Due
    ensures { result ≡ due_of s }
{
    match s.stage {
        0 => Due::Identifier,
        1..=36 => Due::Keyword(s.stage as usize - 1),
        37 => Due::Remarks,
        38 => Due::Remark,
        _ if s.done < s.records => Due::Record((s.records - s.done) as usize),
        _ => Due::End,
    }
}

// Nothing more is due.
#[tactic(auto, using(crate::proofs::StateLaws::end_late, crate::proofs::StateLaws::end_early))]
fn is_complete(s: Link) -> bool
    ensures { result ≡ is_end (due_of s) }
{
    RECORDS <= s.stage && s.records <= s.done
}

// The slices are long enough for the records that are announced.
#[tactic(auto, using(crate::proofs::StateLaws::enough_early, crate::proofs::StateLaws::enough_not, crate::proofs::StateLaws::enough_worked))]
fn lends_enough(s: Link, verdicts: usize, worked: usize) -> bool
    ensures { result ≡ not (is_short (lent_of verdicts worked) (announced s)) }
{
    if s.stage < RECORDS {
        return true;
    }
    let n = s.records as usize;
    n <= verdicts && n * session::WORKED_BYTES <= worked
}

// No number runs over in this state.
#[tactic(auto, unfolding(crate::specs::Link::is_sound, rules::specs::Log::conjunction))]
fn is_sound(s: Link) -> bool
    ensures { result ≡ is_sound base s }
{
    s.count as usize <= rules::longest_log()
        && s.lines <= s.count
        && s.held as usize <= rules::LONGEST_LINE
}

// # A finished line

// The line of CWWLs, CExcs or CDXCs is due.
#[tactic(auto, unfolding(crate::specs::Piece::declares))]
fn declares(stage: u16) -> bool
    ensures { result ≡ declares stage }
{
    matches!(stage, 29 | 31 | 33)
}

// What is declared behind a line.
fn rated_by(s: Link, line: &[u8]) -> Rated
    ensures { result ≡ rated_by base (due_of s) line.now s.rated }
{
    let mut r = s.rated;
    if !declares(s.stage) {
        return r;
    }
    let rates = places::rates_of(line);
    let bonus = low(rates.bonus);
    let multiplier = low(rates.multiplier);
    match s.stage {
        29 => {
            r.squarebonus = bonus;
            r.squaremultiplier = multiplier;
        }
        31 => {
            r.exchangebonus = bonus;
            r.exchangemultiplier = multiplier;
        }
        _ => {
            r.countrybonus = bonus;
            r.countrymultiplier = multiplier;
        }
    }
    r
}

// A line in front of the records is taken, and this is the next stage; N and how many records are taken, too.
#[tactic(auto, using(crate::proofs::TestLaws::log_fits, crate::proofs::TakenLaws::went_by))]
fn went_on(s: Link, line: &[u8], stage: u16, records: u16, done: u16) -> Link
    requires { s.lines ≤ base.longest_log }
    ensures { result ≡ went_on base s line.now stage records done }
{
    Link {
        lines: s.lines + 1,
        rated: rated_by(s, line),
        records,
        done,
        stage,
        held: 0,
        returned: 0,
        line: [0u8; rules::LONGEST_LINE],
        ..s
    }
}

// The count line is read.
fn announced(s: Link, line: &[u8], n: usize, verdicts: usize, worked: usize) -> Link
    requires { s.lines ≤ base.longest_log }
    ensures { result ≡ if_long (lent_of verdicts worked) (went_on base s line.now 39 (low n) 0) }
{
    let t = went_on(s, line, RECORDS, low(n as u64), 0);
    if lends_enough(t, verdicts, worked) {
        return t;
    }
    stopped(7, 0, 0)
}

fn head_goes(s: Link, line: &[u8], next: Due, verdicts: usize, worked: usize) -> Link
    requires { s.lines ≤ base.longest_log }
    ensures { result ≡ head_goes base (lent_of verdicts worked) s line.now next }
{
    match next {
        Due::Identifier => went_on(s, line, 0, s.records, s.done),
        Due::Keyword(k) => went_on(s, line, low(k as u64 % 65536 + 1), s.records, s.done),
        Due::Remarks => went_on(s, line, 37, s.records, s.done),
        Due::Remark => went_on(s, line, 38, s.records, s.done),
        Due::Record(n) => announced(s, line, n, verdicts, worked),
        Due::End => announced(s, line, 0, verdicts, worked),
    }
}

// A line in front of the records.
fn head_line(s: Link, line: &[u8], verdicts: usize, worked: usize) -> Link
    requires { s.lines ≤ base.longest_log }
    ensures { result ≡ head_line base (lent_of verdicts worked) s line.now }
{
    match reader::step(due_of(s), line).next {
        Err(fault) => stopped_here(s, fault.number, fault.field),
        Ok(next) => head_goes(s, line, next, verdicts, worked),
    }
}

// The state with one record more.
#[tactic(auto, using(crate::proofs::TestLaws::log_fits, crate::proofs::TestLaws::worth_fits, crate::proofs::TakenLaws::record_by))]
fn with_record(s: Link, k: KeptLine) -> Link
    requires { (s.lines ≤ base.longest_log) × (s.done < s.records) × (k.worth ≤ most_worth base) }
    ensures { result ≡ with_record s k.worth k.mode k.number }
{
    let after = judge::counted_more(s.points, s.counts, k.worth as u32, k.mode, k.number);
    Link {
        lines: s.lines + 1,
        points: after.points,
        counts: after.counts,
        done: s.done + 1,
        held: 0,
        returned: 0,
        line: [0u8; rules::LONGEST_LINE],
        ..s
    }
}

// A record's line: its verdict and what is worked are written behind those of the records before it.
fn record_line(s: Link, line: &[u8], verdicts: &mut [u8], worked: &mut [u8]) -> Link
    requires { (s.lines ≤ base.longest_log) × (s.done < s.records) }
    ensures answer { result ≡ (record_line base (holding s verdicts.old worked.old) line.now).link }
    ensures verdicts { verdicts.new ≡ (record_line base (holding s verdicts.old worked.old) line.now).verdicts }
    ensures worked { worked.new ≡ (record_line base (holding s verdicts.old worked.old) line.now).worked }
{
    let n = s.done as usize;
    // the refusal is told first, so that the state with a record more is laid down once
    let k = match session::keep_line(line, n, session::WORKED_BYTES, verdicts, worked) {
        Ok(k) => k,
        Err(fault) => {
            return stopped_here(s, fault.number, fault.field);
        }
    };
    with_record(s, k)
}

// A line is finished: its LF came.
fn finished(s: Link, line: &[u8], verdicts: &mut [u8], worked: &mut [u8]) -> Link
    requires { (s.lines ≤ base.longest_log) × (is_end (due_of s) ≡ false) }
    ensures answer { result ≡ (finishes base (holding s verdicts.old worked.old) line.now).link }
    ensures verdicts { verdicts.new ≡ (finishes base (holding s verdicts.old worked.old) line.now).verdicts }
    ensures worked { worked.new ≡ (finishes base (holding s verdicts.old worked.old) line.now).worked }
{
    if s.stage < RECORDS {
        return head_line(s, line, verdicts.len(), worked.len());
    }
    record_line(s, line, verdicts, worked)
}

// A line is finished whose last characters lie in the piece: it is read where it lies, and only where some of it is held those come in front.
fn joined(
    s: Link,
    bytes: &[u8],
    at: usize,
    end: usize,
    verdicts: &mut [u8],
    worked: &mut [u8],
) -> Link
    requires { (s.lines ≤ base.longest_log) × (is_end (due_of s) ≡ false) × (at ≤ end) × (end ≤ length bytes.now) × (s.held + (end - at) ≤ 75) }
    ensures answer { result ≡ (finishes base (holding s verdicts.old worked.old) (begun s ++ between bytes.now at end)).link }
    ensures verdicts { verdicts.new ≡ (finishes base (holding s verdicts.old worked.old) (begun s ++ between bytes.now at end)).verdicts }
    ensures worked { worked.new ≡ (finishes base (holding s verdicts.old worked.old) (begun s ++ between bytes.now at end)).worked }
{
    let held = s.held as usize;
    if held == 0 {
        return finished(s, &bytes[at..end], verdicts, worked);
    }
    let mut line = s.line;
    let long = writer::put_text(&mut line, held, &bytes[at..end]);
    finished(s, &line[..long], verdicts, worked)
}

// # A piece

// Where the characters end that come behind those that are held: none do behind a CR.
#[tactic(auto, unfolding(crate::specs::Piece::run_end))]
fn run_end(returned: u8, bytes: &[u8], at: usize) -> usize
    requires { at ≤ length bytes.now }
    ensures { result ≡ run_end returned bytes.now at }
{
    if returned == 0 {
        reader::allowed_run(bytes, at)
    } else {
        at
    }
}

// A line ends there, of which so many characters are held, and the CR or not.
#[tactic(auto, using(crate::proofs::TestLaws::line_long), unfolding(crate::specs::Piece::is_ended))]
fn is_ended(held: usize, returned: u8, bytes: &[u8], at: usize, end: usize) -> bool
    requires { (at < length bytes.now) × (at ≤ end) × (end ≤ length bytes.now) × (held ≤ 75) }
    ensures { result ≡ is_ended base held returned bytes.now at end }
{
    if returned != 0 {
        return bytes[at] == 10;
    }
    held + (end - at) <= rules::LONGEST_LINE && reader::line_ends(bytes, end)
}

// Where the next line begins.
#[tactic(auto, using(crate::proofs::TestLaws::log_fits), unfolding(crate::specs::Piece::next_place))]
fn behind(returned: u8, end: usize) -> usize
    requires { end ≤ base.longest_log }
    ensures { result ≡ next_place returned end }
{
    if returned == 0 { end + 2 } else { end + 1 }
}

// The piece may be the front of a line, or go behind one: characters, and behind them a CR or nothing.
#[tactic(auto, using(crate::proofs::TestLaws::line_long), unfolding(crate::specs::Piece::may_come))]
fn may_come(held: usize, bytes: &[u8], at: usize, end: usize) -> bool
    requires { (at ≤ end) × (end ≤ length bytes.now) × (held ≤ 75) }
    ensures { result ≡ may_come base held bytes.now at end }
{
    held + (end - at) <= rules::LONGEST_LINE
        && (end == bytes.len() || bytes[end] == 13 && end + 1 == bytes.len())
}

// 1 where a byte stands there, and else 0.
fn one_if_more(bytes: &[u8], end: usize) -> u8
    ensures { result ≡ cond (eqb end (length bytes.now)) 0 1 }
{
    u8::from(end != bytes.len())
}

// The state with another unfinished line.
fn held_as(s: Link, held: u16, returned: u8, line: [u8; rules::LONGEST_LINE]) -> Link
    ensures { result ≡ held_as held returned line s }
{
    Link {
        held,
        returned,
        line,
        ..s
    }
}

// What is left of a piece is held, or it is refused. Bytes that are too many for the log may be behind it.
fn held_on(s: Link, bytes: &[u8], at: usize, end: usize, over: bool) -> Link
    requires { (s.lines ≤ base.longest_log) × (at ≤ end) × (end ≤ length bytes.now) × (s.held ≤ 75) }
    ensures { result ≡ held_on base s bytes.now at end over }
{
    if s.returned != 0 {
        return stopped_here(s, 2, 0);
    }
    let held = s.held as usize;
    if !may_come(held, bytes, at, end) {
        return stopped_here(s, 2, 0);
    }
    if over {
        return stopped(1, 0, 0);
    }
    let mut line = s.line;
    let long = writer::put_text(&mut line, held, &bytes[at..end]);
    held_as(s, low(long as u64), one_if_more(bytes, end), line)
}

// So many bytes more came.
#[tactic(auto, using(crate::proofs::TestLaws::log_fits), unfolding(crate::specs::Link::counted))]
fn counted(s: Link, n: usize) -> Link
    requires { (s.count ≤ base.longest_log) × (n ≤ base.longest_log) }
    ensures { result ≡ counted n s }
{
    Link {
        count: s.count + n as u32,
        ..s
    }
}

// How many of so many bytes a log has room for that has so many.
fn room_for(count: u32, bytes: usize) -> usize
    requires { count ≤ base.longest_log }
    ensures { result ≡ min bytes (base.longest_log - count) }
{
    bytes.min(rules::longest_log() - count as usize)
}

// One byte is put behind those that are held.
#[tactic(auto, using(crate::proofs::TestLaws::line_long), unfolding(crate::specs::Piece::takes_byte, rules::specs::Log::conjunction))]
fn takes(s: Link, b: u8) -> bool
    ensures { result ≡ takes_byte base s b }
{
    (s.count as usize) < rules::longest_log()
        && !is_complete(s)
        && s.returned == 0
        && (s.held as usize) < rules::LONGEST_LINE
        && reader::is_allowed(b)
}

fn with_byte(s: Link, b: u8) -> Link
    requires { takes_byte base s b ≡ true }
    ensures { result ≡ counted 1 (with_text (b ∷ []) s) }
{
    let mut line = s.line;
    line[s.held as usize] = b;
    Link {
        count: s.count + 1,
        held: s.held + 1,
        returned: 0,
        line,
        ..s
    }
}

// All bytes of a piece, which are counted already: from line to line, and what is left is held.
fn went(s: Link, bytes: &[u8], over: bool, verdicts: &mut [u8], worked: &mut [u8]) -> Link
    requires { (is_open s ≡ true) × (s.held ≤ 75) × (s.lines + length bytes.now ≤ base.longest_log) }
    ensures answer { result ≡ (overrun over (bytes_in base (holding s verdicts.old worked.old) bytes.now)).link }
    ensures verdicts { verdicts.new ≡ (overrun over (bytes_in base (holding s verdicts.old worked.old) bytes.now)).verdicts }
    ensures worked { worked.new ≡ (overrun over (bytes_in base (holding s verdicts.old worked.old) bytes.now)).worked }
{
    let mut t = s;
    let mut at = 0;
    while at < bytes.len() {
        if is_complete(t) {
            return stopped_here(t, 6, 0);
        }
        let end = run_end(t.returned, bytes, at);
        if !is_ended(t.held as usize, t.returned, bytes, at, end) {
            return held_on(t, bytes, at, end, over);
        }
        let next = behind(t.returned, end);
        t = joined(t, bytes, at, end, verdicts, worked);
        if t.refusal.number != 0 {
            return t;
        }
        at = next;
    }
    if over {
        return stopped(1, 0, 0);
    }
    t
}

// As many bytes are taken as there is room for.
fn taken(s: Link, bytes: &[u8], verdicts: &mut [u8], worked: &mut [u8]) -> Link
    requires { (is_open s ≡ true) × (is_sound base s ≡ true) }
    ensures answer { result ≡ (taken base (holding s verdicts.old worked.old) bytes.now).link }
    ensures verdicts { verdicts.new ≡ (taken base (holding s verdicts.old worked.old) bytes.now).verdicts }
    ensures worked { worked.new ≡ (taken base (holding s verdicts.old worked.old) bytes.now).worked }
{
    let n = room_for(s.count, bytes.len());
    went(
        counted(s, n),
        &bytes[..n],
        n < bytes.len(),
        verdicts,
        worked,
    )
}

// What a call finds: the state as it is, or what it is refused with before anything else.
fn asked(s: Link, verdicts: usize, worked: usize) -> Link
    ensures { result ≡ asked base (lent_of verdicts worked) s }
{
    if s.refusal.number != 0 {
        return s;
    }
    if !is_sound(s) {
        return stopped(13, 0, 0);
    }
    if !lends_enough(s, verdicts, worked) {
        return stopped(7, 0, 0);
    }
    s
}

// Bytes come. One that is put behind others of its line is asked for by itself, so that a link which brings each byte alone costs little.
pub fn fed(s: Link, bytes: &[u8], verdicts: &mut [u8], worked: &mut [u8]) -> Link
    ensures { (result ≡ (feed base (holding s verdicts.old worked.old) bytes.now).link)
        × (verdicts.new ≡ (feed base (holding s verdicts.old worked.old) bytes.now).verdicts)
        × (worked.new ≡ (feed base (holding s verdicts.old worked.old) bytes.now).worked) }
{
    if s.refusal.number != 0 {
        return s;
    }
    if !is_sound(s) {
        return stopped(13, 0, 0);
    }
    if !lends_enough(s, verdicts.len(), worked.len()) {
        return stopped(7, 0, 0);
    }
    if bytes.len() == 1 && takes(s, bytes[0]) {
        return with_byte(s, bytes[0]);
    }
    taken(s, bytes, verdicts, worked)
}

// # Closing

#[derive(Clone, Copy)]
pub struct Closing {
    pub link: Link,
    pub refusal: Refusal,
    pub totals: Totals,
}

// The closing refuses, or repeats a refusal.
#[tactic(auto, using(crate::proofs::StateLaws::unended_by))]
fn unended(s: Link) -> Closing
    ensures { result ≡ unended s }
{
    let refusal = s.refusal;
    Closing {
        link: s,
        refusal,
        totals: judge::no_totals(),
    }
}

// Some bytes are behind the last finished line.
fn has_rest(s: Link) -> bool
    ensures { result ≡ not (eqb (length (rest_of s)) 0) }
{
    s.returned != 0 || s.held != 0
}

// All is there: what it comes to.
fn accepted(s: Link) -> Closing
    ensures { result ≡ accepted_by base s }
{
    Closing {
        link: stopped(13, 0, 0),
        refusal: rules::refused(0),
        totals: judge::totals_kept(judge::sums_of(s.points, s.counts), declared_of(s.rated)),
    }
}

// The state at the end of the bytes: as it is where all is there, and else with what that is refused with.
fn rested(s: Link) -> Link
    requires { s.lines ≤ base.longest_log }
    ensures { result ≡ rested_by s (at_rest (due_of s) (line_of s) (rest_of s)) }
{
    if s.stage < RECORDS {
        return stopped_here(s, 2, 0);
    }
    if s.done < s.records {
        if has_rest(s) {
            return stopped_here(s, 2, 0);
        }
        return stopped_here(s, 6, 0);
    }
    if has_rest(s) {
        return stopped_here(s, 6, 0);
    }
    s
}

// No byte comes any more.
pub fn closed(s: Link, verdicts: &[u8], worked: &[u8]) -> Closing
    ensures { result ≡ close base (lent_of (length verdicts.now) (length worked.now)) s }
{
    let a = asked(s, verdicts.len(), worked.len());
    if a.refusal.number != 0 {
        return unended(a);
    }
    let t = rested(a);
    if t.refusal.number != 0 {
        return unended(t);
    }
    accepted(t)
}
