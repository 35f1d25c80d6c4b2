// The reader of logs: lines, the one record reader, what is due at each line, and the answers that the floors above ask for.

#![tactic(auto)]

ghost use Rattle.std.specs.Prelude.{◌≡◌, true, ◌+◌, ◌≤◌, drop, length, set, Err};
ghost use Rattle.rules.specs.Text.{allowed, begins, same, span};
ghost use Rattle.rules.specs.Rules.{base};
ghost use Rattle.rules.specs.Fields.{error_call};
ghost use Rattle.rules.specs.Log.{crlf};
ghost use Rattle.rules.specs.Reading.{count_rule, fault, records_due, step, whole};
ghost use Rattle.header.specs.Header.{argument_of};
ghost use Rattle.fields.specs.Field.{in_field, text_at};
ghost use Rattle.figures.specs.Figure.{number_at};
ghost use Rattle.reader.specs.Line.{line_at, semicolons_in};
ghost use Rattle.reader.specs.Contact.{field_start, last_end};
ghost use Rattle.reader.specs.Record.{broken_at, broken_from, dated_at, parsed_at, record_at, record_on, score_rule};
ghost use Rattle.reader.specs.Read.{after_argument, claims_by, counted_by, early, head_of, read_of, records_told, step_of};
ghost use Rattle.reader.specs.Noted.{contacts_from, contacts_read, listed};

use fields::{Besides, CallField, Digits, Kind, MarkField, run};
use figures::DateRead;
use header::KeywordRead;
use rules::{Due, Fault, Refusal};

// # Lines

pub fn is_allowed(b: u8) -> bool
    ensures { result ≡ allowed b }
{
    matches!(b, 32..=127)
}

pub struct Allowed;

impl Kind for Allowed {
    ghost holds = { λ k. allowed };

    fn has(&self, b: u8) -> bool {
        is_allowed(b)
    }
}

// The place behind the allowed characters from here on, looked at four by four.
pub fn allowed_run(s: &[u8], at: usize) -> usize
    ensures { result ≡ at + span allowed (drop at s.now) }
{
    if s.len() <= at {
        return at;
    }
    let mut i = at;
    while i + 3 < s.len() {
        if !is_allowed(s[i]) {
            return i;
        }
        if !is_allowed(s[i + 1]) {
            return i + 1;
        }
        if !is_allowed(s[i + 2]) {
            return i + 2;
        }
        if !is_allowed(s[i + 3]) {
            return i + 3;
        }
        i += 4;
    }
    run(s, i, &Allowed)
}

// CR LF stand at this place.
pub fn line_ends(s: &[u8], at: usize) -> bool
    ensures { result ≡ begins crlf (drop at s.now) }
{
    at <= s.len() && s[at..].starts_with(b"\r\n")
}

// Where the line that stands at a place ends, before its CR LF.
pub fn line_end(s: &[u8], at: usize) -> Option<usize>
    ensures { result ≡ line_at base s.now at }
{
    let end = allowed_run(s, at);
    if rules::longest_line() < end - at {
        return None;
    }
    if line_ends(s, end) {
        return Some(end);
    }
    None
}

// The place behind the field that begins here: a semicolon stands there, or the line ends.
pub fn field_end(s: &[u8], at: usize) -> usize
    ensures { result ≡ at + span in_field (drop at s.now) }
{
    run(s, at, &Besides(b';'))
}

// How many semicolons a line has.
#[tactic(auto, using(crate::proofs::CountLaws::semicolons_by))]
pub fn semicolons(line: &[u8]) -> usize
    ensures { result ≡ semicolons_in line.now }
{
    line.iter().filter(|b| **b == b';').count()
}

// # The record reader

// Where the parts of a record begin and end, what they say, and where the record ends.
#[derive(Clone, Copy)]
pub struct Contact {
    pub call: usize,
    pub callend: usize,
    pub exchange: usize,
    pub exchangeend: usize,
    pub locator: usize,
    pub locatorend: usize,
    pub points: usize,
    pub pointsend: usize,
    pub worth: u64,
    pub error: bool,
    pub country: bool,
    pub end: usize,
}

// The call of the third field from this place on is ERROR, whatever stands in front of it.
fn third_is_error(s: &[u8], at: usize) -> bool
    requires { at ≤ length s.now }
    ensures { result ≡ same (text_at s.now (field_start s.now at 2)) error_call }
{
    let first = field_end(s, at);
    let second = field_end(s, first + 1);
    let Some(call) = fields::call(s, second + 1) else {
        return false;
    };
    call.error
}

// Where the date of a record ends, if it may stand there: only an ERROR record may leave it empty.
fn dated(s: &[u8], at: usize) -> Option<usize>
    requires { at ≤ length s.now }
    ensures { result ≡ dated_at s.now at }
{
    let read = figures::date(s, at);
    match read {
        DateRead::Date(end) => Some(end),
        DateRead::Bad => None,
        DateRead::Empty => {
            if third_is_error(s, at) {
                return Some(at);
            }
            None
        }
    }
}

// The points of a record, if they may stand there: an ERROR record has none.
fn scored(s: &[u8], at: usize, error: bool) -> Option<(u64, usize)>
    ensures { result ≡ number_at (score_rule base error) s.now at }
{
    let Some((worth, end)) = figures::points(s, at) else {
        return None;
    };
    if !error {
        return Some((worth, end));
    }
    if worth == 0 {
        return Some((worth, end));
    }
    None
}

// The end of the last field, behind which no semicolon stands.
fn last_end(s: &[u8], at: usize) -> usize
    ensures { result ≡ last_end s.now at }
{
    if s.len() <= at {
        return at;
    }
    if s[at] != 68 {
        return at;
    }
    at + 1
}

// The fields of a record where they lie, or the first of the fourteen in front that breaks its rule. What stands behind the last is for the
// caller to look at. Each field is taken where the one before it ends: a field that cannot be read stops the line there.
pub fn parse(s: &[u8], at: usize) -> Result<Contact, u32>
    ensures { result ≡ parsed_at base s.now at }
{
    if s.len() <= at {
        return Err(1);
    }
    let Some(date) = dated(s, at) else {
        return Err(1);
    };
    let Some((_, time)) = figures::time(s, date + 1) else {
        return Err(2);
    };
    let call = time + 1;
    let Some(
        CallField {
            end: callend,
            error,
        },
    ) = fields::call(s, call)
    else {
        return Err(3);
    };
    let Some(mode) = fields::mode(s, callend + 1) else {
        return Err(4);
    };
    let Some(sent) = fields::report(s, mode + 1) else {
        return Err(5);
    };
    let Some(sentnumber) = fields::serial(s, sent + 1) else {
        return Err(6);
    };
    let Some(received) = fields::report(s, sentnumber + 1) else {
        return Err(7);
    };
    let Some(receivednumber) = fields::serial(s, received + 1) else {
        return Err(8);
    };
    let exchange = receivednumber + 1;
    let Some(exchangeend) = fields::exchange(s, exchange) else {
        return Err(9);
    };
    let locator = exchangeend + 1;
    let Some(locatorend) = fields::locator_or_empty(s, locator) else {
        return Err(10);
    };
    let points = locatorend + 1;
    let Some((worth, pointsend)) = scored(s, points, error) else {
        return Err(11);
    };
    let Some(
        MarkField {
            end: newexchange,
            set: _,
        },
    ) = fields::mark(s, pointsend + 1, 78)
    else {
        return Err(12);
    };
    let Some(
        MarkField {
            end: newsquare,
            set: _,
        },
    ) = fields::mark(s, newexchange + 1, 78)
    else {
        return Err(13);
    };
    let Some(
        MarkField {
            end: newcountry,
            set: country,
        },
    ) = fields::mark(s, newsquare + 1, 78)
    else {
        return Err(14);
    };
    let end = last_end(s, newcountry + 1);
    Ok(Contact {
        call,
        callend,
        exchange,
        exchangeend,
        locator,
        locatorend,
        points,
        pointsend,
        worth,
        error,
        country,
        end,
    })
}

// Why a line is refused whose field is bad: the field is told where the number of semicolons is right.
fn broken(line: &[u8], field: u32) -> Fault
    ensures { result ≡ broken_at line.now field }
{
    if semicolons(line) == 14 {
        return Fault { number: 5, field };
    }
    Fault {
        number: 5,
        field: 0,
    }
}

// A record line by itself: where its parts lie, or why it is none.
pub fn record(line: &[u8]) -> Result<Contact, Fault>
    ensures { result ≡ record_on base line.now }
{
    match parse(line, 0) {
        Err(field) => Err(broken(line, field)),
        Ok(c) => {
            if c.end == line.len() {
                return Ok(c);
            }
            Err(broken(line, 15))
        }
    }
}

// Why no record stands at this place of a log, where this would be the first bad field of its line.
fn broken_at(s: &[u8], at: usize, field: u32) -> Fault
    ensures { result ≡ broken_from base s.now at field }
{
    let Some(end) = line_end(s, at) else {
        if at < s.len() {
            return Fault {
                number: 2,
                field: 0,
            };
        }
        return Fault {
            number: 6,
            field: 0,
        };
    };
    broken(&s[at..end], field)
}

// The record that is due at a place of a log. Where fifteen fields are right and CR LF stand behind them, they are a line.
pub fn record_at(s: &[u8], at: usize) -> Result<Contact, Fault>
    ensures { result ≡ record_at base s.now at }
{
    let field = match parse(s, at) {
        Err(bad) => bad,
        Ok(c) => {
            if line_ends(s, c.end) {
                return Ok(c);
            }
            15
        }
    };
    // asked in one place, since it is the longest way and the rarest
    Err(broken_at(s, at, field))
}

// # The steps

// So many records are due.
fn records_due(n: usize) -> Due
    ensures { result ≡ records_due n }
{
    if n == 0 {
        return Due::End;
    }
    Due::Record(n)
}

// A line is refused, and no field is told.
fn refused(number: u32) -> Result<Due, Fault>
    ensures { result ≡ Err (fault number 0) }
{
    Err(Fault { number, field: 0 })
}

// The count line behind its `[QSORecords;`: a number, and then `]` and no more.
fn count_step(t: &[u8]) -> Result<Due, Fault>
    ensures { result ≡ count_rule base t.now }
{
    let n = run(t, 0, &Digits);
    if !header::same_text(&t[n..], b"]") {
        return refused(4);
    }
    let Some((count, _)) = figures::record_count(&t[..n], 0) else {
        return refused(4);
    };
    Ok(records_due(count as usize))
}

// The argument behind a keyword after so many: it has to keep its rule.
fn argument_step(k: usize, t: &[u8]) -> Result<Due, Fault>
    ensures { result ≡ after_argument k (argument_of base k t.now) }
{
    if !header::argument(k, t) {
        return refused(4);
    }
    if k < 35 {
        return Ok(Due::Keyword(k + 1));
    }
    Ok(Due::Remarks)
}

// What follows from a line, and how many keywords are respelt so far, its own too.
#[derive(Clone, Copy)]
pub struct Stepped {
    pub next: Result<Due, Fault>,
    pub respelt: usize,
}

// A keyword's line after so many keywords: the keyword in either letter case and its `=`, and the argument.
fn keyword_step(k: usize, line: &[u8], respelt: usize) -> Stepped
    requires { respelt ≤ base.longest_log }
    ensures { result ≡ step_of base respelt (Due.Keyword k) line.now }
{
    let count = match header::keyword(k, line) {
        KeywordRead::Listed => respelt,
        KeywordRead::Respelt => respelt + 1,
        KeywordRead::Differs => {
            return Stepped {
                next: refused(3),
                respelt,
            };
        }
    };
    Stepped {
        next: argument_step(k, &line[6..]),
        respelt: count,
    }
}

// A line that has to be these words and no more.
fn whole_step(words: &[u8], line: &[u8], next: Due) -> Result<Due, Fault>
    ensures { result ≡ whole words.now line.now next }
{
    if header::same_text(line, words) {
        return Ok(next);
    }
    refused(3)
}

// A remark, or the count line.
fn remark_step(line: &[u8]) -> Result<Due, Fault>
    ensures { result ≡ step base Due.Remark line.now }
{
    if header::begins_with(b"[QSORecords;", line) {
        return count_step(&line[12..]);
    }
    Ok(Due::Remark)
}

// A record, of which there are so many from here on.
fn record_step(n: usize, line: &[u8]) -> Result<Due, Fault>
    ensures { result ≡ step base (Due.Record n) line.now }
{
    record(line)?;
    Ok(records_due(n.saturating_sub(1)))
}

// What follows from a line in front of the records. None is due there, so that this needs no record reader.
fn head_step(due: Due, line: &[u8], respelt: usize) -> Stepped
    requires { (early due ≡ true) × (respelt ≤ base.longest_log) }
    ensures { result ≡ step_of base respelt due line.now }
{
    let next = match due {
        Due::Identifier => whole_step(b"[REG1TEST;1]", line, Due::Keyword(0)),
        Due::Keyword(k) => {
            return keyword_step(k, line, respelt);
        }
        Due::Remarks => whole_step(b"[Remarks]", line, Due::Remark),
        Due::Remark => remark_step(line),
        Due::Record(_) | Due::End => refused(6),
    };
    Stepped { next, respelt }
}

// What follows from a line where this is due: what is due next, or the refusal's number and field; and 1 where its keyword is respelt, else 0.
pub fn step(due: Due, line: &[u8]) -> Stepped
    ensures { result ≡ step_of base 0 due line.now }
{
    let next = match due {
        Due::Record(n) => record_step(n, line),
        Due::End => refused(6),
        _ => {
            return head_step(due, line, 0);
        }
    };
    Stepped { next, respelt: 0 }
}

// # A log as a whole

// How many records are due behind the count line; nothing where it is not read yet.
#[tactic(auto, unfolding(crate::specs::Read::counted_by))]
fn counted_by(next: Due) -> Option<usize>
    ensures { result ≡ counted_by next }
{
    match next {
        Due::Record(n) => Some(n),
        Due::End => Some(0),
        _ => None,
    }
}

// Where the claims begin, behind a line where this was due: behind the line of the keyword that comes after 25.
#[tactic(auto, unfolding(crate::specs::Read::claims_by))]
fn claims_by(due: Due, claims: usize, at: usize) -> usize
    ensures { result ≡ claims_by due claims at }
{
    match due {
        Due::Keyword(25) => at,
        _ => claims,
    }
}

// What is told of the header: where the first of the nine claims begins, and how many keywords are not spelt as they are listed.
#[derive(Clone, Copy)]
pub struct Heading {
    pub claims: usize,
    pub respelt: usize,
}

// What is told in front of the records: how many there are, where the first begins, what the header is like, and the first record's line.
#[derive(Clone, Copy)]
pub struct Head {
    pub records: usize,
    pub first: usize,
    pub heading: Heading,
    pub line: u32,
}

fn read_head(log: &[u8]) -> Result<Head, Refusal>
    ensures { result ≡ head_of base log.now }
{
    if rules::longest_log() < log.len() {
        return Err(rules::refused(1));
    }
    let mut due = Due::Identifier;
    let mut claims = 0;
    let mut respelt = 0;
    let mut at = 0;
    let mut line: u32 = 1;
    loop {
        let Some(end) = line_end(log, at) else {
            return Err(rules::refused_at(2, line));
        };
        let stepped = head_step(due, &log[at..end], respelt);
        match stepped.next {
            Err(fault) => {
                return Err(fault.at(line));
            }
            Ok(next) => {
                at = end + 2;
                line += 1;
                if let Some(records) = counted_by(next) {
                    return Ok(Head {
                        records,
                        first: at,
                        heading: Heading { claims, respelt },
                        line,
                    });
                }
                claims = claims_by(due, claims, at);
                respelt = stepped.respelt;
                due = next;
            }
        }
    }
}

// What is told of an accepted log: how many records it has, where the first begins and what its header is like.
#[derive(Clone, Copy)]
pub struct Accepted {
    pub records: usize,
    pub first: usize,
    pub heading: Heading,
}

// A place of the record of this number, from 0, where the list has room for it.
fn note(list: &mut [u16], i: usize, place: usize)
    requires { place ≤ base.longest_log }
    ensures { list.new ≡ set list.old i place }
{
    if i < list.len() {
        list[i] = place as u16;
    }
}

// The records, the first of which begins at a place, on a line of this number.
fn survey_records(
    log: &[u8],
    records: usize,
    first: usize,
    heading: Heading,
    before: u32,
    calls: &mut [u16],
    exchanges: &mut [u16],
    points: &mut [u16],
    pointsends: &mut [u16],
    ends: &mut [u16],
) -> Result<Accepted, Refusal>
    requires { (before ≤ first + 1) × (first ≤ length log.now) × (length log.now ≤ base.longest_log) }
    ensures answer { result ≡ records_told base log.now records first heading records before first }
    ensures calls { calls.new ≡ listed (λ c. c.call) (contacts_from base log.now records first) calls.old }
    ensures exchanges { exchanges.new ≡ listed (λ c. c.exchange) (contacts_from base log.now records first) exchanges.old }
    ensures points { points.new ≡ listed (λ c. c.points) (contacts_from base log.now records first) points.old }
    ensures pointsends { pointsends.new ≡ listed (λ c. c.pointsend) (contacts_from base log.now records first) pointsends.old }
    ensures ends { ends.new ≡ listed (λ c. c.end) (contacts_from base log.now records first) ends.old }
{
    let mut at = first;
    let mut line = before;
    for i in 0..records {
        match record_at(log, at) {
            Err(fault) => {
                return Err(fault.at(line));
            }
            Ok(c) => {
                note(calls, i, c.call);
                note(exchanges, i, c.exchange);
                note(points, i, c.points);
                note(pointsends, i, c.pointsend);
                note(ends, i, c.end);
                at = c.end + 2;
                line += 1;
            }
        }
    }
    if at < log.len() {
        return Err(rules::refused_at(6, line));
    }
    Ok(Accepted {
        records,
        first,
        heading,
    })
}

// Reads a log in one pass, and notes in each list, as far as it goes, one place of each record that it comes to.
pub fn survey(
    log: &[u8],
    calls: &mut [u16],
    exchanges: &mut [u16],
    points: &mut [u16],
    pointsends: &mut [u16],
    ends: &mut [u16],
) -> Result<Accepted, Refusal>
    ensures answer { result ≡ read_of base log.now }
    ensures calls { calls.new ≡ listed (λ c. c.call) (contacts_read base log.now) calls.old }
    ensures exchanges { exchanges.new ≡ listed (λ c. c.exchange) (contacts_read base log.now) exchanges.old }
    ensures points { points.new ≡ listed (λ c. c.points) (contacts_read base log.now) points.old }
    ensures pointsends { pointsends.new ≡ listed (λ c. c.pointsend) (contacts_read base log.now) pointsends.old }
    ensures ends { ends.new ≡ listed (λ c. c.end) (contacts_read base log.now) ends.old }
{
    let told = read_head(log)?;
    survey_records(
        log,
        told.records,
        told.first,
        told.heading,
        told.line,
        calls,
        exchanges,
        points,
        pointsends,
        ends,
    )
}

// Reads a log, with nothing noted.
pub fn read(log: &[u8]) -> Result<Accepted, Refusal>
    ensures { result ≡ read_of base log.now }
{
    survey(log, &mut [], &mut [], &mut [], &mut [], &mut [])
}
