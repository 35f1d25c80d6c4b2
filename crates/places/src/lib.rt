// Where the lines of a log lie: views, and what it declares.

#![tactic(auto)]

ghost use Rattle.std.specs.Prelude.{◌≡◌, ◌+◌, ◌≤◌, min, drop, length};
ghost use Rattle.rules.specs.Text.{allowed, begins, span};
ghost use Rattle.rules.specs.Rules.{base};
ghost use Rattle.rules.specs.Arguments.{bonus, multiplier, part};
ghost use Rattle.rules.specs.Answers.{start_of_view, view, viewed};
ghost use Rattle.fields.specs.Field.{text_at};
ghost use Rattle.header.specs.Header.{listed_at};
ghost use Rattle.reader.specs.Contact.{value_by};
ghost use Rattle.places.specs.Places.{declared_at, line_start, line_text_at, part_seen, view_of};

use figures::{bonus_of, multiplier_of, value_of};
use reader::{allowed_run, field_end};
use rules::Refusal;

// The bonuses and multipliers that a log declares.
#[repr(C)]
#[derive(Clone, Copy)]
pub struct Declared {
    pub squarebonus: u64,
    pub squaremultiplier: u64,
    pub exchangebonus: u64,
    pub exchangemultiplier: u64,
    pub countrybonus: u64,
    pub countrymultiplier: u64,
}

// The place of the line behind the one that begins here, or the log's end where there is none.
fn next_line(s: &[u8], at: usize) -> usize
    ensures { result ≡ min (at + span allowed (drop at s.now) + 2) (length s.now) }
{
    allowed_run(s, at).saturating_add(2).min(s.len())
}

// The place of the line behind so many lines, or the log's end where there are not so many.
fn line_start(s: &[u8], i: usize) -> usize
    ensures { result ≡ min (line_start s.now i) (length s.now) }
{
    let mut at = 0;
    for _ in 0..i {
        at = next_line(s, at);
    }
    at
}

// The bonus and the multiplier of one of the three arguments that have them.
#[derive(Clone, Copy)]
pub struct Rates {
    pub bonus: u64,
    pub multiplier: u64,
}

// The argument begins behind the six characters of its keyword and `=`; its first part, a count, is passed over. Three lines of a log are asked for it:
// it stays outside the link, through which every line goes, since each would pay for it there, in time and in stack.
#[inline(never)]
pub fn rates_of(line: &[u8]) -> Rates
    ensures bonus { result.bonus ≡ value_by (bonus base) (part 1 (drop 6 line.now)) }
    ensures multiplier { result.multiplier ≡ value_by (multiplier base) (part 2 (drop 6 line.now)) }
{
    let second = field_end(line, 6) + 1;
    let third = field_end(line, second) + 1;
    Rates {
        bonus: value_of(bonus_of(line, second)),
        multiplier: value_of(multiplier_of(line, third)),
    }
}

fn rates_at(s: &[u8], at: usize) -> Rates
    requires { at ≤ length s.now }
    ensures bonus { result.bonus ≡ value_by (bonus base) (part 1 (drop 6 (line_text_at s.now at))) }
    ensures multiplier { result.multiplier ≡ value_by (multiplier base) (part 2 (drop 6 (line_text_at s.now at))) }
{
    let end = allowed_run(s, at);
    rates_of(&s[at..end])
}

// The bonuses and multipliers of CWWLs, CExcs and CDXCs, by the place where the claims begin: the first of these three stands two lines behind
// it, and each of the others two lines behind the last.
pub fn declared_at(s: &[u8], claims: usize) -> Declared
    ensures { result ≡ declared_at base s.now claims }
{
    let squares = next_line(s, next_line(s, claims));
    let exchanges = next_line(s, next_line(s, squares));
    let countries = next_line(s, next_line(s, exchanges));
    let forsquares = rates_at(s, squares);
    let forexchanges = rates_at(s, exchanges);
    let forcountries = rates_at(s, countries);
    Declared {
        squarebonus: forsquares.bonus,
        squaremultiplier: forsquares.multiplier,
        exchangebonus: forexchanges.bonus,
        exchangemultiplier: forexchanges.multiplier,
        countrybonus: forcountries.bonus,
        countrymultiplier: forcountries.multiplier,
    }
}

// What a view shows: the argument's part of an accepted log.
#[derive(Clone, Copy)]
pub struct Seen {
    pub start: usize,
    pub length: usize,
    // The keyword is spelt as it is listed.
    pub listed: bool,
}

// A line begins with the keyword that comes after so many, spelt as it is listed.
fn is_listed(k: usize, line: &[u8]) -> bool
    ensures { result ≡ begins (listed_at k) line.now }
{
    let word = header::listed(k);
    header::begins_with(&word, line)
}

// The part behind the keyword and its `=` of the line behind so many lines, and how the keyword is spelt.
fn argument_part(log: &[u8], k: usize) -> Seen
    requires { 1 ≤ k }
    ensures { result ≡ part_seen k log.now (min (line_start log.now k) (length log.now)) }
{
    let at = line_start(log, k);
    let end = allowed_run(log, at);
    let listed = is_listed(k - 1, &log[at..end]);
    let start = at + 6;
    Seen {
        start,
        length: end.saturating_sub(start),
        listed,
    }
}

// The view of a keyword, by its number, 1 to 36, or why there is none.
pub fn view(log: &[u8], k: usize) -> Result<Seen, Refusal>
    ensures { result ≡ view_of base k log.now }
{
    if !(1..=36).contains(&k) {
        return Err(rules::refused(9));
    }
    reader::read(log)?;
    Ok(argument_part(log, k))
}

// The part of the log that a view shows, where it lies: nothing, at the front, where there is none.
pub fn viewed(log: &[u8], k: usize) -> &[u8]
    ensures text { result.now ≡ viewed (view base k log.now) }
    ensures block { result.ref_ptr.0 ≡ log.entry.ref_ptr.0 }
    ensures place { result.ref_ptr.1 ≡ log.entry.ref_ptr.1 + start_of_view (view base k log.now) }
{
    match view(log, k) {
        Err(_) => &log[0..0],
        Ok(seen) => &log[seen.start..seen.start + seen.length],
    }
}
