// The judge of an accepted log: the class and the marks of each record, and what they come to. It looks at no byte but through the places
// that are noted of each record.

#![tactic(auto)]

ghost use Rattle.std.specs.Prelude.{◌+◌, ◌-◌, ◌*◌, ◌/◌, ◌%◌, ◌<◌, ◌≤◌, true, ◌≡◌, eqb, leb, drop, get_or, length, replicate, set, take};
ghost use Rattle.rules.specs.Arguments.{among};
ghost use Rattle.rules.specs.Fields.{empty_or, error_call, locator, new_mark};
ghost use Rattle.rules.specs.Judging.{mode_numbers, modes_together, verdict_number, zero_totals};
ghost use Rattle.rules.specs.Rules.{base};
ghost use Rattle.rules.specs.Session.{declared_rule, rate_rule};
ghost use Rattle.rules.specs.Text.{number_of, same};
ghost use Rattle.fields.specs.Field.{text_at, end_of};
ghost use Rattle.reader.specs.Contact.{between, claimed_at, field_start, value_by};
ghost use Rattle.reader.specs.Noted.{contacts_read, listed};
ghost use Rattle.judge.specs.Bounds.{Addable, Closable};
ghost use Rattle.judge.specs.Count.{add_record, as_declared, closing, mode_place, modes_after, modes_in, no_tally, tallied};
ghost use Rattle.judge.specs.Judge.{judged_of, verdicts_afterwards, weighed_of};
ghost use Rattle.judge.specs.Parts.{Ahead, First, Keyed, Lying, key_of, kept_texts, number_of_square, part_by, seek, square_there};
ghost use Rattle.judge.specs.Said.{class_by, verdict_by};
ghost use Rattle.judge.specs.Narrow.{SmallModes, SmallTally, counted_more, counts_of, modes_of, no_counts, sums_in, tally_in};
ghost use Rattle.judge.specs.Sums.{class_in, counts_more, more_sums, no_sums, records_counted, sound_sums, totals_kept, verdict_in};
ghost use Rattle.judge.specs.Weigh.{Accepts, Listings, Weighable, Weighs};
ghost use Rattle.judge.specs.Step.{Classed, CreditReady, Credits, NewPart, NewSquare, Ready, Steps, class_noted};

use places::Declared;
use reader::{Accepted, Heading};
use rules::{Class, Modes, Refusal, Totals, Verdict};

// # What is said of a record

// The class of a record, by three answers: its call is ERROR, it repeats a credited record, and it claims points.
#[tactic(auto, unfolding(crate::specs::Said::class_by))]
pub fn class_by(error: bool, repeats: bool, claims: bool) -> Class
    ensures { result ≡ class_by error repeats claims }
{
    if error {
        Class::Error
    } else if repeats {
        Class::Duplicate
    } else if claims {
        Class::Credited
    } else {
        Class::Void
    }
}

// What is said of a record, by its class and three answers more: its exchange is new, its square is new, and it claims a country. Marks are of
// credited records alone.
#[tactic(auto, unfolding(crate::specs::Said::verdict_by, rules::specs::Judging::is))]
pub fn verdict_by(class: Class, exchange: bool, square: bool, country: bool) -> Verdict
    ensures { result ≡ verdict_by class exchange square country }
{
    let credited = class == Class::Credited;
    Verdict {
        class,
        exchange: credited && exchange,
        square: credited && square,
        country: credited && country,
    }
}

// The number of a verdict: that of its class, and so much for each mark that is set.
pub fn verdict_number(v: Verdict) -> u8
    ensures { result ≡ verdict_number v }
{
    v.class as u8 + u8::from(v.exchange) * 16 + u8::from(v.square) * 32 + u8::from(v.country) * 64
}

// # Fields and their keys

// Where the field that begins at a place ends, if a semicolon is known to stand behind it.
fn part_end(s: &[u8], at: usize) -> usize
    requires { end_of s.now at < length s.now }
    ensures { result ≡ end_of s.now at }
{
    let mut i = at;
    while s[i] != 59 {
        i += 1;
    }
    i
}

// The part is the call that marks a mistake. Only a part of five bytes is looked at.
fn is_error(s: &[u8], a: usize, e: usize) -> bool
    requires { (a ≤ e) × (e ≤ length s.now) }
    ensures { result ≡ same (between s.now a e) error_call }
{
    e - a == 5 && header::same_text(&s[a..e], b"ERROR")
}

// What the points at a place are worth.
fn worth_at(s: &[u8], at: usize) -> u64
    ensures { result ≡ value_by (number_of base.points_digits) (text_at s.now at) }
{
    figures::value_of(figures::points(s, at))
}

// Where the third mark behind the points begins. It ends within the log.
fn third_mark(s: &[u8], pointsend: usize) -> usize
    requires { field_start s.now (pointsend + 1) 3 ≤ length s.now }
    ensures { (result ≡ field_start s.now (pointsend + 1) 2) × (end_of s.now result < length s.now) }
{
    let second = part_end(s, pointsend + 1) + 1;
    part_end(s, second) + 1
}

// The record whose points end here claims a country: its third mark behind them is set.
fn claims_country(s: &[u8], pointsend: usize) -> bool
    requires { field_start s.now (pointsend + 1) 3 ≤ length s.now }
    ensures { result ≡ same (text_at s.now (field_start s.now (pointsend + 1) 2)) new_mark }
{
    let third = third_mark(s, pointsend);
    part_end(s, third) - third == 1 && s[third] == 78
}

// The record whose points end here claims a D: its last field begins with one.
fn claims_duplicate(s: &[u8], pointsend: usize) -> bool
    requires { field_start s.now (pointsend + 1) 3 ≤ length s.now }
    ensures { result ≡ claimed_at s.now pointsend }
{
    let last = part_end(s, third_mark(s, pointsend)) + 1;
    header::begins_with(b"D", &s[last..])
}

// How many modes there are: ten codes, and none. A code is counted at its own number, and a blank mode last.
pub const MODES: usize = 11;

const BLANK: usize = 10;

// Where a mode is counted, by the character at which its field begins: its code, or the semicolon behind a blank one.
pub fn mode_place(first: u8) -> usize
    ensures { result ≡ mode_place first }
{
    if fields::is_digit(first) {
        (first - 48) as usize
    } else {
        BLANK
    }
}

// The key that a length and two characters make.
fn key_with(n: usize, last: u8, other: u8) -> u16
    requires { n ≤ 15 }
    ensures { result ≡ n * 4096 + last % 64 * 64 + other % 64 }
{
    n as u16 * 4096 + (last % 64) as u16 * 64 + (other % 64) as u16
}

// How many characters a part has and which are the last two, in one number.
fn key_of(s: &[u8], a: usize, e: usize) -> u16
    requires { (a < e) × (e ≤ length s.now) × (e ≤ a + 15) }
    ensures { result ≡ key_of (between s.now a e) }
{
    if e - a == 1 {
        return key_with(1, s[a], s[a]);
    }
    key_with(e - a, s[e - 1], s[e - 2])
}

// The number that two letters and two digits make.
fn square_with(a: u8, b: u8, c: u8, d: u8) -> u16
    requires le_a { (65 ≤ a) × (a ≤ 82) × (65 ≤ b) × (b ≤ 82) }
    requires le_c { (48 ≤ c) × (c ≤ 57) × (48 ≤ d) × (d ≤ 57) }
    ensures { result ≡ (((a - 65) * 18 + (b - 65)) * 10 + (c - 48)) * 10 + (d - 48) + 1 }
{
    (((a - 65) as u16 * 18 + (b - 65) as u16) * 10 + (c - 48) as u16) * 10 + (d - 48) as u16 + 1
}

// The number of the square at a place.
fn square_of(s: &[u8], a: usize) -> u16
    requires { square_there (take 4 (drop a s.now)) ≡ true }
    ensures { result ≡ number_of_square (take 4 (drop a s.now)) }
{
    square_with(s[a], s[a + 1], s[a + 2], s[a + 3])
}

// # What is kept of the credited records, and the search in it

// The lists of keys have a place more than there are records: what is looked for stands behind what is kept, so that a search ends.
const KEYS: usize = rules::MOST_RECORDS + 1;

// The first index from here on at which a key stands. It does stand there somewhere.
fn next_key(keys: &[u16], from: usize, key: u16) -> usize
    requires { Ahead keys.now from key }
    ensures { First keys.now from key result }
{
    let mut k = from;
    while keys[k] != key {
        k += 1;
    }
    k
}

// The n characters from one place on are those from another on.
fn same_run(s: &[u8], a: usize, b: usize, n: usize) -> bool
    requires { (a + n ≤ length s.now) × (b + n ≤ length s.now) }
    ensures { result ≡ same (take n (drop a s.now)) (take n (drop b s.now)) }
{
    header::same_text(&s[a..a + n], &s[b..b + n])
}

// A place that is kept, as an index.
fn wide(x: u16) -> usize
    ensures { (result ≡ x) × (result < 65_536) }
{
    x as usize
}

// The first of the m parts kept that is the same as the part at a place, whose key stands behind the m keys. Parts whose keys differ are passed
// over.
fn find(s: &[u8], places: &[u16], keys: &[u16], m: usize, place: usize) -> Option<usize>
    requires { Lying s.now places.now keys.now m × Keyed s.now place (get_or keys.now m 0) }
    ensures { result ≡ seek s.now places.now keys.now (part_by s.now place (get_or keys.now m 0)) m 0 }
{
    let key = keys[m];
    let n = wide(key / 4096);
    let mut k = 0;
    let at = 'look: loop {
        k = next_key(keys, k, key);
        if m <= k {
            break 'look m;
        }
        if same_run(s, wide(places[k]), place, n) {
            break 'look k;
        }
        k += 1;
    };
    if at < m { Some(at) } else { None }
}

// The part at a place is the same as one of the m parts kept; its key stands behind the m keys.
#[tactic(auto, using(crate::proofs::PartLaws::seek_among))]
fn is_kept(s: &[u8], places: &[u16], keys: &[u16], m: usize, place: usize) -> bool
    requires { Lying s.now places.now keys.now m × Keyed s.now place (get_or keys.now m 0) }
    ensures { result ≡ among (kept_texts s.now places.now keys.now m) (part_by s.now place (get_or keys.now m 0)) }
{
    find(s, places, keys, m, place).is_some()
}

// A part is looked for among the m that are kept, and kept behind them if it is there and new.
fn new_part(s: &[u8], places: &mut [u16], keys: &mut [u16], m: usize, a: usize, e: usize) -> bool
    requires lying { Lying s.now places.old keys.old m × (m < length places.old) × (m + 1 < length keys.old) }
    requires a_le_e { (a ≤ e) × (e ≤ length s.now) × (e ≤ a + 15) × (a < 65_536) }
    ensures { NewPart s.now places.old keys.old m a e result places.new keys.new }
{
    if a == e {
        return false;
    }
    keys[m] = key_of(s, a, e);
    if is_kept(s, places, keys, m, a) {
        return false;
    }
    places[m] = a as u16;
    true
}

// A square is looked for among the m that are kept, and kept behind them if it is there and new: its number stands there already.
fn new_square(s: &[u8], squares: &mut [u16], m: usize, a: usize, e: usize) -> bool
    requires { (m < length squares.old) × (a ≤ e) × (e ≤ length s.now) × (empty_or locator (between s.now a e) ≡ true) }
    ensures { NewSquare squares.old m (take 4 (between s.now a e)) result squares.new }
{
    if a == e {
        return false;
    }
    let number = square_of(s, a);
    squares[m] = number;
    next_key(squares, 0, number) == m
}

// # One record

// What was noted of a record: where its call, its exchange and its points begin, and where these end.
#[derive(Clone, Copy)]
struct Noted {
    call: usize,
    exchange: usize,
    points: usize,
    pointsend: usize,
}

// How many calls, squares and exchanges are kept.
#[derive(Clone, Copy, Default)]
struct Kept {
    calls: usize,
    squares: usize,
    exchanges: usize,
}

// What is said of a record, what it brings and by which mode, and what is kept after it. One that is not credited brings nothing, by no mode.
#[derive(Clone, Copy)]
struct Step {
    verdict: Verdict,
    worth: u64,
    mode: usize,
    kept: Kept,
}

// The class of a record, after those whose calls are kept. Where its call ends is known, and the call's key stands behind the others. A duplicate
// needs points or a claimed D: with neither the call is not looked for.
fn class_of(s: &[u8], p: Noted, end: usize, calls: &[u16], keys: &[u16], m: usize) -> Class
    requires { Classed s.now p end calls.now keys.now m }
    ensures { result ≡ class_noted (kept_texts s.now calls.now keys.now m) s.now p }
{
    if is_error(s, p.call, end) {
        return class_by(true, false, false);
    }
    let points = p.points;
    if s[points] != 48 {
        return class_by(false, is_kept(s, calls, keys, m, p.call), true);
    }
    if !claims_duplicate(s, p.pointsend) {
        return class_by(false, false, false);
    }
    class_by(false, is_kept(s, calls, keys, m, p.call), false)
}

// A credited record, whose mode is known: its marks, what it is worth, and what is kept of it. Its call's key stands behind the others already.
fn credited_next(
    s: &[u8],
    p: Noted,
    mode: usize,
    kept: Kept,
    calls: &mut [u16],
    exchanges: &mut [u16],
    exchangekeys: &mut [u16],
    squares: &mut [u16],
) -> Step
    requires { CreditReady base s.now p kept calls.old exchanges.old exchangekeys.old squares.old }
    ensures { Credits base s.now p mode kept calls.old exchanges.old exchangekeys.old squares.old result calls.new exchanges.new exchangekeys.new squares.new }
{
    let end = part_end(s, p.exchange);
    let exchange = new_part(s, exchanges, exchangekeys, kept.exchanges, p.exchange, end);
    let square = new_square(s, squares, kept.squares, end + 1, p.points - 1);
    let country = claims_country(s, p.pointsend);
    let m = kept.calls;
    calls[m] = p.call as u16;
    let verdict = verdict_by(Class::Credited, exchange, square, country);
    let after = Kept {
        calls: m + 1,
        squares: usize::from(square) + kept.squares,
        exchanges: usize::from(exchange) + kept.exchanges,
    };
    Step {
        verdict,
        worth: worth_at(s, p.points),
        mode,
        kept: after,
    }
}

// One record is judged, and what is to be kept of it is kept.
fn judge_next(
    s: &[u8],
    p: Noted,
    kept: Kept,
    calls: &mut [u16],
    callkeys: &mut [u16],
    exchanges: &mut [u16],
    exchangekeys: &mut [u16],
    squares: &mut [u16],
) -> Step
    requires { Ready base s.now p kept calls.old callkeys.old exchanges.old exchangekeys.old squares.old }
    ensures { Steps base s.now p kept calls.old callkeys.old exchanges.old exchangekeys.old squares.old result calls.new callkeys.new exchanges.new exchangekeys.new squares.new }
{
    let call = p.call;
    let end = part_end(s, call);
    let m = kept.calls;
    callkeys[m] = key_of(s, call, end);
    let class = class_of(s, p, end, calls, callkeys, m);
    if class == Class::Credited {
        let mode = mode_place(s[end + 1]);
        return credited_next(s, p, mode, kept, calls, exchanges, exchangekeys, squares);
    }
    let verdict = verdict_by(class, false, false, false);
    Step {
        verdict,
        worth: 0,
        mode: 0,
        kept,
    }
}

// # The totals

// What the records come to so far, but for their modes. These are counted in a list beside it.
#[repr(C)]
#[derive(Clone, Copy, Default)]
pub struct Tally {
    pub credited: u64,
    pub voids: u64,
    pub duplicates: u64,
    pub errors: u64,
    pub points: u64,
    pub squares: u64,
    pub exchanges: u64,
    pub countries: u64,
}

// The sums after one more credited record; its mode is counted.
fn credited_more(t: Tally, modes: &mut [u64; MODES], worth: u64, mode: usize, v: Verdict) -> Tally
    requires { Addable t modes.old worth mode v × (v.class ≡ Class.Credited) }
    ensures totals { tallied result modes.new ≡ add_record (tallied t modes.old) worth mode v }
    ensures list { modes.new ≡ modes_after modes.old mode v }
{
    modes[mode] = 1 + modes[mode];
    let mut sums = t;
    sums.credited = 1 + t.credited;
    sums.points = worth + t.points;
    sums.squares = u64::from(v.square) + t.squares;
    sums.exchanges = u64::from(v.exchange) + t.exchanges;
    sums.countries = u64::from(v.country) + t.countries;
    sums
}

// What the records come to after one more: what it is worth, its mode, and what is said of it. The bonuses and the total wait for the last record.
fn add_record(t: Tally, modes: &mut [u64; MODES], worth: u64, mode: usize, v: Verdict) -> Tally
    requires { Addable t modes.old worth mode v }
    ensures totals { tallied result modes.new ≡ add_record (tallied t modes.old) worth mode v }
    ensures list { modes.new ≡ modes_after modes.old mode v }
{
    let mut sums = t;
    match v.class {
        Class::Credited => credited_more(t, modes, worth, mode, v),
        Class::Void => {
            sums.voids = 1 + t.voids;
            sums
        }
        Class::Duplicate => {
            sums.duplicates = 1 + t.duplicates;
            sums
        }
        Class::Error => {
            sums.errors = 1 + t.errors;
            sums
        }
    }
}

// The counts in the list, by their names.
#[tactic(auto, unfolding(crate::specs::Count::modes_in))]
pub fn modes_in(n: &[u64; MODES]) -> Modes
    ensures { result ≡ modes_in n.now }
{
    Modes {
        code0: n[0],
        code1: n[1],
        code2: n[2],
        code3: n[3],
        code4: n[4],
        code5: n[5],
        code6: n[6],
        code7: n[7],
        code8: n[8],
        code9: n[9],
        blank: n[10],
    }
}

// The totals of all the records, with what the declared bonuses and multipliers make of them.
fn closed(t: Tally, modes: &[u64; MODES], d: Declared) -> Totals
    requires { Closable base t modes.now d }
    ensures { result ≡ closing (tallied t modes.now) d }
{
    let squares = t.squares * d.squarebonus;
    let exchanges = t.exchanges * d.exchangebonus;
    let countries = t.countries * d.countrybonus;
    let multipliers = d.squaremultiplier * d.exchangemultiplier * d.countrymultiplier;
    Totals {
        credited: t.credited,
        voids: t.voids,
        duplicates: t.duplicates,
        errors: t.errors,
        points: t.points,
        squares: t.squares,
        exchanges: t.exchanges,
        countries: t.countries,
        squarebonus: squares,
        exchangebonus: exchanges,
        countrybonus: countries,
        total: (t.points + squares + exchanges + countries) * multipliers,
        modes: modes_in(modes),
    }
}

#[tactic(auto, unfolding(rules::specs::Judging::zero_totals, rules::specs::Judging::zero_modes))]
pub fn no_totals() -> Totals
    ensures { result ≡ zero_totals }
{
    Totals::default()
}

// The counts of the modes as a list: codes 0 to 9, then blank.
#[tactic(auto, unfolding(rules::specs::Judging::mode_numbers))]
pub fn mode_numbers(m: Modes) -> [u64; MODES]
    ensures { result ≡ mode_numbers m }
{
    [
        m.code0, m.code1, m.code2, m.code3, m.code4, m.code5, m.code6, m.code7, m.code8, m.code9,
        m.blank,
    ]
}

// The eight sums of no record.
#[tactic(auto, unfolding(crate::specs::Count::no_tally))]
pub fn no_tally() -> Tally
    ensures { result ≡ no_tally }
{
    Tally::default()
}

// # Sums that a caller keeps

// The sums and the modes beside them.
#[repr(C)]
#[derive(Clone, Copy, Default)]
pub struct Sums {
    pub tally: Tally,
    pub modes: Modes,
}

// What no record comes to.
#[tactic(auto, unfolding(crate::specs::Sums::no_sums, crate::specs::Count::no_tally, rules::specs::Judging::zero_modes))]
pub fn no_sums() -> Sums
    ensures { result ≡ no_sums }
{
    Sums::default()
}

// The counts of the modes are so many together.
fn come_to(m: Modes, n: u64) -> bool
    ensures { result ≡ eqb (modes_together m) n }
{
    let mut left = n;
    for count in &mode_numbers(m) {
        if left < *count {
            return false;
        }
        left -= *count;
    }
    left == 0
}

// The most that a record is worth.
const MOST_WORTH: u64 = 999999;

// The counts of the classes are no more than there may be records. Each is looked at before they are added up.
fn are_few(t: Tally) -> bool
    ensures { result ≡ leb (records_counted t) base.most_records }
{
    let most = rules::most_records() as u64;
    t.credited <= most
        && t.voids <= most
        && t.duplicates <= most
        && t.errors <= most
        && t.credited + t.voids + t.duplicates + t.errors <= most
}

// Some records come to these sums.
pub fn are_sums(s: Sums) -> bool
    ensures { result ≡ sound_sums base s }
{
    let t = s.tally;
    if !are_few(t) {
        return false;
    }
    if t.points < t.credited {
        return false;
    }
    if t.credited * MOST_WORTH < t.points {
        return false;
    }
    if t.credited < t.squares {
        return false;
    }
    if t.credited < t.exchanges {
        return false;
    }
    if t.credited < t.countries {
        return false;
    }
    if !come_to(s.modes, t.credited) {
        return false;
    }
    if t.duplicates == 0 {
        return true;
    }
    1 <= t.credited
}

// A bonus and a multiplier keep their rules.
#[tactic(auto, unfolding(rules::specs::Session::rate_rule, rules::specs::Log::conjunction))]
fn is_rate(bonus: u64, multiplier: u64) -> bool
    ensures { result ≡ rate_rule base bonus multiplier }
{
    bonus <= rules::most_bonus() && 1 <= multiplier && multiplier <= rules::most_multiplier()
}

// The bonuses and multipliers keep their rules.
#[tactic(auto, unfolding(rules::specs::Session::declared_rule, rules::specs::Log::conjunction, crate::specs::Count::as_declared))]
pub fn is_declared(d: Declared) -> bool
    ensures { result ≡ declared_rule base (as_declared d) }
{
    is_rate(d.squarebonus, d.squaremultiplier)
        && is_rate(d.exchangebonus, d.exchangemultiplier)
        && is_rate(d.countrybonus, d.countrymultiplier)
}

// The class of which the last two bits of a verdict's number tell.
#[tactic(auto, unfolding(crate::specs::Sums::class_in))]
fn class_in(bits: u8) -> Class
    ensures { result ≡ class_in bits }
{
    match bits {
        0 => Class::Credited,
        1 => Class::Void,
        2 => Class::Duplicate,
        _ => Class::Error,
    }
}

// The verdict of which a number tells.
pub fn verdict_in(number: u8) -> Verdict
    ensures { result ≡ verdict_in number }
{
    verdict_by(
        class_in(number % 4),
        number / 16 % 2 == 1,
        number / 32 % 2 == 1,
        number / 64 % 2 == 1,
    )
}

// One record more can be counted, worth so much.
fn counts_more(s: Sums, worth: u64) -> bool
    ensures { result ≡ counts_more base s worth }
{
    if !are_sums(s) {
        return false;
    }
    let t = s.tally;
    if rules::most_records() as u64 <= t.credited + t.voids + t.duplicates + t.errors {
        return false;
    }
    worth <= MOST_WORTH
}

// The sums after one record more: what it is worth, the first character of its mode, and the number of its verdict. Where it cannot be counted,
// nothing is.
pub fn one_more(s: Sums, worth: u64, mode: u8, number: u8) -> Sums
    ensures { result ≡ more_sums base s worth mode number }
{
    if !counts_more(s, worth) {
        return s;
    }
    let mut list = mode_numbers(s.modes);
    let tally = add_record(
        s.tally,
        &mut list,
        worth,
        mode_place(mode),
        verdict_in(number),
    );
    Sums {
        tally,
        modes: modes_in(&list),
    }
}

// The totals of such sums, with what was declared. They are zero where there can be no such records, or nothing like it be declared.
pub fn totals_kept(s: Sums, d: Declared) -> Totals
    ensures { result ≡ totals_kept base s d }
{
    if !are_sums(s) {
        return no_totals();
    }
    if !is_declared(d) {
        return no_totals();
    }
    let list = mode_numbers(s.modes);
    closed(s.tally, &list, d)
}

// # Sums in few bytes

// How many records of each class there are, what is new with them, and their modes, in two bytes each. A caller who has no more room keeps these, and
// the points in four.
#[repr(C)]
#[derive(Clone, Copy, Default)]
pub struct Counts {
    pub credited: u16,
    pub voids: u16,
    pub duplicates: u16,
    pub errors: u16,
    pub squares: u16,
    pub exchanges: u16,
    pub countries: u16,
    pub code0: u16,
    pub code1: u16,
    pub code2: u16,
    pub code3: u16,
    pub code4: u16,
    pub code5: u16,
    pub code6: u16,
    pub code7: u16,
    pub code8: u16,
    pub code9: u16,
    pub blank: u16,
}

#[derive(Clone, Copy)]
pub struct Counted {
    pub points: u32,
    pub counts: Counts,
}

#[tactic(auto, unfolding(crate::specs::Narrow::no_counts))]
pub fn no_counts() -> Counts
    ensures { result ≡ no_counts }
{
    Counts::default()
}

// The counts in the judge's own numbers, and the modes in their list.
#[tactic(auto, unfolding(crate::specs::Narrow::tally_in))]
fn tally_of(points: u32, c: Counts) -> Tally
    ensures { (result ≡ tally_in points c) × SmallTally result }
{
    Tally {
        credited: u64::from(c.credited),
        voids: u64::from(c.voids),
        duplicates: u64::from(c.duplicates),
        errors: u64::from(c.errors),
        points: u64::from(points),
        squares: u64::from(c.squares),
        exchanges: u64::from(c.exchanges),
        countries: u64::from(c.countries),
    }
}

fn modes_of(c: Counts) -> [u64; MODES]
    ensures { (result ≡ modes_of c) × SmallModes result }
{
    [
        u64::from(c.code0),
        u64::from(c.code1),
        u64::from(c.code2),
        u64::from(c.code3),
        u64::from(c.code4),
        u64::from(c.code5),
        u64::from(c.code6),
        u64::from(c.code7),
        u64::from(c.code8),
        u64::from(c.code9),
        u64::from(c.blank),
    ]
}

// The last two bytes of each count.
fn counts_of(t: Tally, m: &[u64; MODES]) -> Counts
    ensures { result ≡ counts_of (tallied t m.now) }
{
    Counts {
        credited: (t.credited % 65536) as u16,
        voids: (t.voids % 65536) as u16,
        duplicates: (t.duplicates % 65536) as u16,
        errors: (t.errors % 65536) as u16,
        squares: (t.squares % 65536) as u16,
        exchanges: (t.exchanges % 65536) as u16,
        countries: (t.countries % 65536) as u16,
        code0: (m[0] % 65536) as u16,
        code1: (m[1] % 65536) as u16,
        code2: (m[2] % 65536) as u16,
        code3: (m[3] % 65536) as u16,
        code4: (m[4] % 65536) as u16,
        code5: (m[5] % 65536) as u16,
        code6: (m[6] % 65536) as u16,
        code7: (m[7] % 65536) as u16,
        code8: (m[8] % 65536) as u16,
        code9: (m[9] % 65536) as u16,
        blank: (m[10] % 65536) as u16,
    }
}

pub fn sums_of(points: u32, c: Counts) -> Sums
    ensures { result ≡ sums_in points c }
{
    let list = modes_of(c);
    Sums {
        tally: tally_of(points, c),
        modes: modes_in(&list),
    }
}

// The counts after one record more: what it is worth, the first character of its mode, and the number of its verdict. A count that runs over begins
// again at zero, which no log has records enough for.
pub fn counted_more(points: u32, c: Counts, worth: u32, mode: u8, number: u8) -> Counted
    ensures { result ≡ counted_more points c worth mode number }
{
    let mut list = modes_of(c);
    let tally = add_record(
        tally_of(points, c),
        &mut list,
        worth as u64,
        mode_place(mode),
        verdict_in(number),
    );
    Counted {
        points: (tally.points % 4294967296) as u32,
        counts: counts_of(tally, &list),
    }
}

// # All the records

// The n records are judged, each in one step, and their verdicts written. What is kept of them is kept in front of the lists of places, of which
// no more is needed then.
fn walk_records(
    log: &[u8],
    n: usize,
    verdicts: &mut [u8],
    calls: &mut [u16],
    exchanges: &mut [u16],
    points: &[u16],
    pointsends: &[u16],
    modes: &mut [u64; MODES],
) -> Tally
    requires weighable { Weighable base log.now n verdicts.old calls.old exchanges.old points.now pointsends.now }
    requires modes_value { modes.old ≡ replicate 11 0 }
    ensures { Weighs base log.now verdicts.old result verdicts.new modes.new }
{
    let mut callkeys = [0u16; KEYS];
    let mut exchangekeys = [0u16; KEYS];
    let mut squares = [0u16; KEYS];
    let mut kept = Kept::default();
    let mut sums = no_tally();
    for i in 0..n {
        let p = Noted {
            call: wide(calls[i]),
            exchange: wide(exchanges[i]),
            points: wide(points[i]),
            pointsend: wide(pointsends[i]),
        };
        let step = judge_next(
            log,
            p,
            kept,
            calls,
            &mut callkeys,
            exchanges,
            &mut exchangekeys,
            &mut squares,
        );
        let v = step.verdict;
        kept = step.kept;
        sums = add_record(sums, modes, step.worth, step.mode, v);
        verdicts[i] = verdict_number(v);
    }
    sums
}

// # The log

// What a log is judged to be, with how many records it has, where the first begins and what its header is like, for a caller that walks them again.
#[derive(Clone, Copy)]
pub struct Weighed {
    pub totals: Totals,
    pub records: usize,
    pub first: usize,
    pub heading: Heading,
}

// An accepted log, of whose records the places are noted, is judged, if the slice has room for its verdicts; otherwise the slice is left as it is.
fn weigh_accepted(
    log: &[u8],
    read: Accepted,
    verdicts: &mut [u8],
    calls: &mut [u16],
    exchanges: &mut [u16],
    points: &[u16],
    pointsends: &[u16],
) -> Result<Weighed, Refusal>
    requires accepts { Accepts base log.now read.records read.first read.heading }
    requires listings { Listings base log.now read.first read.records calls.old exchanges.old points.now pointsends.now }
    ensures answer { result ≡ weighed_of base (length verdicts.old) log.now }
    ensures slice { verdicts.new ≡ verdicts_afterwards base log.now verdicts.old }
{
    if verdicts.len() < read.records {
        return Err(rules::refused(7));
    }
    let mut modes = [0u64; MODES];
    let sums = walk_records(
        log,
        read.records,
        verdicts,
        calls,
        exchanges,
        points,
        pointsends,
        &mut modes,
    );
    let totals = closed(sums, &modes, places::declared_at(log, read.heading.claims));
    Ok(Weighed {
        totals,
        records: read.records,
        first: read.first,
        heading: read.heading,
    })
}

// A log is read and judged: its verdicts are written to the front of the slice, and where the points of each record that was read begin and end,
// and where the record does, to the front of the three lists, for a caller that writes them anew. On a refusal nothing of the slice is changed, and
// the lists have what was read in front of it.
pub fn weigh(
    log: &[u8],
    verdicts: &mut [u8],
    points: &mut [u16; rules::MOST_RECORDS],
    pointsends: &mut [u16; rules::MOST_RECORDS],
    ends: &mut [u16; rules::MOST_RECORDS],
) -> Result<Weighed, Refusal>
    ensures answer { result ≡ weighed_of base (length verdicts.old) log.now }
    ensures slice { verdicts.new ≡ verdicts_afterwards base log.now verdicts.old }
    ensures points { points.new ≡ listed (λ c. c.points) (contacts_read base log.now) points.old }
    ensures pointsends { pointsends.new ≡ listed (λ c. c.pointsend) (contacts_read base log.now) pointsends.old }
    ensures ends { ends.new ≡ listed (λ c. c.end) (contacts_read base log.now) ends.old }
{
    let mut calls = [0u16; rules::MOST_RECORDS];
    let mut exchanges = [0u16; rules::MOST_RECORDS];
    let read = reader::survey(log, &mut calls, &mut exchanges, points, pointsends, ends)?;
    weigh_accepted(
        log,
        read,
        verdicts,
        &mut calls,
        &mut exchanges,
        points,
        pointsends,
    )
}

// The same, where the totals and the verdicts are all that is asked for.
#[tactic(auto, using(crate::proofs::JudgeLaws::totals_alone, crate::proofs::JudgeLaws::refusal_alone))]
pub fn judge(log: &[u8], verdicts: &mut [u8]) -> Result<Totals, Refusal>
    ensures answer { result ≡ judged_of base (length verdicts.old) log.now }
    ensures slice { verdicts.new ≡ verdicts_afterwards base log.now verdicts.old }
{
    let mut points = [0u16; rules::MOST_RECORDS];
    let mut pointsends = [0u16; rules::MOST_RECORDS];
    let mut ends = [0u16; rules::MOST_RECORDS];
    Ok(weigh(log, verdicts, &mut points, &mut pointsends, &mut ends)?.totals)
}
