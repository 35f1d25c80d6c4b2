// A session: records are taken line by line and given back, and after each the totals are those of judging the records now present. The session is
// a few numbers; what it keeps of each record lies in slices that are lent to each call.

#![tactic(auto)]

ghost use Rattle.std.specs.Prelude.{◌+◌, ◌-◌, ◌*◌, ◌/◌, ◌<◌, ◌≤◌, min, true, cond, not, ◌&&◌, ◌≡◌, eqb, drop, get_or, length, replicate, set, take};
ghost use Rattle.rules.specs.Judging.{verdict_number};
ghost use Rattle.rules.specs.Rules.{base};
ghost use Rattle.reader.specs.Record.{Alone};
ghost use Rattle.judge.specs.Sums.{records_counted};
ghost use Rattle.session.specs.Entry.{Stepping, bytes_kept, class_kept, entry_of, first_from, four_at, has_place_for, held_in, line_kept, mode_byte, points_in, record_of, said_of, told_line, verdict_kept, verdicts_kept, with_bytes};
ghost use Rattle.session.specs.Session.{brought_by, given_back, holds_tally, kept_taken, less_tally, next_place, reachable, refused_by, slices_reach, started, taken, taken_off, totals_now, verdicts_taken, with_record};

use judge::{Sums, Tally};
use places::Declared;
use reader::Contact;
use rules::{Class, Fault, Refusal, Totals, Verdict};

// # What is kept of a record

// The worked call, square and exchange, and behind them what giving back needs: the points and the mode.
pub const KEPT_BYTES: usize = 28;

// The worked call, square and exchange alone.
pub const WORKED_BYTES: usize = 24;

// Where the call, the square and the exchange lie in it, the points and the mode.
const CALL: usize = 0;

const SQUARE: usize = 14;

const EXCHANGE: usize = 18;

const POINTS: usize = 24;

const MODE: usize = 27;

// How many characters of a locator are its square: four, or none.
fn square_length(locator: usize, end: usize) -> usize
    requires { locator ≤ end }
    ensures { result ≡ min 4 (end - locator) }
{
    (end - locator).min(4)
}

// The byte that stands for a mode, by the character at which its field begins: its digit, or zero for the semicolon behind a blank one.
fn mode_byte(first: u8) -> u8
    ensures { result ≡ mode_byte first }
{
    if first == b';' { 0 } else { first }
}

// The bytes that are kept of a credited record.
fn entry_of(line: &[u8], c: Contact) -> [u8; KEPT_BYTES]
    requires { Alone base line.now c }
    ensures { result ≡ entry_of base (record_of line.now) }
{
    let mut entry = [0u8; KEPT_BYTES];
    let square = c.locator + square_length(c.locator, c.locatorend);
    writer::put_text(&mut entry, CALL, &line[c.call..c.callend]);
    writer::put_text(&mut entry, SQUARE, &line[c.locator..square]);
    writer::put_text(&mut entry, EXCHANGE, &line[c.exchange..c.exchangeend]);
    entry[POINTS] = (c.worth % 256) as u8;
    entry[POINTS + 1] = (c.worth / 256 % 256) as u8;
    entry[POINTS + 2] = (c.worth / 65536 % 256) as u8;
    entry[MODE] = mode_byte(line[c.callend + 1]);
    entry
}

// What is kept of a record: of one that is not credited, nothing.
fn kept_of(credited: bool, entry: [u8; KEPT_BYTES]) -> [u8; KEPT_BYTES]
    ensures { result ≡ cond credited entry (replicate 28 0) }
{
    if credited { entry } else { [0u8; KEPT_BYTES] }
}

// # The look-back

// The number that four bytes make.
fn four_bytes(a: u8, b: u8, c: u8, d: u8) -> u32
    ensures { result ≡ a + b * 256 + c * 65536 + d * 16777216 }
{
    a as u32 + b as u32 * 256 + c as u32 * 65536 + d as u32 * 16777216
}

// The four bytes at a place, as one number.
fn four_at(s: &[u8], at: usize) -> u32
    requires { at + 3 < length s.now }
    ensures { result ≡ four_at s.now at }
{
    four_bytes(s[at], s[at + 1], s[at + 2], s[at + 3])
}

// The four bytes at a place of a record, where each has so many.
fn four_of(kept: &[u8], width: usize, at: usize, k: usize) -> u32
    requires { k * width + at + 3 < length kept.now }
    ensures { result ≡ four_at kept.now (k * width + at) }
{
    four_at(kept, k * width + at)
}

// What is kept of the records so far: of each of the n so many bytes, one behind the other.
#[derive(Clone, Copy)]
struct Kept<'a> {
    bytes: &'a [u8],
    width: usize,
    n: usize,
    ghost there: { n * width ≤ length bytes.now },
}

impl Kept<'_> {
    // The first record, from one on, whose four bytes at this place are those; n where there is none. They are looked at one by one.
    fn next_like_tail(self, at: usize, from: usize, four: u32) -> usize
        requires { (at + 3 < self.width) × (from ≤ self.n) }
        ensures { result ≡ first_from (λ i. eqb (four_at self.entry.bytes.now (i * self.entry.width + at)) four) (self.entry.n - from) from }
    {
        for k in from..self.n {
            if four_of(self.bytes, self.width, at, k) == four {
                return k;
            }
        }
        self.n
    }

    // The same, eight by eight, as long as there are so many: a turn costs the less.
    fn next_like<const WIDTH: usize>(self, at: usize, from: usize, four: u32) -> usize
        requires { (self.width ≡ WIDTH) × (at + 3 < WIDTH) × (from ≤ self.n) }
        ensures { result ≡ first_from (λ i. eqb (four_at self.entry.bytes.now (i * WIDTH + at)) four) (self.entry.n - from) from }
    {
        let bytes = self.bytes;
        let n = self.n;
        let mut k = from;
        while k + 7 < n {
            if four_of(bytes, WIDTH, at, k) == four {
                return k;
            }
            if four_of(bytes, WIDTH, at, k + 1) == four {
                return k + 1;
            }
            if four_of(bytes, WIDTH, at, k + 2) == four {
                return k + 2;
            }
            if four_of(bytes, WIDTH, at, k + 3) == four {
                return k + 3;
            }
            if four_of(bytes, WIDTH, at, k + 4) == four {
                return k + 4;
            }
            if four_of(bytes, WIDTH, at, k + 5) == four {
                return k + 5;
            }
            if four_of(bytes, WIDTH, at, k + 6) == four {
                return k + 6;
            }
            if four_of(bytes, WIDTH, at, k + 7) == four {
                return k + 7;
            }
            k += 8;
        }
        self.next_like_tail(at, k, four)
    }

    // The same, by a search of its own for each of the two widths, so that the compiler knows there how far it is from one record to the next.
    fn next_at(self, at: usize, from: usize, four: u32) -> usize
        requires { (at + 3 < self.width) × (from ≤ self.n) }
        ensures { result ≡ first_from (λ i. eqb (four_at self.entry.bytes.now (i * self.entry.width + at)) four) (self.entry.n - from) from }
    {
        match self.width {
            KEPT_BYTES => self.next_like::<KEPT_BYTES>(at, from, four),
            WORKED_BYTES => self.next_like::<WORKED_BYTES>(at, from, four),
            _ => self.next_like_tail(at, from, four),
        }
    }

    // One of the records has this part at this place. Four bytes of it, where most others differ, are looked for first.
    fn is_held(self, at: usize, part: &[u8], mark: usize) -> bool
        requires { (at + length part.now ≤ self.width) × (mark + 3 < length part.now) }
        ensures { result ≡ held_in self.entry.bytes.now self.entry.width self.entry.n at part.now }
    {
        let four = four_at(part, mark);
        let mut k = 0;
        let found = 'look: loop {
            k = self.next_at(at + mark, k, four);
            if self.n <= k {
                break 'look self.n;
            }
            let a = k * self.width + at;
            if header::same_text(&self.bytes[a..a + part.len()], part) {
                break 'look k;
            }
            k += 1;
        };
        found < self.n
    }

    // The part is there, and none of the records has it at this place. Its text is so long.
    fn is_new(self, at: usize, part: &[u8], long: usize) -> bool
        requires { (at + length part.now ≤ self.width) × (long ≤ length part.now) × (4 ≤ length part.now) }
        ensures { result ≡ not (eqb long 0) && not (held_in self.entry.bytes.now self.entry.width self.entry.n at part.now) }
    {
        long != 0 && !self.is_held(at, part, last_four(long))
    }
}

// Where the last four of so many bytes begin; of fewer, all of them.
fn last_four(long: usize) -> usize
    ensures { result ≡ long - 4 }
{
    long.saturating_sub(4)
}

// # The judging step

// The record on the line ends with a claimed D.
fn claims_duplicate(line: &[u8]) -> bool
    requires { 0 < length line.now }
    ensures { result ≡ eqb (get_or line.now (length line.now - 1) 0) 68 }
{
    let last = line.len() - 1;
    line[last] == 68
}

// The class of a record, by what is kept of those before it. A duplicate needs points or a claimed D: with neither the call is not looked for.
fn class_of(line: &[u8], c: Contact, entry: &[u8; KEPT_BYTES], kept: Kept<'_>) -> Class
    requires { Stepping base line.now c entry.now kept.bytes.now kept.width kept.n }
    ensures { result ≡ class_kept base kept.entry.bytes.now kept.entry.width kept.entry.n (record_of line.now) }
{
    if c.error {
        return judge::class_by(true, false, false);
    }
    let has_points = 0 < c.worth;
    let last = last_four(c.callend - c.call);
    let repeats = (has_points || claims_duplicate(line))
        && kept.is_held(CALL, &entry[CALL..SQUARE], last);
    judge::class_by(false, repeats, has_points)
}

// What is said of a record by what is kept of those before it. Only a credited one is asked for what is new with it.
fn verdict_of(line: &[u8], c: Contact, entry: &[u8; KEPT_BYTES], kept: Kept<'_>) -> Verdict
    requires { Stepping base line.now c entry.now kept.bytes.now kept.width kept.n }
    ensures { result ≡ verdict_kept base kept.entry.bytes.now kept.entry.width kept.entry.n (record_of line.now) }
{
    match class_of(line, c, entry, kept) {
        Class::Credited => {
            let exchange = kept.is_new(
                EXCHANGE,
                &entry[EXCHANGE..POINTS],
                c.exchangeend - c.exchange,
            );
            let long = square_length(c.locator, c.locatorend);
            let square = kept.is_new(SQUARE, &entry[SQUARE..EXCHANGE], long);
            judge::verdict_by(Class::Credited, exchange, square, c.country)
        }
        other => judge::verdict_by(other, false, false, false),
    }
}

// What is told of a line that was taken: what it is worth, the byte of its mode and the number of its verdict.
#[derive(Clone, Copy)]
pub struct KeptLine {
    pub worth: u64,
    pub mode: u8,
    pub number: u8,
}

// There is a place behind the n records in both slices.
#[tactic(auto, unfolding(crate::specs::Entry::has_place_for, rules::specs::Log::conjunction))]
fn has_place(n: usize, width: usize, verdicts: usize, kept: usize) -> bool
    ensures { result ≡ has_place_for n width verdicts kept }
{
    WORKED_BYTES <= width && width <= KEPT_BYTES && n < verdicts && n < kept / width
}

// A record for which there is a place is judged by what is kept of the n before it, and its verdict and its bytes are written behind theirs.
fn keep_record(
    line: &[u8],
    c: Contact,
    n: usize,
    width: usize,
    verdicts: &mut [u8],
    kept: &mut [u8],
) -> KeptLine
    requires { Alone base line.now c × (has_place_for n width (length verdicts.old) (length kept.old) ≡ true) }
    ensures answer { result ≡ told_line base line.now n width kept.old }
    ensures verdicts { verdicts.new ≡ set verdicts.old n (verdict_number (said_of base line.now n width kept.old)) }
    ensures kept { kept.new ≡ with_bytes base line.now n width kept.old }
{
    let entry = entry_of(line, c);
    let before = Kept {
        bytes: &kept[..],
        width,
        n,
    };
    let v = verdict_of(line, c, &entry, before);
    let number = judge::verdict_number(v);
    verdicts[n] = number;
    let bytes = kept_of(number % 16 == 0, entry);
    writer::put_text(kept, n * width, &bytes[..width]);
    KeptLine {
        worth: c.worth,
        mode: mode_byte(line[c.callend + 1]),
        number,
    }
}

// A record line is judged by what is kept of the n records before it, where each has so many bytes: its verdict is written behind theirs, and what is
// kept of it. Or it is told why it is not taken: 5 and the field where it is no record, 11 where there is no place. Then no byte of the slices is changed.
pub fn keep_line(
    line: &[u8],
    n: usize,
    width: usize,
    verdicts: &mut [u8],
    kept: &mut [u8],
) -> Result<KeptLine, Fault>
    ensures answer { result ≡ line_kept base line.now n width verdicts.old kept.old }
    ensures verdicts { verdicts.new ≡ verdicts_kept base line.now n width verdicts.old kept.old }
    ensures kept { kept.new ≡ bytes_kept base line.now n width verdicts.old kept.old }
{
    let c = reader::record(line)?;
    if !has_place(n, width, verdicts.len(), kept.len()) {
        return Err(Fault {
            number: 11,
            field: 0,
        });
    }
    Ok(keep_record(line, c, n, width, verdicts, kept))
}

// # The session

// What was declared, and what the records now present come to.
#[repr(C)]
#[derive(Clone, Copy)]
pub struct Session {
    pub declared: Declared,
    pub sums: Sums,
}

// The session after a call, and why the call was refused, if it was.
#[derive(Clone, Copy)]
pub struct Replied {
    pub session: Session,
    pub refusal: Refusal,
}

// The session stays as it is.
#[tactic(auto, unfolding(crate::specs::Session::refused_by))]
fn refused(s: Session, number: u32, field: u32) -> Replied
    ensures { result ≡ refused_by s number field }
{
    Replied {
        session: s,
        refusal: Fault { number, field }.at(0),
    }
}

fn accepted(s: Session) -> Replied
    ensures { result ≡ refused_by s 0 0 }
{
    refused(s, 0, 0)
}

// A run of calls can come to these numbers.
#[tactic(auto, unfolding(crate::specs::Session::reachable))]
fn is_reachable(s: Session) -> bool
    ensures { result ≡ reachable base s }
{
    judge::are_sums(s.sums) && judge::is_declared(s.declared)
}

// How many records are present.
fn present(t: Tally) -> usize
    requires { records_counted t ≤ base.most_records }
    ensures { result ≡ records_counted t }
{
    (t.credited + t.voids + t.duplicates + t.errors) as usize
}

// The session starts anew with these bonuses and multipliers, if they keep their rules.
pub fn started(s: Session, d: Declared) -> Replied
    ensures { result ≡ started base s d }
{
    if !judge::is_declared(d) {
        return refused(s, 4, 0);
    }
    accepted(Session {
        declared: d,
        sums: judge::no_sums(),
    })
}

// Where the next record is kept; where the session has no place for one, behind all that the slice holds.
fn next_place(s: Session, verdicts: usize) -> usize
    ensures { result ≡ next_place base s verdicts }
{
    if !is_reachable(s) {
        return verdicts;
    }
    let sums = s.sums;
    let n = present(sums.tally);
    if n < rules::most_records() {
        return n;
    }
    verdicts
}

// The session with one record more.
#[tactic(auto, unfolding(crate::specs::Session::with_record))]
fn with_record(s: Session, k: KeptLine) -> Session
    ensures { result ≡ with_record base s k.worth k.mode k.number }
{
    Session {
        sums: judge::one_more(s.sums, k.worth, k.mode, k.number),
        ..s
    }
}

// A record line is taken.
pub fn taken(s: Session, line: &[u8], verdicts: &mut [u8], kept: &mut [u8]) -> Replied
    ensures { (result ≡ taken base s line.now verdicts.old kept.old) × (verdicts.new ≡ verdicts_taken base s line.now verdicts.old kept.old) × (kept.new ≡ kept_taken base s line.now verdicts.old kept.old) }
{
    let n = next_place(s, verdicts.len());
    match keep_line(line, n, KEPT_BYTES, verdicts, kept) {
        Ok(k) => accepted(with_record(s, k)),
        Err(fault) => refused(s, fault.number, fault.field),
    }
}

// What a record brought to the sums.
#[tactic(auto, unfolding(crate::specs::Session::brought_by, judge::specs::Count::no_tally, judge::specs::Count::worth_if, rules::specs::Judging::is))]
fn brought_by(worth: u64, v: Verdict) -> Tally
    ensures { result ≡ brought_by worth v }
{
    let marked = Tally {
        squares: u64::from(v.square),
        exchanges: u64::from(v.exchange),
        countries: u64::from(v.country),
        ..judge::no_tally()
    };
    match v.class {
        Class::Credited => Tally {
            credited: 1,
            points: worth,
            ..marked
        },
        Class::Void => Tally { voids: 1, ..marked },
        Class::Duplicate => Tally {
            duplicates: 1,
            ..marked
        },
        Class::Error => Tally {
            errors: 1,
            ..marked
        },
    }
}

// The sums hold as much as that.
#[tactic(auto, unfolding(crate::specs::Session::holds_tally, rules::specs::Log::conjunction))]
fn holds(b: Tally, t: Tally) -> bool
    ensures { result ≡ holds_tally b t }
{
    b.credited <= t.credited
        && b.voids <= t.voids
        && b.duplicates <= t.duplicates
        && b.errors <= t.errors
        && b.points <= t.points
        && b.squares <= t.squares
        && b.exchanges <= t.exchanges
        && b.countries <= t.countries
}

// What is left of the sums without it.
fn less(b: Tally, t: Tally) -> Tally
    requires { holds_tally b t ≡ true }
    ensures { result ≡ less_tally b t }
{
    Tally {
        credited: t.credited - b.credited,
        voids: t.voids - b.voids,
        duplicates: t.duplicates - b.duplicates,
        errors: t.errors - b.errors,
        points: t.points - b.points,
        squares: t.squares - b.squares,
        exchanges: t.exchanges - b.exchanges,
        countries: t.countries - b.countries,
    }
}

// The number that three bytes make, the last digit of 256 first.
fn three_bytes(a: u8, b: u8, c: u8) -> u64
    ensures { result ≡ a + b * 256 + c * 65536 }
{
    a as u64 + b as u64 * 256 + c as u64 * 65536
}

// What the bytes of a record say that it is worth.
fn worth_kept(kept: &[u8], at: usize) -> u64
    requires { at + 28 ≤ length kept.now }
    ensures { result ≡ points_in (drop (at + 24) kept.now) }
{
    three_bytes(
        kept[at + POINTS],
        kept[at + POINTS + 1],
        kept[at + POINTS + 2],
    )
}

// The slices reach to the last of the records that are present.
#[tactic(auto, using(crate::proofs::SessionLaws::few_present), unfolding(crate::specs::Session::slices_reach, rules::specs::Log::conjunction))]
fn reach(s: Session, verdicts: usize, kept: usize) -> bool
    ensures { result ≡ slices_reach base s verdicts kept }
{
    if !is_reachable(s) {
        return false;
    }
    let n = present(s.sums.tally);
    0 < n && n <= verdicts && n <= kept / KEPT_BYTES
}

// What giving back does to the sums, where they hold what the record brought; its mode is one of the eleven.
fn take_off(s: Session, brought: Tally, mode: usize) -> Replied
    requires { mode < 11 }
    ensures { result ≡ taken_off s brought mode }
{
    if !holds(brought, s.sums.tally) {
        return refused(s, 12, 0);
    }
    let mut list = judge::mode_numbers(s.sums.modes);
    if list[mode] < brought.credited {
        return refused(s, 12, 0);
    }
    list[mode] -= brought.credited;
    let left = Sums {
        tally: less(brought, s.sums.tally),
        modes: judge::modes_in(&list),
    };
    accepted(Session { sums: left, ..s })
}

// The last record is given back.
pub fn given_back(s: Session, verdicts: &[u8], kept: &[u8]) -> Replied
    ensures { result ≡ given_back base s verdicts.now kept.now }
{
    if !reach(s, verdicts.len(), kept.len()) {
        return refused(s, 12, 0);
    }
    let sums = s.sums;
    let n = present(sums.tally);
    let at = (n - 1) * KEPT_BYTES;
    let brought = brought_by(worth_kept(kept, at), judge::verdict_in(verdicts[n - 1]));
    take_off(s, brought, judge::mode_place(kept[at + MODE]))
}

// The totals of the records now present.
pub fn totals(s: Session) -> Totals
    ensures { result ≡ totals_now base s }
{
    judge::totals_kept(s.sums, s.declared)
}
