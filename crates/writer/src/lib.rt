// Writing a log back: texts and numbers laid over a lent slice, one behind the other. The places of all that changes are known; the result is measured
// by them first, and the log is walked over only to copy it. What the desk program shows of a log is laid in the same way.

#![tactic(auto)]

ghost use Rattle.std.specs.Prelude.{◌+◌, ◌-◌, ◌*◌, ◌<◌, ◌≤◌, leb, length, cond, ◌&&◌, [], ◌∷◌, ◌++◌, ◌≡◌};
ghost use Rattle.reader.specs.Contact.{between};
ghost use Rattle.rules.specs.Answers.{over};
ghost use Rattle.rules.specs.Arguments.{entries};
ghost use Rattle.rules.specs.Desk.{shown_totals, shown_refusal, desk};
ghost use Rattle.rules.specs.Fields.{new_mark, duplicate_mark};
ghost use Rattle.rules.specs.Log.{count_line, crlf};
ghost use Rattle.rules.specs.Rules.{base};
ghost use Rattle.rules.specs.Text.{digits};
ghost use Rattle.writer.specs.ClaimsText.{claim_numbers, line_behind, claim_starts, claim_ends, claims_text};
ghost use Rattle.writer.specs.Respelling.{KeywordsLie, relisted};
ghost use Rattle.writer.specs.Given.{ClaimsBegin, ClaimsLie, RecordLies, RecordsLie, Writable};
ghost use Rattle.writer.specs.LogText.{wrote_of, written_afterwards};
ghost use Rattle.writer.specs.RecordText.{says_duplicate, mark_text, marks_text, zero_text, record_text, records_text};
ghost use Rattle.writer.specs.Shown.{mode_line, mode_lines};
ghost use Rattle.writer.specs.Written.{Puts, has_room, written};

use fields::Digits;
use reader::Heading;
use rules::{Refusal, Totals};

// How many digits write a number: twenty at most.
fn digit_count(n: u64) -> usize
    ensures { (result ≡ length (digits n)) × (result ≤ 20) }
{
    let mut rest = n;
    let mut count: usize = 1;
    while 9 < rest {
        rest = rest / 10;
        count += 1;
    }
    count
}

// Each of these writes at a place of `out` where there is room, and tells the place behind what it wrote.

fn put_byte(out: &mut [u8], at: usize, b: u8) -> usize
    requires { at < length out.old }
    ensures { Puts out.old at (b ∷ []) out.new result }
{
    out[at] = b;
    at + 1
}

// The digits are written from the last one on, since that is the order in which division by ten gives them.
fn put_number(out: &mut [u8], at: usize, n: u64) -> usize
    requires { at + length (digits n) ≤ length out.old }
    ensures { Puts out.old at (digits n) out.new result }
{
    let end = at + digit_count(n);
    let mut rest = n;
    let mut i = end - 1;
    while 9 < rest {
        out[i] = 48 + (rest % 10) as u8;
        rest = rest / 10;
        i -= 1;
    }
    out[i] = 48 + rest as u8;
    end
}

// The part of `s` from a place to another.
fn put_part(out: &mut [u8], at: usize, s: &[u8], from: usize, to: usize) -> usize
    requires { (from ≤ to) × (to ≤ length s.now) × (at + (to - from) ≤ length out.old) }
    ensures { Puts out.old at (between s.now from to) out.new result }
{
    for i in from..to {
        out[at + (i - from)] = s[i];
    }
    at + (to - from)
}

// The line's end, CR LF.
fn put_end(out: &mut [u8], at: usize) -> usize
    requires { at + length crlf ≤ length out.old }
    ensures { Puts out.old at crlf out.new result }
{
    let feed = put_byte(out, at, 13);
    put_byte(out, feed, 10)
}

// A field that holds a mark or nothing, behind its semicolon.
fn put_mark(out: &mut [u8], at: usize, marked: bool, mark: u8) -> usize
    requires { at + length (mark_text marked (mark ∷ [])) ≤ length out.old }
    ensures { Puts out.old at (mark_text marked (mark ∷ [])) out.new result }
{
    let field = put_byte(out, at, 59);
    if marked {
        put_byte(out, field, mark)
    } else {
        field
    }
}

// The last four fields of a record, and its line's end.
fn put_marks(
    out: &mut [u8],
    at: usize,
    exchange: bool,
    square: bool,
    country: bool,
    duplicate: bool,
) -> usize
    requires { at + length (marks_text exchange square country duplicate) ≤ length out.old }
    ensures { Puts out.old at (marks_text exchange square country duplicate) out.new result }
{
    let second = put_mark(out, at, exchange, 78);
    let third = put_mark(out, second, square, 78);
    let fourth = put_mark(out, third, country, 78);
    let end = put_mark(out, fourth, duplicate, 68);
    put_end(out, end)
}

// # The records

// The verdict's number says that the record is a duplicate.
fn is_duplicate(number: u8) -> bool
    ensures { result ≡ says_duplicate number }
{
    number % 16 == 2
}

// A record is copied up to the end of its points; those of a duplicate are not.
fn copied_to(points: usize, pointsend: usize, duplicate: bool) -> usize
    ensures { result ≡ cond duplicate points pointsend }
{
    if duplicate { points } else { pointsend }
}

// They become 0.
fn put_zero(out: &mut [u8], at: usize, duplicate: bool) -> usize
    requires { at + length (zero_text duplicate) ≤ length out.old }
    ensures { Puts out.old at (zero_text duplicate) out.new result }
{
    if duplicate { put_byte(out, at, 48) } else { at }
}

// The record that begins at `start`, as it is written back.
fn put_record(
    out: &mut [u8],
    at: usize,
    s: &[u8],
    start: usize,
    points: u16,
    pointsend: u16,
    number: u8,
) -> usize
    requires start_le_points { (start ≤ points) × (points ≤ pointsend) × (pointsend ≤ length s.now) }
    requires number_in_bounds { at + length (record_text s.now start points pointsend number) ≤ length out.old }
    ensures { Puts out.old at (record_text s.now start points pointsend number) out.new result }
{
    let duplicate = is_duplicate(number);
    let to = copied_to(points as usize, pointsend as usize, duplicate);
    let copied = put_part(out, at, s, start, to);
    let marks = put_zero(out, copied, duplicate);
    put_marks(
        out,
        marks,
        number / 16 % 2 == 1,
        number / 32 % 2 == 1,
        number / 64 % 2 == 1,
        duplicate,
    )
}

// How many bytes a field takes that holds a mark or nothing, with its semicolon.
fn mark_length(marked: bool) -> usize
    ensures { (result ≡ length (mark_text marked new_mark)) × (result ≡ length (mark_text marked duplicate_mark)) × (result ≤ 2) }
{
    if marked { 2 } else { 1 }
}

// How many bytes `put_marks` writes.
fn marks_length(exchange: bool, square: bool, country: bool, duplicate: bool) -> usize
    ensures { (result ≡ length (marks_text exchange square country duplicate)) × (result ≤ 10) }
{
    mark_length(exchange) + mark_length(square) + mark_length(country) + mark_length(duplicate) + 2
}

// How many bytes `put_zero` writes.
fn zero_length(duplicate: bool) -> usize
    ensures { (result ≡ length (zero_text duplicate)) × (result ≤ 1) }
{
    usize::from(duplicate)
}

// How many bytes `put_record` writes.
fn record_length(s: &[u8], start: usize, points: u16, pointsend: u16, number: u8) -> usize
    requires { (start ≤ points) × (points ≤ pointsend) × (pointsend ≤ length s.now) }
    ensures { (result ≡ length (record_text s.now start points pointsend number)) × (result ≤ pointsend - start + 11) }
{
    let duplicate = is_duplicate(number);
    let to = copied_to(points as usize, pointsend as usize, duplicate);
    let marks = marks_length(
        number / 16 % 2 == 1,
        number / 32 % 2 == 1,
        number / 64 % 2 == 1,
        duplicate,
    );
    to - start + zero_length(duplicate) + marks
}

// CR LF stand behind the end of a record.
pub fn behind_end(end: u16) -> usize
    ensures { result ≡ end + 2 }
{
    end as usize + 2
}

// The records, the first of which begins at `first`: by where the points of each begin and end, where it ends, and the number of its verdict.
fn put_records(
    out: &mut [u8],
    at: usize,
    s: &[u8],
    first: usize,
    points: &[u16],
    pointsends: &[u16],
    ends: &[u16],
    numbers: &[u8],
) -> usize
    requires records_lie { RecordsLie s.now first points.now pointsends.now ends.now (length numbers.now) }
    requires numbers_in_bounds { at + length (records_text s.now first points.now pointsends.now ends.now numbers.now) ≤ length out.old }
    ensures { Puts out.old at (records_text s.now first points.now pointsends.now ends.now numbers.now) out.new result }
{
    let mut end = at;
    let mut start = first;
    for (i, number) in numbers.iter().enumerate() {
        end = put_record(out, end, s, start, points[i], pointsends[i], *number);
        start = behind_end(ends[i]);
    }
    end
}

// How many bytes `put_records` writes.
fn records_length(
    s: &[u8],
    first: usize,
    points: &[u16],
    pointsends: &[u16],
    ends: &[u16],
    numbers: &[u8],
) -> usize
    requires { RecordsLie s.now first points.now pointsends.now ends.now (length numbers.now) × (length s.now ≤ base.longest_log) }
    ensures { (result ≡ length (records_text s.now first points.now pointsends.now ends.now numbers.now)) × (result ≤ 7 * length s.now) }
{
    let mut sum = 0;
    let mut start = first;
    for (i, number) in numbers.iter().enumerate() {
        sum += record_length(s, start, points[i], pointsends[i], *number);
        start = behind_end(ends[i]);
    }
    sum
}

// # The claims

// The place behind the line that goes on at this place.
fn line_behind(s: &[u8], at: usize) -> usize
    requires { at ≤ length s.now }
    ensures { result ≡ line_behind s.now at }
{
    reader::allowed_run(s, at) + 2
}

// Where the numbers of as many claims as there is room for begin and end, the first of them on the line that begins at `line`.
fn claims_at(s: &[u8], line: usize, starts: &mut [usize], ends: &mut [usize])
    requires { ClaimsBegin s.now line (length starts.old) × (length ends.old ≡ length starts.old) }
    ensures starts { starts.new ≡ claim_starts s.now line (length starts.old) }
    ensures ends { ends.new ≡ claim_ends s.now line (length starts.old) }
{
    let mut next = line;
    for (i, start) in starts.iter_mut().enumerate() {
        *start = next + 6;
        let end = fields::run(s, *start, &Digits);
        ends[i] = end;
        next = line_behind(s, end);
    }
}

// The part of `s` from a place to a claimed number, and the right number in its place.
fn put_claim(out: &mut [u8], at: usize, s: &[u8], from: usize, to: usize, n: u64) -> usize
    requires { (from ≤ to) × (to ≤ length s.now) × (at + length (between s.now from to ++ digits n) ≤ length out.old) }
    ensures { Puts out.old at (between s.now from to ++ digits n) out.new result }
{
    let start = put_part(out, at, s, from, to);
    put_number(out, start, n)
}

// The log in front of its first record, with these numbers for those that begin and end as told.
fn put_claims(
    out: &mut [u8],
    s: &[u8],
    first: usize,
    starts: &[usize],
    ends: &[usize],
    claims: &[u64],
) -> usize
    requires claims_lie { ClaimsLie s.now first starts.now ends.now (length claims.now) }
    requires claims_in_bounds { length (claims_text s.now first 0 starts.now ends.now claims.now) ≤ length out.old }
    ensures { Puts out.old 0 (claims_text s.now first 0 starts.now ends.now claims.now) out.new result }
{
    let mut at = 0;
    let mut from = 0;
    for (i, claim) in claims.iter().enumerate() {
        at = put_claim(out, at, s, from, starts[i], *claim);
        from = ends[i];
    }
    put_part(out, at, s, from, first)
}

// How many bytes `put_claims` writes.
fn claims_length(s: &[u8], first: usize, starts: &[usize], ends: &[usize], claims: &[u64]) -> usize
    requires { ClaimsLie s.now first starts.now ends.now (length claims.now) × (length claims.now ≤ 9) × (length s.now ≤ base.longest_log) }
    ensures { (result ≡ length (claims_text s.now first 0 starts.now ends.now claims.now)) × (result ≤ length s.now + 20 * 9) }
{
    let mut sum = 0;
    let mut from = 0;
    for (i, claim) in claims.iter().enumerate() {
        sum += starts[i] - from + digit_count(*claim);
        from = ends[i];
    }
    sum + (first - from)
}

// The nine numbers that are claimed, in the order of their lines.
fn claim_numbers(t: Totals) -> [u64; 9]
    ensures { result ≡ claim_numbers t }
{
    [
        t.credited,
        t.points,
        t.squares,
        t.squarebonus,
        t.exchanges,
        t.exchangebonus,
        t.countries,
        t.countrybonus,
        t.total,
    ]
}

// # The spelling

// Where some keyword is respelt, each is put as it is listed, line by line. No spelling changes a length, so that every line stays at its place.
fn respell(out: &mut [u8], respelt: usize)
    requires { KeywordsLie entries 14 out.old }
    ensures { out.new ≡ relisted respelt out.old }
{
    if respelt == 0 {
        return;
    }
    let mut at = 14;
    for k in 0..36 {
        let argument = put_part(out, at, &header::listed(k), 0, 6);
        at = line_behind(out, argument);
    }
}

// # The log

// A result of this length is no longer than a log may be, nor than the slice.
fn result_fits(length: usize, room: usize) -> bool
    ensures { result ≡ (leb length base.longest_log && leb length room) }
{
    length <= rules::longest_log() && length <= room
}

// A judged log is written back, if the slice has room for the result; otherwise the slice is left as it is. The result is measured before its first
// byte is written.
fn write_weighed(
    log: &[u8],
    t: Totals,
    first: usize,
    heading: Heading,
    points: &[u16],
    pointsends: &[u16],
    ends: &[u16],
    numbers: &[u8],
    out: &mut [u8],
) -> Result<usize, Refusal>
    requires { Writable base log.now t first heading points.now pointsends.now ends.now numbers.now }
    ensures answer { result ≡ wrote_of base (length out.old) log.now }
    ensures slice { out.new ≡ written_afterwards base log.now out.old }
{
    let claims = claim_numbers(t);
    let mut claimstarts = [0usize; 9];
    let mut claimends = [0usize; 9];
    claims_at(log, heading.claims, &mut claimstarts, &mut claimends);
    let head = claims_length(log, first, &claimstarts, &claimends, &claims);
    let length = head + records_length(log, first, points, pointsends, ends, numbers);
    if !result_fits(length, out.len()) {
        return Err(rules::refused(8));
    }
    let at = put_claims(out, log, first, &claimstarts, &claimends, &claims);
    let end = put_records(out, at, log, first, points, pointsends, ends, numbers);
    respell(out, heading.respelt);
    Ok(end)
}

// A log is read, judged and written back to the front of the slice. On a refusal no byte of the slice is changed.
pub fn write(log: &[u8], out: &mut [u8]) -> Result<usize, Refusal>
    ensures answer { result ≡ wrote_of base (length out.old) log.now }
    ensures slice { out.new ≡ written_afterwards base log.now out.old }
{
    let mut verdicts = [0u8; rules::MOST_RECORDS];
    let mut points = [0u16; rules::MOST_RECORDS];
    let mut pointsends = [0u16; rules::MOST_RECORDS];
    let mut ends = [0u16; rules::MOST_RECORDS];
    let weighed = judge::weigh(log, &mut verdicts, &mut points, &mut pointsends, &mut ends)?;
    let n = weighed.records;
    write_weighed(
        log,
        weighed.totals,
        weighed.first,
        weighed.heading,
        &points[..n],
        &pointsends[..n],
        &ends[..n],
        &verdicts[..n],
        out,
    )
}

// # What the desk program shows

// Room for what is shown of any log: six words of ten bytes at most and eleven of seven, and behind each a number of twenty digits at most and the
// line's end.
pub const SHOWN: usize = 512;

// A word, a number and one byte more.
fn put_word(out: &mut [u8], at: usize, word: &[u8], n: u64, last: u8) -> usize
    requires { at + length word.now + 21 ≤ length out.old }
    ensures text { Puts out.old at (word.now ++ digits n ++ (last ∷ [])) out.new result }
    ensures end { result ≤ at + length word.now + 21 }
{
    let number = put_part(out, at, word, 0, word.len());
    let end = put_number(out, number, n);
    put_byte(out, end, last)
}

// What stands for each mode: the codes, and a dash for none.
const MODE_MARKS: [u8; judge::MODES] = *b"0123456789-";

// The line of one mode, by its mark.
fn put_mode(out: &mut [u8], at: usize, mark: u8, n: u64) -> usize
    requires { at + 28 ≤ length out.old }
    ensures text { Puts out.old at (mode_line mark n) out.new result }
    ensures end { result ≤ at + 28 }
{
    let mut word = *b"MODE - ";
    word[5] = mark;
    put_word(out, at, &word, n, 10)
}

// The eleven lines of the modes.
fn put_modes(out: &mut [u8], at: usize, modes: &[u64; judge::MODES]) -> usize
    requires { at + 308 ≤ length out.old }
    ensures { Puts out.old at (mode_lines modes.now) out.new result }
{
    let mut end = at;
    for (i, mark) in MODE_MARKS.iter().enumerate() {
        end = put_mode(out, end, *mark, modes[i]);
    }
    end
}

// The seventeen lines of a judged log.
fn show_totals(t: Totals, out: &mut [u8; SHOWN]) -> usize
    ensures { Puts out.old 0 (shown_totals t) out.new result }
{
    let second = put_word(out, 0, b"QSOS ", t.credited, 10);
    let third = put_word(out, second, b"POINTS ", t.points, 10);
    let fourth = put_word(out, third, b"WWLS ", t.squares, 10);
    let fifth = put_word(out, fourth, b"EXCHANGES ", t.exchanges, 10);
    let sixth = put_word(out, fifth, b"DXCCS ", t.countries, 10);
    let seventh = put_word(out, sixth, b"TOTAL ", t.total, 10);
    let modes = t.modes;
    put_modes(out, seventh, &judge::mode_numbers(modes))
}

// The one line of a refusal.
fn show_refusal(r: Refusal, out: &mut [u8; SHOWN]) -> usize
    ensures { Puts out.old 0 (shown_refusal r) out.new result }
{
    let line = put_word(out, 0, b"REFUSED ", r.number as u64, 32);
    let field = put_word(out, line, b"", r.line as u64, 32);
    put_word(out, field, b"", r.field as u64, 10)
}

// A log is judged, and what the desk program shows of it is laid over the front of the slice.
pub fn show(log: &[u8], out: &mut [u8; SHOWN]) -> usize
    ensures answer { result ≡ length (desk base log.now) }
    ensures slice { out.new ≡ over (desk base log.now) out.old }
{
    let mut verdicts = [0u8; rules::MOST_RECORDS];
    match judge::judge(log, &mut verdicts) {
        Ok(t) => show_totals(t, out),
        Err(r) => show_refusal(r, out),
    }
}

// # For those who lay other texts over a slice

// A text is laid over the slice from a place on, where there is room for all of it, and otherwise nothing is. Tells the place behind what was laid.
pub fn put_text(out: &mut [u8], at: usize, text: &[u8]) -> usize
    ensures answer { result ≡ cond (has_room out.old at text.now) (at + length text.now) at }
    ensures slice { out.new ≡ cond (has_room out.old at text.now) (written out.old at text.now) out.old }
{
    if out.len() < at || out.len() - at < text.len() {
        return at;
    }
    put_part(out, at, text, 0, text.len())
}

// Room for a count line: its word of twelve bytes, a number of twenty digits at most, and `]`.
pub const COUNT_LINE: usize = 33;

// The count line of so many records is laid over the front of the slice. Tells how long it is.
pub fn count_line(out: &mut [u8; COUNT_LINE], n: u64) -> usize
    ensures answer { result ≡ length (count_line n) }
    ensures slice { out.new ≡ over (count_line n) out.old }
{
    put_word(out, 0, b"[QSORecords;", n, 93)
}
