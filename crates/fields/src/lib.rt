// The readers of single fields. Each takes a line and the place where its field begins, and answers where the field ends and what it holds,
// or that it is bad. Each goes over its field once, and copies nothing; a call of five characters alone is looked at again, for `ERROR`.

#![tactic(auto)]

ghost use Rattle.std.specs.Prelude.{ℕ, Bool, ◌+◌, ◌≤◌, ◌||◌, ◌≡◌, length, take, drop, get_or};
ghost use Rattle.rules.specs.Fields.{call_character, exchange_character, square_letter, sub_letter, error_call};
ghost use Rattle.rules.specs.Rules.{base};
ghost use Rattle.rules.specs.Text.{digit, capital, span, same};
ghost use Rattle.fields.specs.Field.{other_than, ends_at, call_at, call_or_empty_at, mode_at, report_at, serial_at, exchange_at, locator_at, locator_or_empty_at, mark_at};

pub fn is_digit(b: u8) -> bool
    ensures { result ≡ digit b }
{
    matches!(b, b'0'..=b'9')
}

pub fn is_capital(b: u8) -> bool
    ensures { result ≡ capital b }
{
    matches!(b, b'A'..=b'Z')
}

pub fn is_call_character(b: u8) -> bool
    ensures { result ≡ call_character b }
{
    is_capital(b) || is_digit(b) || b == b'/'
}

// What may stand behind the two digits of a report.
fn is_report_character(b: u8) -> bool
    ensures { result ≡ (digit b || capital b) }
{
    is_digit(b) || is_capital(b)
}

pub fn is_exchange_character(b: u8) -> bool
    ensures { result ≡ exchange_character b }
{
    matches!(b, 32..=127) && b != b';' && !matches!(b, b'a'..=b'z')
}

pub fn is_square_letter(b: u8) -> bool
    ensures { result ≡ square_letter b }
{
    matches!(b, b'A'..=b'R')
}

pub fn is_sub_letter(b: u8) -> bool
    ensures { result ≡ sub_letter b }
{
    matches!(b, b'A'..=b'X')
}

// Nothing of a field is left at this place: a semicolon stands there, or the line ends.
pub fn ends(s: &[u8], at: usize) -> bool
    ensures { result ≡ ends_at s.now at }
{
    s.len() <= at || s[at] == b';'
}

// The byte at this place, and a semicolon where the line has ended: a field goes on at neither.
fn byte_at(s: &[u8], at: usize) -> u8
    ensures { result ≡ get_or s.now at 59 }
{
    if s.len() <= at {
        return b';';
    }
    s[at]
}

// A kind of characters, by a test of one.
pub trait Kind {
    ghost holds: { Self → ℕ → Bool };

    fn has(&self, b: u8) -> bool
        ensures { result ≡ holds self.now b };
}

pub struct Digits;

impl Kind for Digits {
    ghost holds = { λ k. digit };

    fn has(&self, b: u8) -> bool {
        is_digit(b)
    }
}

pub struct CallCharacters;

impl Kind for CallCharacters {
    ghost holds = { λ k. call_character };

    fn has(&self, b: u8) -> bool {
        is_call_character(b)
    }
}

pub struct ExchangeCharacters;

impl Kind for ExchangeCharacters {
    ghost holds = { λ k. exchange_character };

    fn has(&self, b: u8) -> bool {
        is_exchange_character(b)
    }
}

// Every character but this one.
pub struct Besides(pub u8);

impl Kind for Besides {
    ghost holds = { λ k. other_than k.0 };

    fn has(&self, b: u8) -> bool {
        b != self.0
    }
}

// The place behind the characters of a kind from here on.
pub fn run<K: Kind>(s: &[u8], at: usize, kind: &K) -> usize
    ensures { result ≡ at + span (K.holds kind.now) (drop at s.now) }
{
    for i in at..s.len() {
        if !kind.has(s[i]) {
            return i;
        }
    }
    at.max(s.len())
}

// Where a call ends, and whether it is `ERROR`.
#[derive(Clone, Copy)]
pub struct CallField {
    pub end: usize,
    pub error: bool,
}

// The five bytes from here on are `ERROR`.
#[tactic(auto, using(crate::proofs::RunLaws::error_by))]
fn is_error(s: &[u8], at: usize) -> bool
    requires { at + 5 ≤ length s.now }
    ensures { result ≡ same (take 5 (drop at s.now)) error_call }
{
    s[at] == b'E'
        && s[at + 1] == b'R'
        && s[at + 2] == b'R'
        && s[at + 3] == b'O'
        && s[at + 4] == b'R'
}

pub fn call(s: &[u8], at: usize) -> Option<CallField>
    ensures { result ≡ call_at s.now at }
{
    let end = run(s, at, &CallCharacters);
    let count = end - at;
    if !ends(s, end) || count < 3 || 14 < count {
        return None;
    }
    // only a call as long as `ERROR` is looked at for it
    let error = count == 5 && is_error(s, at);
    Some(CallField { end, error })
}

pub fn call_or_empty(s: &[u8], at: usize) -> Option<CallField>
    ensures { result ≡ call_or_empty_at s.now at }
{
    if ends(s, at) {
        return Some(CallField {
            end: at,
            error: false,
        });
    }
    call(s, at)
}

pub fn mode(s: &[u8], at: usize) -> Option<usize>
    ensures { result ≡ mode_at s.now at }
{
    let first = byte_at(s, at);
    if first == b';' {
        return Some(at);
    }
    if !is_digit(first) {
        return None;
    }
    let end = at + 1;
    if !ends(s, end) {
        return None;
    }
    Some(end)
}

// This field, and those with `inline(always)` below it, are read within the record reader: every record has them, and calls would make reading dearer.
#[inline(always)]
pub fn report(s: &[u8], at: usize) -> Option<usize>
    ensures { result ≡ report_at s.now at }
{
    let first = byte_at(s, at);
    if first == b';' {
        return Some(at);
    }
    if !is_digit(first) {
        return None;
    }
    if !is_digit(byte_at(s, at + 1)) {
        return None;
    }
    let two = at + 2;
    let third = byte_at(s, two);
    if third == b';' {
        return Some(two);
    }
    if !is_report_character(third) {
        return None;
    }
    let three = at + 3;
    if !ends(s, three) {
        return None;
    }
    Some(three)
}

#[inline(always)]
pub fn serial(s: &[u8], at: usize) -> Option<usize>
    ensures { result ≡ serial_at s.now at }
{
    let first = byte_at(s, at);
    if first == b';' {
        return Some(at);
    }
    if !is_digit(first) {
        return None;
    }
    if !is_digit(byte_at(s, at + 1)) {
        return None;
    }
    if !is_digit(byte_at(s, at + 2)) {
        return None;
    }
    let three = at + 3;
    let fourth = byte_at(s, three);
    if fourth == b';' {
        return Some(three);
    }
    if !is_digit(fourth) {
        return None;
    }
    let four = at + 4;
    if !ends(s, four) {
        return None;
    }
    Some(four)
}

#[inline(always)]
pub fn exchange(s: &[u8], at: usize) -> Option<usize>
    ensures { result ≡ exchange_at base s.now at }
{
    let end = run(s, at, &ExchangeCharacters);
    if !ends(s, end) || rules::longest_exchange() < end - at {
        return None;
    }
    Some(end)
}

#[inline(always)]
pub fn locator(s: &[u8], at: usize) -> Option<usize>
    ensures { result ≡ locator_at s.now at }
{
    if !is_square_letter(byte_at(s, at)) {
        return None;
    }
    if !is_square_letter(byte_at(s, at + 1)) {
        return None;
    }
    if !is_digit(byte_at(s, at + 2)) {
        return None;
    }
    if !is_digit(byte_at(s, at + 3)) {
        return None;
    }
    let four = at + 4;
    let fifth = byte_at(s, four);
    if fifth == b';' {
        return Some(four);
    }
    if !is_sub_letter(fifth) {
        return None;
    }
    if !is_sub_letter(byte_at(s, at + 5)) {
        return None;
    }
    let six = at + 6;
    if !ends(s, six) {
        return None;
    }
    Some(six)
}

#[inline(always)]
pub fn locator_or_empty(s: &[u8], at: usize) -> Option<usize>
    ensures { result ≡ locator_or_empty_at s.now at }
{
    if ends(s, at) {
        return Some(at);
    }
    locator(s, at)
}

// Where a mark's field ends, and whether the mark is set.
#[derive(Clone, Copy)]
pub struct MarkField {
    pub end: usize,
    pub set: bool,
}

// A field that is the letter and nothing else, or is empty. A semicolon for the letter is never found, since no field holds one.
pub fn mark(s: &[u8], at: usize, letter: u8) -> Option<MarkField>
    ensures { result ≡ mark_at letter s.now at }
{
    let first = byte_at(s, at);
    if first == b';' {
        return Some(MarkField {
            end: at,
            set: false,
        });
    }
    if first != letter {
        return None;
    }
    let end = at + 1;
    if !ends(s, end) {
        return None;
    }
    Some(MarkField { end, set: true })
}
