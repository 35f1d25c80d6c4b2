// The readers of numbers, dates and times. Each takes a line and the place where its field begins, and answers where the field ends and what it
// says, or that it is bad. A byte is looked at once, and once more only where a field begins or ends; none is copied.

#![tactic(auto)]

ghost use Rattle.std.specs.Prelude.{◌^◌, ◌≤◌, ◌<◌, true, [], ◌∷◌, ◌≡◌};
ghost use Rattle.rules.specs.Arguments.{count, bonus, multiplier};
ghost use Rattle.rules.specs.Fields.{leap, month_length, day_exists, full_year, short_date};
ghost use Rattle.rules.specs.Rules.{base};
ghost use Rattle.rules.specs.Text.{digit, all, value, number_of, number_from};
ghost use Rattle.figures.specs.Figure.{date_at, long_date_at, time_at, minutes_of, number_at, value_told, digits_at, time_made};

use fields::{ends, is_digit};

// A time of day, as its four digits read.
#[derive(Clone, Copy)]
pub struct TimeOfDay {
    pub digits: u32,
}

impl TimeOfDay {
    // The first and the last time of a day, as their digits read.
    pub const FIRST: u32 = 0;

    pub const LAST: u32 = 2359;

    // The time that four digits write: two of hours and two of minutes.
    pub fn from_digits(a: u8, b: u8, c: u8, d: u8) -> Option<TimeOfDay>
        ensures { result ≡ time_made a b c d }
    {
        if !are_digits(a, b) {
            return None;
        }
        if !are_digits(c, d) {
            return None;
        }
        let hours = two_digits(a, b);
        if Self::LAST / 100 < hours {
            return None;
        }
        let minutes = two_digits(c, d);
        if Self::LAST % 100 < minutes {
            return None;
        }
        Some(TimeOfDay {
            digits: 100 * hours + minutes,
        })
    }

    // The minutes from the first time on.
    pub fn minutes(self) -> u32
        ensures { result ≡ minutes_of self }
    {
        60 * (self.digits / 100) + self.digits % 100 - Self::FIRST
    }
}

#[derive(Clone, Copy)]
pub enum DateRead {
    Date(usize),
    Empty,
    Bad,
}

// A u64 holds so many digits, whichever they are.
const U64_DIGITS: usize = 19;

// What the digits from here on write, and the place behind them. They are no more than so many: a longer run is left where it goes on, so that
// the field does not end there.
fn read_digits(s: &[u8], at: usize, most: usize) -> (u64, usize)
    requires { most ≤ 19 }
    ensures { result ≡ digits_at most s.now at }
{
    let mut value: u64 = 0;
    let mut left = most;
    for i in at..s.len() {
        let b = s[i];
        if left == 0 || !is_digit(b) {
            return (value, i);
        }
        value = 10 * value + (b - b'0') as u64;
        left -= 1;
    }
    (value, at.max(s.len()))
}

// A number of at most so many digits.
fn number(s: &[u8], at: usize, most: usize) -> Option<(u64, usize)>
    requires { most ≤ 19 }
    ensures { result ≡ number_at (number_of most) s.now at }
{
    let (value, end) = read_digits(s, at, most);
    if !ends(s, end) || end == at {
        return None;
    }
    // a zero leads no number but itself
    if s[at] == b'0' && end - at != 1 {
        return None;
    }
    Some((value, end))
}

// The value of a number that was read, and 0 where none was.
pub fn value_of(number: Option<(u64, usize)>) -> u64
    ensures { result ≡ value_told number }
{
    match number {
        Some((value, _)) => value,
        None => 0,
    }
}

// A record's points. They lie within the record reader, as the fields in front of them do.
#[inline(always)]
pub fn points(s: &[u8], at: usize) -> Option<(u64, usize)>
    ensures { result ≡ number_at (number_of base.points_digits) s.now at }
{
    number(s, at, rules::points_digits())
}

// The best contact's distance. It has a limit of its own beside that of points, so that either may change alone.
pub fn distance(s: &[u8], at: usize) -> Option<(u64, usize)>
    ensures { result ≡ number_at (number_of base.distance_digits) s.now at }
{
    number(s, at, rules::distance_digits())
}

// The claims, by what they are the sum of.
pub fn claimed_points(s: &[u8], at: usize) -> Option<(u64, usize)>
    ensures { result ≡ number_at (number_of base.claimed_points_digits) s.now at }
{
    number(s, at, rules::claimed_points_digits())
}

pub fn claimed_bonus(s: &[u8], at: usize) -> Option<(u64, usize)>
    ensures { result ≡ number_at (number_of base.claimed_bonus_digits) s.now at }
{
    number(s, at, rules::claimed_bonus_digits())
}

pub fn claimed_total(s: &[u8], at: usize) -> Option<(u64, usize)>
    ensures { result ≡ number_at (number_of base.claimed_total_digits) s.now at }
{
    number(s, at, rules::claimed_total_digits())
}

// A number from the least to the most. One that a u64 may not hold is above the most, so it need not be read to its end.
fn number_from(s: &[u8], at: usize, least: u64, most: u64) -> Option<(u64, usize)>
    requires { most < 10 ^ 19 }
    ensures { result ≡ number_at (number_from least most) s.now at }
{
    let Some((value, end)) = number(s, at, U64_DIGITS) else {
        return None;
    };
    if value < least || most < value {
        return None;
    }
    Some((value, end))
}

pub fn count_of(s: &[u8], at: usize) -> Option<(u64, usize)>
    ensures { result ≡ number_at (count base) s.now at }
{
    number_from(s, at, 0, rules::most_count())
}

pub fn bonus_of(s: &[u8], at: usize) -> Option<(u64, usize)>
    ensures { result ≡ number_at (bonus base) s.now at }
{
    number_from(s, at, 0, rules::most_bonus())
}

pub fn multiplier_of(s: &[u8], at: usize) -> Option<(u64, usize)>
    ensures { result ≡ number_at (multiplier base) s.now at }
{
    number_from(s, at, 1, rules::most_multiplier())
}

// The N of the count line.
pub fn record_count(s: &[u8], at: usize) -> Option<(u64, usize)>
    ensures { result ≡ number_at (number_from 0 base.most_records) s.now at }
{
    number_from(s, at, 0, rules::most_records() as u64)
}

#[tactic(auto, unfolding(rules::specs::Text::all))]
fn are_digits(a: u8, b: u8) -> bool
    ensures { result ≡ all digit (a ∷ b ∷ []) }
{
    is_digit(a) && is_digit(b)
}

// The number that two digits write.
fn two_digits(a: u8, b: u8) -> u32
    requires { all digit (a ∷ b ∷ []) ≡ true }
    ensures { result ≡ value (a ∷ b ∷ []) }
{
    10 * (a - b'0') as u32 + (b - b'0') as u32
}

pub fn time(s: &[u8], at: usize) -> Option<(TimeOfDay, usize)>
    ensures { result ≡ time_at s.now at }
{
    // taken from the length, since no sum with `at` need fit
    if s.len() < 4 {
        return None;
    }
    if s.len() - 4 < at {
        return None;
    }
    if !ends(s, at + 4) {
        return None;
    }
    let Some(t) = TimeOfDay::from_digits(s[at], s[at + 1], s[at + 2], s[at + 3]) else {
        return None;
    };
    Some((t, at + 4))
}

#[tactic(auto, unfolding(rules::specs::Fields::leap))]
fn is_leap(year: u32) -> bool
    ensures { result ≡ leap year }
{
    year % 4 == 0 && year % 100 != 0 || year % 400 == 0
}

// Months of 31 and of 30 days take turns, and with the eighth the turns begin anew. February has two days fewer than its turn, one in a leap year.
fn month_length(year: u32, month: u32) -> u32
    requires { (1 ≤ month) × (month ≤ 12) }
    ensures { result ≡ month_length year month }
{
    let days = 30 + (month + month / 8) % 2;
    if month != 2 {
        return days;
    }
    if !is_leap(year) {
        return days - 2;
    }
    days - 1
}

#[tactic(auto, unfolding(rules::specs::Fields::day_exists))]
pub fn day_exists(year: u32, month: u32, day: u32) -> bool
    ensures { result ≡ day_exists year month day }
{
    matches!(month, 1..=12) && 1 <= day && day <= month_length(year, month)
}

// Of a year's last two digits: 90 to 99 are the 1990s, and the rest the 2000s.
fn full_year(yy: u32) -> u32
    requires { yy < 100 }
    ensures { result ≡ full_year yy }
{
    if 90 <= yy {
        return 1900 + yy;
    }
    2000 + yy
}

// Six characters are a date: two digits of the year, two of the month and two of the day.
fn is_short_date(a: u8, b: u8, c: u8, d: u8, e: u8, f: u8) -> bool
    ensures { result ≡ short_date (a ∷ b ∷ c ∷ d ∷ e ∷ f ∷ []) }
{
    if !are_digits(a, b) || !are_digits(c, d) || !are_digits(e, f) {
        return false;
    }
    let year = full_year(two_digits(a, b));
    day_exists(year, two_digits(c, d), two_digits(e, f))
}

// An empty date is told apart, since a record of the call `ERROR` may have one.
pub fn date(s: &[u8], at: usize) -> DateRead
    ensures { result ≡ date_at s.now at }
{
    if ends(s, at) {
        return DateRead::Empty;
    }
    // taken from the length, since no sum with `at` need fit
    if s.len() < 6 {
        return DateRead::Bad;
    }
    if s.len() - 6 < at {
        return DateRead::Bad;
    }
    if !ends(s, at + 6) {
        return DateRead::Bad;
    }
    if !is_short_date(s[at], s[at + 1], s[at + 2], s[at + 3], s[at + 4], s[at + 5]) {
        return DateRead::Bad;
    }
    DateRead::Date(at + 6)
}

// The years run from 1990 to 2089, so that a long date's last six digits are a short one.
pub fn long_date(s: &[u8], at: usize) -> Option<(u32, usize)>
    ensures { result ≡ long_date_at s.now at }
{
    let (digits, end) = read_digits(s, at, 8);
    if !ends(s, end) {
        return None;
    }
    if end - at != 8 {
        return None;
    }
    let value = digits as u32;
    let year = value / 10000;
    if year < 1990 || 2089 < year {
        return None;
    }
    if !day_exists(year, value / 100 % 100, value % 100) {
        return None;
    }
    Some((value, end))
}
