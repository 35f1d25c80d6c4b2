// What a secretary's words at the desk name: records of a log, to be marked in a slice, and the keywords of its header.

#![tactic(auto)]

ghost use Rattle.std.specs.Prelude.{◌≡◌, length, drop};
ghost use Rattle.rules.specs.Arguments.{entries};
ghost use Rattle.rules.specs.Rules.{base};
ghost use Rattle.words.specs.Words.{number_named, first_in, last_in, names_records, marked_by, has_first, keyword_from, named_by};

use fields::Besides;
use header::KeywordRead;

const DASH: u8 = 45;

// The record that a text names, where there is room for so many.
fn record_number(t: &[u8], room: usize) -> Option<usize>
    ensures { result ≡ number_named base room t.now }
{
    let Some((n, end)) = figures::record_count(t, 0) else {
        return None;
    };
    // the reader stops before a semicolon, so it has read the whole text where it ends with it
    if end != t.len() {
        return None;
    }
    let number = n as usize;
    // the reader takes 0 as well, and records are numbered from 1
    if !(1..=room).contains(&number) {
        return None;
    }
    Some(number)
}

fn first_number(word: &[u8], room: usize) -> Option<usize>
    ensures { result ≡ number_named base room (first_in word.now) }
{
    let end = fields::run(word, 0, &Besides(DASH));
    record_number(&word[..end], room)
}

fn last_number(word: &[u8], room: usize) -> Option<usize>
    ensures { result ≡ number_named base room (last_in word.now) }
{
    let end = fields::run(word, 0, &Besides(DASH));
    if word.len() <= end {
        return record_number(word, room);
    }
    record_number(&word[end + 1..], room)
}

// Marks the records that a word names, each at the place one below its number; where the word names none, nothing is changed.
#[tactic(auto, using(crate::proofs::MarkLaws::no_order, crate::proofs::MarkLaws::none_marked))]
pub fn mark(word: &[u8], struck: &mut [u8]) -> bool
    ensures answer { result ≡ names_records base (length struck.old) word.now }
    ensures slice { struck.new ≡ marked_by base word.now struck.old }
{
    let room = struck.len();
    let Some(first) = first_number(word, room) else {
        return false;
    };
    let Some(last) = last_number(word, room) else {
        return false;
    };
    if last < first {
        return false;
    }
    struck[first - 1..last].fill(1);
    true
}

// A line begins with the keyword that comes after k others and its `=`, in any letter case.
fn has_keyword(k: usize, line: &[u8]) -> bool
    ensures { result ≡ has_first (drop k entries) line.now }
{
    matches!(
        header::keyword(k, line),
        KeywordRead::Listed | KeywordRead::Respelt
    )
}

// The number of the keyword that a word is, from 1.
#[tactic(auto, using(crate::proofs::KeywordLaws::keyword_apart))]
fn keyword_number(word: &[u8]) -> Option<usize>
    ensures { result ≡ keyword_from 1 entries word.now }
{
    let &[a, b, c, d, e] = word else {
        return None;
    };
    // the word as the front of a header's line, so that it is compared as those are
    let line = [a, b, c, d, e, b'='];
    for k in 0..36 {
        if has_keyword(k, &line) {
            return Some(k + 1);
        }
    }
    None
}

// What a word names of a header: the number of the keyword that it is, from 1, or the number that it is. A number that no keyword has is handed on as
// it is.
pub fn keyword(word: &[u8]) -> Option<usize>
    ensures { result ≡ named_by base word.now }
{
    if let Some(k) = keyword_number(word) {
        return Some(k);
    }
    let Some((n, end)) = figures::count_of(word, 0) else {
        return None;
    };
    // the reader stops before a semicolon, so it has read the whole word where it ends with it
    if end != word.len() {
        return None;
    }
    Some(n as usize)
}
