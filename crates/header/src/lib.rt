// The header's lines: the table of the 36 keywords, the table of the fifteen bands, and the rule of each argument.

#![tactic(auto)]

ghost use Rattle.std.specs.Io.BufRead.{strip_last};
ghost use Rattle.std.specs.Prelude.{[], map, ◌≡◌};
ghost use Rattle.rules.specs.Arguments.{meets, two_dates, a_call, empty_or_call, empty_or_calls, a_locator, an_exchange, count_and_multiplier, count_bonus_multiplier, claimed_points, claimed_bonus, claimed_total, best_contact};
ghost use Rattle.rules.specs.Rules.{base};
ghost use Rattle.rules.specs.Text.{same, begins, lower};
ghost use Rattle.header.specs.Header.{spelling_of, keyword_at, listed_at, band_of, argument_of};

const KEYWORDS: [[u8; 6]; 36] = [
    *b"TName=", *b"TDate=", *b"PCall=", *b"PWWLo=", *b"PExch=", *b"PAdr1=", *b"PAdr2=", *b"PSect=",
    *b"PBand=", *b"PClub=", *b"RName=", *b"RCall=", *b"RAdr1=", *b"RAdr2=", *b"RPoCo=", *b"RCity=",
    *b"RCoun=", *b"RPhon=", *b"RHBBS=", *b"MOpe1=", *b"MOpe2=", *b"STXEq=", *b"SPowe=", *b"SRXEq=",
    *b"SAnte=", *b"SAntH=", *b"CQSOs=", *b"CQSOP=", *b"CWWLs=", *b"CWWLB=", *b"CExcs=", *b"CExcB=",
    *b"CDXCs=", *b"CDXCB=", *b"CToSc=", *b"CODXC=",
];

// A name of six bytes is filled up with a space, so that the table is bytes alone: pointers in it would have to be set where the library is loaded.
const BANDS: [[u8; 7]; 15] = [
    *b"50 MHz ",
    *b"70 MHz ",
    *b"144 MHz",
    *b"432 MHz",
    *b"1,3 GHz",
    *b"2,3 GHz",
    *b"3,4 GHz",
    *b"5,7 GHz",
    *b"10 GHz ",
    *b"24 GHz ",
    *b"47 GHz ",
    *b"76 GHz ",
    *b"120 GHz",
    *b"144 GHz",
    *b"248 GHz",
];

// The text begins with the word.
pub fn begins_with(word: &[u8], s: &[u8]) -> bool
    ensures { result ≡ begins word.now s.now }
{
    // `starts_with` compares in groups, which takes longer where a short word differs in its first bytes
    word.len() <= s.len() && word.iter().zip(s).all(|(a, b)| a == b)
}

// The two texts are the same, byte for byte.
#[tactic(auto, using(crate::proofs::WordLaws::same_by))]
pub fn same_text(a: &[u8], b: &[u8]) -> bool
    ensures { result ≡ same a.now b.now }
{
    a == b
}

// The small letter of a capital; every other byte is its own.
fn lower(b: u8) -> u8
    ensures { result ≡ lower b }
{
    if fields::is_capital(b) { b + 32 } else { b }
}

// The text begins with the word, but for the case of letters.
fn begins_in_any_case(word: &[u8], s: &[u8]) -> bool
    ensures { result ≡ begins (map lower word.now) (map lower s.now) }
{
    word.len() <= s.len() && word.iter().zip(s).all(|(a, b)| lower(*a) == lower(*b))
}

// Whether a line begins with the keyword that is due and its `=`: as it is listed, with letters in their other case, or not at all.
#[derive(Clone, Copy)]
pub enum KeywordRead {
    Listed,
    Respelt,
    Differs,
}

fn spelling(word: &[u8], line: &[u8]) -> KeywordRead
    ensures { result ≡ spelling_of word.now line.now }
{
    if begins_with(word, line) {
        return KeywordRead::Listed;
    }
    // asked only where bytes differ, which is rare
    if begins_in_any_case(word, line) {
        return KeywordRead::Respelt;
    }
    KeywordRead::Differs
}

pub fn keyword(k: usize, line: &[u8]) -> KeywordRead
    ensures { result ≡ keyword_at k line.now }
{
    match KEYWORDS.get(k) {
        Some(word) => spelling(word, line),
        None => KeywordRead::Differs,
    }
}

// The keyword that comes after k others, as it is listed, with its `=`; noughts where there is none.
pub fn listed(k: usize) -> [u8; 6]
    ensures { result ≡ listed_at k }
{
    match KEYWORDS.get(k) {
        Some(word) => *word,
        None => [0; 6],
    }
}

// Whether a text is the name, without the space that fills it up.
fn is_named(name: &[u8; 7], t: &[u8]) -> bool
    ensures { result ≡ same (strip_last 32 name.now) t.now }
{
    same_text(name.strip_suffix(b" ").unwrap_or(name), t)
}

// Whether a text is one of the fifteen names, compared whole.
pub fn band(t: &[u8]) -> bool
    ensures { result ≡ band_of base t.now }
{
    BANDS.iter().any(|name| is_named(name, t))
}

// The rules of the arguments. A reader stops before a semicolon, so it has read a whole argument where it ends with the text.

fn is_call(t: &[u8]) -> bool
    ensures { result ≡ meets base a_call t.now }
{
    let Some(call) = fields::call(t, 0) else {
        return false;
    };
    call.end == t.len()
}

fn is_empty_or_call(t: &[u8]) -> bool
    ensures { result ≡ meets base empty_or_call t.now }
{
    let Some(call) = fields::call_or_empty(t, 0) else {
        return false;
    };
    call.end == t.len()
}

fn is_locator(t: &[u8]) -> bool
    ensures { result ≡ meets base a_locator t.now }
{
    fields::locator(t, 0) == Some(t.len())
}

fn is_exchange(t: &[u8]) -> bool
    ensures { result ≡ meets base an_exchange t.now }
{
    fields::exchange(t, 0) == Some(t.len())
}

fn is_claimed_points(t: &[u8]) -> bool
    ensures { result ≡ meets base claimed_points t.now }
{
    let Some((_, end)) = figures::claimed_points(t, 0) else {
        return false;
    };
    end == t.len()
}

fn is_claimed_bonus(t: &[u8]) -> bool
    ensures { result ≡ meets base claimed_bonus t.now }
{
    let Some((_, end)) = figures::claimed_bonus(t, 0) else {
        return false;
    };
    end == t.len()
}

fn is_claimed_total(t: &[u8]) -> bool
    ensures { result ≡ meets base claimed_total t.now }
{
    let Some((_, end)) = figures::claimed_total(t, 0) else {
        return false;
    };
    end == t.len()
}

// Where a semicolon is missing, the next part is looked for beyond the end, and the last does not end with the text.

fn is_count_and_multiplier(t: &[u8]) -> bool
    ensures { result ≡ meets base count_and_multiplier t.now }
{
    let Some((_, count)) = figures::count_of(t, 0) else {
        return false;
    };
    let Some((_, end)) = figures::multiplier_of(t, count + 1) else {
        return false;
    };
    end == t.len()
}

fn is_count_bonus_multiplier(t: &[u8]) -> bool
    ensures { result ≡ meets base count_bonus_multiplier t.now }
{
    let Some((_, count)) = figures::count_of(t, 0) else {
        return false;
    };
    let Some((_, bonus)) = figures::bonus_of(t, count + 1) else {
        return false;
    };
    let Some((_, end)) = figures::multiplier_of(t, bonus + 1) else {
        return false;
    };
    end == t.len()
}

fn is_best_contact(t: &[u8]) -> bool
    ensures { result ≡ meets base best_contact t.now }
{
    let Some(call) = fields::call_or_empty(t, 0) else {
        return false;
    };
    let Some(locator) = fields::locator_or_empty(t, call.end + 1) else {
        return false;
    };
    let Some((_, end)) = figures::distance(t, locator + 1) else {
        return false;
    };
    end == t.len()
}

// The last day may be the first, and is not before it.
fn is_two_dates(t: &[u8]) -> bool
    ensures { result ≡ meets base two_dates t.now }
{
    let Some((first, between)) = figures::long_date(t, 0) else {
        return false;
    };
    let Some((last, end)) = figures::long_date(t, between + 1) else {
        return false;
    };
    if end != t.len() {
        return false;
    }
    first <= last
}

// Nothing at all, or calls: an empty text has no call, and one that ends with a semicolon has an empty last part.
fn is_empty_or_calls(t: &[u8]) -> bool
    ensures { result ≡ meets base empty_or_calls t.now }
{
    if t.len() == 0 {
        return true;
    }
    let mut at = 0;
    while at < t.len() {
        let Some(call) = fields::call(t, at) else {
            return false;
        };
        if call.end == t.len() {
            return true;
        }
        at = call.end + 1;
    }
    false
}

// Whether the argument behind the keyword at this place of the table keeps its rule. Where no rule is named, anything may stand.
pub fn argument(k: usize, t: &[u8]) -> bool
    ensures { result ≡ argument_of base k t.now }
{
    if 36 <= k {
        return false;
    }
    match k {
        1 => is_two_dates(t),
        2 => is_call(t),
        3 => is_locator(t),
        4 => is_exchange(t),
        8 => band(t),
        9 | 11 => is_empty_or_call(t),
        19 | 20 => is_empty_or_calls(t),
        26 => is_count_and_multiplier(t),
        27 => is_claimed_points(t),
        28 | 30 | 32 => is_count_bonus_multiplier(t),
        29 | 31 | 33 => is_claimed_bonus(t),
        34 => is_claimed_total(t),
        35 => is_best_contact(t),
        _ => true,
    }
}
