// The vocabulary that the crates share: what is answered, and in which words. What each word means stands in specs/.

#![tactic(auto, unfolding(crate::specs::Rules::base))]

ghost use Rattle.std.specs.Prelude.{◌≡◌};
ghost use Rattle.rules.specs.Reading.{refusal};
ghost use Rattle.rules.specs.Rules.{base};

// Why a log is refused, where, and in which field; number 0 says that nothing is refused.
#[repr(C)]
#[derive(Clone, Copy)]
pub struct Refusal {
    pub number: u32,
    pub line: u32,
    pub field: u32,
}

// Why a line is refused: a number, and the field; 0 is no field.
#[derive(Clone, Copy)]
pub struct Fault {
    pub number: u32,
    pub field: u32,
}

impl Fault {
    // The refusal of a log whose line of this number has the fault.
    pub fn at(self, line: u32) -> Refusal
        ensures { result ≡ refusal self.number line self.field }
    {
        Refusal {
            number: self.number,
            line,
            field: self.field,
        }
    }
}

// A refusal that tells of a line and of no field.
pub fn refused_at(number: u32, line: u32) -> Refusal
    ensures { result ≡ refusal number line 0 }
{
    Fault { number, field: 0 }.at(line)
}

// A refusal that tells of no line and of no field.
pub fn refused(number: u32) -> Refusal
    ensures { result ≡ refusal number 0 0 }
{
    refused_at(number, 0)
}

// How many credited records there are by each mode: by its code, and with none.
#[repr(C)]
#[derive(Clone, Copy, Default)]
pub struct Modes {
    pub code0: u64,
    pub code1: u64,
    pub code2: u64,
    pub code3: u64,
    pub code4: u64,
    pub code5: u64,
    pub code6: u64,
    pub code7: u64,
    pub code8: u64,
    pub code9: u64,
    pub blank: u64,
}

// What a judged log comes to.
#[derive(Clone, Copy, Default)]
pub struct Totals {
    pub credited: u64,
    pub voids: u64,
    pub duplicates: u64,
    pub errors: u64,
    pub points: u64,
    pub squares: u64,
    pub exchanges: u64,
    pub countries: u64,
    pub squarebonus: u64,
    pub exchangebonus: u64,
    pub countrybonus: u64,
    pub total: u64,
    pub modes: Modes,
}

// What a record is worth.
#[derive(Clone, Copy, PartialEq, Eq)]
pub enum Class {
    Credited,
    Void,
    Duplicate,
    Error,
}

// What is said of one record: its class, and what is new by it.
#[derive(Clone, Copy)]
pub struct Verdict {
    pub class: Class,
    pub exchange: bool,
    pub square: bool,
    pub country: bool,
}

// What the next line of a log has to be.
#[derive(Clone, Copy)]
pub enum Due {
    Identifier,
    // The keyword that comes after so many.
    Keyword(usize),
    Remarks,
    // A remark, or the count line.
    Remark,
    // A record, and how many there are from here on, this one too.
    Record(usize),
    // Nothing more.
    End,
}

// Where a line of a chewed log lies, as far as one can tell from the lines in front of it.
#[derive(Clone, Copy)]
pub enum Region {
    // In front of `[Remarks]`, or that line itself.
    Head,
    // Behind it, up to the count line.
    Remarks,
    // Behind the count line.
    Records,
}

// # The limits

// Each limit stands here once, and once in the base rules; its function says that the two are one, and whoever asks it knows the limit by the
// name that it has there. The three that are lengths of lists have a name of their own besides.

pub const LONGEST_LOG: usize = 65535;

pub const LONGEST_LINE: usize = 75;

pub const MOST_RECORDS: usize = 999;

// The most bytes of a log.
pub fn longest_log() -> usize
    ensures { result ≡ base.longest_log }
{
    LONGEST_LOG
}

// The most characters of a line.
pub fn longest_line() -> usize
    ensures { result ≡ base.longest_line }
{
    LONGEST_LINE
}

// The largest N.
pub fn most_records() -> usize
    ensures { result ≡ base.most_records }
{
    MOST_RECORDS
}

// The largest count, bonus and multiplier.
pub fn most_count() -> u64
    ensures { result ≡ base.most_count }
{
    9999
}

pub fn most_bonus() -> u64
    ensures { result ≡ base.most_bonus }
{
    9999
}

pub fn most_multiplier() -> u64
    ensures { result ≡ base.most_multiplier }
{
    99
}

// The most characters of an exchange.
pub fn longest_exchange() -> usize
    ensures { result ≡ base.longest_exchange }
{
    6
}

// The most digits: of a record's points, of a distance, and of the claims.
pub fn points_digits() -> usize
    ensures { result ≡ base.points_digits }
{
    6
}

pub fn distance_digits() -> usize
    ensures { result ≡ base.distance_digits }
{
    6
}

pub fn claimed_points_digits() -> usize
    ensures { result ≡ base.claimed_points_digits }
{
    9
}

pub fn claimed_bonus_digits() -> usize
    ensures { result ≡ base.claimed_bonus_digits }
{
    7
}

pub fn claimed_total_digits() -> usize
    ensures { result ≡ base.claimed_total_digits }
{
    15
}
