// What the desk's programs share: the log on standard input, the answer on standard output, and on standard error what cannot be done, and why a log
// is refused.

#![tactic(auto)]

ghost use Rattle.std.specs.Prelude.{◌%◌, ◌-◌, ◌≡◌, ◌<◌, ◌≤◌, [], take, drop, length, false};
ghost use Rattle.std.specs.Counts.{IsPrefixLen};
ghost use Rattle.std.specs.Io.KnownBytes.{Consumes, IsAtEnd};
ghost use Rattle.rules.specs.Text.{Text, digits};
ghost use Rattle.rules.specs.Judging.{class_number};
ghost use Rattle.console.specs.Words.{class_word, part_of, laid, spaced};

use rules::{Class, Refusal};
use std::io::Read;
use std::marker::Model;

// # Standard error

// What says bytes on standard error that need not be text, as a word of the command line need not: std's `Eprint` takes text alone. A failed write is
// passed over, of this as of all that is said there: there is nowhere left to tell of it.
pub trait EprintBytes {
    fn eprint_bytes(&self, bytes: &[u8]);
}

impl EprintBytes for HostRuntime {
    fn eprint_bytes(&self, bytes: &[u8]) {
        let _ = self.stderr().write_all(bytes);
    }
}

// Room for what is said of a refusal: a word of seven letters, and three numbers of ten digits at most, each with a space or the line's end.
const REFUSAL: usize = 64;

pub fn say_refusal(rt: &impl EprintBytes, r: Refusal) {
    let mut line = Page::<REFUSAL>::new();
    line.put(b"REFUSED ");
    line.put_number(u64::from(r.number));
    line.put(b" ");
    line.put_number(u64::from(r.line));
    line.put(b" ");
    line.put_number(u64::from(r.field));
    line.put(b"\n");
    rt.eprint_bytes(line.text());
}

// # Standard output

pub fn say_unwritten(rt: &impl EprintBytes) {
    rt.eprint_bytes(b"desk: cannot write the answer\n");
}

// The whole answer, or that it cannot be written.
pub fn answer(rt: &(impl Print + EprintBytes), text: &[u8]) {
    if rt.write_all(text).is_err() {
        say_unwritten(rt);
    }
}

// # Standard input

// How many bytes were read, and whether a read failed behind them.
#[derive(Clone, Copy)]
pub struct Taken {
    pub bytes: usize,
    pub failed: bool,
}

// Reads until the list is full, the input ends or a read fails.
pub fn fill<R: Read>(input: &mut R, log: &mut [u8]) -> Taken
    ensures count { IsPrefixLen result.bytes log.new }
    ensures bytes { Consumes (R.remaining input.old) (R.remaining input.new) (take result.bytes log.new) }
    ensures end { result.failed ≡ false → result.bytes < length log.new → IsAtEnd (R.remaining input.new) }
{
    let mut n = 0;
    while n < log.len() {
        match input.read(&mut log[n..]) {
            Ok(0) => {
                return Taken {
                    bytes: n,
                    failed: false,
                };
            }
            Ok(more) => n += more,
            Err(_) => {
                return Taken {
                    bytes: n,
                    failed: true,
                };
            }
        }
    }
    Taken {
        bytes: n,
        failed: false,
    }
}

// Takes the log, and where a read fails says so in the name of the program.
pub fn take<R: Read>(rt: &impl EprintBytes, input: &mut R, log: &mut [u8], program: &[u8]) -> Taken
    ensures count { IsPrefixLen result.bytes log.new }
    ensures bytes { Consumes (R.remaining input.old) (R.remaining input.new) (take result.bytes log.new) }
    ensures end { result.failed ≡ false → result.bytes < length log.new → IsAtEnd (R.remaining input.new) }
{
    let taken = fill(input, log);
    if taken.failed {
        rt.eprint_bytes(program);
        rt.eprint_bytes(b": cannot read the log: the system tells of an error\n");
    }
    taken
}

// # Words of the command line

// Room for a word.
pub const LONGEST_WORD: usize = 4096;

// # Texts

// Room for the digits of every number.
pub const DIGITS: usize = 20;

// The digits of a number, without zeros in front, are put at the end of the list. Tells where they begin.
pub fn decimal(n: u64, out: &mut [u8; DIGITS]) -> usize
    ensures place { result < 20 }
    ensures digits { drop result out.new ≡ digits n }
    ensures front { take result out.new ≡ take result out.old }
{
    let mut rest = n;
    let mut at = DIGITS - 1;
    while 9 < rest {
        out[at] = 48 + (rest % 10) as u8;
        rest = rest / 10;
        at -= 1;
    }
    out[at] = 48 + rest as u8;
    at
}

// The part from a place up to another, and nothing where the text has no such part.
pub fn part(text: &[u8], from: usize, to: usize) -> &[u8]
    ensures { result.now ≡ part_of text.now from to }
{
    match text.get(from..to) {
        Some(part) => part,
        None => &[],
    }
}

// The word for the class of a record, by the number of its verdict, with spaces behind it up to nine characters.
#[tactic(auto, unfolding(crate::specs::Words::class_word))]
pub fn class_word(verdict: u8) -> [u8; 9]
    ensures { result ≡ class_word (verdict % 4) }
{
    match verdict % 4 {
        0 => *b"credited ",
        1 => *b"void     ",
        2 => *b"duplicate",
        _ => *b"error    ",
    }
}

// The same, by the class itself.
pub fn word_of(class: Class) -> [u8; 9]
    ensures { result ≡ class_word (class_number class) }
{
    class_word(class as u8)
}

// # Pages

// A text of at most N bytes, laid piece by piece. A piece that there is no room for is left out.
#[derive(Drop)]
pub struct Page<const N: usize> {
    text: [u8; N],
    end: usize,
}

impl<const N: usize> Model for Page<N> {
    ghost Value = { Text };

    ghost view = { λ p. take p.end p.text };

    ghost invariant = { λ p. p.end ≤ N };
}

impl<const N: usize> Page<N> {
    pub fn new() -> Page<N>
        ensures { result ≡ [] }
    {
        Page {
            text: [0; N],
            end: 0,
        }
    }

    pub fn text(&self) -> &[u8]
        ensures { result.now ≡ self.now }
    {
        &self.text[..self.end]
    }

    pub fn put(&mut self, piece: &[u8])
        ensures { self.new ≡ laid N self.old piece.now }
    {
        if N - self.end < piece.len() {
            return;
        }
        let start = self.end;
        let end = start + piece.len();
        self.end = end;
        let text = &mut self.text[..];
        text[start..end].copy_from_slice(piece);
    }

    // A number, without zeros in front.
    pub fn put_number(&mut self, n: u64)
        ensures { self.new ≡ laid N self.old (digits n) }
    {
        let mut digits = [0; DIGITS];
        let start = decimal(n, &mut digits);
        self.put(&digits[start..]);
    }

    pub fn put_spaces(&mut self, n: usize)
        ensures { self.new ≡ spaced N n self.old }
    {
        for _ in 0..n {
            self.put(b" ");
        }
    }

    // A piece, and behind it spaces up to this width.
    pub fn put_left(&mut self, piece: &[u8], width: usize)
        ensures { self.new ≡ spaced N (width - length piece.now) (laid N self.old piece.now) }
    {
        self.put(piece);
        self.put_spaces(width.saturating_sub(piece.len()));
    }

    // A piece, and in front of it spaces up to this width.
    pub fn put_right(&mut self, piece: &[u8], width: usize)
        ensures { self.new ≡ laid N (spaced N (width - length piece.now) self.old) piece.now }
    {
        let gap = width.saturating_sub(piece.len());
        self.put_spaces(gap);
        self.put(piece);
    }
}
