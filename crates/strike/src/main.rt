// The striking program: records as its arguments, by their numbers, and a log on standard input. What is left of it without them, written back, is put
// on standard output, and a line for each of them on standard error: what it was taken for, and what striking it changed. A log that is refused has its
// refusal there, and nothing of it is written; and so it is with what cannot be done. All is known before the first byte is written.

#![tactic(auto)]

ghost use Rattle.std.specs.Prelude.{◌<◌, IfSome};

use console::{EprintBytes, Page, part};
use rules::{Class, Refusal};
use std::env::{Env, FillError};

// Room for what is told of one record: its own line, of which the longest has 94 bytes, and once at most, 38 bytes at most, that another strike has
// changed what it is taken for. A duplicate that has lost what it repeats is never one again.
const ROOM: usize = 132;

// The page of all that is told.
const PAGE: usize = rules::MOST_RECORDS * ROOM;

type Told = Page<PAGE>;

// A byte for each record: whether it is struck, or its verdict.
type Marks = [u8; rules::MOST_RECORDS];

// # The words

fn say_bad(rt: &impl EprintBytes, word: &[u8]) {
    rt.eprint_bytes(b"desk: \"");
    rt.eprint_bytes(word);
    rt.eprint_bytes(
        b"\" names no records: write a number of 1 to 999, as 4, or two with - between, the smaller first, as 20-23\n",
    );
}

// How many words there are, the program's own name among them.
fn word_count(rt: &impl Env) -> usize {
    for i in 0..usize::MAX {
        if let Err(FillError::NotPresent) = rt.arg(i, &mut []) {
            return i;
        }
    }
    usize::MAX
}

fn take_word(rt: &(impl Env + Eprint + EprintBytes), i: usize, struck: &mut Marks) -> bool {
    let mut word = [0u8; console::LONGEST_WORD];
    let Ok(n) = rt.arg(i, &mut word) else {
        let _ = eprintln!(rt; "desk: a word is too long to name records");
        return false;
    };
    let known = words::mark(&word[..n], struck);
    if !known {
        say_bad(rt, &word[..n]);
    }
    known
}

// Marks the records that are to be struck, or says which word is wrong.
fn take_words(rt: &(impl Env + Eprint + EprintBytes), struck: &mut Marks) -> bool {
    let count = word_count(rt);
    if count < 2 {
        let _ = eprintln!(rt; "desk: the records to strike are due, by their numbers");
        return false;
    }
    (1..count).all(|i| take_word(rt, i, struck))
}

// # Judging what is left

// Judges the log, and puts the verdict of each record that is not gone at its place among all. Tells the total.
fn judge_text(text: &[u8], gone: &Marks, among: &mut Marks) -> Result<u64, Refusal> {
    let mut verdicts = [0u8; rules::MOST_RECORDS];
    let totals = judge::judge(text, &mut verdicts)?;
    striker::spread(&verdicts, gone, among);
    Ok(totals.total)
}

// Judges the log without those that are gone.
fn judge_left(log: &[u8], gone: &Marks, among: &mut Marks) -> Result<u64, Refusal> {
    let mut left = [0u8; rules::LONGEST_LOG];
    let length = striker::strike(log, gone, &mut left)?;
    judge_text(part(&left, 0, length), gone, among)
}

// # The lines

// The class of which the byte of a record's verdict tells.
fn class_in(verdict: u8) -> Class {
    judge::verdict_in(verdict).class
}

fn put_class(told: &mut Told, class: Class) {
    told.put(console::word_of(class).trim_ascii_end());
}

// The number of a record, and its call, which begins at a place of the log.
fn put_name(told: &mut Told, number: usize, log: &[u8], call: u16) {
    let start = call as usize;
    told.put_number(number as u64);
    told.put(b" ");
    told.put(part(log, start, reader::field_end(log, start)));
}

// Behind the field that begins at a place, and behind its semicolon.
fn behind_field(log: &[u8], at: usize) -> usize {
    let end = reader::field_end(log, at);
    if end < log.len() { end + 1 } else { end }
}

// Where the points of the record begin whose call begins at a place: eight fields stand from there up to them.
fn points_at(log: &[u8], call: usize) -> usize {
    let mut at = call;
    for _ in 0..8 {
        at = behind_field(log, at);
    }
    at
}

fn put_points(told: &mut Told, log: &[u8], call: u16) {
    let points = points_at(log, call as usize);
    told.put(part(log, points, reader::field_end(log, points)));
}

// The record that is struck, and what it was taken for.
fn put_struck(told: &mut Told, number: usize, log: &[u8], call: u16, was: Class) {
    put_name(told, number, log, call);
    told.put(b" ");
    put_class(told, was);
    told.put(b", ");
    put_points(told, log, call);
    told.put(b" points: struck");
}

// The records that are left and are taken for something else now.
fn put_changes(told: &mut Told, log: &[u8], calls: &[u16], gone: &Marks, was: &Marks, is: &Marks) {
    for i in 0..calls.len().min(rules::MOST_RECORDS) {
        let class = class_in(is[i]);
        if gone[i] == 0 && class != class_in(was[i]) {
            told.put(b"; ");
            put_name(told, i + 1, log, calls[i]);
            told.put(b" becomes ");
            put_class(told, class);
        }
    }
}

fn put_totals(told: &mut Told, before: u64, after: u64) {
    told.put(b"; TOTAL ");
    told.put_number(before);
    told.put(b" -> ");
    told.put_number(after);
    told.put(b"\n");
}

// # The strikes

// One strike after the other, in the order of the records, from the total and the verdicts of the whole log on.
fn tell_strikes(told: &mut Told, log: &[u8], struck: &Marks, calls: &[u16]) -> Result<(), Refusal> {
    let mut gone = [0u8; rules::MOST_RECORDS];
    let mut was = [0u8; rules::MOST_RECORDS];
    let mut before = judge_left(log, &gone, &mut was)?;
    for i in 0..calls.len().min(rules::MOST_RECORDS) {
        if struck[i] != 0 {
            gone[i] = struck[i];
            let mut is = [0u8; rules::MOST_RECORDS];
            let after = judge_left(log, &gone, &mut is)?;
            put_struck(told, i + 1, log, calls[i], class_in(was[i]));
            put_changes(told, log, calls, &gone, &was, &is);
            put_totals(told, before, after);
            was = is;
            before = after;
        }
    }
    Ok(())
}

// # The log

// The place of the first record that is marked from a place on.
fn next_marked(struck: &Marks, from: usize) -> Option<usize>
    ensures { IfSome result (λ i. i < 999) }
{
    for i in from..rules::MOST_RECORDS {
        if struck[i] != 0 {
            return Some(i);
        }
    }
    None
}

fn say_missing(rt: &impl Eprint, number: usize, records: usize) {
    let _ = eprintln!(rt; "desk: there is no record {number}: the log has {records}");
}

// What is left, written back, and then the lines.
fn hand_over(rt: &(impl Print + EprintBytes), left: &[u8], lines: &[u8]) {
    let mut written = [0u8; rules::LONGEST_LOG];
    match writer::write(left, &mut written) {
        Ok(length) => {
            if rt.write_all(part(&written, 0, length)).is_err() {
                console::say_unwritten(rt);
                return;
            }
            rt.eprint_bytes(lines);
        }
        Err(r) => console::say_refusal(rt, r),
    }
}

fn strike_all(rt: &(impl Print + EprintBytes), log: &[u8], struck: &Marks, lines: &[u8]) {
    let mut left = [0u8; rules::LONGEST_LOG];
    match striker::strike(log, struck, &mut left) {
        Ok(length) => hand_over(rt, part(&left, 0, length), lines),
        Err(r) => console::say_refusal(rt, r),
    }
}

fn tell(rt: &(impl Print + EprintBytes), log: &[u8], struck: &Marks, calls: &[u16]) {
    let mut told = Told::new();
    match tell_strikes(&mut told, log, struck, calls) {
        Ok(()) => strike_all(rt, log, struck, told.text()),
        Err(r) => console::say_refusal(rt, r),
    }
}

// A log is read, and the records that are to be struck are looked for in it, before anything is struck.
fn strike(rt: &(impl Print + Eprint + EprintBytes), log: &[u8], struck: &Marks) {
    let mut calls = [0u16; rules::MOST_RECORDS];
    let mut exchanges = [0u16; 0];
    let mut points = [0u16; 0];
    let mut pointsends = [0u16; 0];
    let mut ends = [0u16; 0];
    match reader::survey(
        log,
        &mut calls,
        &mut exchanges,
        &mut points,
        &mut pointsends,
        &mut ends,
    ) {
        Ok(read) => {
            if let Some(missing) = next_marked(struck, read.records) {
                say_missing(rt, missing + 1, read.records);
                return;
            }
            tell(
                rt,
                log,
                struck,
                &calls[..read.records.min(rules::MOST_RECORDS)],
            );
        }
        Err(r) => console::say_refusal(rt, r),
    }
}

// The words are known before the log is read. A log has at most 65,535 bytes: one byte more tells that there are too many.
fn main(rt: HostRuntime) {
    let mut struck = [0u8; rules::MOST_RECORDS];
    if !take_words(&rt, &mut struck) {
        return;
    }
    let mut log = [0u8; rules::LONGEST_LOG + 1];
    let taken = console::take(&rt, &mut rt.reader(), &mut log, b"desk");
    if !taken.failed {
        strike(&rt, &log[..taken.bytes], &struck);
    }
}
