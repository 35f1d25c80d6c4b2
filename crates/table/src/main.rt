// The table program: a log on standard input, and on standard output a line for each record, in columns: its number, time, call and points as they
// stand in it, its class, and what is new by it. A log that is refused has its refusal on standard error, and there is no table of it. Where the log
// cannot be read, or the table not written, that is said there too.

#![tactic(auto)]

use console::{EprintBytes, Page, part};
use rules::Verdict;

// The longest line: columns of 3, 4, 14, 6 and 9 characters, two spaces behind each, three marks with commas between, and the line's end.
const LONGEST_LINE: usize = 84;

// The page of the table: a line for each record.
const TABLE: usize = rules::MOST_RECORDS * LONGEST_LINE;

type Table = Page<TABLE>;

// A place in the log for each record.
type Places = [u16; rules::MOST_RECORDS];

// # The columns

fn put_gap(table: &mut Table) {
    table.put_spaces(2);
}

fn put_number(table: &mut Table, number: usize) {
    let mut digits = [0; console::DIGITS];
    let start = console::decimal(number as u64, &mut digits);
    table.put_right(&digits[start..], 3);
}

// The time stands in front of the call, four digits and a semicolon.
fn put_time(table: &mut Table, log: &[u8], call: usize) {
    if 5 <= call {
        table.put(part(log, call - 5, call - 1));
    }
}

fn put_call(table: &mut Table, log: &[u8], call: usize) {
    table.put_left(part(log, call, reader::field_end(log, call)), 14);
}

// # The verdict

// The marks that are set, with commas between.
fn put_marks(table: &mut Table, verdict: Verdict) {
    let marks = [
        (verdict.exchange, "new exchange"),
        (verdict.square, "new square"),
        (verdict.country, "new country"),
    ];
    let mut comma = "";
    for (set, words) in marks {
        if set {
            table.put(comma.as_bytes());
            table.put(words.as_bytes());
            comma = ", ";
        }
    }
}

// The class, and the marks. Where there are none no space stands behind the class.
fn put_verdict(table: &mut Table, verdict: Verdict) {
    let class = console::word_of(verdict.class);
    if verdict.exchange || verdict.square || verdict.country {
        table.put(&class);
        put_gap(table);
        put_marks(table, verdict);
    } else {
        table.put(class.trim_ascii_end());
    }
}

// # The lines

// The line of one record, by its number, by where its call and its points begin and its points end, and by its verdict.
fn put_line(
    table: &mut Table,
    number: usize,
    log: &[u8],
    call: u16,
    points: u16,
    pointsend: u16,
    verdict: Verdict,
) {
    put_number(table, number);
    put_gap(table);
    put_time(table, log, call as usize);
    put_gap(table);
    put_call(table, log, call as usize);
    put_gap(table);
    table.put_right(part(log, points as usize, pointsend as usize), 6);
    put_gap(table);
    put_verdict(table, verdict);
    table.put(b"\n");
}

fn put_lines(
    table: &mut Table,
    log: &[u8],
    records: usize,
    calls: &Places,
    points: &Places,
    pointsends: &Places,
    verdicts: &[u8; rules::MOST_RECORDS],
) {
    for i in 0..records.min(rules::MOST_RECORDS) {
        put_line(
            table,
            i + 1,
            log,
            calls[i],
            points[i],
            pointsends[i],
            judge::verdict_in(verdicts[i]),
        );
    }
}

fn show_records(rt: &(impl Print + EprintBytes), log: &[u8], verdicts: &[u8; rules::MOST_RECORDS]) {
    let mut calls = [0u16; rules::MOST_RECORDS];
    let mut exchanges = [0u16; rules::MOST_RECORDS];
    let mut points = [0u16; rules::MOST_RECORDS];
    let mut pointsends = [0u16; rules::MOST_RECORDS];
    let mut ends = [0u16; rules::MOST_RECORDS];
    match reader::survey(
        log,
        &mut calls,
        &mut exchanges,
        &mut points,
        &mut pointsends,
        &mut ends,
    ) {
        Ok(read) => {
            let mut table = Table::new();
            put_lines(
                &mut table,
                log,
                read.records,
                &calls,
                &points,
                &pointsends,
                verdicts,
            );
            console::answer(rt, table.text());
        }
        Err(r) => console::say_refusal(rt, r),
    }
}

fn show_table(rt: &(impl Print + EprintBytes), log: &[u8]) {
    let mut verdicts = [0u8; rules::MOST_RECORDS];
    match judge::judge(log, &mut verdicts) {
        Ok(_) => show_records(rt, log, &verdicts),
        Err(r) => console::say_refusal(rt, r),
    }
}

// A log has at most 65,535 bytes: one byte more tells that there are too many.
fn main(rt: HostRuntime) {
    let mut log = [0u8; rules::LONGEST_LOG + 1];
    let taken = console::take(&rt, &mut rt.reader(), &mut log, b"desk");
    if !taken.failed {
        show_table(&rt, &log[..taken.bytes]);
    }
}
