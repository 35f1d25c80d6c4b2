// Runs the library on the logs of data/ and prints what it answers: the fourteen cases of document 01, the samples of its sources, chewed logs,
// second tries, contacts in all modes, and records struck. What has to come out stands in the file stdout. The comments below say where each answer comes from;
// tests/reference holds every one of them to the second judge (tests/trials.rs there).

#![tactic(auto)]

ghost use Rattle.std.specs.Counts.{IsPrefixLen};

use rules::{Refusal, Totals};
use std::fs;
use std::rt::Files;

// Room for a log, and for what is made of one.
const LARGE: usize = rules::LONGEST_LOG + 1;

// # What is answered

// Wherever something is printed a failed write is passed over: what is missing on standard output tells of it.

fn show_refusal(rt: &impl Print, r: Refusal) {
    let _ = println!(rt; " refused {} {} {}", r.number, r.line, r.field);
}

// What reading answers; how many records there are, none where the log is refused.
fn show_read(rt: &impl Print, log: &[u8]) -> usize {
    let _ = print!(rt; "  read:");
    match reader::read(log) {
        Ok(read) => {
            let _ = println!(rt;
                " records {} respelt {}",
                read.records, read.heading.respelt
            );
            read.records
        }
        Err(r) => {
            show_refusal(rt, r);
            0
        }
    }
}

// The credited records of each mode: the codes 0 to 9, and then blank.
fn show_modes(rt: &impl Print, numbers: &[u64; judge::MODES]) {
    let _ = print!(rt; "  modes:");
    for number in numbers {
        let _ = print!(rt; " {number}");
    }
    let _ = println!(rt);
}

fn show_totals(rt: &impl Print, t: Totals) {
    let _ = print!(rt;
        " credited {} voids {} duplicates {} errors {}",
        t.credited, t.voids, t.duplicates, t.errors
    );
    let _ = print!(rt;
        " points {} squares {} exchanges {} countries {}",
        t.points, t.squares, t.exchanges, t.countries
    );
    let _ = println!(rt;
        " bonuses {} {} {} total {}",
        t.squarebonus, t.exchangebonus, t.countrybonus, t.total
    );
    show_modes(rt, &judge::mode_numbers(t.modes));
}

// The first n verdicts, or of many the first thirty.
fn show_verdicts(rt: &impl Print, verdicts: &[u8], n: usize) {
    let _ = print!(rt; "  verdicts:");
    for verdict in verdicts.iter().take(n.min(30)) {
        let _ = print!(rt; " {verdict}");
    }
    if 30 < n {
        let _ = print!(rt; " ..");
    }
    let _ = println!(rt);
}

fn show_judged(rt: &impl Print, log: &[u8], records: usize) {
    let mut verdicts = [0u8; rules::MOST_RECORDS];
    let answer = judge::judge(log, &mut verdicts);
    let _ = print!(rt; "  judged:");
    match answer {
        Ok(t) => {
            show_totals(rt, t);
            show_verdicts(rt, &verdicts, records);
        }
        Err(r) => show_refusal(rt, r),
    }
}

// The n changes, each as kind:line, or of many the first six and the last six.
fn show_changes(rt: &impl Print, kinds: &[u8], lines: &[u32], n: usize) {
    let _ = print!(rt; " changes {n}");
    for (i, (kind, line)) in kinds.iter().zip(lines).take(n).enumerate() {
        if n <= 12 || i < 6 || n - 6 <= i {
            let _ = print!(rt; " {kind}:{line}");
        } else if i == 6 {
            let _ = print!(rt; " ..");
        }
    }
    let _ = println!(rt);
}

fn show_mended(rt: &impl Print, log: &[u8]) {
    let mut mended = [0u8; LARGE];
    let mut kinds = [0u8; rules::LONGEST_LOG / 2];
    let mut lines = [0u32; rules::LONGEST_LOG / 2];
    let answer = mender::mend(log, &mut mended, &mut kinds, &mut lines);
    let _ = print!(rt; "  mended:");
    match answer {
        Ok(told) => {
            let _ = print!(rt; " length {}", told.length);
            show_changes(rt, &kinds, &lines, told.changes);
        }
        Err(r) => show_refusal(rt, r),
    }
}

// Reads the file of this name, and answers how many bytes it put at the start of log.
fn load(rt: &(impl Files + Print), name: &str, log: &mut [u8]) -> usize
    ensures { IsPrefixLen result log.new }
{
    let Ok(mut file) = fs::open(rt, name) else {
        let _ = println!(rt; "{name} cannot be opened");
        return 0;
    };
    console::fill(&mut file, log).bytes
}

// What is answered of a log: by reading, by judging and by mending.
fn answers(rt: &(impl Files + Print), name: &str) {
    let _ = println!(rt; "{name}");
    let mut log = [0u8; LARGE];
    let n = load(rt, name, &mut log);
    let records = show_read(rt, &log[..n]);
    show_judged(rt, &log[..n], records);
    show_mended(rt, &log[..n]);
}

// What is answered of a log when a keyword is viewed: where its argument starts, how long it is, whether the keyword stands in the listed spelling,
// and the argument.
fn argument(rt: &(impl Files + Print), name: &str, keyword: usize) {
    let _ = println!(rt; "{name}");
    let mut log = [0u8; LARGE];
    let n = load(rt, name, &mut log);
    let _ = print!(rt; "  view {keyword}:");
    match places::view(&log[..n], keyword) {
        Ok(seen) => {
            let spelling = if seen.listed { "listed" } else { "respelt" };
            let _ = print!(rt; " start {} length {} {spelling} ", seen.start, seen.length);
            let _ = rt.write_all(places::viewed(&log[..n], keyword));
            let _ = println!(rt);
        }
        Err(r) => show_refusal(rt, r),
    }
}

// Whether the first n bytes are those of the file of this name.
fn show_likeness(rt: &(impl Files + Print), res: &[u8], n: usize, name: &str) {
    let mut log = [0u8; LARGE];
    let m = load(rt, name, &mut log);
    let same = header::same_text(console::part(res, 0, n), &log[..m]);
    let likeness = if same { "as" } else { "not as" };
    let _ = println!(rt; " {likeness} {name}");
}

// What is answered of a log when it is written back, and whether the result is the log of the other file.
fn written(rt: &(impl Files + Print), name: &str, other: &str) {
    let _ = println!(rt; "{name}");
    let mut log = [0u8; LARGE];
    let n = load(rt, name, &mut log);
    let mut result = [0u8; LARGE];
    let answer = writer::write(&log[..n], &mut result);
    let _ = print!(rt; "  written:");
    match answer {
        Ok(length) => {
            let _ = print!(rt; " length {length}");
            show_likeness(rt, &result, length, other);
        }
        Err(r) => show_refusal(rt, r),
    }
}

// What is answered of a log when the records are struck that two words name, and whether what is left is the log of the other file.
fn struck(rt: &(impl Files + Print), name: &str, first: &str, second: &str, other: &str) {
    let _ = println!(rt; "{name}");
    let mut log = [0u8; LARGE];
    let n = load(rt, name, &mut log);
    let mut marks = [0u8; rules::MOST_RECORDS];
    words::mark(first.as_bytes(), &mut marks);
    words::mark(second.as_bytes(), &mut marks);
    let mut left = [0u8; LARGE];
    let answer = striker::strike(&log[..n], &marks, &mut left);
    let _ = print!(rt; "  struck {first} {second}:");
    match answer {
        Ok(length) => {
            let _ = print!(rt; " length {length}");
            show_likeness(rt, &left, length, other);
        }
        Err(r) => show_refusal(rt, r),
    }
}

// The cases of document 01, by their numbers. Their logs have the header of case 12; its lines are 1 to 38, so the count line is 39, or 40 behind
// a remark, and the first record stands on the line after it. Mending sets the count of those in cases 3 and 11 that are refused for it, hands over
// what is accepted as it is, and refuses the others as reading does.
fn cases(rt: &(impl Files + Print)) {
    for name in [
        // 2, line 1.
        "01-empty.edi",
        // Accepted, total 0.
        "02-no-records.edi",
        // The count line with 999 meets its rule, so that a record is missing behind it; with 1000 it gives 4.
        "03-count-999.edi",
        "03-count-1000.edi",
        // All 999 records, each with a call, a square and an exchange of its own, a country, and as many points as there can be; bonuses of 9999 and
        // multipliers of 99: so the total is the largest, 998,404,684,715,196. None has a mode.
        "03-999-records.edi",
        // 75 characters are accepted, 76 are refused 2.
        "04-remark-75.edi",
        "04-remark-76.edi",
        // 240229 is valid, 230229 is refused 5, field 1.
        "05-date-240229.edi",
        "05-date-230229.edi",
        // 2359 is valid, 2400 is refused, field 2.
        "06-time-2359.edi",
        "06-time-2400.edi",
        // Refused, field 3.
        "07-call-of-two.edi",
        // Refused, field 11.
        "08-error-with-points.edi",
        // JO65FR and JO65 are one square, so the second brings no square; JS65 is refused, field 10.
        "09-one-square.edi",
        "09-js65.edi",
        // Refused, field 11.
        "10-points-007.edi",
        // 6, at the line of the record that is missing, and of the first byte too many.
        "11-one-of-two.edi",
        "11-three-of-two.edi",
        // Verdicts 96, 64, 3, 2, 1; total 700. Both credited records have mode 1, and those that are not credited, by 1 and 2 and with none, count
        // for no mode. What it is written back as has the same verdicts and totals.
        "12-spring.edi",
        "12-written.edi",
        // The same log with every keyword in another spelling: the same verdicts and totals.
        "12-respelt.edi",
        // The first record struck: the repeat is credited, and counts for mode 2; total 700. Written back first, and then struck: total 580.
        "13-struck.edi",
        "13-written-struck.edi",
        // 24 credited, 11579 points, 19 squares, 7 countries.
        "14-sample.edi",
    ] {
        answers(rt, name);
    }
}

// Views of the log of case 12, and 9 before everything else. A refused log has none.
fn views(rt: &(impl Files + Print)) {
    argument(rt, "12-spring.edi", 1);
    argument(rt, "12-spring.edi", 5);
    argument(rt, "12-spring.edi", 36);
    argument(rt, "12-spring.edi", 37);
    argument(rt, "12-respelt.edi", 1);
    argument(rt, "12-respelt.edi", 36);
    // 000 spells CQSOs and CExcs in its own way, and CQSOP and CWWLs as they are listed.
    argument(rt, "000-list.edi", 27);
    argument(rt, "000-list.edi", 28);
    argument(rt, "000-list.edi", 29);
    argument(rt, "000-list.edi", 31);
    argument(rt, "01-empty.edi", 1);
    argument(rt, "01-empty.edi", 0);
}

// Writing back: the log of case 12, whose fourth record then ends `JO40AA;0;;;;D`. The result, and the sample of case 14, whose claims are true, are
// written back as they are. A log with other spellings is written back as the one with the listed spellings is. A refused log is not written.
fn writings(rt: &(impl Files + Print)) {
    written(rt, "12-spring.edi", "12-written.edi");
    written(rt, "12-written.edi", "12-written.edi");
    written(rt, "14-sample.edi", "14-sample.edi");
    written(rt, "12-respelt.edi", "12-written.edi");
    written(rt, "000-1-mended-no-remarks.edi", "14-sample.edi");
    written(rt, "000-list.edi", "14-sample.edi");
    written(rt, "000-1-mended.edi", "000-1-written.edi");
    written(rt, "000-1-written.edi", "000-1-written.edi");
    written(rt, "000-list-mopel.edi", "14-sample.edi");
    written(rt, "01-empty.edi", "01-empty.edi");
}

// The samples of the sources. As printed, with a bare LF behind each line, they have no first line. With CR LF, or mended, they are refused where
// they leave the format of 001. Those of 000 write SAnth and CQSOS, which is read; the layout put a line of 82 characters into the remarks of the
// first; the third has CQS0s, with a nought, and the others the locator IP620A, with a nought too. The fourth remark of 001 has 76 characters; those
// of 003 have several keywords on line 7, which is too long.
fn samples(rt: &(impl Files + Print)) {
    for name in [
        "000-1-lf.edi",
        "001-lf.edi",
        "003-1-lf.edi",
        "000-1.edi",
        "000-2.edi",
        "000-3.edi",
        "000-4.edi",
        "000-5.edi",
        "001.edi",
        "003-1.edi",
        "003-2.edi",
        // The first of 000 without its remarks: two semicolons are missing in its ERROR record. With them it has the figures of case 14.
        "000-1-no-remarks.edi",
        "000-1-mended-no-remarks.edi",
        // The same log in the spellings of the list of keywords in 000, PEXch, CEXcs and CEXcB besides; and with that list's MOpel and CDXCc, which
        // are other words.
        "000-list.edi",
        "000-list-mopel.edi",
        "000-list-cdxcc.edi",
        // Those of 000 mended by hand, in their own spellings: CQSOs and IP62OA with the letter O, the semicolons that their ERROR records lack, and
        // none of the lines that the layout put in. They claim 24 contacts, 19 squares and 7 countries (the last 8), exchanges where there are
        // any, and 11579 points, or 24 where a contact is one point; all that is so, but the last has 20 squares. Of the totals that they claim only
        // the first and the third are sums as in document 01.
        "000-1-mended.edi",
        "000-1-written.edi",
        "000-2-mended.edi",
        "000-3-mended.edi",
        "000-4-mended.edi",
        "000-5-mended.edi",
        // Those of 003 with a line for each keyword and record. They claim what a longer log had: of their six records four are credited, in four
        // squares, with three exchanges, for `0` is one, and three countries.
        "003-1-mended.edi",
        "003-2-mended.edi",
    ] {
        answers(rt, name);
    }
}

// Logs that a mail program chewed.
fn chewed(rt: &(impl Files + Print)) {
    for name in [
        // Case 12 with bare LFs, an open last line, spaces behind a record and a wrong count: each kind of change.
        "w2-chewed.edi",
        // Case 12 with a count of 007, spaces behind two records, and CR alone at the end. Spaces behind a keyword or a remark stay.
        "w2-few.edi",
        // A record that was broken in two is no record, whatever the count becomes: nothing is handed over.
        "w2-broken.edi",
    ] {
        answers(rt, name);
    }
}

// Second tries: a duplicate needs points or a claimed D.
fn second_tries(rt: &(impl Files + Print)) {
    // A contact, and it tried again by aurora, with 0 points and no D: void, so that its square and its exchange are new in the fifth record. A repeat
    // with 0 points and a D. A D with 0 points and nothing before it: void; then the contact, and a repeat that claims its points and no D. An ERROR
    // and a first contact that claim a D. Verdicts 112, 1, 2, 1, 112, 2, 3, 0; total 1250. What it is written back as has the same.
    answers(rt, "w3-tries.edi");
    answers(rt, "w3-written.edi");
    written(rt, "w3-tries.edi", "w3-written.edi");
    written(rt, "w3-written.edi", "w3-written.edi");
    // The first contact struck: its claimed repeat has nothing to repeat, and is void. No duplicate that is left becomes credited.
    answers(rt, "w3-struck.edi");
    answers(rt, "w3-written-struck.edi");
}

// The credited records of each mode; they add up to the credited count.
fn modes(rt: &(impl Files + Print)) {
    // Contacts in all eleven modes: three by code 2, two by 1, two with no mode, and one by each other code. For no mode count a void record by 9 and
    // one by 2, a duplicate by 2 that claims points and one by 1 that claims a D, an ERROR by 5 and one with none. Seven squares and 1095 points
    // make 4595. What it is written back as has the same.
    answers(rt, "w4-modes.edi");
    answers(rt, "w4-written.edi");
    written(rt, "w4-modes.edi", "w4-written.edi");
    written(rt, "w4-written.edi", "w4-written.edi");
    // Two contacts struck, one by 1 and one with no mode. The repeat of the first is credited, so that 2 has one more; written back it claimed no
    // points, and is void. The repeat of the second claims a D alone, and is void either way.
    answers(rt, "w4-struck.edi");
    answers(rt, "w4-written-struck.edi");
    // A smaller log: three by Morse, two by SSB, one by SSB with Morse coming back, one with no mode. The duplicate by SSB, the void record and the
    // ERROR by Morse count for no mode.
    answers(rt, "w4-morse.edi");
}

// Striking: case 13, both ways, in its log as it came and as it was written back; all records; second tries; two contacts of different modes. What is left
// has the log's own claims and spelling, and is judged above. A refused log has no records to strike.
fn strikes(rt: &(impl Files + Print)) {
    struck(rt, "12-spring.edi", "1", "1", "13-struck.edi");
    struck(rt, "12-written.edi", "1", "1-1", "13-written-struck.edi");
    struck(rt, "12-spring.edi", "4-5", "1-3", "02-no-records.edi");
    struck(rt, "w3-tries.edi", "1", "1", "w3-struck.edi");
    struck(rt, "w3-written.edi", "1", "1", "w3-written-struck.edi");
    struck(rt, "w4-modes.edi", "2", "15", "w4-struck.edi");
    struck(rt, "w4-written.edi", "2", "15", "w4-written-struck.edi");
    struck(rt, "01-empty.edi", "1", "2", "01-empty.edi");
}

fn main(rt: HostRuntime) {
    cases(&rt);
    views(&rt);
    writings(&rt);
    strikes(&rt);
    samples(&rt);
    chewed(&rt);
    second_tries(&rt);
    modes(&rt);
}
