// The viewing program: a keyword as its argument, by its name in any letter case or by its number, and a log on standard input. The keyword's argument
// and a line's end are put on standard output. A refusal, and what cannot be done, is said on standard error, and then nothing is shown of the log.

#![tactic(auto)]

use console::EprintBytes;
use fields::Digits;
use std::env::Env;

// # The keyword

// A number, however large, of which the first digit is no 0.
fn is_number(word: &[u8]) -> bool {
    matches!(word.first(), Some(b'1'..=b'9')) && fields::run(word, 0, &Digits) == word.len()
}

fn say_unknown(rt: &impl EprintBytes, word: &[u8]) {
    rt.eprint_bytes(b"desk: \"");
    rt.eprint_bytes(word);
    rt.eprint_bytes(b"\" is neither the name of a keyword, as PCall, nor its number, 1 to 36\n");
}

// # The argument

fn show_argument(rt: &(impl Print + EprintBytes), argument: &[u8]) {
    if rt.write_all(argument).is_err() {
        console::say_unwritten(rt);
        return;
    }
    console::answer(rt, b"\n");
}

fn show_keyword(rt: &(impl Print + EprintBytes), log: &[u8], keyword: usize) {
    match places::view(log, keyword) {
        Ok(_) => show_argument(rt, places::viewed(log, keyword)),
        Err(r) => console::say_refusal(rt, r),
    }
}

// A log has at most 65,535 bytes: one byte more tells that there are too many.
fn view(rt: &(impl Input + Print + EprintBytes), keyword: usize) {
    let mut log = [0u8; rules::LONGEST_LOG + 1];
    let taken = console::take(rt, &mut rt.reader(), &mut log, b"desk");
    if !taken.failed {
        show_keyword(rt, &log[..taken.bytes], keyword);
    }
}

// A number that is too large for a word to name is no keyword's, as 0 is none.
fn view_unnamed(rt: &(impl Input + Print + EprintBytes), word: &[u8]) {
    if is_number(word) {
        view(rt, 0);
    } else {
        say_unknown(rt, word);
    }
}

// The keyword is known before the log is read.
fn main(rt: HostRuntime) {
    let mut word = [0u8; console::LONGEST_WORD];
    let Ok(n) = rt.arg(1, &mut word) else {
        let _ = eprintln!(rt;
            "desk: a keyword is due, by its name, as PCall, or its number, 1 to 36"
        );
        return;
    };
    match words::keyword(&word[..n]) {
        Some(k) => view(&rt, k),
        None => view_unnamed(&rt, &word[..n]),
    }
}
