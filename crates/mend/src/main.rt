// The mending program: a chewed log on standard input, the mended log on standard output, and on standard error a line for each thing that was done
// to it. A log that is refused even so has its refusal there, and nothing of it is written. Where the log cannot be read, or the mended one not
// written, that is said there too.

#![tactic(auto)]

use console::EprintBytes;

// Room for the list of every log: in a log that is accepted no line has more entries than half the bytes that it has with its CR LF.
const MOST_CHANGES: usize = rules::LONGEST_LOG / 2;

// What was done to a line, by its kind, 1 to 4.
fn kind_words(kind: u8) -> &'static str {
    match kind {
        1 => "CR put before LF",
        2 => "the end of the last line put",
        3 => "spaces at the end dropped",
        _ => "count set to the number of lines that follow",
    }
}

// The list of what was done.
fn say_changes(rt: &impl Eprint, kinds: &[u8], lines: &[u32]) {
    if kinds.is_empty() {
        let _ = eprintln!(rt; "nothing to mend");
    }
    for (kind, line) in kinds.iter().zip(lines) {
        let _ = eprintln!(rt; "line {line}: {}", kind_words(*kind));
    }
}

fn mend(rt: &(impl Print + Eprint + EprintBytes), log: &[u8]) {
    let mut mended = [0u8; rules::LONGEST_LOG];
    let mut kinds = [0u8; MOST_CHANGES];
    let mut lines = [0u32; MOST_CHANGES];
    match mender::mend(log, &mut mended, &mut kinds, &mut lines) {
        Ok(told) => {
            if rt.write_all(&mended[..told.length]).is_err() {
                let _ = eprintln!(rt; "mend: cannot write the mended log");
                return;
            }
            say_changes(rt, &kinds[..told.changes], &lines[..told.changes]);
        }
        Err(r) => console::say_refusal(rt, r),
    }
}

// A log has at most 65,535 bytes: one byte more tells that there are too many.
fn main(rt: HostRuntime) {
    let mut log = [0u8; rules::LONGEST_LOG + 1];
    let taken = console::take(&rt, &mut rt.reader(), &mut log, b"mend");
    if !taken.failed {
        mend(&rt, &log[..taken.bytes]);
    }
}
