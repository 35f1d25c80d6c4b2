// The writing program: a log on standard input, and on standard output what it is written back as, its claims, marks and spellings right. A log that
// is refused has its refusal on standard error, and nothing of it is written. Where the log cannot be read, or the other not written, that is said
// there too.

#![tactic(auto)]

use console::EprintBytes;

fn write(rt: &(impl Print + EprintBytes), log: &[u8]) {
    let mut written = [0u8; rules::LONGEST_LOG];
    match writer::write(log, &mut written) {
        Ok(length) => console::answer(rt, console::part(&written, 0, length)),
        Err(r) => console::say_refusal(rt, r),
    }
}

// A log has at most 65,535 bytes: one byte more tells that there are too many.
fn main(rt: HostRuntime) {
    let mut log = [0u8; rules::LONGEST_LOG + 1];
    let taken = console::take(&rt, &mut rt.reader(), &mut log, b"desk");
    if !taken.failed {
        write(&rt, &log[..taken.bytes]);
    }
}
