// The desk program: a log on standard input, its seventeen lines or its refusal on standard output. What is written is what the library laid, byte
// for byte. Where the log cannot be read, or the answer not written, that is said on standard error.

#![tactic(auto)]

use console::EprintBytes;

fn show(rt: &(impl Print + EprintBytes), log: &[u8]) {
    let mut answer = [0u8; writer::SHOWN];
    let end = writer::show(log, &mut answer);
    console::answer(rt, &answer[..end]);
}

// A log has at most 65,535 bytes: one byte more tells that there are too many.
fn main(rt: HostRuntime) {
    let mut log = [0u8; rules::LONGEST_LOG + 1];
    let taken = console::take(&rt, &mut rt.reader(), &mut log, b"desk");
    if !taken.failed {
        show(&rt, &log[..taken.bytes]);
    }
}
