// What is printed: a line for each call.
// Where it cannot be written nothing is told: the gate compares what was.
use crate::digest;
use monitor_answer::VskAnswer;

// A number behind a tab.
fn field(rt: &HostRuntime, n: u64) {
    let _ = print!(rt; "\t{n}");
}

// The first words of a log, as many as there are messages.
fn messages(rt: &HostRuntime, log: &[u32], count: u32) {
    for &word in &log[..log.len().min(count as usize)] {
        field(rt, word as u64);
    }
}

// The digest and the messages are taken from all the words that there are, not from those lent: a call that
// writes beyond them is seen.
pub(crate) fn answer(
    rt: &HostRuntime,
    number: u64,
    answer: VskAnswer,
    state: &[u32],
    log: &[u32],
    saved: &[u64],
) {
    let digest = digest::of_numbers(digest::of_words(digest::of_words(0, state), log), saved);
    let _ = print!(rt; "{number}");
    field(rt, answer.refusal as u64);
    field(rt, answer.value);
    field(rt, answer.count as u64);
    field(rt, digest as u64);
    messages(rt, log, answer.count);
    let _ = print!(rt; "\n");
}

// A line that cannot be read is answered by its number alone.
pub(crate) fn unreadable(rt: &HostRuntime, number: u64) {
    let _ = println!(rt; "{number}");
}
