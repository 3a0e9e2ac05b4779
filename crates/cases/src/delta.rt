// What a call changed in a lent buffer: runs of changed bytes as `AT:HH` or `FROM-TO:HH`, or `kept`.
ghost use Rattle.std.specs.Prelude.{◌≤◌, ◌<◌, length};
ghost use Rattle.cases.specs.Delta.{Kept};

use crate::say;

// After so many runs the rest is left out.
const MOST: usize = 16;

// The last place of the run of changed bytes of one value that starts at a place.
fn run_end(before: &[u8], after: &[u8], first: usize, end: usize) -> usize
    requires { (first < end) × (end ≤ length before.now) × (end ≤ length after.now) }
    ensures { (first ≤ result) × (result < end) }
{
    for at in first + 1..end {
        if after[at] != after[first] || before[at] == after[at] {
            return at - 1;
        }
    }
    end - 1
}

// One run.
fn tell(first: usize, last: usize, value: u8) {
    say::number(first as u64);
    if first != last {
        say::text(b"-");
        say::digits(last as u64);
    }
    say::text(b":");
    io::print_hex(say::STDOUT, u64::from(value), 2);
}

// All that changed. It answers how many runs it told, which is 0 only where nothing changed.
pub fn delta(name: &[u8], before: &[u8], after: &[u8]) -> usize
    ensures few { result ≤ 16 }
    ensures kept { Kept before.now after.now result }
{
    say::word(name);
    let end = before.len().min(after.len());
    let mut told = 0;
    let mut at = differ::next_diff(before, after, 0);
    while at < end {
        if told == MOST {
            say::word(b"more");
            return told;
        }
        let last = run_end(before, after, at, end);
        tell(at, last, after[at]);
        told += 1;
        at = differ::next_diff(before, after, last + 1);
    }
    if told == 0 {
        say::word(b"kept");
    }
    told
}
