// `gate compare FILE FILE`: what differs between two messages, a line for each position of a target or report, and under a changed one the two items as
// `gate items` shows them; or `refused N P` with the name of the refused file on standard error.
#![tactic(auto)]

ghost use Rattle.std.specs.Prelude.{◌≤◌, length};

use ari::{Input, Refusal};
use std::env::Env;

// A target takes four items at least, a report six (comparison, proofs/PositionBound.antt).
const POSITIONS: usize = ari::ITEMS / 4;

const ROOM: usize = POSITIONS * comparison::ENTRY;

// So many items of a message are passed, with the targets and reports among them.
#[derive(Clone, Copy)]
struct Passed {
    items: usize,
    targets: item_records::Targets,
}

// An entry of the comparison.
#[derive(Clone, Copy)]
struct Entry {
    what: u64,
    first: u64,
    second: u64,
}

fn entry_at(entries: &[u8], i: usize) -> Entry {
    let at = i.min(POSITIONS) * comparison::ENTRY;
    Entry {
        what: buffer::load8(entries, at),
        first: buffer::load8(entries, at + 8),
        second: buffer::load8(entries, at + 16),
    }
}

// Up to item k: numbers rise from one position to the next, so that each item is passed once.
fn pass_to(entries: &[u64], passed: Passed, k: usize) -> Passed {
    let end = k.saturating_add(1).min(entries.len());
    let Some(later) = entries.get(passed.items..end) else {
        return passed;
    };
    let mut targets = passed.targets;
    for &entry in later {
        targets = item_records::pass(targets, entry);
    }
    Passed {
        items: end,
        targets,
    }
}

// The same for one of a changed position's items; another position has none.
fn pass_changed(entries: &[u64], passed: Passed, e: Entry, k: u64) -> Passed {
    if e.what == comparison::CHANGED {
        return pass_to(entries, passed, k as usize);
    }
    passed
}

// The line of item k, up to which all are passed.
fn put_item(
    out: &mut [u8],
    at: usize,
    s: &[u8],
    entries: &[u64],
    passed: Passed,
    k: usize,
) -> usize {
    let Some(&entry) = entries.get(k) else {
        return at;
    };
    let p = print::fresh_line(out, at);
    let record = item_records::record_of(s, passed.targets, entry);
    print::item(out, p, k, record, b"  ")
}

// A position's own line.
fn put_position(out: &mut [u8], at: usize, i: usize, e: Entry) -> usize {
    let p = print::fresh_line(out, at);
    let a = print::field(out, p, i as u64);
    if e.what == comparison::SAME {
        return buffer::put_all(out, a, b"same\n");
    }
    if e.what == comparison::ONLY_FIRST {
        return buffer::put_all(out, a, b"only first\n");
    }
    if e.what == comparison::ONLY_SECOND {
        return buffer::put_all(out, a, b"only second\n");
    }
    let b = print::numbered(out, a, b"changed ", e.first);
    let c = print::numbered(out, b, b" ", e.second);
    buffer::put(out, c, b'\n')
}

// The same with the lines of a changed one's items behind it.
fn put_lines(
    out: &mut [u8],
    at: usize,
    i: usize,
    e: Entry,
    a: &[u8],
    xs: &[u64],
    in_first: Passed,
    b: &[u8],
    ys: &[u64],
    in_second: Passed,
) -> usize {
    let p = put_position(out, at, i, e);
    if e.what == comparison::CHANGED {
        let q = put_item(out, p, a, xs, in_first, e.first as usize);
        return put_item(out, q, b, ys, in_second, e.second as usize);
    }
    p
}

fn show_entries(
    a: &[u8],
    b: &[u8],
    xs: &[u64],
    ys: &[u64],
    entries: &[u8],
    count: usize,
    out: &mut [u8],
) {
    let mut in_first = Passed {
        items: 0,
        targets: item_records::NO_TARGETS,
    };
    let mut in_second = Passed {
        items: 0,
        targets: item_records::NO_TARGETS,
    };
    let mut p = 0;
    for i in 0..count.min(POSITIONS) {
        let e = entry_at(entries, i);
        in_first = pass_changed(xs, in_first, e, e.first);
        in_second = pass_changed(ys, in_second, e, e.second);
        p = put_lines(out, p, i, e, a, xs, in_first, b, ys, in_second);
    }
    print::flush(out, p);
}

// How many words of an accepted message's table there are.
fn keep(s: &[u8], entries: &mut [u64]) -> usize
    ensures { result ≤ length entries.old }
{
    match reader::keep(Input::Message, ari::LIMITS, s, entries) {
        Ok(count) => count.min(entries.len()),
        Err(_) => 0,
    }
}

fn show_kept(
    a: &[u8],
    b: &[u8],
    entries: &[u8],
    count: usize,
    xs: &mut [u64],
    ys: &mut [u64],
    out: &mut [u8],
) {
    let n = keep(a, xs);
    let m = keep(b, ys);
    show_entries(a, b, &xs[0..n], &ys[0..m], entries, count, out);
}

fn show_accepted(a: &[u8], b: &[u8], entries: &[u8], count: usize) {
    let mut xs = [0u64; ari::ITEMS];
    let mut ys = [0u64; ari::ITEMS];
    let mut out = io::buffer();
    show_kept(a, b, entries, count, &mut xs, &mut ys, &mut out);
}

// The refused file is the first, if it is refused by itself.
fn show_refused(rt: &impl Env, first: &[u8], refusal: Refusal) {
    print::send_refusal(refusal);
    let file = if reader::check_message(first).is_err() {
        1
    } else {
        2
    };
    input_file::say_name(rt, file);
}

fn show(rt: &impl Env, first: &[u8], second: &[u8], room: &mut [u8]) {
    match comparison::compare(first, second, room) {
        Ok(compared) => show_accepted(first, second, room, compared.entries),
        Err(refusal) => show_refused(rt, first, refusal),
    }
}

fn main(rt: HostRuntime) {
    let mut first = [0u8; ari::BYTES + 1];
    let mut second = [0u8; ari::BYTES + 1];
    let loaded = input_file::load_both(
        &rt,
        b"usage: gate compare FILE FILE\n",
        &mut first,
        &mut second,
    );
    if let Some(both) = loaded {
        let n = both.first;
        let m = both.second;
        let mut room = [0u8; ROOM];
        show(&rt, &first[..n], &second[..m], &mut room);
    }
}
