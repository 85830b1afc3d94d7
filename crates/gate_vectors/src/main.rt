// Reads inputs from standard input, one a line, and writes the answers to them. A line is `single`, `message`, `items-single`,
// `items-message`, `write` (of an ARI) or `read` (of a text), a space and the input in hex; blank lines and those that start with
// `#` are skipped.
#![tactic(auto)]

ghost use Rattle.std.specs.Prelude.{◌≤◌, length};
ghost use Rattle.gate_vectors.specs.Within.{Roomy};

use ari::{Input, Refusal};
use text_write::Written;

// What a line asks for: the check or the items, of a single ARI or of a message; an ARI's text; a text's ARI.
#[derive(Clone, Copy)]
enum Call {
    Check { input: Input },
    Items { input: Input },
    Write,
    Read,
    Unknown,
}

fn call_of(word: &[u8]) -> Call {
    if check::same(word, b"single") {
        return Call::Check {
            input: Input::Single,
        };
    }
    if check::same(word, b"message") {
        return Call::Check {
            input: Input::Message,
        };
    }
    if check::same(word, b"items-single") {
        return Call::Items {
            input: Input::Single,
        };
    }
    if check::same(word, b"items-message") {
        return Call::Items {
            input: Input::Message,
        };
    }
    if check::same(word, b"write") {
        return Call::Write;
    }
    if check::same(word, b"read") {
        return Call::Read;
    }
    Call::Unknown
}

// The value of a hex digit; 16 for what is none.
fn nibble(c: u8) -> u8
    ensures { result ≤ 16 }
{
    match c {
        b'0'..=b'9' => c - b'0',
        b'a'..=b'f' => c - b'a' + 10,
        _ => 16,
    }
}

// What hex digits give: so many bytes at the start of a buffer.
#[derive(Clone, Copy)]
enum Bytes {
    Count(usize),
    Bad,
}

fn unhex(digits: &[u8], buffer: &mut [u8]) -> Bytes
    ensures { Roomy result (length buffer.new) }
{
    let count = digits.len() / 2;
    if digits.len() % 2 == 1 {
        return Bytes::Bad;
    }
    if buffer.len() < count {
        return Bytes::Bad;
    }
    let mut i = 0;
    while i < count {
        let high = nibble(digits[2 * i]);
        let low = nibble(digits[2 * i + 1]);
        if 15 < high {
            return Bytes::Bad;
        }
        if 15 < low {
            return Bytes::Bad;
        }
        buffer[i] = high * 16 + low;
        i += 1;
    }
    Bytes::Count(count)
}

fn check_input(s: &[u8], input: Input, out: &mut [u8], at: usize) -> usize {
    print::answer(out, at, reader::check(input, ari::LIMITS, s))
}

fn list_in(s: &[u8], input: Input, entries: &mut [u64], out: &mut [u8], at: usize) -> usize {
    let a = reader::keep(input, ari::LIMITS, s, entries);
    let Ok(count) = a else {
        return print::answer(out, at, a);
    };
    if entries.len() < count {
        return at;
    }
    let p = print::items(out, at, s, &entries[0..count], b"");
    print::answer(out, p, a)
}

fn list_input(s: &[u8], input: Input, out: &mut [u8], at: usize) -> usize {
    let mut entries = [0u64; ari::ITEMS];
    list_in(s, input, &mut entries, out, at)
}

fn refused_line(out: &mut [u8], at: usize, refusal: Refusal) -> usize {
    let p = print::fresh_line(out, at);
    print::refused(out, p, refusal)
}

// The start of an acceptance's line: a word and the item count.
fn started(out: &mut [u8], at: usize, word: &[u8], count: usize) -> usize {
    let p = print::fresh_line(out, at);
    let q = print::numbered(out, p, word, count as u64);
    buffer::put(out, q, b' ')
}

fn wide(x: u8) -> u64 {
    x as u64
}

// Up to so many bytes of a buffer, in hex.
fn digits_of(room: &[u8], length: usize, out: &mut [u8], at: usize) -> usize {
    let mut p = at;
    let mut i = 0;
    while i < length && i < room.len() {
        p = print::fresh_line(out, p);
        p = print::hex(out, p, wide(room[i]), 2);
        i += 1;
    }
    p
}

// A text may be longer than the room that is kept for a line: it goes out by itself.
fn write_in(s: &[u8], room: &mut [u8], out: &mut [u8], at: usize) -> usize {
    match text_write::write_text(s, room) {
        Ok(Written { length, count }) => {
            let p = started(out, at, b"text ", count);
            print::flush(out, p);
            print::flush(room, length);
            buffer::put(out, 0, b'\n')
        }
        Err(e) => refused_line(out, at, e),
    }
}

fn read_in(t: &[u8], room: &mut [u8], out: &mut [u8], at: usize) -> usize {
    match text_read::read_text(t, room) {
        Ok(Written { length, count }) => {
            let p = started(out, at, b"bytes ", count);
            let q = digits_of(room, length, out, p);
            buffer::put(out, q, b'\n')
        }
        Err(e) => refused_line(out, at, e),
    }
}

fn write_input(s: &[u8], out: &mut [u8], at: usize) -> usize {
    let mut room = [0u8; ari::TEXT];
    write_in(s, &mut room, out, at)
}

fn read_input(t: &[u8], out: &mut [u8], at: usize) -> usize {
    let mut room = [0u8; ari::BYTES];
    read_in(t, &mut room, out, at)
}

fn bad_line(out: &mut [u8], at: usize, line: u64) -> usize {
    let p = print::fresh_line(out, at);
    let q = print::numbered(out, p, b"bad line ", line);
    buffer::put(out, q, b'\n')
}

fn answer_call(call: Call, s: &[u8], line: u64, out: &mut [u8], at: usize) -> usize {
    match call {
        Call::Check { input } => check_input(s, input, out, at),
        Call::Items { input } => list_input(s, input, out, at),
        Call::Write => write_input(s, out, at),
        Call::Read => read_input(s, out, at),
        Call::Unknown => bad_line(out, at, line),
    }
}

fn answer_digits(
    call: Call,
    digits: &[u8],
    line: u64,
    buffer: &mut [u8],
    out: &mut [u8],
    at: usize,
) -> usize {
    let b = unhex(digits, buffer);
    match b {
        Bytes::Count(n) => answer_call(call, &buffer[0..n], line, out, at),
        Bytes::Bad => bad_line(out, at, line),
    }
}

// The place of a byte, or the end.
fn place_of(t: &[u8], byte: u8) -> usize
    ensures { result ≤ length t.now }
{
    match t.iter().position(|x| *x == byte) {
        Some(i) => i,
        None => t.len(),
    }
}

// A line, without its end.
fn answer_line(text: &[u8], line: u64, buffer: &mut [u8], out: &mut [u8], at: usize) -> usize {
    if text.len() == 0 {
        return at;
    }
    if text[0] == b'#' {
        return at;
    }
    let end = place_of(text, b' ');
    let call = call_of(&text[0..end]);
    if end < text.len() {
        let start = end + 1;
        return answer_digits(call, &text[start..], line, buffer, out, at);
    }
    answer_digits(call, &text[end..], line, buffer, out, at)
}

// Between two reads: the bytes at the buffer's start that are kept, the number of the line that they start, the place in the
// output, whether that line has outgrown the buffer, whether more is to be read.
#[derive(Clone, Copy)]
struct State {
    kept: usize,
    line: u64,
    at: usize,
    long: bool,
    more: bool,
}

// Behind the lines of a text that have an end: the place, the next line's number, the place in the output, whether that line has
// outgrown the buffer.
#[derive(Clone, Copy)]
struct Lines {
    from: usize,
    line: u64,
    at: usize,
    long: bool,
}

fn end_line(
    text: &[u8],
    long: bool,
    line: u64,
    buffer: &mut [u8],
    out: &mut [u8],
    at: usize,
) -> usize {
    if long {
        return bad_line(out, at, line);
    }
    answer_line(text, line, buffer, out, at)
}

fn take_lines(text: &[u8], s: State, buffer: &mut [u8], out: &mut [u8]) -> Lines
    ensures { result.from ≤ length text.now }
{
    let mut from = 0;
    let mut line = s.line;
    let mut at = s.at;
    let mut long = s.long;
    while from < text.len() {
        let end = from + place_of(&text[from..], b'\n');
        if end == text.len() {
            return Lines {
                from,
                line,
                at,
                long,
            };
        }
        at = end_line(&text[from..end], long, line, buffer, out, at);
        line = std::num::wrapping_add_u64(line, 1);
        long = false;
        from = end + 1;
    }
    Lines {
        from,
        line,
        at,
        long,
    }
}

// The bytes from a place on go to the start.
fn shift(input: &mut [u8], from: usize, to: usize)
    requires { (from ≤ to) × (to ≤ length input.old) }
{
    let mut i = from;
    let mut j = 0;
    while i < to {
        input[j] = input[i];
        i += 1;
        j += 1;
    }
}

// The last line may have no end.
fn last_line(text: &[u8], l: Lines, buffer: &mut [u8], out: &mut [u8]) -> State
    requires { l.from ≤ length text.now }
    ensures { result.kept ≤ 0 }
{
    let from = l.from;
    let mut at = l.at;
    if from < text.len() {
        at = end_line(&text[from..], l.long, l.line, buffer, out, l.at);
    }
    State {
        kept: 0,
        line: l.line,
        at,
        long: false,
        more: false,
    }
}

// Reads once, and answers the lines that are whole.
fn turn(input: &mut [u8], s: State, buffer: &mut [u8], out: &mut [u8]) -> State
    requires { s.kept ≤ length input.old }
    ensures { result.kept ≤ length input.new }
{
    let kept = s.kept;
    let got = io::read_full(0, &mut input[kept..]);
    let to = kept + got;
    let l = take_lines(&input[0..to], s, buffer, out);
    if to < input.len() {
        return last_line(&input[0..to], l, buffer, out);
    }
    let from = l.from;
    if from == 0 {
        return State {
            kept: 0,
            line: l.line,
            at: l.at,
            long: true,
            more: true,
        };
    }
    shift(input, from, to);
    State {
        kept: to - from,
        line: l.line,
        at: l.at,
        long: l.long,
        more: true,
    }
}

fn run(input: &mut [u8], buffer: &mut [u8], out: &mut [u8]) {
    let mut s = State {
        kept: 0,
        line: 1,
        at: 0,
        long: false,
        more: true,
    };
    let mut turns = u64::MAX;
    while turns > 0 && s.more {
        s = turn(input, s, buffer, out);
        turns -= 1;
    }
    print::flush(out, s.at);
}

// A line has room for a text of 33,279 bytes, two digits a byte; longer ones are tried elsewhere.
fn main() {
    let mut input = [0u8; 66560];
    let mut buffer = [0u8; 33280];
    let mut out = io::large_buffer();
    run(&mut input, &mut buffer, &mut out);
}
