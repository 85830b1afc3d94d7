// `composer NONCE`: reads texts of object references from standard input, a line each, and writes the message of the nonce and these targets, or the line
// `refused N P`. NONCE is `null`, a number in decimal, or a byte string as h'00ff' or, as in ARI text, h%2700ff%27.
#![tactic(auto)]

ghost use Rattle.std.specs.Prelude.{◌<◌, IfSome};

use text_write::Written;

// What NONCE is: the bytes of a string stand in a room.
#[derive(Clone, Copy)]
enum Nonce {
    Null,
    Number(u64),
    Bytes(usize),
}

// Longer than any argument that the system hands over, and half as much for its bytes.
const WORD: usize = 131072;

const BYTES: usize = 65536;

// The texts of a message that keeps the limits are half as long at most; as much is taken so that more texts have their own answer.
const TEXTS: usize = 262144;

// What a number that 64 bits do not hold stands for: it is out of range as well.
const OUT_OF_RANGE: u64 = u64::MAX;

fn digit(x: u8) -> Option<u8>
    ensures { IfSome result (λ d. d < 16) }
{
    match x {
        b'0'..=b'9' => Some(x - b'0'),
        b'a'..=b'f' => Some(x - b'a' + 10),
        b'A'..=b'F' => Some(x - b'A' + 10),
        _ => None,
    }
}

// The bytes that pairs of hex digits are.
fn string_of(digits: &[u8], room: &mut [u8]) -> Option<Nonce> {
    let size = digits.len() / 2;
    if digits.len() % 2 != 0 || room.len() < size {
        return None;
    }
    for i in 0..size {
        let high = digit(digits[2 * i])?;
        let low = digit(digits[2 * i + 1])?;
        room[i] = high * 16 + low;
    }
    Some(Nonce::Bytes(size))
}

// A word in quotes of so many bytes, behind an `h`.
fn quoted(word: &[u8], quote: usize, room: &mut [u8]) -> Option<Nonce> {
    let all = word.len();
    if all < 1 || (all - 1) / 2 < quote {
        return None;
    }
    string_of(&word[1 + quote..all - quote], room)
}

fn is_decimal(word: &[u8]) -> bool {
    if word.len() == 0 {
        return false;
    }
    if word[0] == b'0' {
        return word.len() == 1;
    }
    word.iter().all(|x| matches!(*x, b'0'..=b'9'))
}

fn number_of(word: &[u8]) -> Option<Nonce> {
    if !is_decimal(word) {
        return None;
    }
    match buffer::unsigned(word) {
        Some(n) => Some(Nonce::Number(n)),
        None => Some(Nonce::Number(OUT_OF_RANGE)),
    }
}

fn nonce_of(word: &[u8], room: &mut [u8]) -> Option<Nonce> {
    if check::same(word, b"null") {
        return Some(Nonce::Null);
    }
    if word.starts_with(b"h%27") {
        if word.ends_with(b"%27") {
            return quoted(word, 3, room);
        }
        return None;
    }
    if word.starts_with(b"h'") {
        if word.ends_with(b"'") {
            return quoted(word, 1, room);
        }
        return None;
    }
    number_of(word)
}

fn say_usage() {
    io::write_all(
        2,
        b"usage: composer NONCE    (null, a number, h'HEX' or h%27HEX%27; texts on standard input, a line each)\n",
    );
}

// The message, or the refusal.
fn send(kind: u64, number: u64, nonce: &[u8], texts: &[u8]) {
    let mut room = [0u8; ari::BYTES];
    match composer::compose(kind, number, nonce, texts, &mut room) {
        Ok(Written { length, .. }) => {
            print::flush(&room, length);
        }
        Err(refusal) => print::send_refusal(refusal),
    }
}

fn compose(kind: u64, number: u64, nonce: &[u8]) {
    let mut texts = [0u8; TEXTS];
    let n = io::read_full(0, &mut texts);
    if n < TEXTS {
        send(kind, number, nonce, &texts[..n]);
        return;
    }
    io::write_all(2, b"composer: the texts are more than 262143 bytes\n");
}

fn run(word: &[u8], room: &mut [u8]) {
    match nonce_of(word, room) {
        None => say_usage(),
        Some(Nonce::Null) => compose(0, 0, &room[0..0]),
        Some(Nonce::Number(n)) => compose(1, n, &room[0..0]),
        Some(Nonce::Bytes(n)) => {
            if n <= room.len() {
                compose(2, 0, &room[0..n]);
            }
        }
    }
}

fn main(rt: HostRuntime) {
    if !arguments::is_given(&rt, 1) || arguments::is_given(&rt, 2) {
        say_usage();
        return;
    }
    let mut word = [0u8; WORD];
    let n = arguments::put(&rt, 1, &mut word);
    let mut room = [0u8; BYTES];
    run(&word[..n], &mut room);
}
