// CBOR item heads (RFC 8949, narrowed by R9 to R19), keys, and UTF-8 (RFC 3629).
#![tactic(auto)]

ghost use Rattle.std.specs.Prelude.{◌≡◌, ◌+◌, ◌^◌, ◌<◌, ◌≤◌, ◌%◌, ◌/◌, length, drop, get_or};
ghost use Rattle.buffer.specs.Bytes.{all, part};
ghost use Rattle.buffer.specs.Put.{Put};
ghost use Rattle.buffer.specs.Runs.{RunTo};
ghost use Rattle.cbor.specs.Byte.{below};
ghost use Rattle.cbor.specs.Head.{divides, too_long, bad_half, bad_float, get_from, head_bytes, key_of};
ghost use Rattle.cbor.specs.Keys.{OwnKey, KeyHead};
ghost use Rattle.cbor.specs.Answer.{answer, head_at, judged, Passed, follows, Tail, Sequence};
ghost use Rattle.cbor.specs.Utf8.{utf8, is_ascii, AsciiTo};

// The kinds of heads (specs/Head.antt).
pub const UNSIGNED: u8 = 0;

pub const NEGATIVE: u8 = 1;

pub const BYTES: u8 = 2;

pub const TEXT: u8 = 3;

pub const ARRAY: u8 = 4;

pub const MAP: u8 = 5;

pub const SIMPLE: u8 = 6;

pub const HALF: u8 = 7;

pub const SINGLE: u8 = 8;

pub const DOUBLE: u8 = 9;

// A refusal's number, or a head: its kind (specs/Head.antt), its argument and the place behind it. The number is a byte: as a u64 it would stand
// where a head's argument does, and LLVM then keeps every head in memory.
#[derive(Clone, Copy)]
pub enum Head {
    Bad(u8),
    Good { kind: u8, arg: u64, next: usize },
}

fn wide(x: u8) -> u64
    ensures { (result ≡ x) × (result < 256) }
{
    x as u64
}

// Another NaN than f97e00.
fn is_bad_half(a: u64) -> bool
    ensures { result ≡ bad_half a }
{
    if a / 1024 % 32 != 31 {
        return false;
    }
    if a % 1024 == 0 {
        return false;
    }
    a != 0x7e00
}

// 2^p divides m.
fn is_multiple(m: u64, p: u64) -> bool
    requires { p < 64 }
    ensures { result ≡ divides p m }
{
    m % (1 << p) == 0
}

// A float of exponent e and fraction m that is a NaN or would fit the next shorter size: `top` is the exponent of NaNs and infinities;
// the shorter size has normal numbers from the exponent `normal` to `high`, subnormal ones from `low` on, and `spare` bits less.
fn is_long(e: u64, m: u64, top: u64, low: u64, normal: u64, high: u64, spare: u64) -> bool
    requires { (0 < low) × (low ≤ normal) × (normal < 1024) × (normal + spare < low + 64) }
    ensures { result ≡ too_long top low normal high spare e m }
{
    if e == top {
        return true;
    }
    if e < low {
        if e == 0 {
            return m == 0;
        }
        return false;
    }
    if e < normal {
        return is_multiple(m, normal + spare - e);
    }
    if e <= high {
        return is_multiple(m, spare);
    }
    false
}

fn is_bad_float(kind: u8, a: u64) -> bool
    requires { (7 ≤ kind) × (kind ≤ 9) }
    ensures { result ≡ bad_float kind a }
{
    if kind == HALF {
        return is_bad_half(a);
    }
    if kind == SINGLE {
        return is_long(a / 8388608 % 256, a % 8388608, 255, 103, 113, 142, 13);
    }
    is_long(
        a / 4503599627370496 % 2048,
        a % 4503599627370496,
        2047,
        874,
        897,
        1150,
        29,
    )
}

// A head of major type 6 or 7 with an argument of 2, 4 or 8 bytes.
fn float(major: u8, info: u8, arg: u64, next: usize) -> Head
    requires { (6 ≤ major) × (major < 8) × (25 ≤ info) × (info < 28) }
    ensures { result ≡ judged major info arg next }
{
    if major == 6 {
        return Head::Bad(3);
    }
    let kind = info - 18;
    if is_bad_float(kind, arg) {
        return Head::Bad(4);
    }
    Head::Good { kind, arg, next }
}

// A head whose argument was given bytes of its own: the tests 3 and 4.
fn judge(major: u8, info: u8, arg: u64, next: usize) -> Head
    requires { (major < 8) × (24 ≤ info) × (info < 28) }
    ensures { result ≡ judged major info arg next }
{
    if major <= MAP {
        return Head::Good {
            kind: major,
            arg,
            next,
        };
    }
    if info == 24 {
        return Head::Bad(3);
    }
    float(major, info, arg, next)
}

// A head with an argument after its first byte, or with an info that is not in use.
fn long(s: &[u8], at: usize, major: u8, info: u64) -> Head
    requires { (at < length s.now) × (major < 8) × (24 ≤ info) }
    ensures { result ≡ answer at (get_from major info (drop (at + 1) s.now)) }
{
    let left = s.len() - at;
    if info == 24 {
        if left < 2 {
            return Head::Bad(2);
        }
        if major <= MAP {
            return Head::Good {
                kind: major,
                arg: wide(s[at + 1]),
                next: at + 2,
            };
        }
        return Head::Bad(3);
    }
    if info == 25 {
        if left < 3 {
            return Head::Bad(2);
        }
        if major <= MAP {
            return Head::Good {
                kind: major,
                arg: buffer::load2(s, at + 1) as u64,
                next: at + 3,
            };
        }
        return float(major, 25, buffer::load2(s, at + 1) as u64, at + 3);
    }
    if info == 26 {
        if left < 5 {
            return Head::Bad(2);
        }
        if major <= MAP {
            return Head::Good {
                kind: major,
                arg: buffer::load4(s, at + 1) as u64,
                next: at + 5,
            };
        }
        return float(major, 26, buffer::load4(s, at + 1) as u64, at + 5);
    }
    if info == 27 {
        if left < 9 {
            return Head::Bad(2);
        }
        if major <= MAP {
            return Head::Good {
                kind: major,
                arg: buffer::load8(s, at + 1),
                next: at + 9,
            };
        }
        return float(major, 27, buffer::load8(s, at + 1), at + 9);
    }
    Head::Bad(3)
}

// A head of one byte.
fn short(b: u64, at: usize) -> Head
    requires { (b < 256) × (b % 32 < 24) × (at + 1 < 2 ^ 64) }
    ensures { result ≡ judged (b / 32) (b % 32) (b % 32) (at + 1) }
{
    if b < 192 {
        return Head::Good {
            kind: (b / 32) as u8,
            arg: b % 32,
            next: at + 1,
        };
    }
    if b < 244 {
        return Head::Bad(3);
    }
    Head::Good {
        kind: SIMPLE,
        arg: b % 32,
        next: at + 1,
    }
}

// The head at a place of the input. Most heads are one byte: they come first.
pub fn head_at(s: &[u8], at: usize) -> Head
    ensures value { result ≡ head_at s.now at }
    ensures passed { Passed s.now at result }
{
    if s.len() <= at {
        return Head::Bad(2);
    }
    let b = wide(s[at]);
    if b % 32 < 24 {
        return short(b, at);
    }
    long(s, at, (b / 32) as u8, b % 32)
}

// The same two, for those who read an input again: `head_at` and `long` keep one caller each and stand in the walk's loop. `long_again` has two callers
// and stays a function of its own: what `head_again` does itself is short enough to stand in the loops of those who call it.
fn long_again(s: &[u8], at: usize) -> Head
    requires { (at < length s.now) × (24 ≤ get_or s.now at 0 % 32) }
    ensures { result ≡ head_at s.now at }
{
    let b = wide(s[at]);
    let major = (b / 32) as u8;
    let low = b % 32;
    let left = s.len() - at;
    if low == 24 {
        if left < 2 {
            return Head::Bad(2);
        }
        return judge(major, 24, wide(s[at + 1]), at + 2);
    }
    if low == 25 {
        if left < 3 {
            return Head::Bad(2);
        }
        return judge(major, 25, buffer::load2(s, at + 1) as u64, at + 3);
    }
    if low == 26 {
        if left < 5 {
            return Head::Bad(2);
        }
        return judge(major, 26, buffer::load4(s, at + 1) as u64, at + 5);
    }
    if low == 27 {
        if left < 9 {
            return Head::Bad(2);
        }
        return judge(major, 27, buffer::load8(s, at + 1), at + 9);
    }
    Head::Bad(3)
}

pub fn head_again(s: &[u8], at: usize) -> Head
    ensures value { result ≡ head_at s.now at }
    ensures passed { Passed s.now at result }
{
    if s.len() <= at {
        return Head::Bad(2);
    }
    let b = wide(s[at]);
    if b % 32 < 24 {
        return short(b, at);
    }
    long_again(s, at)
}

// A byte from lo to hi stands at a place.
fn is_next(s: &[u8], at: usize, lo: u8, hi: u8) -> bool
    ensures { result ≡ follows s.now at lo hi }
{
    if s.len() <= at {
        return false;
    }
    let b = s[at];
    if b < lo {
        return false;
    }
    b <= hi
}

// The size of a sequence of two, three or four bytes that starts at i, if the bytes behind the first are as they must be: else 0.
fn two(s: &[u8], i: usize) -> usize
    requires { i < length s.now }
    ensures { Tail s.now i 1 128 191 result }
{
    if is_next(s, i + 1, 128, 191) {
        return 2;
    }
    0
}

fn three(s: &[u8], i: usize, lo: u8, hi: u8) -> usize
    requires { i < length s.now }
    ensures { Tail s.now i 2 lo hi result }
{
    if is_next(s, i + 1, lo, hi) {
        if is_next(s, i + 2, 128, 191) {
            return 3;
        }
        return 0;
    }
    0
}

fn four(s: &[u8], i: usize, lo: u8, hi: u8) -> usize
    requires { i < length s.now }
    ensures { Tail s.now i 3 lo hi result }
{
    if is_next(s, i + 1, lo, hi) {
        if is_next(s, i + 2, 128, 191) {
            if is_next(s, i + 3, 128, 191) {
                return 4;
            }
            return 0;
        }
        return 0;
    }
    0
}

// The size of the sequence that starts at i with a byte past ASCII, 0 if it is malformed: RFC 3629's table.
fn sequence(s: &[u8], i: usize) -> usize
    requires { (i < length s.now) × (128 ≤ get_or s.now i 0) }
    ensures { Sequence s.now i result }
{
    let b = s[i];
    if b < 0xc2 {
        return 0;
    }
    if b < 0xe0 {
        return two(s, i);
    }
    if b == 0xe0 {
        return three(s, i, 0xa0, 0xbf);
    }
    if b == 0xed {
        return three(s, i, 0x80, 0x9f);
    }
    if b < 0xf0 {
        return three(s, i, 0x80, 0xbf);
    }
    if b == 0xf0 {
        return four(s, i, 0x90, 0xbf);
    }
    if b < 0xf4 {
        return four(s, i, 0x80, 0xbf);
    }
    if b == 0xf4 {
        return four(s, i, 0x80, 0x8f);
    }
    0
}

// The high bit of each of eight bytes.
const HIGH_BITS: u64 = 9259542123273814144;

// Eight bytes are ASCII: as one number they have none of these bits.
fn is_ascii_word(s: &[u8], at: usize) -> bool
    requires { at + 8 ≤ length s.now }
    ensures { result ≡ all is_ascii (part s.now at (at + 8)) }
{
    (buffer::load8(s, at) & HIGH_BITS) == 0
}

// The same of 32, four numbers a turn for long strings.
fn is_ascii_block(s: &[u8], at: usize) -> bool
    requires { at + 32 ≤ length s.now }
    ensures { result ≡ all is_ascii (part s.now at (at + 32)) }
{
    if !is_ascii_word(s, at) {
        return false;
    }
    if !is_ascii_word(s, at + 8) {
        return false;
    }
    if !is_ascii_word(s, at + 16) {
        return false;
    }
    is_ascii_word(s, at + 24)
}

// ASCII bytes in blocks, as far as whole ones go; and in words.
fn ascii_blocks(s: &[u8], at: usize) -> usize
    requires { at ≤ length s.now }
    ensures { AsciiTo s.now at result }
{
    let mut i = at;
    while 32 <= s.len() - i {
        if !is_ascii_block(s, i) {
            return i;
        }
        i += 32;
    }
    i
}

fn ascii_words(s: &[u8], at: usize) -> usize
    requires { at ≤ length s.now }
    ensures { AsciiTo s.now at result }
{
    let mut i = at;
    while 8 <= s.len() - i {
        if !is_ascii_word(s, i) {
            return i;
        }
        i += 8;
    }
    i
}

// The place behind the ASCII bytes from a place on.
fn ascii_run(s: &[u8], at: usize) -> usize
    requires { at ≤ length s.now }
    ensures { RunTo is_ascii s.now at result }
{
    let mut i = ascii_words(s, ascii_blocks(s, at));
    while i < s.len() {
        if s[i] < 128 {
            i += 1;
        } else {
            return i;
        }
    }
    i
}

pub fn is_utf8(s: &[u8]) -> bool
    ensures { result ≡ utf8 s.now }
{
    let mut i = ascii_run(s, 0);
    while i < s.len() {
        let n = sequence(s, i);
        if n == 0 {
            return false;
        }
        i = ascii_run(s, i + n);
    }
    true
}

// Byte order: a comes before b.
pub fn is_below(a: &[u8], b: &[u8]) -> bool
    ensures { result ≡ below a.now b.now }
{
    a < b
}

// What orders a key: its kind, its argument, and its string, which stands from a place on.
#[derive(Clone, Copy)]
struct Key {
    kind: u8,
    arg: u64,
    next: usize,
}

// The head of a key, as `head_again` would read it: the other caller of `long_again`.
fn key_head(s: &[u8]) -> Head
    ensures value { result ≡ head_at s.now 0 }
    ensures passed { Passed s.now 0 result }
{
    if 0 < s.len() {
        let b = wide(s[0]);
        if b % 32 < 24 {
            return short(b, 0);
        }
        return long_again(s, 0);
    }
    Head::Bad(2)
}

// What has no head of a number, a string or a container is no key, and comes before all keys.
fn key_of(s: &[u8]) -> Option<Key>
    ensures { KeyHead s.now result }
{
    match key_head(s) {
        Head::Good { kind, arg, next } if kind <= MAP => Some(Key { kind, arg, next }),
        _ => None,
    }
}

// A key whose head is the shortest is ordered by its own bytes: one with a head of two or three bytes.
fn is_shortest(s: &[u8]) -> bool
    requires { get_or s.now 0 0 < 192 }
    ensures { OwnKey s.now result }
{
    if s.len() < 2 {
        return false;
    }
    if s[0] % 32 == 24 {
        return 24 <= s[1];
    }
    if s[0] % 32 == 25 {
        if s.len() < 3 {
            return false;
        }
        return 0 < s[1];
    }
    false
}

// One with a head of one to three bytes. Most are.
fn is_own_key(s: &[u8]) -> bool
    ensures { OwnKey s.now result }
{
    if s.len() == 0 {
        return false;
    }
    let x = s[0];
    if 192 <= x {
        return false;
    }
    if x % 32 < 24 {
        return true;
    }
    is_shortest(s)
}

// Whether a map's key comes before another's, each by its head and its string: heads in their shortest form are ordered as their kinds and arguments are.
pub fn is_key_below(a: &[u8], b: &[u8]) -> bool
    ensures { result ≡ below (key_of a.now) (key_of b.now) }
{
    if is_own_key(a) && is_own_key(b) {
        return is_below(a, b);
    }
    let Some(y) = key_of(b) else {
        return false;
    };
    let Some(x) = key_of(a) else {
        return true;
    };
    if x.kind != y.kind {
        return x.kind < y.kind;
    }
    if x.arg != y.arg {
        return x.arg < y.arg;
    }
    is_below(&a[x.next..], &b[y.next..])
}

// The head of a number, a length or a simple value in its shortest form. A float, or a simple value past 23, puts nothing.
pub fn put_head(out: &mut [u8], at: usize, kind: u8, arg: u64) -> usize
    ensures { Put out.old out.new at result (head_bytes kind arg) }
{
    if kind == SIMPLE {
        if arg < 24 {
            return buffer::put(out, at, 224 + arg as u8);
        }
        return at;
    }
    if MAP < kind {
        return at;
    }
    if arg < 24 {
        return buffer::put(out, at, kind * 32 + arg as u8);
    }
    if arg < 256 {
        let q = buffer::put(out, at, kind * 32 + 24);
        return buffer::put(out, q, arg as u8);
    }
    if arg < 65536 {
        let q = buffer::put(out, at, kind * 32 + 25);
        return buffer::put2(out, q, arg as u16);
    }
    if arg < 4294967296 {
        let q = buffer::put(out, at, kind * 32 + 26);
        return buffer::put4(out, q, arg as u32);
    }
    let q = buffer::put(out, at, kind * 32 + 27);
    buffer::put8(out, q, arg)
}
