// Plain bytes in lent memory: bytes and numbers are put, stored, loaded, written and read in decimal, and compared.
#![tactic(auto)]

ghost use Rattle.std.specs.Prelude.{◌≡◌, Some, None, [], ◌∷◌, ◌+◌, ◌*◌, ◌/◌, ◌%◌, ◌^◌, ◌<◌, ◌≤◌, cond, leb, min, length, take, drop};
ghost use Rattle.std.proofs.lemmas.List.Edits.{sets};
ghost use Rattle.buffer.specs.Put.{Put};
ghost use Rattle.buffer.specs.Bytes.{be, value, load_at, store_at, same};
ghost use Rattle.buffer.specs.Decimal.{digit_of, digits, decimal, push_of, digitsOf, unsigned_of, positive_of, negative_of, signed_of};

// The smaller of two numbers.
pub fn least(a: usize, b: usize) -> usize
    ensures { result ≡ min a b }
{
    if a < b {
        return a;
    }
    b
}

// The sum, as far as 64 bits go; in these words LLVM makes it two instructions.
pub fn saturating_add(a: u64, b: u64) -> u64
    ensures { result ≡ min (a + b) 18446744073709551615 }
{
    let left = 18446744073709551615 - a;
    if left < b {
        return a + left;
    }
    a + b
}

// What is put goes into lent room from a place on: each function answers the place behind it, and leaves out what there is no room for.

// One byte.
pub fn put(out: &mut [u8], at: usize, x: u8) -> usize
    ensures { Put out.old out.new at result (x ∷ []) }
{
    if at < out.len() {
        out[at] = x;
        return at + 1;
    }
    at
}

// Bytes as they are.
pub fn put_all(out: &mut [u8], at: usize, s: &[u8]) -> usize
    ensures { Put out.old out.new at result s.now }
{
    let mut r = at;
    for x in s {
        r = put(out, r, *x);
    }
    r
}

// The same for long runs: what fits is known before the loop, which so becomes one copy. No `copy_from_slice`: in an archive that calls `memmove`, a name
// that hosts would have to bring.
pub fn put_block(out: &mut [u8], at: usize, s: &[u8]) -> usize
    ensures { Put out.old out.new at result s.now }
{
    if out.len() <= at {
        return at;
    }
    let n = s.len().min(out.len() - at);
    for i in 0..n {
        out[at + i] = s[i];
    }
    at + n
}

// A big-endian number of 2, 4 or 8 bytes.
pub fn put2(out: &mut [u8], at: usize, x: u16) -> usize
    ensures { Put out.old out.new at result (be 2 x) }
{
    put_all(out, at, &u16::to_be_bytes(x))
}

pub fn put4(out: &mut [u8], at: usize, x: u32) -> usize
    ensures { Put out.old out.new at result (be 4 x) }
{
    put_all(out, at, &u32::to_be_bytes(x))
}

pub fn put8(out: &mut [u8], at: usize, x: u64) -> usize
    ensures { Put out.old out.new at result (be 8 x) }
{
    put_all(out, at, &u64::to_be_bytes(x))
}

fn digit(n: u64) -> u8
    requires { n < 10 }
    ensures { result ≡ digit_of n }
{
    b'0' + n as u8
}

fn put_two(out: &mut [u8], at: usize, n: u64) -> usize
    requires { n < 100 }
    ensures { Put out.old out.new at result (digit_of (n / 10) ∷ digit_of (n % 10) ∷ []) }
{
    let q = put(out, at, digit(n / 10));
    put(out, q, digit(n % 10))
}

// One digit or two, where at most f and one may stand.
fn put_few(out: &mut [u8], at: usize, f: usize, n: u64) -> usize
    requires { (n < 100) × (n < 10 ^ (f + 1)) }
    ensures { Put out.old out.new at result (digits f n) }
{
    if n < 10 {
        return put(out, at, digit(n));
    }
    put_two(out, at, n)
}

// The digits of a number, at most f and one: two at a time, which halves the steps.
fn put_digits(out: &mut [u8], at: usize, f: usize, n: u64) -> usize
    requires { n < 10 ^ (f + 1) }
    ensures { Put out.old out.new at result (digits f n) }
{
    if n < 100 {
        return put_few(out, at, f, n);
    }
    let q = put_digits(out, at, f - 2, n / 100);
    put_two(out, q, n % 100)
}

// A number in plain decimal.
pub fn put_decimal(out: &mut [u8], at: usize, n: u64) -> usize
    ensures { Put out.old out.new at result (decimal n) }
{
    if n < 100 {
        return put_few(out, at, 19, n);
    }
    put_digits(out, at, 19, n)
}

// A big-endian number is stored at a place whole or, where there is no room for it, not at all.
fn store(out: &mut [u8], at: usize, bytes: &[u8])
    ensures { out.new ≡ cond (leb (at + length bytes.now) (length out.old)) (sets out.old at bytes.now) out.old }
{
    if at <= out.len() && bytes.len() <= out.len() - at {
        out[at..at + bytes.len()].copy_from_slice(bytes);
    }
}

pub fn store2(out: &mut [u8], at: usize, x: u16)
    ensures { out.new ≡ store_at 2 out.old at x }
{
    store(out, at, &u16::to_be_bytes(x));
}

pub fn store4(out: &mut [u8], at: usize, x: u32)
    ensures { out.new ≡ store_at 4 out.old at x }
{
    store(out, at, &u32::to_be_bytes(x));
}

pub fn store8(out: &mut [u8], at: usize, x: u64)
    ensures { out.new ≡ store_at 8 out.old at x }
{
    store(out, at, &u64::to_be_bytes(x));
}

// The N bytes from a place on, if there are so many.
fn bytes_at<const N: usize>(s: &[u8], at: usize) -> Option<[u8; N]>
    ensures { result ≡ cond (leb (at + N) (length s.now)) (Some (take N (drop at s.now))) None }
{
    // Told so, a loop tests no place twice.
    if s.len() < N || s.len() - N < at {
        return None;
    }
    s[at..at + N].try_into().ok()
}

// The big-endian number of the 2, 4 or 8 bytes from a place on, or 0 where there are not so many.
pub fn load2(s: &[u8], at: usize) -> u16
    ensures { result ≡ load_at 2 s.now at }
{
    bytes_at(s, at).map_or(0, u16::from_be_bytes)
}

pub fn load4(s: &[u8], at: usize) -> u32
    ensures { result ≡ load_at 4 s.now at }
{
    bytes_at(s, at).map_or(0, u32::from_be_bytes)
}

pub fn load8(s: &[u8], at: usize) -> u64
    ensures { result ≡ load_at 8 s.now at }
{
    bytes_at(s, at).map_or(0, u64::from_be_bytes)
}

// One digit more.
#[tactic(auto, unfolding(crate::specs::Decimal::push_of))]
fn push_digit(n: u64, x: u8) -> Option<u64>
    ensures { result ≡ push_of n x }
{
    if !x.is_ascii_digit() {
        return None;
    }
    n.checked_mul(10)?.checked_add(u64::from(x - b'0'))
}

#[tactic(auto, using(crate::proofs::DecimalWays::digits_next, crate::proofs::DecimalWays::digits_end))]
fn read_digits(t: &[u8]) -> Option<u64>
    ensures { result ≡ digitsOf 0 t.now }
{
    let mut n = 0;
    for x in t {
        n = push_digit(n, *x)?;
    }
    Some(n)
}

// An unsigned number in plain decimal: no sign, no leading zero.
#[tactic(auto, using(crate::proofs::DecimalWays::unsigned_none, crate::proofs::DecimalWays::unsigned_zero))]
pub fn unsigned(t: &[u8]) -> Option<u64>
    ensures { result ≡ unsigned_of t.now }
{
    match t {
        [] => None,
        [b'0', _, ..] => None,
        _ => read_digits(t),
    }
}

fn positive(n: u64) -> Option<u64>
    ensures { result ≡ positive_of (Some n) }
{
    if n < 1 << 63 { Some(n) } else { None }
}

fn negative(n: u64) -> Option<u64>
    ensures { result ≡ negative_of (Some n) }
{
    if 0 < n && n <= 1 << 63 {
        Some(n.wrapping_neg())
    } else {
        None
    }
}

// A number from -2^63 to 2^63 - 1 in plain decimal, no -0, as its two's complement.
pub fn signed(t: &[u8]) -> Option<u64>
    ensures { result ≡ signed_of t.now }
{
    match t {
        [b'-', digits @ ..] => negative(unsigned(digits)?),
        _ => positive(unsigned(t)?),
    }
}

// Two runs of bytes are the same.
#[tactic(auto, using(crate::proofs::ByteLaws::pointwise_same))]
pub fn same(a: &[u8], b: &[u8]) -> bool
    ensures { result ≡ same a.now b.now }
{
    a == b
}
