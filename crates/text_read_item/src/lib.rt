// What a word of a text means: the head that is due at a slot, read from a text and put as bytes. Lax: the bytes count only if their own text is the text that was read.
#![tactic(auto)]

ghost use Rattle.std.specs.Prelude.{◌≡◌, true, not, [], ◌∷◌, ◌++◌, ◌+◌, ◌*◌, ◌<◌, ◌≤◌, ◌^◌, length, drop, get_or};
ghost use Rattle.buffer.specs.Runs.{past, RunTo};
ghost use Rattle.buffer.specs.Bytes.{part, within};
ghost use Rattle.cbor.specs.Head.{lead_bytes, lead_of};
ghost use Rattle.grammar.specs.Code.{slot_of};
ghost use Rattle.buffer.specs.Put.{Put};
ghost use Rattle.text_write_item.specs.Spellings.{spelling_at, after_by};
ghost use Rattle.text.specs.Parse.{ends, in_word, starts, number, unhex, any, unescape, unhexes, integer_of, literal_of, name_of, type_of, type_number, starts_number, opened, commas, count, parts, take_word, take_reference, take_ari, take_group, take_at};
ghost use Rattle.text.specs.Text.{names};
ghost use Rattle.text_read_item.specs.Words.{first_of, NextTo, EscapeAt, str_by, Small, Bounded, Found, plain_at, word_at, text_word, bytes_word, key_of, key_in, comma_of, take_value, take_params, group_of, is_group, is_relative, is_named, size_before, take_spelled, Read};

use text_write_item::Spelling;

// A head that was read: its slot's spelling, its kind and argument, the text behind what it writes before its members, the place behind its bytes.
#[derive(Clone, Copy)]
pub struct Item {
    pub spelling: Spelling,
    pub kind: u8,
    pub arg: u64,
    pub next: usize,
    pub end: usize,
}

// How a string stands in a text: as it is, with escapes, in hex digits.
#[derive(Clone, Copy)]
enum Form {
    Bare,
    Escaped,
    Hex,
}

// A head that a word means, and where its string stands.
#[derive(Clone, Copy)]
struct Word {
    kind: u8,
    arg: u64,
    form: Form,
    from: usize,
    to: usize,
    next: usize,
}

// An escape or a bare byte: the bytes that it takes, and the byte that it stands for.
#[derive(Clone, Copy)]
struct Escape {
    size: usize,
    byte: u8,
}

// The place n bytes on, or the end.
pub fn skip(t: &[u8], at: usize, n: usize) -> usize
    ensures { NextTo t.now at n result }
{
    let from = at.min(t.len());
    from + n.min(t.len() - from)
}

fn starts(t: &[u8], at: usize, c: u8) -> bool
    ensures { result ≡ starts c (drop at t.now) }
{
    at < t.len() && t[at] == c
}

fn is_end(x: u8) -> bool
    ensures { result ≡ ends x }
{
    matches!(x, b'(' | b')' | b',' | b'/' | b'=')
}

fn word_end(t: &[u8], at: usize) -> usize
    requires { at ≤ length t.now }
    ensures { RunTo in_word t.now at result }
{
    for i in at..t.len() {
        if is_end(t[i]) {
            return i;
        }
    }
    t.len()
}

// The first byte, or 0.
fn first(u: &[u8]) -> u8
    ensures { result ≡ first_of u.now }
{
    u.first().copied().unwrap_or(0)
}

// A number in plain decimal, from a place on; 0 for anything else.
fn number(u: &[u8], from: usize) -> u64
    ensures { result ≡ number (drop from u.now) }
{
    let end = u.len();
    if end < from {
        return 0;
    }
    let n = buffer::unsigned(&u[from..end]);
    match n {
        Some(v) => v,
        None => 0,
    }
}

fn unhex(c: u8) -> u8
    ensures { (result ≡ unhex c) × (result < 16) }
{
    match c {
        b'0'..=b'9' => c - b'0',
        b'A'..=b'F' => c - b'A' + 10,
        b'a'..=b'f' => c - b'a' + 10,
        _ => 0,
    }
}

// The byte of two hex digits.
fn unhex_two(c: u8, d: u8) -> u8
    ensures { result ≡ unhex c * 16 + unhex d }
{
    let h = unhex(c);
    let l = unhex(d);
    h * 16 + l
}

fn hex_at(u: &[u8], i: usize) -> u8
    requires { i + 2 ≤ length u.now }
    ensures { result ≡ unhex (get_or u.now i 0) * 16 + unhex (get_or u.now (i + 1) 0) }
{
    unhex_two(u[i], u[i + 1])
}

// None is cut off.
fn escape_at(u: &[u8], i: usize) -> Option<Escape>
    requires { i < length u.now }
    ensures { EscapeAt u.now i result }
{
    if u[i] != b'%' {
        return Some(Escape {
            size: 1,
            byte: u[i],
        });
    }
    if u.len() - i < 3 {
        return None;
    }
    Some(Escape {
        size: 3,
        byte: hex_at(u, i + 1),
    })
}

// No `for` in these two: a step is one byte or three.
fn unescaped_length(u: &[u8]) -> usize
    ensures { result ≡ length (unescape any u.now) }
{
    let mut n = 0;
    let mut i = 0;
    while i < u.len() {
        let Some(Escape { size, .. }) = escape_at(u, i) else {
            return n;
        };
        n += 1;
        i += size;
    }
    n
}

fn put_unescaped(u: &[u8], out: &mut [u8], at: usize) -> usize
    ensures { Put out.old out.new at result (unescape any u.now) }
{
    let mut r = at;
    let mut i = 0;
    while i < u.len() {
        let Some(Escape { size, byte }) = escape_at(u, i) else {
            return r;
        };
        r = buffer::put(out, r, byte);
        i += size;
    }
    r
}

fn put_unhexed(u: &[u8], out: &mut [u8], at: usize) -> usize
    ensures { Put out.old out.new at result (unhexes u.now) }
{
    let mut r = at;
    for i in 0..u.len() / 2 {
        r = buffer::put(out, r, hex_at(u, 2 * i));
    }
    r
}

fn put_string(form: Form, u: &[u8], out: &mut [u8], at: usize) -> usize
    ensures { Put out.old out.new at result (str_by form u.now) }
{
    match form {
        Form::Bare => buffer::put_all(out, at, u),
        Form::Escaped => put_unescaped(u, out, at),
        Form::Hex => put_unhexed(u, out, at),
    }
}

// A head without a string.
fn plain(t: &[u8], kind: u8, arg: u64, next: usize) -> Word
    requires { Small kind arg × (next ≤ length t.now) }
    ensures { Found t.now (plain_at t.now kind arg next) result }
{
    Word {
        kind,
        arg,
        form: Form::Bare,
        from: next,
        to: next,
        next,
    }
}

fn integer_of(t: &[u8], from: usize, to: usize) -> Word
    requires { (from ≤ to) × (to ≤ length t.now) }
    ensures { Found t.now (word_at integer_of t.now from to) result }
{
    let u = &t[from..to];
    if first(u) == b'-' {
        let n = number(u, 1);
        if n == 0 {
            return plain(t, 1, 0, to);
        }
        return plain(t, 1, n - 1, to);
    }
    plain(t, 0, number(u, 0), to)
}

// Between the marks of a text string.
fn text_of(t: &[u8], from: usize, to: usize) -> Word
    requires { (from ≤ to) × (to ≤ length t.now) }
    ensures { Found t.now (word_at text_word t.now from to) result }
{
    if to - from < 6 {
        return plain(t, 3, 0, to);
    }
    let n = unescaped_length(&t[from + 3..to - 3]);
    Word {
        kind: 3,
        arg: n as u64,
        form: Form::Escaped,
        from: from + 3,
        to: to - 3,
        next: to,
    }
}

// Between the marks of a byte string.
fn bytes_of(t: &[u8], from: usize, to: usize) -> Word
    requires { (from ≤ to) × (to ≤ length t.now) }
    ensures { Found t.now (word_at bytes_word t.now from to) result }
{
    if to - from < 7 {
        return plain(t, 2, 0, to);
    }
    Word {
        kind: 2,
        arg: ((to - from - 7) / 2) as u64,
        form: Form::Hex,
        from: from + 4,
        to: to - 3,
        next: to,
    }
}

fn literal_of(t: &[u8], from: usize, to: usize) -> Word
    requires { (from ≤ to) × (to ≤ length t.now) }
    ensures { Found t.now (word_at literal_of t.now from to) result }
{
    match first(&t[from..to]) {
        b'%' => text_of(t, from, to),
        b'h' => bytes_of(t, from, to),
        b'f' => plain(t, cbor::SIMPLE, 20, to),
        b't' => plain(t, cbor::SIMPLE, 21, to),
        b'n' => plain(t, cbor::SIMPLE, 22, to),
        b'u' => plain(t, cbor::SIMPLE, 23, to),
        _ => integer_of(t, from, to),
    }
}

fn starts_number(x: u8) -> bool
    ensures { result ≡ starts_number x }
{
    matches!(x, b'-' | b'0'..=b'9')
}

fn name_of(t: &[u8], from: usize, to: usize) -> Word
    requires { (from ≤ to) × (to ≤ length t.now) }
    ensures { Found t.now (word_at name_of t.now from to) result }
{
    if starts_number(first(&t[from..to])) {
        return integer_of(t, from, to);
    }
    Word {
        kind: 3,
        arg: (to - from) as u64,
        form: Form::Bare,
        from,
        to,
        next: to,
    }
}

// One byte more of a number.
fn shift_in(n: u64, x: u8) -> u64
    requires { n < 2 ^ 56 }
    ensures { (result ≡ n * 256 + x) × (result < n * 256 + 256) }
{
    n * 256 + x as u64
}

// A word of at most 7 bytes as a number, with its length above them. A longer one is 0, as no type's name is.
fn key_of(u: &[u8]) -> u64
    ensures { result ≡ key_of u.now }
{
    if 7 < u.len() {
        return 0;
    }
    let mut n = 0u64;
    for x in u {
        n = shift_in(n, *x);
    }
    u.len() as u64 * 72057594037927936 + n
}

// The number of a type by its name's key.
fn type_by_key(key: u64) -> u64
    ensures { result ≡ key_in names key }
{
    match key {
        0x040000004e554c4c => 0, // NULL
        0x04000000424f4f4c => 1, // BOOL
        0x0400000042595445 => 2, // BYTE
        0x0300000000494e54 => 4, // INT
        0x0400000055494e54 => 5, // UINT
        0x0400000056415354 => 6, // VAST
        0x0500005556415354 => 7, // UVAST
        0x06005245414c3332 => 8, // REAL32
        0x06005245414c3634 => 9, // REAL64
        0x0754455854535452 => 10, // TEXTSTR
        0x0742595445535452 => 11, // BYTESTR
        0x0200000000005450 => 12, // TP
        0x0200000000005444 => 13, // TD
        0x0500004c4142454c => 14, // LABEL
        0x0400000043424f52 => 15, // CBOR
        0x0200000000004143 => 17, // AC
        0x020000000000414d => 18, // AM
        0x0745584543534554 => 20, // EXECSET
        0x0600525054534554 => 21, // RPTSET
        _ => 0,
    }
}

fn type_number(u: &[u8]) -> u64
    ensures { result ≡ type_number u.now }
{
    type_by_key(key_of(u))
}

fn type_of(t: &[u8], from: usize, to: usize) -> Word
    requires { (from ≤ to) × (to ≤ length t.now) }
    ensures { Found t.now (word_at type_of t.now from to) result }
{
    plain(t, 0, type_number(&t[from..to]), to)
}

// The parentheses open after a byte, up to where those that were open are closed.
fn opened(e: usize, x: u8) -> usize
    requires { e + 1 < 2 ^ 64 }
    ensures { (result ≡ opened e x) × (result ≤ e + 1) }
{
    if e == 0 {
        return 0;
    }
    match x {
        b'(' => e + 1,
        b')' => e - 1,
        _ => e,
    }
}

// A comma counts inside the first parenthesis alone.
fn comma(e: usize, x: u8) -> u64
    ensures { (result ≡ comma_of e x) × (result ≤ 1) }
{
    u64::from(x == b',' && e == 1)
}

// Neither a comma nor a parenthesis, nor one of the two bytes between these: most of a text is passed by with one test a byte.
fn is_other(x: u8) -> bool
    ensures { result ≡ not (within 40 44 x) }
{
    x < b'(' || b',' < x
}

fn commas(t: &[u8], at: usize) -> u64
    requires { at ≤ length t.now }
    ensures { (result ≡ commas 1 (drop at t.now)) × (result ≤ length t.now) }
{
    let mut e = 1;
    let mut n = 0;
    for i in at..t.len() {
        let x = t[i];
        if is_other(x) {
            continue;
        }
        n += comma(e, x);
        e = opened(e, x);
        if e == 0 {
            return n;
        }
    }
    n
}

// The members behind a parenthesis.
fn count(t: &[u8], at: usize) -> u64
    requires { at ≤ length t.now }
    ensures { result ≡ count (drop at t.now) }
{
    if starts(t, at, b')') {
        return 0;
    }
    commas(t, at) + 1
}

fn group(t: &[u8], kind: u8, at: usize) -> Word
    requires { kind ≤ 5 }
    ensures { Found t.now (take_group kind (drop at t.now)) result }
{
    let p = skip(t, at, 1);
    plain(t, kind, count(t, p), p)
}

// Whether parameters stand behind an object's type and id.
fn with_params(t: &[u8], at: usize) -> bool
    requires { at ≤ length t.now }
    ensures { result ≡ starts 40 (past in_word (drop 1 (past in_word (drop at t.now)))) }
{
    let e = word_end(t, at);
    let p = skip(t, e, 1);
    let f = word_end(t, p);
    starts(t, f, b'(')
}

// The parts of a reference, from behind its namespace.
fn parts(t: &[u8], at: usize) -> u64
    requires { at ≤ length t.now }
    ensures { result ≡ parts (drop at t.now) }
{
    if at == t.len() {
        return 1;
    }
    if is_end(t[at]) {
        return 1;
    }
    if with_params(t, at) {
        return 4;
    }
    3
}

// A reference, whose namespace ends at a place.
fn reference(t: &[u8], at: usize, after: usize) -> Word
    requires { at ≤ length t.now }
    ensures { Found t.now (take_reference (drop at t.now) (drop after t.now)) result }
{
    let p = skip(t, after, 1);
    plain(t, 4, parts(t, p), at)
}

fn literal_at(t: &[u8], at: usize) -> Word
    requires { at ≤ length t.now }
    ensures { Found t.now (take_word literal_of (drop at t.now)) result }
{
    let e = word_end(t, at);
    literal_of(t, at, e)
}

fn name_at(t: &[u8], at: usize) -> Word
    requires { at ≤ length t.now }
    ensures { Found t.now (take_word name_of (drop at t.now)) result }
{
    let e = word_end(t, at);
    name_of(t, at, e)
}

fn type_at(t: &[u8], at: usize) -> Word
    requires { at ≤ length t.now }
    ensures { Found t.now (take_word type_of (drop at t.now)) result }
{
    let e = word_end(t, at);
    type_of(t, at, e)
}

fn ari_at(t: &[u8], at: usize) -> Word
    requires { at ≤ length t.now }
    ensures { Found t.now (take_ari (drop at t.now)) result }
{
    if starts(t, at, b'/') {
        let p = skip(t, at, 1);
        if starts(t, p, b'/') {
            let q = skip(t, at, 2);
            let e = word_end(t, q);
            return reference(t, at, e);
        }
        return plain(t, 4, 2, p);
    }
    if starts(t, at, b'.') {
        let e = word_end(t, at);
        return reference(t, at, e);
    }
    literal_at(t, at)
}

fn value_at(t: &[u8], at: usize, kind: u8) -> Word
    requires { (at ≤ length t.now) × (kind ≤ 5) }
    ensures { Found t.now (take_value literal_of kind (drop at t.now)) result }
{
    if starts(t, at, b'(') {
        return group(t, kind, at);
    }
    literal_at(t, at)
}

// A map has a key behind its parenthesis.
fn params_at(t: &[u8], at: usize) -> Word
    ensures { Found t.now (take_params (drop at t.now)) result }
{
    let p = skip(t, at, 1);
    let e = word_end(t, p);
    if starts(t, e, b'=') {
        return group(t, 5, at);
    }
    group(t, 4, at)
}

// A group in place of a label.
fn is_group(t: &[u8], at: usize, spelling: Spelling) -> bool
    ensures { result ≡ is_group spelling (drop at t.now) }
{
    matches!(spelling, Spelling::Label) && starts(t, at, b'(')
}

// A full stop in place of an object's namespace.
fn is_relative(t: &[u8], at: usize, spelling: Spelling) -> bool
    ensures { result ≡ is_relative spelling (drop at t.now) }
{
    matches!(spelling, Spelling::ObjectNamespace) && starts(t, at, b'.')
}

// The two slashes before a namespace.
fn size_before(spelling: Spelling) -> usize
    ensures { result ≡ size_before spelling }
{
    match spelling {
        Spelling::Namespace | Spelling::ObjectNamespace => 2,
        _ => 0,
    }
}

// From labels to ids, what is spelled as names are: all of these, so that `name_at` has one caller and stands in the walk's loop.
fn named_at(t: &[u8], at: usize, spelling: Spelling, kind: u8) -> Word
    requires { (at ≤ length t.now) × (kind ≤ 5) × (is_named spelling ≡ true) }
    ensures { Found t.now (take_spelled spelling kind (drop at t.now)) result }
{
    if is_group(t, at, spelling) {
        return group(t, kind, at);
    }
    if is_relative(t, at, spelling) {
        let e = word_end(t, at);
        return plain(t, cbor::SIMPLE, 22, e);
    }
    let p = skip(t, at, size_before(spelling));
    name_at(t, p)
}

fn take_spelled(t: &[u8], at: usize, spelling: Spelling, kind: u8) -> Word
    requires { (at ≤ length t.now) × (kind ≤ 5) }
    ensures { Found t.now (take_spelled spelling kind (drop at t.now)) result }
{
    match spelling {
        Spelling::Ari => ari_at(t, at),
        Spelling::TypeName => type_at(t, at),
        Spelling::Value => value_at(t, at, kind),
        Spelling::Parameters => params_at(t, at),
        Spelling::Key => literal_at(t, at),
        Spelling::Label => named_at(t, at, spelling, kind),
        Spelling::Namespace => named_at(t, at, spelling, kind),
        Spelling::ObjectNamespace => named_at(t, at, spelling, kind),
        Spelling::ObjectType => named_at(t, at, spelling, kind),
        Spelling::ObjectId => named_at(t, at, spelling, kind),
        Spelling::Unspelled => plain(t, cbor::SIMPLE, 22, at),
    }
}

// A group is an array as the value of type 17, and a map otherwise.
fn group_of(slot: u64) -> u8
    ensures { (result ≡ group_of slot) × (result ≤ 5) }
{
    match slot {
        45 | 67 => cbor::ARRAY,
        _ => cbor::MAP,
    }
}

fn put_word(t: &[u8], x: Word, out: &mut [u8], at: usize) -> usize
    requires { Bounded t.now x }
    ensures { Put out.old out.new at result (lead_bytes (lead_of x.kind x.arg) ++ str_by x.form (part t.now x.from x.to)) }
{
    let from = x.from;
    let to = x.to;
    let q = cbor::put_head(out, at, x.kind, x.arg);
    put_string(x.form, &t[from..to], out, q)
}

// The head that is due at a slot, from a place of a text on, is put as bytes with its string.
pub fn take_item(t: &[u8], at: usize, slot: u64, out: &mut [u8], end: usize) -> Item
    ensures spelling_value { result.spelling ≡ spelling_at slot }
    ensures read { Read t.now (take_at (slot_of slot) (drop at t.now)) end out.old out.new result }
{
    let p = skip(t, 0, at);
    let spelling = text_write_item::spelling_of(slot);
    let x = take_spelled(t, p, spelling, group_of(slot));
    let r = put_word(t, x, out, end);
    Item {
        spelling,
        kind: x.kind,
        arg: x.arg,
        next: x.next,
        end: r,
    }
}

// How much text stands behind a head's members; whether more is due beside it.
pub fn size_after(slot: u64, kind: u8, more: bool) -> usize
    ensures { result ≡ length (after_by (spelling_at slot) kind more) }
{
    length_after(text_write_item::spelling_of(slot), kind, more)
}

// The same by the slot's spelling, a byte at most.
fn length_after(spelling: Spelling, kind: u8, more: bool) -> usize
    ensures { (result ≡ length (after_by spelling kind more)) × (result ≤ 1) }
{
    match spelling {
        Spelling::Ari => more as usize,
        Spelling::Value => text_write_item::is_container(kind) as usize,
        Spelling::Label => text_write_item::is_container(kind) as usize,
        Spelling::ObjectId => 0,
        Spelling::Unspelled => 0,
        _ => 1,
    }
}

// The place behind that text, or the end.
pub fn skip_after(t: &[u8], at: usize, spelling: Spelling, kind: u8, more: bool) -> usize
    ensures { NextTo t.now at (length (after_by spelling kind more)) result }
{
    skip(t, at, length_after(spelling, kind, more))
}
