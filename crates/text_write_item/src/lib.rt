// How one item is spelled: each function puts a text into lent room and answers the place behind it. Where the room ends, nothing is put.
#![tactic(auto)]

ghost use Rattle.std.specs.Prelude.{◌≡◌, cond, [], ◌∷◌, ◌+◌, ◌<◌, ◌≤◌, length, ◌++◌};
ghost use Rattle.buffer.specs.Put.{Put};
ghost use Rattle.text_write_item.specs.Head.{head_of};
ghost use Rattle.text.specs.Chars.{integer, hex, hexes, bare, escape, each, text_string, byte_string, simple_text, literal_text, name_text};
ghost use Rattle.text.specs.Text.{type_name};
ghost use Rattle.cbor.specs.Head.{is_container};
ghost use Rattle.text_write_item.specs.Spellings.{spelling_at, ari_text, opening, space_text, before_by, closing, after_by};

// A hex digit, where ten is spelled so.
fn hex_digit(ten: u8, d: u8) -> u8
    requires { (ten < 128) × (d < 16) }
    ensures { result ≡ hex ten d }
{
    if d < 10 {
        return 48 + d;
    }
    ten + (d - 10)
}

// A byte's two hex digits.
fn put_hex(out: &mut [u8], at: usize, ten: u8, x: u8) -> usize
    requires { ten < 128 }
    ensures { Put out.old out.new at result (hexes ten x) }
{
    let q = buffer::put(out, at, hex_digit(ten, x / 16));
    buffer::put(out, q, hex_digit(ten, x % 16))
}

fn is_bare(x: u8) -> bool
    ensures { result ≡ bare x }
{
    grammar::continues_name(x) || x == b'~'
}

// A byte of a text string.
fn put_escaped(out: &mut [u8], at: usize, x: u8) -> usize
    ensures { Put out.old out.new at result (escape x) }
{
    if is_bare(x) {
        return buffer::put(out, at, x);
    }
    let q = buffer::put(out, at, b'%');
    put_hex(out, q, b'A', x)
}

fn put_escapes(out: &mut [u8], at: usize, s: &[u8]) -> usize
    ensures { Put out.old out.new at result (each escape s.now) }
{
    let mut r = at;
    for x in s {
        r = put_escaped(out, r, *x);
    }
    r
}

fn put_hexes(out: &mut [u8], at: usize, s: &[u8]) -> usize
    ensures { Put out.old out.new at result (each (hexes 97) s.now) }
{
    let mut r = at;
    for x in s {
        r = put_hex(out, r, b'a', *x);
    }
    r
}

fn put_text(out: &mut [u8], at: usize, s: &[u8]) -> usize
    ensures { Put out.old out.new at result (text_string s.now) }
{
    let q = buffer::put_all(out, at, b"%22");
    let r = put_escapes(out, q, s);
    buffer::put_all(out, r, b"%22")
}

fn put_bytes(out: &mut [u8], at: usize, s: &[u8]) -> usize
    ensures { Put out.old out.new at result (byte_string s.now) }
{
    let q = buffer::put_all(out, at, b"h%27");
    let r = put_hexes(out, q, s);
    buffer::put_all(out, r, b"%27")
}

// An integer below 0: the argument n means -1 - n.
fn put_negative(out: &mut [u8], at: usize, arg: u64) -> usize
    ensures { Put out.old out.new at result (integer 1 arg) }
{
    let q = buffer::put(out, at, b'-');
    match arg.checked_add(1) {
        Some(n) => buffer::put_decimal(out, q, n),
        None => buffer::put_all(out, q, b"18446744073709551616"),
    }
}

fn put_integer(out: &mut [u8], at: usize, kind: u8, arg: u64) -> usize
    ensures { Put out.old out.new at result (integer kind arg) }
{
    if kind == cbor::NEGATIVE {
        return put_negative(out, at, arg);
    }
    buffer::put_decimal(out, at, arg)
}

fn put_simple(out: &mut [u8], at: usize, arg: u64) -> usize
    ensures { Put out.old out.new at result (simple_text arg) }
{
    match arg {
        20 => buffer::put_all(out, at, b"false"),
        21 => buffer::put_all(out, at, b"true"),
        22 => buffer::put_all(out, at, b"null"),
        _ => buffer::put_all(out, at, b"undefined"),
    }
}

// A literal, with its string. What is none puts nothing.
fn put_literal(out: &mut [u8], at: usize, kind: u8, arg: u64, s: &[u8]) -> usize
    ensures { Put out.old out.new at result (literal_text (head_of kind arg) s.now) }
{
    match kind {
        cbor::UNSIGNED => put_integer(out, at, kind, arg),
        cbor::NEGATIVE => put_integer(out, at, kind, arg),
        cbor::BYTES => put_bytes(out, at, s),
        cbor::TEXT => put_text(out, at, s),
        cbor::SIMPLE => put_simple(out, at, arg),
        _ => at,
    }
}

// A name, or the number in its place.
fn put_name(out: &mut [u8], at: usize, kind: u8, arg: u64, s: &[u8]) -> usize
    ensures { Put out.old out.new at result (name_text (head_of kind arg) s.now) }
{
    if kind == cbor::TEXT {
        return buffer::put_all(out, at, s);
    }
    put_integer(out, at, kind, arg)
}

// The name of a type.
fn put_type(out: &mut [u8], at: usize, arg: u64) -> usize
    ensures { Put out.old out.new at result (type_name arg) }
{
    match arg {
        0 => buffer::put_all(out, at, b"NULL"),
        1 => buffer::put_all(out, at, b"BOOL"),
        2 => buffer::put_all(out, at, b"BYTE"),
        4 => buffer::put_all(out, at, b"INT"),
        5 => buffer::put_all(out, at, b"UINT"),
        6 => buffer::put_all(out, at, b"VAST"),
        7 => buffer::put_all(out, at, b"UVAST"),
        8 => buffer::put_all(out, at, b"REAL32"),
        9 => buffer::put_all(out, at, b"REAL64"),
        10 => buffer::put_all(out, at, b"TEXTSTR"),
        11 => buffer::put_all(out, at, b"BYTESTR"),
        12 => buffer::put_all(out, at, b"TP"),
        13 => buffer::put_all(out, at, b"TD"),
        14 => buffer::put_all(out, at, b"LABEL"),
        15 => buffer::put_all(out, at, b"CBOR"),
        17 => buffer::put_all(out, at, b"AC"),
        18 => buffer::put_all(out, at, b"AM"),
        20 => buffer::put_all(out, at, b"EXECSET"),
        21 => buffer::put_all(out, at, b"RPTSET"),
        _ => at,
    }
}

// How the heads of a slot are spelled, by what is due there. What stands in sets alone has no text.
#[derive(Clone, Copy)]
pub enum Spelling {
    Unspelled,
    Ari,
    TypeName,
    Value,
    Label,
    Namespace,
    ObjectNamespace,
    ObjectType,
    ObjectId,
    Parameters,
    Key,
}

// By the slot's number, up to the values of types: a LABEL is bare. Neighbours with one spelling stand in two arms: a run of numbers in one arm would be
// compared, not looked up.
pub fn spelling_of(slot: u64) -> Spelling
    ensures { result ≡ spelling_at slot }
{
    match slot {
        0 | 21 | 23 | 25 | 27 => Spelling::Unspelled,
        22 | 24 | 26 => Spelling::Unspelled,
        1 | 3 | 19 => Spelling::Ari,
        2 | 4 | 20 => Spelling::Ari,
        5 | 7 => Spelling::TypeName,
        6 | 8 => Spelling::TypeName,
        9 => Spelling::Namespace,
        10 => Spelling::ObjectNamespace,
        11 => Spelling::ObjectNamespace,
        12 => Spelling::ObjectType,
        13 => Spelling::ObjectType,
        14 => Spelling::ObjectId,
        15 => Spelling::ObjectId,
        16 => Spelling::Parameters,
        17 => Spelling::Key,
        18 => Spelling::Key,
        28 | 30 | 32 | 34 | 36 | 38 | 40 | 44 | 46 | 48 => Spelling::Value,
        29 | 31 | 33 | 35 | 37 | 39 | 41 | 43 | 45 | 47 | 49 => Spelling::Value,
        50 | 52 | 54 | 56 | 58 | 60 | 62 | 66 | 68 | 70 => Spelling::Value,
        51 | 53 | 55 | 57 | 59 | 61 | 63 | 65 | 67 | 69 | 71 => Spelling::Value,
        42 | 64 => Spelling::Label,
        _ => Spelling::Unspelled,
    }
}

pub fn is_container(kind: u8) -> bool
    ensures { result ≡ is_container kind }
{
    matches!(kind, cbor::ARRAY | cbor::MAP)
}

fn put_ari(out: &mut [u8], at: usize, kind: u8, arg: u64, s: &[u8]) -> usize
    ensures { Put out.old out.new at result (ari_text kind arg s.now) }
{
    if kind == cbor::ARRAY {
        if arg == 2 {
            return buffer::put(out, at, b'/');
        }
        return at;
    }
    put_literal(out, at, kind, arg, s)
}

fn put_value(out: &mut [u8], at: usize, kind: u8, arg: u64, s: &[u8]) -> usize
    ensures { Put out.old out.new at result (opening kind (literal_text (head_of kind arg) s.now)) }
{
    if is_container(kind) {
        return buffer::put(out, at, b'(');
    }
    put_literal(out, at, kind, arg, s)
}

fn put_label(out: &mut [u8], at: usize, kind: u8, s: &[u8]) -> usize
    ensures { Put out.old out.new at result (opening kind s.now) }
{
    if is_container(kind) {
        return buffer::put(out, at, b'(');
    }
    buffer::put_all(out, at, s)
}

fn put_absolute(out: &mut [u8], at: usize, kind: u8, arg: u64, s: &[u8]) -> usize
    ensures { Put out.old out.new at result (47 ∷ 47 ∷ [] ++ name_text (head_of kind arg) s.now) }
{
    let q = buffer::put_all(out, at, b"//");
    put_name(out, q, kind, arg, s)
}

fn put_space(out: &mut [u8], at: usize, kind: u8, arg: u64, s: &[u8]) -> usize
    ensures { Put out.old out.new at result (space_text kind arg s.now) }
{
    if kind == cbor::SIMPLE {
        return buffer::put(out, at, b'.');
    }
    put_absolute(out, at, kind, arg, s)
}

// What a head, with its string, writes before its members.
pub fn put_before(
    out: &mut [u8],
    at: usize,
    spelling: Spelling,
    kind: u8,
    arg: u64,
    s: &[u8],
) -> usize
    ensures { Put out.old out.new at result (before_by spelling kind arg s.now) }
{
    match spelling {
        Spelling::Ari => put_ari(out, at, kind, arg, s),
        Spelling::TypeName => put_type(out, at, arg),
        Spelling::Value => put_value(out, at, kind, arg, s),
        Spelling::Label => put_label(out, at, kind, s),
        Spelling::Namespace => put_absolute(out, at, kind, arg, s),
        Spelling::ObjectNamespace => put_space(out, at, kind, arg, s),
        Spelling::ObjectType => put_name(out, at, kind, arg, s),
        Spelling::ObjectId => put_name(out, at, kind, arg, s),
        Spelling::Parameters => buffer::put(out, at, b'('),
        Spelling::Key => put_literal(out, at, kind, arg, s),
        Spelling::Unspelled => at,
    }
}

fn put_comma(out: &mut [u8], at: usize, more: bool) -> usize
    ensures { Put out.old out.new at result (cond more (44 ∷ []) []) }
{
    if more {
        return buffer::put(out, at, b',');
    }
    at
}

fn put_closing(out: &mut [u8], at: usize, kind: u8) -> usize
    ensures { Put out.old out.new at result (closing kind) }
{
    if is_container(kind) {
        return buffer::put(out, at, b')');
    }
    at
}

// What it writes after them; whether more is due beside it.
pub fn put_after(out: &mut [u8], at: usize, spelling: Spelling, kind: u8, more: bool) -> usize
    ensures { Put out.old out.new at result (after_by spelling kind more) }
{
    match spelling {
        Spelling::Ari => put_comma(out, at, more),
        Spelling::TypeName => buffer::put(out, at, b'/'),
        Spelling::Value => put_closing(out, at, kind),
        Spelling::Label => put_closing(out, at, kind),
        Spelling::Namespace => buffer::put(out, at, b'/'),
        Spelling::ObjectNamespace => buffer::put(out, at, b'/'),
        Spelling::ObjectType => buffer::put(out, at, b'/'),
        Spelling::Parameters => buffer::put(out, at, b')'),
        Spelling::Key => buffer::put(out, at, b'='),
        Spelling::ObjectId => at,
        Spelling::Unspelled => at,
    }
}
