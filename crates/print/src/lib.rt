// What the programs write. Each writer puts its text into a lent buffer from a place on and answers the place behind it; what
// the buffer has no room for is left out.
#![tactic(auto)]

ghost use Rattle.std.specs.Prelude.{◌≡◌, ◌++◌, ◌-◌, min, max, length};
ghost use Rattle.buffer.specs.Put.{Put};
ghost use Rattle.buffer.specs.Decimal.{decimal};
ghost use Rattle.print.specs.Texts.{repeated, hex_of, negative_of, simple_of, literal_of, container_of, kind_of, target_of, numbers_of, line_of, refused_of, accepted_of, field_of};
ghost use Rattle.ari.specs.Refusals.{number_of};
ghost use Rattle.item_records.specs.Records.{record_from};
ghost use Rattle.print.specs.Items.{fresh_of, answer_line, Listed};
ghost use Rattle.print.specs.Integers.{integer_of};
ghost use Rattle.print.specs.Entries.{name_of, space_of, entry_line, entry_of};
ghost use Rattle.cbor.specs.Answer.{head_at};

use ari::Refusal;

// A text, so many times.
pub fn repeat(out: &mut [u8], at: usize, text: &[u8], times: usize) -> usize
    ensures { Put out.old out.new at result (repeated times text.now) }
{
    let mut p = at;
    for _ in 0..times {
        p = buffer::put_all(out, p, text);
    }
    p
}

// Lower case, zeros in front up to the width, from 1 to 16.
pub fn hex(out: &mut [u8], at: usize, n: u64, width: usize) -> usize
    ensures { Put out.old out.new at result (hex_of (min (max width 1) 16) n) }
{
    let mut digits = [0u8; 16];
    let k = io::hex(n, width, &mut digits);
    buffer::put_all(out, at, &digits[..k])
}

// The number -1 - n.
pub fn negative(out: &mut [u8], at: usize, n: u64) -> usize
    ensures { Put out.old out.new at result (negative_of n) }
{
    if n == u64::MAX {
        return buffer::put_all(out, at, b"-18446744073709551616");
    }
    let p = buffer::put(out, at, b'-');
    buffer::put_decimal(out, p, n + 1)
}

// A word and a number.
pub fn numbered(out: &mut [u8], at: usize, word: &[u8], n: u64) -> usize
    ensures { Put out.old out.new at result (word.now ++ decimal n) }
{
    let p = buffer::put_all(out, at, word);
    buffer::put_decimal(out, p, n)
}

// A word and a float's bits.
fn bits(out: &mut [u8], at: usize, word: &[u8], n: u64, width: usize) -> usize
    ensures { Put out.old out.new at result (word.now ++ hex_of (min (max width 1) 16) n) }
{
    let p = buffer::put_all(out, at, word);
    hex(out, p, n, width)
}

fn negated(out: &mut [u8], at: usize, word: &[u8], n: u64) -> usize
    ensures { Put out.old out.new at result (word.now ++ negative_of n) }
{
    let p = buffer::put_all(out, at, word);
    negative(out, p, n)
}

fn simple(out: &mut [u8], at: usize, n: u64) -> usize
    ensures { Put out.old out.new at result (simple_of n) }
{
    match n {
        20 => buffer::put_all(out, at, b"false"),
        21 => buffer::put_all(out, at, b"true"),
        22 => buffer::put_all(out, at, b"null"),
        23 => buffer::put_all(out, at, b"undefined"),
        _ => numbered(out, at, b"simple ", n),
    }
}

fn literal(out: &mut [u8], at: usize, l: item_records::Literal) -> usize
    ensures { Put out.old out.new at result (literal_of l) }
{
    match l {
        item_records::Literal::Unsigned(n) => numbered(out, at, b"unsigned ", n),
        item_records::Literal::Negative(n) => negated(out, at, b"negative ", n),
        item_records::Literal::Bytes(n) => numbered(out, at, b"bytes ", n),
        item_records::Literal::Text(n) => numbered(out, at, b"text ", n),
        item_records::Literal::Simple(n) => simple(out, at, n),
        item_records::Literal::Half(n) => bits(out, at, b"half ", n, 4),
        item_records::Literal::Single(n) => bits(out, at, b"single ", n, 8),
        item_records::Literal::Double(n) => bits(out, at, b"double ", n, 16),
    }
}

fn container(out: &mut [u8], at: usize, c: item_records::Container) -> usize
    ensures { Put out.old out.new at result (container_of c) }
{
    match c {
        item_records::Container::Array(n) => numbered(out, at, b"array ", n),
        item_records::Container::Map(n) => numbered(out, at, b"map ", n),
    }
}

// An item's kind and its data.
pub fn kind(out: &mut [u8], at: usize, k: item_records::Kind) -> usize
    ensures { Put out.old out.new at result (kind_of k) }
{
    match k {
        item_records::Kind::Literal(l) => literal(out, at, l),
        item_records::Kind::Container(c) => container(out, at, c),
        item_records::Kind::Reference(n) => numbered(out, at, b"reference ", n),
    }
}

// A number and a space.
pub fn field(out: &mut [u8], at: usize, n: u64) -> usize
    ensures { Put out.old out.new at result (field_of n) }
{
    let p = buffer::put_decimal(out, at, n);
    buffer::put(out, p, b' ')
}

// The number of a target or report, or a hyphen, and a space.
fn target_number(out: &mut [u8], at: usize, t: ari::Target) -> usize
    ensures { Put out.old out.new at result (target_of t) }
{
    match t {
        ari::Target::None => buffer::put_all(out, at, b"- "),
        ari::Target::Number(n) => field(out, at, n),
    }
}

// The numbers of an item's line.
fn numbers(out: &mut [u8], at: usize, k: usize, x: item_records::Record) -> usize
    ensures { Put out.old out.new at result (numbers_of k x) }
{
    let a = field(out, at, k as u64);
    let b = field(out, a, x.first as u64);
    let c = field(out, b, x.after as u64);
    let d = field(out, c, x.around as u64);
    target_number(out, d, x.target)
}

// An item's line: its number, first byte, byte after, containers around, target or report, kind. The indent stands before the kind, once for each
// container around.
pub fn item(out: &mut [u8], at: usize, k: usize, x: item_records::Record, indent: &[u8]) -> usize
    ensures { Put out.old out.new at result (line_of k x indent.now) }
{
    let a = numbers(out, at, k, x);
    let b = repeat(out, a, indent, x.around);
    let c = kind(out, b, x.kind);
    buffer::put(out, c, b'\n')
}

// The line of a refusal.
pub fn refused(out: &mut [u8], at: usize, refusal: Refusal) -> usize
    ensures { Put out.old out.new at result (refused_of (number_of refusal.fault) refusal.place) }
{
    let a = buffer::put_all(out, at, b"refused ");
    let b = field(out, a, refusal.fault.number() as u64);
    let c = buffer::put_decimal(out, b, refusal.place as u64);
    buffer::put(out, c, b'\n')
}

// The line of an acceptance.
pub fn accepted(out: &mut [u8], at: usize, count: usize) -> usize
    ensures { Put out.old out.new at result (accepted_of count) }
{
    let a = numbered(out, at, b"accepted ", count as u64);
    buffer::put(out, a, b'\n')
}

// Writes the part of the buffer before a place to standard output.
pub fn flush(out: &[u8], at: usize) -> bool {
    io::write_all(1, &out[..at.min(out.len())])
}

// The room that is kept for a line: no line of an item or an answer is longer.
const LINE: usize = 256;

// How many bytes are left from a place on.
fn left(out: &[u8], at: usize) -> usize
    ensures { result ≡ length out.now - at }
{
    out.len().saturating_sub(at)
}

// A place with room for a line: where too little is left, what stands there is written out first.
pub fn fresh_line(out: &[u8], at: usize) -> usize
    ensures { result ≡ fresh_of at (length out.now) }
{
    if LINE <= left(out, at) {
        return at;
    }
    flush(out, at);
    0
}

// The line of item k, by its word in the item table and the targets up to it.
fn item_line(
    out: &mut [u8],
    at: usize,
    s: &[u8],
    k: usize,
    targets: item_records::Targets,
    entry: u64,
    indent: &[u8],
) -> usize
    ensures { Put out.old out.new (fresh_of at (length out.old)) result (line_of k (record_from s.now targets entry) indent.now) }
{
    let p = fresh_line(out, at);
    let x = item_records::record_of(s, targets, entry);
    item(out, p, k, x, indent)
}

// The lines of the items of an input, by the words of its table.
pub fn items(out: &mut [u8], at: usize, s: &[u8], entries: &[u64], indent: &[u8]) -> usize
    ensures { Listed s.now entries.now indent.now out.old at (length entries.now) out.new result }
{
    let mut p = at;
    let mut targets = item_records::NO_TARGETS;
    for (k, &entry) in entries.iter().enumerate() {
        targets = item_records::pass(targets, entry);
        p = item_line(out, p, s, k, targets, entry, indent);
    }
    p
}

// The line of an answer.
pub fn answer(out: &mut [u8], at: usize, a: Result<usize, Refusal>) -> usize
    ensures { Put out.old out.new (fresh_of at (length out.old)) result (answer_line a) }
{
    let p = fresh_line(out, at);
    match a {
        Ok(n) => accepted(out, p, n),
        Err(refusal) => refused(out, p, refusal),
    }
}

// A two's complement in decimal.
pub fn integer(out: &mut [u8], at: usize, w: u64) -> usize
    ensures { Put out.old out.new at result (integer_of w) }
{
    if w < 9223372036854775808 {
        return buffer::put_decimal(out, at, w);
    }
    negative(out, at, 18446744073709551615 - w)
}

// The bytes of a name whose head is at a place.
fn name(out: &mut [u8], at: usize, s: &[u8], place: usize) -> usize
    ensures { Put out.old out.new at result (name_of s.now (head_at s.now place)) }
{
    let h = cbor::head_at(s, place);
    let cbor::Head::Good { arg, next, .. } = h else {
        return at;
    };
    let size = arg as usize;
    if s.len() < next {
        return at;
    }
    if s.len() - next < size {
        return at;
    }
    let end = next + size;
    buffer::put_all(out, at, &s[next..end])
}

// A namespace by an entry's kind and word: a number, a name as its text, a relative one as a full stop.
fn namespace(out: &mut [u8], at: usize, s: &[u8], kind: u64, w: u64) -> usize
    ensures { Put out.old out.new at result (space_of s.now kind w) }
{
    if kind == 1 {
        return name(out, at, s, w as usize);
    }
    if kind == 2 {
        return buffer::put(out, at, b'.');
    }
    integer(out, at, w)
}

// An entry's line by its three words.
fn line(out: &mut [u8], at: usize, s: &[u8], ends: u64, kind: u64, w: u64) -> usize
    ensures { Put out.old out.new at result (entry_line s.now ends kind w) }
{
    let a = field(out, at, ends / 4294967296);
    let b = field(out, a, ends % 4294967296);
    let c = namespace(out, b, s, kind, w);
    buffer::put(out, c, b'\n')
}

// An entry of a listing, its 24 bytes from a place on: first byte, byte after, namespace, and a line end.
pub fn entry(out: &mut [u8], at: usize, s: &[u8], listing: &[u8], from: usize) -> usize
    ensures { Put out.old out.new at result (entry_of s.now listing.now from) }
{
    if listing.len() < 24 {
        return at;
    }
    if listing.len() - 24 < from {
        return at;
    }
    let ends = buffer::load8(listing, from);
    let kind = buffer::load8(listing, from + 8);
    let w = buffer::load8(listing, from + 16);
    line(out, at, s, ends, kind, w)
}

// The lines of a listing's first entries.
fn entries(out: &mut [u8], at: usize, s: &[u8], listing: &[u8], listed: usize) -> usize {
    let mut p = at;
    for bytes in listing.chunks_exact(24).take(listed) {
        p = fresh_line(out, p);
        p = entry(out, p, s, bytes, 0);
    }
    p
}

fn counted(out: &mut [u8], at: usize, word: &[u8], n: usize) -> usize {
    let a = fresh_line(out, at);
    let b = numbered(out, a, word, n as u64);
    buffer::put(out, b, b'\n')
}

// Writes a message's listing to standard output: how many references it has, a line for each, and its items.
pub fn references(out: &mut [u8], s: &[u8], listing: &[u8], listed: usize, count: usize) {
    let a = counted(out, 0, b"refs ", listed);
    let b = entries(out, a, s, listing, listed);
    let c = counted(out, b, b"items ", count);
    flush(out, c);
}

// Writes a refusal to standard output.
pub fn refusal(out: &mut [u8], refusal: Refusal) {
    let p = refused(out, 0, refusal);
    flush(out, p);
}

// The same for a program that lends no buffer.
pub fn send_refusal(refused: Refusal) {
    let mut out = io::buffer();
    refusal(&mut out, refused);
}
