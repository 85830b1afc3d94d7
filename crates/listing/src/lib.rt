// The listing of a message, read off the table of its references and the message's bytes; and a reference by a word of either table.
#![tactic(auto)]

ghost use Rattle.std.specs.Prelude.{◌≡◌, ◌++◌, ◌+◌, ◌*◌, ◌/◌, ◌^◌, ◌<◌, ◌≤◌, min, length, drop};
ghost use Rattle.std.proofs.lemmas.List.Edits.{sets};
ghost use Rattle.buffer.specs.Bytes.{be};
ghost use Rattle.cbor.specs.Answer.{head_at};
ghost use Rattle.ari.specs.declared.Input.TheVariants as input;
ghost use Rattle.ari.specs.Reader.{accept};
ghost use Rattle.ari.specs.Limits.{gate_limits, capped};
ghost use Rattle.ari.specs.Listing.{listing};
ghost use Rattle.item_table.specs.References.{Referenced};
ghost use Rattle.listing.specs.Bytes.{listing_bytes};
ghost use Rattle.listing.specs.Answers.{listed_of, list_of, written_by, written_of};
ghost use Rattle.listing.specs.Entries.{namespace_of, reference_from, string_in};
ghost use Rattle.listing.specs.Codes.{kind_code, word_code, entry_code};

use ari::{Fault, Input, Limits, Refusal};

// How many entries a message has, and its item count.
#[derive(Clone, Copy)]
pub struct Listed {
    pub listed: usize,
    pub count: usize,
}

// The most entries of a listing: a reference takes two items at least (ari, proofs/ListingBound.antt). An entry has 24 bytes.
pub const ENTRIES: usize = ari::ITEMS / 2;

pub const ROOM: usize = ENTRIES * 24;

// The words of the largest table of references.
const REFERENCES: usize = ENTRIES + 1;

// A namespace: a number in two's complement; a name, by the place of its head and its length; relative.
#[derive(Clone, Copy)]
pub enum Namespace {
    Number(u64),
    Name { place: usize, length: u64 },
    Relative,
}

// What a word of the item table stands for: no reference; or one, with its ends and its namespace.
#[derive(Clone, Copy)]
pub enum Reference {
    Nothing,
    To {
        first: usize,
        after: usize,
        namespace: Namespace,
    },
}

// The namespace whose head stands at a place.
fn namespace_at(s: &[u8], at: usize) -> Namespace
    ensures { result ≡ namespace_of at (head_at s.now at) }
{
    let h = cbor::head_again(s, at);
    let cbor::Head::Good { kind, arg, next: _ } = h else {
        return Namespace::Relative;
    };
    match kind {
        0 => Namespace::Number(arg),
        1 => Namespace::Number(18446744073709551615 - arg),
        3 => Namespace::Name {
            place: at,
            length: arg,
        },
        _ => Namespace::Relative,
    }
}

// The string whose head stands at a place, as far as it is there: a name's bytes.
pub fn string_at<'a>(s: &'a [u8], at: usize) -> &'a [u8]
    ensures { result.now ≡ string_in s.now at }
{
    let h = cbor::head_again(s, at);
    let cbor::Head::Good { kind: _, arg, next } = h else {
        return &s[0..0];
    };
    let end = s.len();
    let size = arg as usize;
    if end - next < size {
        return &s[next..end];
    }
    &s[next..next + size]
}

// The reference that a word of the item table stands for. Its namespace's head stands behind its own.
pub fn reference_at(s: &[u8], entry: u64) -> Reference
    ensures { result ≡ reference_from s.now entry }
{
    let head = item_table::head_of(entry);
    if head == 0 {
        return Reference::Nothing;
    }
    let x = item_table::item_of(entry);
    let namespace = namespace_at(s, x.first + head);
    Reference::To {
        first: x.first,
        after: x.after,
        namespace,
    }
}

// A namespace's two numbers in an entry.
impl Namespace {
    fn kind(self) -> u64
        ensures { result ≡ kind_code self }
    {
        match self {
            Namespace::Number(_) => 0,
            Namespace::Name { .. } => 1,
            Namespace::Relative => 2,
        }
    }

    fn word(self) -> u64
        ensures { result ≡ word_code self }
    {
        match self {
            Namespace::Number(word) => word,
            Namespace::Name { place, .. } => place as u64,
            Namespace::Relative => 0,
        }
    }
}

// The three numbers of an entry, in a part of known length: the tests of room fall away.
fn put_numbers(out: &mut [u8], at: usize, ends: u64, kind: u64, word: u64)
    requires { at + 24 ≤ length out.old }
    ensures { out.new ≡ sets out.old at (be 8 ends ++ (be 8 kind ++ be 8 word)) }
{
    let entry = &mut out[at..at + 24];
    buffer::store8(entry, 0, ends);
    buffer::store8(entry, 8, kind);
    buffer::store8(entry, 16, word);
}

// The 24 bytes of an entry; its two ends are one number.
fn put_entry(out: &mut [u8], at: usize, first: usize, after: usize, namespace: Namespace)
    requires { (at + 24 ≤ length out.old) × (first < 65536) × (after < 65536) }
    ensures { out.new ≡ sets out.old at (entry_code first after namespace) }
{
    let ends = first as u64 * 4294967296 + after as u64;
    put_numbers(out, at, ends, namespace.kind(), namespace.word());
}

// The entries of a table of references, where there is room for them.
fn write_entries(s: &[u8], limits: Limits, count: usize, references: &[u64], out: &mut [u8])
    requires referenced { Referenced limits input.Message s.now count references.now }
    requires s_in_bounds { 24 * length (listing s.now) ≤ length out.old }
    ensures { out.new ≡ listing_bytes (listing s.now) ++ drop (24 * length (listing s.now)) out.old }
{
    let listed = references[0] as usize;
    let mut at = 0;
    for &word in &references[1..1 + listed] {
        let x = item_table::item_of(word);
        let size = item_table::head_of(word);
        let namespace = namespace_at(s, x.first + size);
        put_entry(out, at, x.first, x.after, namespace);
        at += 24;
    }
}

// What a table's message answers, and its entries, where there is room for them.
fn list_table(
    s: &[u8],
    limits: Limits,
    count: usize,
    references: &[u64],
    out: &mut [u8],
) -> Result<Listed, Refusal>
    requires { Referenced limits input.Message s.now count references.now }
    ensures value { result ≡ listed_of (accept count) (listing s.now) (length out.old / 24) }
    ensures out_after { out.new ≡ written_by result (listing s.now) out.old }
{
    let listed = references[0] as usize;
    if out.len() / 24 < listed {
        return Err(Refusal {
            fault: Fault::NoRoom,
            place: listed,
        });
    }
    write_entries(s, limits, count, references, out);
    Ok(Listed { listed, count })
}

fn list_in(
    s: &[u8],
    limits: Limits,
    out: &mut [u8],
    references: &mut [u64],
) -> Result<Listed, Refusal>
    requires { (min limits.items (length s.now) < 2 * length references.old) × (limits.bytes < 65536) × (limits.containers < 256) }
    ensures value { result ≡ list_of limits s.now out.old }
    ensures out_after { out.new ≡ written_of limits s.now out.old }
{
    let count = reader::keep_references(Input::Message, limits, s, references)?;
    list_table(s, limits, count, references, out)
}

// A message has no more items than bytes, and at most half as many references: tables of 65 and of 513 words serve small ones, and are cleared in a
// fraction of the time.
fn list_sized<const WORDS: usize>(
    s: &[u8],
    limits: Limits,
    out: &mut [u8],
) -> Result<Listed, Refusal>
    requires words_bound { (WORDS < 65536) × (min limits.items (length s.now) < 2 * WORDS) }
    requires limits_bound { (limits.bytes < 65536) × (limits.containers < 256) }
    ensures value { result ≡ list_of limits s.now out.old }
    ensures out_after { out.new ≡ written_of limits s.now out.old }
{
    let mut references = [0u64; WORDS];
    list_in(s, limits, out, &mut references)
}

// The listing of a message within these limits, none above the gate's own, in the lent room.
pub fn list_within(limits: Limits, s: &[u8], out: &mut [u8]) -> Result<Listed, Refusal>
    ensures value { result ≡ list_of (capped limits) s.now out.old }
    ensures out_after { out.new ≡ written_of (capped limits) s.now out.old }
{
    let most = ari::cap(limits);
    if s.len() <= 128 {
        return list_sized::<65>(s, most, out);
    }
    if s.len() <= 1024 {
        return list_sized::<513>(s, most, out);
    }
    list_sized::<REFERENCES>(s, most, out)
}

// The listing of a message. It does not go through `list_within`: a function with two callers stays one of its own, so that a small message makes no room
// on the stack for the largest table.
pub fn list_message(s: &[u8], out: &mut [u8]) -> Result<Listed, Refusal>
    ensures value { result ≡ list_of gate_limits s.now out.old }
    ensures out_after { out.new ≡ written_of gate_limits s.now out.old }
{
    if s.len() <= 128 {
        return list_sized::<65>(s, ari::LIMITS, out);
    }
    if s.len() <= 1024 {
        return list_sized::<513>(s, ari::LIMITS, out);
    }
    list_sized::<REFERENCES>(s, ari::LIMITS, out)
}
