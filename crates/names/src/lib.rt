// Names beside numbers: two lists of lines, each a namespace name, "=" and a number. A name without "!" is looked for in the published list, one with "!" in
// the subscriber's own.
#![tactic(auto)]

ghost use Rattle.std.specs.Prelude.{◌≡◌, ◌+◌, ◌/◌, ◌≤◌, min, length};
ghost use Rattle.buffer.specs.Runs.{RunTo};
ghost use Rattle.names.specs.Translated.{stands_by, renumbered, entry_translated, entries_translated};
ghost use Rattle.names.specs.Names.{other_than, lines, is_number, formed, matches, found, is_own, find_line, number_of, number_for, bad_from, wrong_of, check_names};

use listing::Namespace;

// Whether two lists have well-formed lines only: 19 has the first byte of the first that is not.
#[derive(Clone, Copy)]
pub enum Names {
    Passes,
    Refused { place: u64 },
}

// The place of the next byte of a kind, or the end.
fn up_to(t: &[u8], from: usize, stop: u8) -> usize
    requires { from ≤ length t.now }
    ensures { RunTo (other_than stop) t.now from result }
{
    for i in from..t.len() {
        if t[i] == stop {
            return i;
        }
    }
    t.len()
}

// The number of a line; None where there is no "=" or no number behind it.
pub fn number_of(line: &[u8]) -> Option<u64>
    ensures { result ≡ number_of line.now }
{
    let q = up_to(line, 0, b'=');
    let end = line.len();
    if q == end {
        return None;
    }
    buffer::signed(&line[q + 1..end])
}

fn is_number(n: Option<u64>) -> bool
    ensures { result ≡ is_number n }
{
    match n {
        Some(_) => true,
        None => false,
    }
}

// A line without its line feed is well-formed.
#[tactic(auto, using(crate::proofs::Lines::ill_named, crate::proofs::Lines::well_named))]
fn is_formed(line: &[u8]) -> bool
    ensures { result ≡ formed line.now }
{
    let q = up_to(line, 0, b'=');
    grammar::is_namespace_name(&line[..q]) && is_number(number_of(line))
}

// The names are compared first: most lines have another.
#[tactic(auto, using(crate::proofs::Lines::line_ways))]
fn is_match(line: &[u8], name: &[u8]) -> bool
    ensures { result ≡ matches name.now line.now }
{
    let q = up_to(line, 0, b'=');
    name_case::same_name(&line[..q], name) && is_formed(line)
}

// The first line of a list that matches a name, without its line feed; an empty part if none does.
#[tactic(auto, using(crate::proofs::Lines::search_ways))]
fn find_in<'a>(list: &'a [u8], name: &[u8]) -> &'a [u8]
    ensures { result.now ≡ found name.now (lines list.now) }
{
    let mut p = 0;
    while p < list.len() {
        let e = up_to(list, p, b'\n');
        if e == list.len() {
            return &list[e..e];
        }
        if is_match(&list[p..e], name) {
            return &list[p..e];
        }
        p = e + 1;
    }
    &list[0..0]
}

fn is_own(name: &[u8]) -> bool
    ensures { result ≡ is_own name.now }
{
    name.starts_with(b"!")
}

// The line that a name has, as a part of whichever list holds it.
#[tactic(auto, using(crate::proofs::Lines::search_ways))]
pub fn find_line<'a>(published: &'a [u8], own: &'a [u8], name: &[u8]) -> &'a [u8]
    ensures { result.now ≡ find_line published.now own.now name.now }
{
    if is_own(name) {
        find_in(own, name)
    } else {
        find_in(published, name)
    }
}

// The number that a name stands for.
pub fn number_for<'a>(published: &'a [u8], own: &'a [u8], name: &[u8]) -> Option<u64>
    ensures { result ≡ number_for published.now own.now name.now }
{
    number_of(find_line(published, own, name))
}

// The first byte of the first line of a list that is not well-formed.
#[tactic(auto, using(crate::proofs::Lines::check_ways))]
fn first_wrong(list: &[u8]) -> Option<usize>
    ensures { result ≡ wrong_of (bad_from 0 (lines list.now)) }
{
    let mut p = 0;
    while p < list.len() {
        let e = up_to(list, p, b'\n');
        if e == list.len() || !is_formed(&list[p..e]) {
            return Some(p);
        }
        p = e + 1;
    }
    None
}

// Test 19: each line of the two lists is well-formed.
#[tactic(auto, using(crate::proofs::Lines::check_ways))]
pub fn check_names(published: &[u8], own: &[u8]) -> Names
    ensures { result ≡ check_names published.now own.now }
{
    if let Some(place) = first_wrong(published) {
        return Names::Refused {
            place: place as u64,
        };
    }
    match first_wrong(own) {
        Some(place) => Names::Refused {
            place: (published.len() as u64).saturating_add(place as u64),
        },
        None => Names::Passes,
    }
}

// What a namespace that is listed of a message stands for: a number for itself, a name for the number of its line, or for no number.
pub fn stands_for<'a>(
    published: &'a [u8],
    own: &'a [u8],
    message: &[u8],
    namespace: Namespace,
) -> Namespace
    ensures { result ≡ stands_by published.now own.now message.now namespace }
{
    match namespace {
        Namespace::Number(word) => Namespace::Number(word),
        Namespace::Name { place, length } => {
            match number_for(published, own, listing::string_at(message, place)) {
                Some(word) => Namespace::Number(word),
                None => Namespace::Name { place, length },
            }
        }
        Namespace::Relative => Namespace::Relative,
    }
}

// Each entry of a listing is 24 bytes (R94): kind and word of its namespace behind its two ends.
const ENTRY: usize = 24;

// The kind of an entry whose namespace is a name, and of one whose namespace is a number.
const NAME: u64 = 1;

const NUMBER: u64 = 0;

fn renumber(number: Option<u64>, room: &mut [u8], at: usize)
    requires { at + 24 ≤ length room.old }
    ensures { room.new ≡ renumbered number room.old at }
{
    if let Some(word) = number {
        buffer::store8(room, at + 8, NUMBER);
        buffer::store8(room, at + 16, word);
    }
}

fn translate_entry<'a>(
    published: &'a [u8],
    own: &'a [u8],
    message: &[u8],
    room: &mut [u8],
    at: usize,
)
    requires { at + 24 ≤ length room.old }
    ensures { room.new ≡ entry_translated published.now own.now message.now room.old at }
{
    if buffer::load8(room, at + 8) == NAME {
        let place = buffer::load8(room, at + 16) as usize;
        let number = number_for(published, own, listing::string_at(message, place));
        renumber(number, room, at);
    }
}

// The first entries of a message's listing as bytes, each with what its namespace stands for in its place: so many, or as many as are there.
#[tactic(auto, using(crate::proofs::Translation::translations))]
pub fn translate_entries<'a>(
    published: &'a [u8],
    own: &'a [u8],
    message: &[u8],
    room: &mut [u8],
    many: usize,
)
    ensures { room.new ≡ entries_translated published.now own.now message.now 0 (min many (length room.old / 24)) room.old }
{
    for i in 0..many.min(room.len() / ENTRY) {
        translate_entry(published, own, message, room, ENTRY * i);
    }
}
