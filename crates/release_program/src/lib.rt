// What `gate release` and `gate why` do: a message from standard input, judged under the grant table, the lists of names and the subscriber that the arguments
// name.
#![tactic(auto)]

use ari::{Input, Refusal};
use release::Released;
use std::env::Env;
use std::fs::Files;
use why_held::{Link, Outcome, Why};

// What is asked of the message.
#[derive(Clone, Copy)]
pub enum Asked {
    Release,
    Why,
}

fn show_compared(out: &mut [u8], at: usize, compared: u64) {
    let a = print::numbered(out, at, b"compared ", compared);
    let b = buffer::put(out, a, b'\n');
    print::flush(out, b);
}

fn show_no(s: &[u8], k: usize, compared: u64, room: &mut [u8], out: &mut [u8]) {
    let a = buffer::put_all(out, 0, b"no ");
    let b = print::field(out, a, k as u64);
    match listing::list_message(s, room) {
        Ok(_) => {
            if k < listing::ENTRIES {
                let c = print::entry(out, b, s, room, k * 24);
                show_compared(out, c, compared);
            }
        }
        Err(refusal) => print::refusal(out, refusal),
    }
}

fn show_released(s: &[u8], answer: Result<Released, Refusal>, room: &mut [u8], out: &mut [u8]) {
    match answer {
        Ok(Released::Yes { compared }) => {
            let a = buffer::put_all(out, 0, b"yes\n");
            show_compared(out, a, compared);
        }
        Ok(Released::No { entry, compared }) => show_no(s, entry, compared, room, out),
        Err(e) => print::refusal(out, e),
    }
}

fn put_ends(out: &mut [u8], at: usize, first: usize, after: usize) -> usize {
    let a = print::numbered(out, at, b"bytes ", first as u64);
    print::numbered(out, a, b" to ", after as u64)
}

// The text of a part of the message as a single ARI, or where it stands, if it has none. A text may be longer than the buffer for lines: it goes out by itself.
fn put_reference(
    s: &[u8],
    first: usize,
    after: usize,
    text: &mut [u8],
    out: &mut [u8],
    at: usize,
) -> usize {
    if s.len() < after {
        return put_ends(out, at, first, after);
    }
    if after < first {
        return put_ends(out, at, first, after);
    }
    match text_write::write_text(&s[first..after], text) {
        Ok(text_write::Written { length, .. }) => {
            print::flush(out, at);
            print::flush(text, length);
            0
        }
        Err(_) => put_ends(out, at, first, after),
    }
}

// A map's key, which ends where its value begins: its text without the scheme.
fn put_key(s: &[u8], key: u64, first: usize, text: &mut [u8], out: &mut [u8], at: usize) -> usize {
    let place = key as usize;
    if s.len() < first {
        return at;
    }
    if first < place {
        return at;
    }
    match text_write::write_text(&s[place..first], text) {
        Ok(text_write::Written { length, .. }) => {
            if length < 4 {
                return at;
            }
            if text.len() < length {
                return at;
            }
            print::flush(out, at);
            io::write_all(1, &text[4..length]);
            0
        }
        Err(_) => at,
    }
}

fn put_not_granted(out: &mut [u8], at: usize, words: &[u8], subscriber: u64) -> usize {
    let a = buffer::put_all(out, at, words);
    print::numbered(out, a, b" not granted to subscriber ", subscriber)
}

// Why a name's namespace is not granted: the number that it stands for, or the list that does not have it.
fn put_named<'a>(
    out: &mut [u8],
    at: usize,
    name: &[u8],
    published: &'a [u8],
    own: &'a [u8],
    subscriber: u64,
) -> usize {
    let a = buffer::put_all(out, at, b"namespace ");
    let b = buffer::put_all(out, a, name);
    match names::number_for(published, own, name) {
        Some(n) => {
            let c = buffer::put_all(out, b, b", number ");
            let d = print::integer(out, c, n);
            put_not_granted(out, d, b", is", subscriber)
        }
        None => {
            if 0 < name.len() && name[0] == b'!' {
                return buffer::put_all(out, b, b" is not in the own list");
            }
            buffer::put_all(out, b, b" is not in the published list")
        }
    }
}

// The reason, by the kind and the word that the listing has for the entry's namespace.
fn put_reason<'a>(
    out: &mut [u8],
    at: usize,
    s: &[u8],
    kind: u64,
    word: u64,
    published: &'a [u8],
    own: &'a [u8],
    subscriber: u64,
) -> usize {
    if kind == 1 {
        let name = listing::string_at(s, word as usize);
        return put_named(out, at, name, published, own, subscriber);
    }
    if kind == 2 {
        return buffer::put_all(out, at, b"relative, without a namespace");
    }
    let a = buffer::put_all(out, at, b"namespace ");
    let b = print::integer(out, a, word);
    put_not_granted(out, b, b" is", subscriber)
}

// What stands before a link: members of the container around it, and targets and reports up to it.
#[derive(Clone, Copy)]
struct Before {
    members: u64,
    targets: u64,
}

// By the words of the item table, for a link at a depth, in a container that begins at `from`.
fn count_before(entries: &[u64], depth: usize, from: usize, first: usize) -> Before {
    let mut members: u64 = 0;
    let mut targets = item_records::NO_TARGETS;
    for word in entries {
        let x = item_table::item_of(*word);
        if x.first <= first {
            targets = item_records::pass(targets, *word);
        }
        if x.around == depth && from <= x.first && x.first < first {
            members = members.saturating_add(1);
        }
    }
    Before {
        members,
        targets: targets.count,
    }
}

fn put_parameters(s: &[u8], first: usize, out: &mut [u8], at: usize) -> usize {
    match cbor::head_again(s, first) {
        cbor::Head::Good { kind, .. } => {
            if kind == cbor::MAP {
                return buffer::put_all(out, at, b"parameter map");
            }
            buffer::put_all(out, at, b"parameter list")
        }
        cbor::Head::Bad(_) => at,
    }
}

// What a link is. Members are counted from 0; a message's first is its version, a report's first two its time and source.
fn put_meaning(s: &[u8], l: Link, b: Before, text: &mut [u8], out: &mut [u8], at: usize) -> usize {
    let meaning = l.meaning;
    match meaning {
        0 => print::numbered(out, at, b"set ", b.members.saturating_sub(1)),
        1 => buffer::put_all(out, at, b"typed value"),
        2 => print::numbered(out, at, b"target ", b.targets.saturating_sub(1)),
        3 => put_parameters(s, l.first, out, at),
        4 => print::numbered(out, at, b"parameter ", b.members),
        5 => {
            let a = buffer::put_all(out, at, b"map value, key ");
            put_key(s, l.key, l.first, text, out, a)
        }
        6 => print::numbered(out, at, b"report ", b.targets.saturating_sub(1)),
        7 => buffer::put_all(out, at, b"report source"),
        8 => print::numbered(out, at, b"report item ", b.members.saturating_sub(2)),
        _ => print::numbered(out, at, b"collection member ", b.members),
    }
}

// The line of link i, whose container begins at `from`: further in than the one before.
fn put_line(
    s: &[u8],
    entries: &[u64],
    i: usize,
    from: usize,
    l: Link,
    text: &mut [u8],
    out: &mut [u8],
    at: usize,
) -> usize {
    let a = print::repeat(out, at, b"  ", i);
    let b = print::numbered(out, a, b"  byte ", l.first as u64);
    let c = buffer::put_all(out, b, b": ");
    let seen = count_before(entries, i, from, l.first);
    let d = put_meaning(s, l, seen, text, out, c);
    buffer::put(out, d, b'\n')
}

fn put_links(
    s: &[u8],
    entries: &[u64],
    links: &[Link],
    text: &mut [u8],
    out: &mut [u8],
    at: usize,
) -> usize {
    let mut p = at;
    let mut from = 0;
    for (i, link) in links.iter().enumerate() {
        p = put_line(s, entries, i, from, *link, text, out, p);
        from = link.first;
    }
    p
}

// The first line: the entry as its text, and the reason. The last link is the entry itself.
fn put_held(
    s: &[u8],
    entry: usize,
    l: Link,
    reason: &[u8],
    text: &mut [u8],
    out: &mut [u8],
) -> usize {
    let a = print::numbered(out, 0, b"held: entry ", entry as u64);
    let b = buffer::put_all(out, a, b", ");
    let c = put_reference(s, l.first, l.after, text, out, b);
    let d = buffer::put_all(out, c, b": ");
    let e = buffer::put_all(out, d, reason);
    buffer::put(out, e, b'\n')
}

// The entry with its reason, and the chain down to it. A held message is accepted: its items are there.
fn show_held(s: &[u8], entry: usize, links: &[Link], reason: &[u8], out: &mut [u8]) {
    let mut entries = [0u64; ari::ITEMS];
    let Ok(items) = reader::keep(Input::Message, ari::LIMITS, s, &mut entries) else {
        return;
    };
    let (Some(items), Some(last)) = (entries.get(..items), links.last()) else {
        return;
    };
    let mut text = [0u8; ari::TEXT];
    let a = put_held(s, entry, *last, reason, &mut text, out);
    let b = put_links(s, items, links, &mut text, out, a);
    print::flush(out, b);
}

// Why the entry is held, by the message's listing.
fn put_entry_reason<'a>(
    s: &[u8],
    entry: usize,
    published: &'a [u8],
    own: &'a [u8],
    subscriber: u64,
    room: &mut [u8],
    words: &mut [u8],
) -> usize {
    let _ = listing::list_message(s, room);
    if listing::ENTRIES <= entry {
        return 0;
    }
    let kind = buffer::load8(room, entry * 24 + 8);
    let word = buffer::load8(room, entry * 24 + 16);
    put_reason(words, 0, s, kind, word, published, own, subscriber)
}

// What is not held has no reason.
fn show_why<'a>(
    s: &[u8],
    answer: Result<Why, Refusal>,
    published: &'a [u8],
    own: &'a [u8],
    subscriber: u64,
    room: &mut [u8],
    out: &mut [u8],
) {
    match answer {
        Err(e) => print::refusal(out, e),
        Ok(w) => match w.outcome {
            Outcome::Released => {
                let a = buffer::put_all(out, 0, b"released\n");
                print::flush(out, a);
            }
            Outcome::Held { entry, links, .. } => {
                let mut words = io::buffer();
                let n = put_entry_reason(s, entry, published, own, subscriber, room, &mut words);
                let n = n.min(words.len());
                if let Some(links) = w.links.get(..links) {
                    show_held(s, entry, links, &words[..n], out);
                }
            }
        },
    }
}

fn judge<'a>(
    asked: Asked,
    s: &[u8],
    grants: &[u8],
    published: &'a [u8],
    own: &'a [u8],
    subscriber: u64,
) {
    let mut room = [0u8; listing::ROOM];
    let mut out = io::buffer();
    match asked {
        Asked::Release => {
            let answer = release::release_message(s, grants, published, own, subscriber);
            show_released(s, answer, &mut room, &mut out);
        }
        Asked::Why => {
            let answer = why_held::why_message(s, grants, published, own, subscriber);
            show_why(s, answer, published, own, subscriber, &mut room, &mut out);
        }
    }
}

// At most one byte past the limit is read.
fn judge_input<'a>(
    asked: Asked,
    grants: &[u8],
    published: &'a [u8],
    own: &'a [u8],
    subscriber: u64,
) {
    let mut input = [0u8; ari::BYTES + 1];
    let n = io::read_full(0, &mut input);
    judge(asked, &input[..n], grants, published, own, subscriber);
}

// The lists that the third and fourth argument name.
fn judge_own(
    rt: &(impl Env + Files),
    asked: Asked,
    grants: &[u8],
    published: &[u8],
    subscriber: u64,
    text: &mut [u8],
) {
    if let Some(size) = list_file::load_argument(rt, 4, text) {
        judge_input(asked, grants, published, &text[0..size], subscriber);
    }
}

fn judge_published(
    rt: &(impl Env + Files),
    asked: Asked,
    grants: &[u8],
    subscriber: u64,
    text: &mut [u8],
    own: &mut [u8],
) {
    if let Some(size) = list_file::load_argument(rt, 3, text) {
        judge_own(rt, asked, grants, &text[0..size], subscriber, own);
    }
}

fn judge_lists(rt: &(impl Env + Files), asked: Asked, grants: &[u8], subscriber: u64) {
    let mut text = list_file::buffer();
    let mut own = list_file::buffer();
    judge_published(rt, asked, grants, subscriber, &mut text, &mut own);
}

fn judge_rows(rt: &(impl Env + Files), asked: Asked, room: &[u8], rows: usize, subscriber: u64) {
    if room.len() / 16 < rows {
        return;
    }
    let size = rows * 16;
    judge_lists(rt, asked, &room[0..size], subscriber);
}

fn judge_file(
    rt: &(impl Env + Files),
    asked: Asked,
    path: &[u8],
    subscriber: u64,
    room: &mut [u8],
) {
    let Some(mut file) = input_file::open(rt, path) else {
        return;
    };
    if let Some(rows) = grant_file::load(&mut file, path, room) {
        judge_rows(rt, asked, room, rows, subscriber);
    }
}

fn judge_under(rt: &(impl Env + Files), asked: Asked, path: &[u8], subscriber: u64) {
    let mut room = grant_file::buffer();
    judge_file(rt, asked, path, subscriber, &mut room);
}

// The message, by its arguments.
pub fn run(rt: &(impl Env + Files), asked: Asked, usage: &[u8]) {
    if !arguments::is_given(rt, 2) || arguments::is_given(rt, 5) {
        io::write_all(2, usage);
        return;
    }
    match arguments::number(rt, 2) {
        Some(s) => {
            let mut path = io::buffer();
            match rt.arg(1, &mut path) {
                Ok(n) => judge_under(rt, asked, &path[..n], s),
                Err(_) => {
                    io::write_all(2, b"TABLE: File name too long\n");
                }
            }
        }
        None => {
            io::write_all(
                2,
                b"SUBSCRIBER is no number from 0 to 18446744073709551615\n",
            );
        }
    }
}
