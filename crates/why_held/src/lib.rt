// Why a message is held: the listed entry that release names, the chain of containers from the outermost down to it, and the reason.
#![tactic(auto)]

ghost use Rattle.std.specs.Prelude.{◌≡◌, [], ◌++◌, ◌*◌, ◌<◌, ◌≤◌, min, length, take, drop, get_or, IfOk};
ghost use Rattle.std.specs.declared.result.Result.TheVariants.{Ok};
ghost use Rattle.ari.specs.declared.Input.TheVariants as input;
ghost use Rattle.ari.specs.Limits.{gate_limits, capped};
ghost use Rattle.buffer.specs.Put.{Put};
ghost use Rattle.ari.specs.Listing.{listing};
ghost use Rattle.item_table.specs.Entries.{Tabled};
ghost use Rattle.names.specs.Translated.{translated};
ghost use Rattle.release.specs.Release.{no};
ghost use Rattle.why_held.specs.Chain.{member_of, link_by};
ghost use Rattle.why_held.specs.Why.{no_entry, in_room, why_by, why, Few, link_bytes, links_bytes, answer_of, outcome_in, why_room};
ghost use Rattle.why_held.specs.Code.{slot_meaning_by, meaning_by, chain_by, reason_by, place_of, IsListed, IsHeld, written_by};

use ari::{Fault, Input, Limits, Refusal};
use listing::{Namespace, Reference};
use release::Released;

// What a container in the chain means.
pub const SET: u64 = 0; // one of a message's ARIs

pub const TYPED_VALUE: u64 = 1; // the value of a typed literal, as a set's inner array

pub const TARGET: u64 = 2;

pub const PARAMETERS: u64 = 3; // a parameter list or map

pub const PARAMETER: u64 = 4; // in a parameter list

pub const MAP_VALUE: u64 = 5; // in any map, a parameter map too

pub const REPORT: u64 = 6;

pub const REPORT_SOURCE: u64 = 7;

pub const REPORT_ITEM: u64 = 8;

pub const COLLECTION_MEMBER: u64 = 9;

const BY_AROUND: u64 = 10;

// Why an entry is not granted.
pub const NOT_GRANTED: u64 = 0; // its namespace is a number, or a name that stands for one, and no row grants it

pub const NAME_UNKNOWN: u64 = 1;

pub const RELATIVE: u64 = 2;

// The key of what is no map value.
pub const NO_KEY: u64 = 18446744073709551615;

// A link of the chain: its first byte, the byte after its last, what it means, and of a map value the place of its key's head.
#[derive(Clone, Copy)]
pub struct Link {
    pub first: usize,
    pub after: usize,
    pub meaning: u64,
    pub key: u64,
}

const NO_LINK: Link = Link {
    first: 0,
    after: 0,
    meaning: 0,
    key: NO_KEY,
};

// Released; or held, with the number of the entry, the reason and the number of links.
#[derive(Clone, Copy, PartialEq, Eq)]
pub enum Outcome {
    Released,
    Held {
        entry: usize,
        reason: u64,
        links: usize,
    },
}

// The outcome; in front of the room its links, the outermost first. No chain has more than containers may be open.
#[derive(Clone, Copy)]
pub struct Why {
    pub outcome: Outcome,
    pub links: [Link; ari::CONTAINERS],
}

// The bytes of a link.
pub const LINK: usize = 24;

// An ARI inside another: by the meaning of the container around it.
fn member_of(around: u64) -> u64
    ensures { result ≡ member_of around }
{
    if around == PARAMETERS {
        return PARAMETER;
    }
    if around == REPORT {
        return REPORT_ITEM;
    }
    COLLECTION_MEMBER
}

// What a container at a slot means, or that the one around it decides. Neighbours with one meaning stand in two arms, so that it is looked up.
fn slot_meaning(slot: u64) -> u64
    ensures { result ≡ slot_meaning_by slot }
{
    match slot {
        0 | 5 | 7 | 9 | 11 | 13 | 15 | 17 | 21 | 23 | 26 => COLLECTION_MEMBER, // no container stands there
        6 | 8 | 10 | 12 | 14 | 18 | 22 => COLLECTION_MEMBER,
        1 | 3 => BY_AROUND, // ari alone, inside
        4 => BY_AROUND, // ari param
        2 => SET, // ari message
        16 => PARAMETERS,
        19 => MAP_VALUE, // entry inside
        20 => MAP_VALUE, // entry param
        24 => TARGET,
        25 => REPORT,
        27 => REPORT_SOURCE,
        28
        | 30
        | 32
        | 34
        | 36
        | 38
        | 40
        | 42
        | 44
        | 46
        | 48
        | 50
        | 52
        | 54
        | 56
        | 58
        | 60
        | 62
        | 64
        | 66
        | 68
        | 70 => TYPED_VALUE,
        29
        | 31
        | 33
        | 35
        | 37
        | 39
        | 41
        | 43
        | 45
        | 47
        | 49
        | 51
        | 53
        | 55
        | 57
        | 59
        | 61
        | 63
        | 65
        | 67
        | 69
        | 71 => TYPED_VALUE,
        _ => COLLECTION_MEMBER,
    }
}

// What a container at a slot means, by that of the container around it.
fn meaning_of(around: u64, slot: u64) -> u64
    ensures { result ≡ meaning_by around slot }
{
    let m = slot_meaning(slot);
    if m == BY_AROUND {
        return member_of(around);
    }
    m
}

// A link, with the place of the item before it.
fn link_of(first: usize, after: usize, meaning: u64, before: usize) -> Link
    ensures { result ≡ link_by first after meaning before }
{
    if meaning == MAP_VALUE {
        return Link {
            first,
            after,
            meaning,
            key: before as u64,
        };
    }
    Link {
        first,
        after,
        meaning,
        key: NO_KEY,
    }
}

// The links of a chain so far.
#[derive(Clone, Copy)]
struct Chain {
    links: [Link; ari::CONTAINERS],
    count: usize,
}

// The chain down to a listed entry, by the item table.
fn chain_to(
    s: &[u8],
    limits: Limits,
    count: usize,
    entries: &[u64],
    first: usize,
    after: usize,
) -> Chain
    requires tabled { Tabled limits input.Message s.now count entries.now }
    requires containers_le_containers { limits.containers ≤ gate_limits.containers }
    requires listed { IsListed s.now first after }
    ensures { result ≡ chain_by s.now first after }
{
    let mut links = [NO_LINK; ari::CONTAINERS];
    let mut n = 0;
    let mut around = SET;
    let mut before = 0;
    let mut k = 0;
    while k < count {
        let x = item_table::item_of(entries[k]);
        let key = before;
        before = x.first;
        k += 1;
        if x.first <= first {
            if after <= x.after {
                around = meaning_of(around, x.slot);
                links[n] = link_of(x.first, x.after, around, key);
                n += 1;
            }
        }
    }
    Chain { links, count: n }
}

// A listed entry: its ends, and why it is not granted if it is not.
#[derive(Clone, Copy)]
struct Place {
    first: usize,
    after: usize,
    reason: u64,
}

fn reason_of(n: Namespace) -> u64
    ensures { result ≡ reason_by n }
{
    match n {
        Namespace::Number(_) => NOT_GRANTED,
        Namespace::Name { .. } => NAME_UNKNOWN,
        Namespace::Relative => RELATIVE,
    }
}

// The listed entry of a number, by the item table.
fn find<'a>(
    s: &[u8],
    limits: Limits,
    count: usize,
    entries: &[u64],
    published: &'a [u8],
    own: &'a [u8],
    entry: usize,
) -> Place
    requires tabled { Tabled limits input.Message s.now count entries.now }
    requires in_bounds { entry < length (listing s.now) }
    ensures { result ≡ place_of (get_or (translated published.now own.now s.now) entry no_entry) }
{
    let mut left = entry;
    let mut k = 0;
    while k < count {
        match listing::reference_at(s, entries[k]) {
            Reference::Nothing => k += 1,
            Reference::To {
                first,
                after,
                namespace,
            } => {
                if left == 0 {
                    let n = names::stands_for(published, own, s, namespace);
                    return Place {
                        first,
                        after,
                        reason: reason_of(n),
                    };
                }
                left -= 1;
                k += 1;
            }
        }
    }
    Place {
        first: 0,
        after: 0,
        reason: RELATIVE,
    }
}

// An entry that release names, with its chain, by the item table.
fn held_table<'a>(
    s: &[u8],
    limits: Limits,
    count: usize,
    entries: &[u64],
    published: &'a [u8],
    own: &'a [u8],
    entry: usize,
) -> Why
    requires tabled { Tabled limits input.Message s.now count entries.now }
    requires containers_le_containers { limits.containers ≤ gate_limits.containers }
    requires in_bounds { entry < length (listing s.now) }
    ensures value { Ok result ≡ why_by s.now published.now own.now (no entry) }
    ensures few { Few result }
{
    let at = find(s, limits, count, entries, published, own, entry);
    let c = chain_to(s, limits, count, entries, at.first, at.after);
    let links = c.links;
    Why {
        outcome: Outcome::Held {
            entry,
            reason: at.reason,
            links: c.count,
        },
        links,
    }
}

// An outcome without links.
fn without_links(outcome: Outcome) -> Why
    ensures outcome_value { result.outcome ≡ outcome }
    ensures links_value { result.links ≡ in_room [] }
{
    let links = [NO_LINK; ari::CONTAINERS];
    Why { outcome, links }
}

fn held_in<'a>(
    s: &[u8],
    limits: Limits,
    published: &'a [u8],
    own: &'a [u8],
    entry: usize,
    entries: &mut [u64],
) -> Result<Why, Refusal>
    requires s_in_bounds { (min limits.items (length s.now) ≤ length entries.old) × (limits.bytes < 65536) × (limits.containers < 256) }
    requires containers_le_containers { limits.containers ≤ gate_limits.containers }
    requires held { IsHeld limits s.now entry }
    ensures value { result ≡ why_by s.now published.now own.now (no entry) }
    ensures few { IfOk result Few }
{
    let count = reader::keep(Input::Message, limits, s, entries)?; // release has accepted it
    Ok(held_table(s, limits, count, entries, published, own, entry))
}

fn held<'a>(
    s: &[u8],
    limits: Limits,
    published: &'a [u8],
    own: &'a [u8],
    entry: usize,
) -> Result<Why, Refusal>
    requires bytes_le_bytes { (limits.bytes ≤ gate_limits.bytes) × (limits.items ≤ gate_limits.items) × (limits.containers ≤ gate_limits.containers) }
    requires held { IsHeld limits s.now entry }
    ensures value { result ≡ why_by s.now published.now own.now (no entry) }
    ensures few { IfOk result Few }
{
    // A message has no more items than bytes: a table of 128 serves a small one, and is cleared in a fraction of the time.
    if s.len() <= 128 {
        let mut entries = [0u64; 128];
        return held_in(s, limits, published, own, entry, &mut entries);
    }
    let mut entries = [0u64; ari::ITEMS];
    held_in(s, limits, published, own, entry, &mut entries)
}

// Why a message within these limits, none above the gate's own, is held.
pub fn why_within<'a>(
    limits: Limits,
    s: &[u8],
    grants: &[u8],
    published: &'a [u8],
    own: &'a [u8],
    subscriber: u64,
) -> Result<Why, Refusal>
    ensures value { result ≡ why (capped limits) s.now grants.now published.now own.now subscriber }
    ensures few { IfOk result Few }
{
    match release::release_within(limits, s, grants, published, own, subscriber)? {
        Released::Yes { .. } => Ok(without_links(Outcome::Released)),
        Released::No { entry, .. } => held(s, ari::cap(limits), published, own, entry),
    }
}

// Why a message is held.
pub fn why_message<'a>(
    s: &[u8],
    grants: &[u8],
    published: &'a [u8],
    own: &'a [u8],
    subscriber: u64,
) -> Result<Why, Refusal>
    ensures value { result ≡ why gate_limits s.now grants.now published.now own.now subscriber }
    ensures few { IfOk result Few }
{
    why_within(ari::LIMITS, s, grants, published, own, subscriber)
}

// The bytes of a link.
fn put_link(out: &mut [u8], at: usize, l: Link) -> usize
    ensures { Put out.old out.new at result (link_bytes l) }
{
    let a = buffer::put4(out, at, (l.first % 4294967296) as u32);
    let b = buffer::put4(out, a, (l.after % 4294967296) as u32);
    let c = buffer::put8(out, b, l.meaning);
    buffer::put8(out, c, l.key)
}

// The bytes of the first links, where there is room for them.
fn put_links(out: &mut [u8], links: [Link; ari::CONTAINERS], count: usize)
    requires { (count ≤ length links) × (24 * count ≤ length out.old) × (length links ≡ gate_limits.containers) }
    ensures { out.new ≡ links_bytes (take count links) ++ drop (24 * count) out.old }
{
    let mut at = 0;
    let mut i = 0;
    while i < count {
        let l = links[i];
        at = put_link(out, at, l);
        i += 1;
    }
}

// What an outcome with its links answers and writes in the lent room.
fn write_why(w: Why, out: &mut [u8]) -> Result<Outcome, Refusal>
    requires { Few w }
    ensures value { result ≡ outcome_in (Ok w.outcome) (length out.old) }
    ensures out_after { out.new ≡ written_by result w.links out.old }
{
    if let Outcome::Held { links, .. } = w.outcome {
        let need = links * LINK;
        if out.len() < need {
            return Err(Refusal {
                fault: Fault::NoRoom,
                place: need,
            });
        }
        let l = w.links;
        put_links(out, l, links);
    }
    Ok(w.outcome)
}

// Why a message within these limits is held, its links as bytes in the lent room; 16 with the bytes that they need, if it has fewer.
pub fn why_bytes_within<'a>(
    limits: Limits,
    s: &[u8],
    grants: &[u8],
    published: &'a [u8],
    own: &'a [u8],
    subscriber: u64,
    out: &mut [u8],
) -> Result<Outcome, Refusal>
    ensures value { result ≡ outcome_in (answer_of (why (capped limits) s.now grants.now published.now own.now subscriber)) (length out.old) }
    ensures out_after { out.new ≡ why_room (capped limits) s.now grants.now published.now own.now subscriber out.old }
{
    let w = why_within(limits, s, grants, published, own, subscriber)?;
    write_why(w, out)
}

pub fn why_bytes<'a>(
    s: &[u8],
    grants: &[u8],
    published: &'a [u8],
    own: &'a [u8],
    subscriber: u64,
    out: &mut [u8],
) -> Result<Outcome, Refusal>
    ensures value { result ≡ outcome_in (answer_of (why gate_limits s.now grants.now published.now own.now subscriber)) (length out.old) }
    ensures out_after { out.new ≡ why_room gate_limits s.now grants.now published.now own.now subscriber out.old }
{
    why_bytes_within(ari::LIMITS, s, grants, published, own, subscriber, out)
}
