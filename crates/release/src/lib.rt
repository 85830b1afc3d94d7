// Release: whether a message may be handed on for a subscriber, by the grants that a table of bytes has for it and the numbers that two lists have for names.
#![tactic(auto)]

ghost use Rattle.std.specs.Prelude.{◌≡◌, ◌+◌, ◌<◌, ◌≤◌, min, length, true};
ghost use Rattle.std.specs.declared.result.Result.TheVariants.{Ok};
ghost use Rattle.ari.specs.declared.Input.TheVariants as input;
ghost use Rattle.ari.specs.Limits.{gate_limits, capped};
ghost use Rattle.item_table.specs.Entries.{Tabled};
ghost use Rattle.names.specs.Translated.{stands_by, translated};
ghost use Rattle.grants.specs.Bytes.{rows};
ghost use Rattle.release.specs.Compared.{judged_over, counted_bytes};
ghost use Rattle.release.specs.Rows.{sought_by, start_by, Other, Others, last_rows};

use ari::{Fault, Input, Limits, Refusal};
use listing::{Namespace, Reference};
use names::Names;

// Yes; or no with the number of the first listed entry that is not granted; each with the number of rows compared.
#[derive(Clone, Copy, PartialEq, Eq)]
pub enum Released {
    Yes { compared: u64 },
    No { entry: usize, compared: u64 },
}

// The row that grants the entry found last.
#[derive(Clone, Copy)]
struct LastRow {
    word: u64,
    place: usize,
}

// The number that a row must hold to grant what a namespace stands for. A name that has none or a relative one no row grants.
fn sought<'a>(published: &'a [u8], own: &'a [u8], s: &[u8], n: Namespace) -> Option<u64>
    ensures { result ≡ sought_by (stands_by published.now own.now s.now n) }
{
    match names::stands_for(published, own, s, n) {
        Namespace::Number(word) => Some(word),
        Namespace::Name { .. } | Namespace::Relative => None,
    }
}

// Where the search for a number's row starts: no row before the place of the number that was found last grants it, so for that one it is there already.
fn start(word: u64, last: Option<LastRow>) -> usize
    ensures { result ≡ start_by word last }
{
    match last {
        Some(row) if row.word == word => row.place,
        _ => 0,
    }
}

// The rows compared, with those for the entry found last. They are settled an entry later, so that LLVM carries no row counter through the rows' loop.
fn settled(compared: u64, last: Option<LastRow>) -> u64
    ensures { result ≡ min (compared + last_rows last) 18446744073709551615 }
{
    match last {
        Some(row) => compared.saturating_add((row.place / 16 + 1) as u64),
        None => compared,
    }
}

// A whole row stands at a place and is another subscriber's.
fn is_other(grants: &[u8], at: usize, subscriber: u64) -> bool
    ensures { result ≡ true → Other grants.now at subscriber }
{
    16 <= grants.len() && at <= grants.len() - 16 && buffer::load8(grants, at) != subscriber
}

// The bytes of rows from a place on that are other subscribers': most are, and four of them take one turn of the search.
fn others_from(grants: &[u8], at: usize, subscriber: u64) -> usize
    requires { at ≤ length grants.now }
    ensures { Others grants.now at subscriber result }
{
    if !is_other(grants, at, subscriber) {
        return 0;
    }
    if 64 <= grants.len() - at
        && is_other(grants, at + 16, subscriber)
        && is_other(grants, at + 32, subscriber)
        && is_other(grants, at + 48, subscriber)
    {
        return 64;
    }
    16
}

// Entries by rows. The search is left at the first entry that no row grants: a number to the subscriber, an unknown name or a relative one to nobody.
fn release_table<'a>(
    s: &[u8],
    limits: Limits,
    count: usize,
    entries: &[u64],
    grants: &[u8],
    published: &'a [u8],
    own: &'a [u8],
    subscriber: u64,
) -> Released
    requires { Tabled limits input.Message s.now count entries.now }
    ensures { Ok result ≡ judged_over (rows grants.now) subscriber (translated published.now own.now s.now) }
{
    let mut entry = 0;
    let mut compared = 0;
    let mut last = None;
    let mut held: Option<usize> = None;
    // Two nested loops in one function, the outer one left by its label: the form that docs/DECISIONS.md names for this search.
    'entries: for item in &entries[..count] {
        if let Reference::To { namespace, .. } = listing::reference_at(s, *item) {
            compared = settled(compared, last);
            let Some(word) = sought(published, own, s, namespace) else {
                held = Some(entry);
                break 'entries;
            };
            let mut at = start(word, last);
            'rows: loop {
                if grants.len() - at < 16 {
                    compared = compared.saturating_add((grants.len() / 16) as u64);
                    held = Some(entry);
                    break 'entries;
                }
                let others = others_from(grants, at, subscriber);
                if 0 < others {
                    at += others;
                } else if grants::holds_at(grants, at, subscriber, word) {
                    break 'rows;
                } else {
                    at += 16;
                }
            }
            last = Some(LastRow { word, place: at });
            entry += 1;
        }
    }
    if let Some(entry) = held {
        return Released::No { entry, compared };
    }
    Released::Yes {
        compared: settled(compared, last),
    }
}

#[tactic(auto, using(crate::proofs::Search::release_ragged))]
fn release_in<'a>(
    s: &[u8],
    limits: Limits,
    grants: &[u8],
    published: &'a [u8],
    own: &'a [u8],
    subscriber: u64,
    entries: &mut [u64],
) -> Result<Released, Refusal>
    requires { (min limits.items (length s.now) ≤ length entries.old) × (limits.bytes < 65536) × (limits.containers < 256) }
    ensures { result ≡ counted_bytes limits s.now grants.now published.now own.now subscriber }
{
    let count = reader::keep(Input::Message, limits, s, entries)?;
    if let Names::Refused { place } = names::check_names(published, own) {
        return Err(Refusal {
            fault: Fault::BadLine,
            place: place as usize,
        });
    }
    if grants.len() % 16 != 0 {
        return Err(Refusal {
            fault: Fault::Clash,
            place: grants.len() / 16,
        });
    }
    Ok(release_table(
        s, limits, count, entries, grants, published, own, subscriber,
    ))
}

// Whether a message within these limits, none above the gate's own, is released to a subscriber under a grant table as bytes and two lists of names.
pub fn release_within<'a>(
    limits: Limits,
    s: &[u8],
    grants: &[u8],
    published: &'a [u8],
    own: &'a [u8],
    subscriber: u64,
) -> Result<Released, Refusal>
    ensures { result ≡ counted_bytes (capped limits) s.now grants.now published.now own.now subscriber }
{
    let most = ari::cap(limits);
    // A message has no more items than bytes: a table of 128 serves a small one, and is cleared in a fraction of the time.
    if s.len() <= 128 {
        let mut entries = [0u64; 128];
        return release_in(s, most, grants, published, own, subscriber, &mut entries);
    }
    let mut entries = [0u64; ari::ITEMS];
    release_in(s, most, grants, published, own, subscriber, &mut entries)
}

// Whether a message is released to a subscriber.
pub fn release_message<'a>(
    s: &[u8],
    grants: &[u8],
    published: &'a [u8],
    own: &'a [u8],
    subscriber: u64,
) -> Result<Released, Refusal>
    ensures { result ≡ counted_bytes gate_limits s.now grants.now published.now own.now subscriber }
{
    release_within(ari::LIMITS, s, grants, published, own, subscriber)
}
