// The grant table as a lent slice of grant structs: what it grants, its check, and release.
// The functions over the slice are thin: what is decided is decided by functions on plain numbers.
#![tactic(auto)]

ghost use Rattle.std.specs.Prelude.{◌≡◌, ◌*◌, ◌/◌, ◌<◌, ◌≤◌, length, take};
ghost use Rattle.std.specs.declared.result.Result.TheVariants.{Ok};
ghost use Rattle.ari.specs.Limits.{gate_limits, capped};
ghost use Rattle.ari.specs.Listing.{number};
ghost use Rattle.ari.specs.Signed.{signed};
ghost use Rattle.grants.specs.Grants.{clash, holds, granted, check};
ghost use Rattle.grants.specs.Verdict.{check_of};
ghost use Rattle.release.specs.Compared.{counted, counted_rows};
ghost use Rattle.grant_structs.specs.Structs.{row_by, grant_of, grants, meets_by, first_row, compared_by, found_at, wanted_at, rows_for, judged_counted, held_at, Decides};

use ari::{Fault, Limits, Refusal};
use listing::Listed;
use names::Names;
use release::Released;

// A grant: a subscriber and a namespace number.
#[derive(Clone, Copy)]
pub struct Grant {
    pub subscriber: u64,
    pub namespace: i64,
}

// The row (a, b) holds both numbers.
fn holds_both(a: u64, b: i64, subscriber: u64, namespace: i64) -> bool
    ensures { result ≡ holds subscriber namespace (row_by a b) }
{
    if a != subscriber {
        return false;
    }
    b == namespace
}

// The row (a, b) is another subscriber's, in the same negative namespace.
fn clashes(a: u64, b: i64, subscriber: u64, namespace: i64) -> bool
    ensures { result ≡ clash (row_by subscriber namespace) (row_by a b) }
{
    if a == subscriber {
        return false;
    }
    if namespace < 0 {
        return b == namespace;
    }
    false
}

// A row against g: whether it clashes, or else whether it holds both of g's numbers.
fn meets(clash: bool, row: Grant, g: Grant) -> bool
    ensures { result ≡ meets_by clash (grant_of g) (grant_of row) }
{
    if clash {
        clashes(row.subscriber, row.namespace, g.subscriber, g.namespace)
    } else {
        holds_both(row.subscriber, row.namespace, g.subscriber, g.namespace)
    }
}

// The first row below m that meets g, or m if none does.
fn first_row(t: &[Grant], m: usize, clash: bool, g: Grant) -> usize
    requires { m ≤ length t.now }
    ensures { result ≡ first_row (meets_by clash (grant_of g)) (grants (take m t.now)) }
{
    let mut i = 0;
    'rows: while i < m {
        if meets(clash, t[i], g) {
            break 'rows;
        }
        i += 1;
    }
    i
}

// Some row holds both.
pub fn granted(t: &[Grant], subscriber: u64, namespace: i64) -> bool
    ensures { result ≡ granted (grants t.now) subscriber (number namespace) }
{
    let n = t.len();
    let g = Grant {
        subscriber,
        namespace,
    };
    first_row(t, n, false, g) < n
}

// What a search over so many rows tells that ended at a row.
fn verdict(row: usize, rows: usize) -> Result<(), Refusal>
    ensures { check_of result ≡ found_at row rows }
{
    if row < rows {
        Err(Refusal {
            fault: Fault::Clash,
            place: row,
        })
    } else {
        Ok(())
    }
}

// The first row with a partner among the rows before it.
pub fn check_grants(t: &[Grant]) -> Result<(), Refusal>
    ensures { check_of result ≡ check (grants t.now) }
{
    let n = t.len();
    let mut i = 0;
    'rows: while i < n {
        if first_row(t, i, true, t[i]) < i {
            break 'rows;
        }
        i += 1;
    }
    verdict(i, n)
}

// Two's complement, as a number.
fn number_of(w: u64) -> i64
    ensures { result ≡ signed w }
{
    if w < 9223372036854775808 {
        return w as i64;
    }
    -1 - (18446744073709551615 - w) as i64
}

// Each entry of a listing is 24 bytes (R94), and a message has at most half as many entries as items.
const ENTRY: usize = 24;

const ROOM: usize = ENTRY * (ari::ITEMS / 2);

// The kind of an entry whose namespace is a number.
const NUMBER: u64 = 0;

// The row that grants entry i of a listing to the subscriber who asks, if its namespace is a number.
fn wanted(list: &[u8], i: usize, asker: u64) -> Grant
    requires { i < length list.now / 24 }
    ensures { result ≡ wanted_at list.now i asker }
{
    let namespace = number_of(buffer::load8(list, ENTRY * i + 16));
    Grant {
        subscriber: asker,
        namespace,
    }
}

// How many of n rows are looked through for entry i: a name without a line or a relative reference is granted by none.
fn rows_for(list: &[u8], i: usize, n: usize) -> usize
    requires { i < length list.now / 24 }
    ensures { result ≡ rows_for list.now i n }
{
    if buffer::load8(list, ENTRY * i + 8) == NUMBER {
        return n;
    }
    0
}

// How many rows a search over n rows compared that ended at a row: that one too, or all if it ended past them.
fn compared_rows(row: usize, n: usize) -> u64
    ensures { result ≡ compared_by row n }
{
    if row < n {
        return (row + 1) as u64;
    }
    n as u64
}

// What a search over so many entries tells that ended at an entry, with the rows compared for them.
fn judged(entry: usize, entries: usize, compared: u64) -> Released
    ensures { Ok result ≡ counted (held_at entry entries) compared }
{
    if entry < entries {
        Released::No { entry, compared }
    } else {
        Released::Yes { compared }
    }
}

// The first n entries by rows: the search is left at the first that is not granted, whose rows are counted too.
fn release_entries(list: &[u8], n: usize, t: &[Grant], subscriber: u64) -> Released
    requires { n ≤ length list.now / 24 }
    ensures { Ok result ≡ judged_counted (grants t.now) subscriber list.now n }
{
    let mut compared = 0;
    let mut i = 0;
    'entries: while i < n {
        let rows = rows_for(list, i, t.len());
        let row = first_row(t, rows, false, wanted(list, i, subscriber));
        compared = buffer::saturating_add(compared, compared_rows(row, rows));
        if row >= rows {
            break 'entries;
        }
        i += 1;
    }
    judged(i, n, compared)
}

// How many entries a message's listing in lent room has, a name that has a line by its number, so that it decides as the message does under the two lists. The
// message's refusal comes before theirs.
fn listed_in<'a>(
    limits: Limits,
    message: &'a [u8],
    published: &'a [u8],
    own: &'a [u8],
    room: &mut [u8],
) -> Result<usize, Refusal>
    requires { 24 * 2048 ≤ length room.old }
    ensures { Decides (capped limits) message.now published.now own.now result room.new }
{
    let Listed { listed, .. } = listing::list_within(limits, message, room)?;
    match names::check_names(published, own) {
        Names::Refused { place } => Err(Refusal {
            fault: Fault::BadLine,
            place: place as usize,
        }),
        Names::Passes => {
            names::translate_entries(published, own, message, room, listed);
            Ok(listed)
        }
    }
}

// Whether a message within these limits, none above the gate's own, is released to a subscriber under two lists of names, and how many rows were compared.
// Message and lists share a lifetime: the walk then has two, theirs and the table's.
pub fn release_grants_within<'a>(
    limits: Limits,
    message: &'a [u8],
    t: &[Grant],
    published: &'a [u8],
    own: &'a [u8],
    subscriber: u64,
) -> Result<Released, Refusal>
    ensures { result ≡ counted_rows (capped limits) message.now (grants t.now) published.now own.now subscriber }
{
    let mut room = [0u8; ROOM];
    let listed = listed_in(limits, message, published, own, &mut room)?;
    Ok(release_entries(&room, listed, t, subscriber))
}

// Whether a message is released to a subscriber, and how many rows were compared.
pub fn release_grants<'a>(
    message: &'a [u8],
    t: &[Grant],
    published: &'a [u8],
    own: &'a [u8],
    subscriber: u64,
) -> Result<Released, Refusal>
    ensures { result ≡ counted_rows gate_limits message.now (grants t.now) published.now own.now subscriber }
{
    release_grants_within(ari::LIMITS, message, t, published, own, subscriber)
}

// What a table answers to the three questions.
#[derive(Clone, Copy)]
pub struct Answers {
    pub check: Result<(), Refusal>,
    pub granted: bool,
    pub release: Result<Released, Refusal>,
}

// The three of a table of four rows by value, for a caller that is covered, as a program's main: the array is lent. A shorter table repeats a row.
pub fn ask_four<'a>(
    message: &'a [u8],
    t: [Grant; 4],
    published: &'a [u8],
    own: &'a [u8],
    subscriber: u64,
    namespace: i64,
) -> Answers
    ensures { (check_of result.check ≡ check (grants t)) × (result.granted ≡ granted (grants t) subscriber (number namespace)) × (result.release ≡ counted_rows gate_limits message.now (grants t) published.now own.now subscriber) }
{
    let rows: &[Grant] = &t;
    Answers {
        check: check_grants(rows),
        granted: granted(rows, subscriber, namespace),
        release: release_grants(message, rows, published, own, subscriber),
    }
}
