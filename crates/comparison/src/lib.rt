// What differs between two messages: an entry for each position of a target or report. Nothing is copied: the two item tables are gone through side by side.
#![tactic(auto)]

ghost use Rattle.std.specs.Prelude.{◌≡◌, true, ◌++◌, suc, ◌*◌, ◌/◌, ◌<◌, ◌≤◌, min, max, length, drop};
ghost use Rattle.buffer.specs.Bytes.{be};
ghost use Rattle.buffer.specs.Put.{Put};
ghost use Rattle.ari.specs.Limits.{gate_limits, capped};
ghost use Rattle.item_table.specs.Entries.{item_of};
ghost use Rattle.comparison.specs.Comparison.{parts, entry_of, entry_bytes, entries_bytes, comparison, enough_for, compare_messages, room_after};
ghost use Rattle.comparison.specs.Code.{Table, is_target_word, targets_in, next_target, target_behind, Reached, Both, part_at, entry_at, without_items, difference_of, difference_bytes, is_different, tally_of};

use ari::{Fault, Input, Limits, Refusal};

// The entries written, and how many of them are not 'same'.
#[derive(Clone, Copy)]
pub struct Compared {
    pub different: usize,
    pub entries: usize,
}

// What an entry says of a position.
pub const SAME: u64 = 0;

pub const CHANGED: u64 = 1;

pub const ONLY_FIRST: u64 = 2;

pub const ONLY_SECOND: u64 = 3;

// The item's number where there is none.
pub const NO_ITEM: u64 = 18446744073709551615;

// The bytes of an entry.
pub const ENTRY: usize = 24;

// An entry: what it says, and of a changed target or report the numbers of the first two items that differ.
#[derive(Clone, Copy)]
struct Difference {
    what: u64,
    first: u64,
    second: u64,
}

fn is_target_word(entry: u64) -> bool
    ensures { result ≡ is_target_word entry }
{
    let x = item_table::item_of(entry);
    item_records::is_target(x.slot)
}

fn most(a: usize, b: usize) -> usize
    ensures { result ≡ max a b }
{
    if a < b {
        return b;
    }
    a
}

// How many targets and reports a table has.
fn count_targets(entries: &[u64]) -> usize
    ensures { result ≡ targets_in entries.now }
{
    let mut count = 0;
    let mut k = 0;
    while k < entries.len() {
        let x = entries[k];
        k += 1;
        if is_target_word(x) {
            count += 1;
        }
    }
    count
}

// The first target or report from item k on, or the end of the table.
fn next_target(entries: &[u64], from: usize) -> usize
    requires { from ≤ length entries.now }
    ensures { result ≡ next_target entries.now from }
{
    let mut k = from;
    while k < entries.len() {
        if is_target_word(entries[k]) {
            return k;
        }
        k += 1;
    }
    k
}

fn target_behind(entries: &[u64], k: usize) -> usize
    ensures { result ≡ target_behind entries.now k }
{
    if k < entries.len() {
        return next_target(entries, k + 1);
    }
    k
}

// One that has no items.
fn without_items(what: u64) -> Difference
    ensures { result ≡ without_items what }
{
    Difference {
        what,
        first: NO_ITEM,
        second: NO_ITEM,
    }
}

fn end_of(entry: u64) -> usize
    ensures { result ≡ (item_of entry).after }
{
    let x = item_table::item_of(entry);
    x.after
}

fn begins_at(entry: u64) -> usize
    ensures { result ≡ (item_of entry).first }
{
    let x = item_table::item_of(entry);
    x.first
}

// Two targets or reports. Items that are alike announce the same members, and a target and a report differ before either ends: so the second has an item
// wherever the first has one.
fn compare_at(a: &[u8], b: &[u8], xs: &[u64], ys: &[u64], i: usize, j: usize) -> Difference
    requires { Both a.now xs.now i b.now ys.now j }
    ensures { result ≡ difference_of (entry_of (part_at a.now i) (part_at b.now j)) }
{
    let end = end_of(xs[i]);
    let mut p = i;
    let mut q = j;
    while p < xs.len() {
        let x = xs[p];
        if end <= begins_at(x) {
            return without_items(SAME);
        }
        if !sameness::is_alike(a, x, b, ys[q]) {
            return Difference {
                what: CHANGED,
                first: p as u64,
                second: q as u64,
            };
        }
        p += 1;
        q += 1;
    }
    without_items(SAME)
}

// What is reached in both messages: two, or one of either.
fn entry_at(a: &[u8], b: &[u8], xs: &[u64], ys: &[u64], i: usize, j: usize) -> Difference
    requires table { Table a.now xs.now × Reached a.now xs.now i }
    requires table_2 { Table b.now ys.now × Reached b.now ys.now j }
    ensures { result ≡ difference_of (entry_at a.now xs.now i b.now ys.now j) }
{
    if i < xs.len() {
        if j < ys.len() {
            return compare_at(a, b, xs, ys, i, j);
        }
        return without_items(ONLY_FIRST);
    }
    without_items(ONLY_SECOND)
}

fn put_entry(out: &mut [u8], at: usize, e: Difference) -> usize
    ensures { Put out.old out.new at result (difference_bytes e) }
{
    let p = buffer::put8(out, at, e.what);
    let q = buffer::put8(out, p, e.first);
    buffer::put8(out, q, e.second)
}

fn is_different(e: Difference) -> usize
    ensures { result ≡ is_different e }
{
    if e.what == SAME {
        return 0;
    }
    1
}

// All entries, where there is room for them.
fn put_entries(a: &[u8], b: &[u8], xs: &[u64], ys: &[u64], out: &mut [u8]) -> Compared
    requires table { Table a.now xs.now × Table b.now ys.now }
    requires b_in_bounds { 24 * length (comparison a.now b.now) ≤ length out.old }
    ensures value { result ≡ tally_of (comparison a.now b.now) }
    ensures out_after { out.new ≡ entries_bytes (comparison a.now b.now) ++ drop (24 * length (comparison a.now b.now)) out.old }
{
    let mut i = next_target(xs, 0);
    let mut j = next_target(ys, 0);
    let mut p = 0;
    let mut different = 0;
    while i < xs.len() || j < ys.len() {
        let e = entry_at(a, b, xs, ys, i, j);
        p = put_entry(out, p, e);
        different += is_different(e);
        i = target_behind(xs, i);
        j = target_behind(ys, j);
    }
    Compared {
        different,
        entries: p / ENTRY,
    }
}

// Two accepted messages by their tables. Room for an entry for each item is surely enough: only for less are targets and reports counted before.
fn compare_tables(
    a: &[u8],
    b: &[u8],
    xs: &[u64],
    ys: &[u64],
    out: &mut [u8],
) -> Result<Compared, Refusal>
    requires { Table a.now xs.now × Table b.now ys.now }
    ensures value { result ≡ enough_for (comparison a.now b.now) (length out.old / 24) }
    ensures out_after { out.new ≡ room_after result (comparison a.now b.now) out.old }
{
    let room = out.len() / ENTRY;
    if most(xs.len(), ys.len()) <= room {
        return Ok(put_entries(a, b, xs, ys, out));
    }
    let entries = most(count_targets(xs), count_targets(ys));
    if room < entries {
        return Err(Refusal {
            fault: Fault::NoRoom,
            place: entries,
        });
    }
    Ok(put_entries(a, b, xs, ys, out))
}

// In two tables with room for the items.
fn compare_in(
    limits: Limits,
    a: &[u8],
    b: &[u8],
    out: &mut [u8],
    xs: &mut [u64],
    ys: &mut [u64],
) -> Result<Compared, Refusal>
    requires a_in_bounds { (min limits.items (length a.now) ≤ length xs.old) × (limits.bytes < 65536) × (limits.containers < 256) }
    requires b_in_bounds { min limits.items (length b.now) ≤ length ys.old }
    ensures value { result ≡ compare_messages limits a.now b.now (length out.old / 24) }
    ensures out_after { out.new ≡ room_after result (comparison a.now b.now) out.old }
{
    let count = reader::keep(Input::Message, limits, a, xs)?;
    let other = reader::keep(Input::Message, limits, b, ys)?;
    compare_tables(a, b, &xs[..count], &ys[..other], out)
}

// In tables of so many entries.
fn compare_by_tables<const N: usize>(
    limits: Limits,
    a: &[u8],
    b: &[u8],
    out: &mut [u8],
) -> Result<Compared, Refusal>
    requires fits { N ≤ 4096 }
    requires a_in_bounds { (min limits.items (length a.now) ≤ N) × (limits.bytes < 65536) × (limits.containers < 256) }
    requires b_in_bounds { min limits.items (length b.now) ≤ N }
    ensures value { result ≡ compare_messages limits a.now b.now (length out.old / 24) }
    ensures out_after { out.new ≡ room_after result (comparison a.now b.now) out.old }
{
    let mut xs = [0u64; N];
    let mut ys = [0u64; N];
    compare_in(limits, a, b, out, &mut xs, &mut ys)
}

// What differs between two messages within these limits, none above the gate's own: the entries go into the lent room. Or the first message's refusal, the
// second's, or 16 with the number of entries.
pub fn compare_within(
    limits: Limits,
    a: &[u8],
    b: &[u8],
    out: &mut [u8],
) -> Result<Compared, Refusal>
    ensures value { result ≡ compare_messages (capped limits) a.now b.now (length out.old / 24) }
    ensures out_after { out.new ≡ room_after result (comparison a.now b.now) out.old }
{
    let limit = ari::cap(limits);
    // Small tables are cleared in a fraction of the time.
    if a.len() <= 128 && b.len() <= 128 {
        compare_by_tables::<128>(limit, a, b, out)
    } else {
        compare_by_tables::<{ ari::ITEMS }>(limit, a, b, out)
    }
}

// What differs between two messages.
pub fn compare(a: &[u8], b: &[u8], out: &mut [u8]) -> Result<Compared, Refusal>
    ensures value { result ≡ compare_messages gate_limits a.now b.now (length out.old / 24) }
    ensures out_after { out.new ≡ room_after result (comparison a.now b.now) out.old }
{
    compare_within(ari::LIMITS, a, b, out)
}
