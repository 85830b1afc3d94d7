// Item k of an input: its record, read off the item table and the input's bytes.
#![tactic(auto)]

ghost use Rattle.std.specs.Prelude.{◌≡◌, ◌<◌, ◌≤◌, min, length};
ghost use Rattle.ari.specs.Limits.{gate_limits, capped};
ghost use Rattle.item_records.specs.Records.{literal_of, kind_of, kind_at, record_from, item_of};
ghost use Rattle.item_records.specs.Numbered.{is_target_by, passed_by, target_by, targets_to};

use ari::{Fault, Input, Limits, Refusal, Target};

// What is no container: a number (Negative(n) is -1 - n), a simple value, a float's bits or a string's length: specs/Values.antt.
#[derive(Clone, Copy)]
pub enum Literal {
    Unsigned(u64),
    Negative(u64),
    Bytes(u64),
    Text(u64),
    Simple(u64),
    Half(u64),
    Single(u64),
    Double(u64),
}

// A container that is no reference, with its length.
#[derive(Clone, Copy)]
pub enum Container {
    Array(u64),
    Map(u64),
}

// An item's kind with that kind's own data. A reference is an array: its length is 1, 3 or 4.
#[derive(Clone, Copy)]
pub enum Kind {
    Literal(Literal),
    Container(Container),
    Reference(u64),
}

// An item: its first byte, the byte after its last, the open containers around it, the target or report that it lies in, its kind.
#[derive(Clone, Copy)]
pub struct Record {
    pub first: usize,
    pub after: usize,
    pub around: usize,
    pub target: Target,
    pub kind: Kind,
}

// The targets and reports among an input's first items: how many, and where the last of them ends.
#[derive(Clone, Copy)]
pub struct Targets {
    pub count: u64,
    pub end: usize,
}

pub const NO_TARGETS: Targets = Targets { count: 0, end: 0 };

// An item with the count of all.
#[derive(Clone, Copy)]
pub struct Found {
    pub item: Record,
    pub count: usize,
}

// What a head of no container is.
fn literal_of(kind: u8, arg: u64) -> Literal
    ensures { result ≡ literal_of kind arg }
{
    match kind {
        cbor::UNSIGNED => Literal::Unsigned(arg),
        cbor::NEGATIVE => Literal::Negative(arg),
        cbor::BYTES => Literal::Bytes(arg),
        cbor::TEXT => Literal::Text(arg),
        cbor::HALF => Literal::Half(arg),
        cbor::SINGLE => Literal::Single(arg),
        cbor::DOUBLE => Literal::Double(arg),
        _ => Literal::Simple(arg),
    }
}

fn kind_of(reference: bool, kind: u8, arg: u64) -> Kind
    ensures { result ≡ kind_of reference kind arg }
{
    if reference {
        return Kind::Reference(arg);
    }
    match kind {
        cbor::ARRAY => Kind::Container(Container::Array(arg)),
        cbor::MAP => Kind::Container(Container::Map(arg)),
        _ => Kind::Literal(literal_of(kind, arg)),
    }
}

fn kind_at(slot: u64, h: cbor::Head) -> Kind
    ensures { result ≡ kind_at slot h }
{
    match h {
        cbor::Head::Good { kind, arg, .. } => kind_of(
            item_table::is_reference(slot, kind, arg),
            kind,
            arg,
        ),
        cbor::Head::Bad(_) => Kind::Literal(Literal::Simple(0)),
    }
}

// Whether a target or a report is due at a slot.
pub fn is_target(slot: u64) -> bool
    ensures { result ≡ is_target_by slot }
{
    slot == grammar::TARGET || slot == grammar::REPORT
}

// One item further.
pub fn pass(targets: Targets, entry: u64) -> Targets
    ensures { result ≡ passed_by targets entry }
{
    let x = item_table::item_of(entry);
    if is_target(x.slot) {
        return Targets {
            count: targets.count.saturating_add(1),
            end: x.after,
        };
    }
    targets
}

// The target or report of the item that was passed last: it lies in the last of them, if that one's end is not reached.
fn target_of(targets: Targets, first: usize) -> Target
    ensures { result ≡ target_by targets first }
{
    if targets.end <= first {
        Target::None
    } else {
        Target::Number(targets.count.saturating_sub(1))
    }
}

// The record of a word of the item table, with the targets and reports up to it.
pub fn record_of(s: &[u8], targets: Targets, entry: u64) -> Record
    ensures { result ≡ record_from s.now targets entry }
{
    let x = item_table::item_of(entry);
    Record {
        first: x.first,
        after: x.after,
        around: x.around,
        target: target_of(targets, x.first),
        kind: kind_at(x.slot, cbor::head_again(s, x.first)),
    }
}

// The targets and reports among a table's first items.
fn targets_to(entries: &[u64]) -> Targets
    ensures { result ≡ targets_to entries.now (length entries.now) }
{
    let mut targets = NO_TARGETS;
    for &entry in entries {
        targets = pass(targets, entry);
    }
    targets
}

// In a table with room for the items.
fn item_in(
    input: Input,
    limits: Limits,
    s: &[u8],
    k: usize,
    entries: &mut [u64],
) -> Result<Found, Refusal>
    requires { (min limits.items (length s.now) ≤ length entries.old) × (limits.bytes < 65536) × (limits.containers < 256) }
    ensures { result ≡ item_of limits input s.now k }
{
    let count = reader::keep(input, limits, s, entries)?;
    if count <= k {
        return Err(Refusal {
            fault: Fault::NoSuchNumber,
            place: count,
        });
    }
    let targets = targets_to(&entries[..k + 1]);
    Ok(Found {
        item: record_of(s, targets, entries[k]),
        count,
    })
}

// In a table of so many entries.
fn item_by_table<const N: usize>(
    input: Input,
    limits: Limits,
    s: &[u8],
    k: usize,
) -> Result<Found, Refusal>
    requires fits { N ≤ 4096 }
    requires s_in_bounds { (min limits.items (length s.now) ≤ N) × (limits.bytes < 65536) × (limits.containers < 256) }
    ensures { result ≡ item_of limits input s.now k }
{
    let mut entries = [0u64; N];
    item_in(input, limits, s, k, &mut entries)
}

// Item k of an input within these limits, none above the gate's own; or the input's own refusal, or 17 with the count.
pub fn item_within(input: Input, limits: Limits, s: &[u8], k: usize) -> Result<Found, Refusal>
    ensures { result ≡ item_of (capped limits) input s.now k }
{
    let most = ari::cap(limits);
    // An input has no more items than bytes, and a small table is cleared in a fraction of the time.
    if s.len() <= 128 {
        item_by_table::<128>(input, most, s, k)
    } else {
        item_by_table::<{ ari::ITEMS }>(input, most, s, k)
    }
}

// Item k of an input.
pub fn item(input: Input, s: &[u8], k: usize) -> Result<Found, Refusal>
    ensures { result ≡ item_of gate_limits input s.now k }
{
    item_within(input, ari::LIMITS, s, k)
}
