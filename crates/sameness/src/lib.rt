// Whether two single ARIs are the same: item by item, heads of one kind and argument and the same strings, names without regard to case. Nothing is
// copied: the two item tables are gone through side by side.
#![tactic(auto)]

ghost use Rattle.std.specs.Prelude.{◌≡◌, ◌<◌, ◌≤◌, min, length};
ghost use Rattle.ari.specs.Limits.{gate_limits, capped};
ghost use Rattle.sameness.specs.Sameness.{sameness};
ghost use Rattle.sameness.specs.Code.{takes_name_by, same_head, has_string, same_string, alike_by, same_item_by, all_same_by};

use ari::{Input, Limits, Refusal};

// A namespace, an object type or an object id is due at a slot.
fn takes_name(slot: u64) -> bool
    ensures { result ≡ takes_name_by slot }
{
    grammar::NAMESPACE <= slot && slot <= grammar::OBJECT_ID_PARAMS
}

fn same_head(a: cbor::Head, b: cbor::Head) -> bool
    ensures { result ≡ same_head a b }
{
    match (a, b) {
        (
            cbor::Head::Good { kind, arg, .. },
            cbor::Head::Good {
                kind: other_kind,
                arg: other_arg,
                ..
            },
        ) => kind == other_kind && arg == other_arg,
        _ => false,
    }
}

fn has_string(a: cbor::Head) -> bool
    ensures { result ≡ has_string a }
{
    matches!(
        a,
        cbor::Head::Good {
            kind: cbor::BYTES..=cbor::TEXT,
            ..
        }
    )
}

fn same_string(slot: u64, a: &[u8], b: &[u8]) -> bool
    ensures { result ≡ same_string slot a.now b.now }
{
    if takes_name(slot) {
        name_case::same_name(a, b)
    } else {
        a == b
    }
}

// Whether two items are alike, each by its word of an item table: heads of one kind and argument, and the same strings as the first's slot has them.
pub fn is_alike(a: &[u8], x: u64, b: &[u8], y: u64) -> bool
    ensures { result ≡ alike_by a.now x b.now y }
{
    let p = item_table::item_of(x);
    let q = item_table::item_of(y);
    let h = cbor::head_again(a, p.first);
    if !same_head(h, cbor::head_again(b, q.first)) {
        return false;
    }
    if !has_string(h) {
        return true;
    }
    same_string(
        p.slot,
        listing::string_at(a, p.first),
        listing::string_at(b, q.first),
    )
}

fn is_same_item(a: &[u8], x: u64, b: &[u8], y: u64) -> bool
    ensures { result ≡ same_item_by a.now x b.now y }
{
    let p = item_table::item_of(x);
    let q = item_table::item_of(y);
    p.slot == q.slot && is_alike(a, x, b, y)
}

// Whether all items are the same of two ARIs that have as many, by their tables.
fn all_same(a: &[u8], b: &[u8], xs: &[u64], ys: &[u64]) -> bool
    ensures { result ≡ all_same_by a.now b.now xs.now ys.now }
{
    xs.iter().zip(ys).all(|(&x, &y)| is_same_item(a, x, b, y))
}

// In two tables with room for the items.
fn same_in(
    a: &[u8],
    b: &[u8],
    limits: Limits,
    xs: &mut [u64],
    ys: &mut [u64],
) -> Result<bool, Refusal>
    requires a_in_bounds { (min limits.items (length a.now) ≤ length xs.old) × (limits.bytes < 65536) × (limits.containers < 256) }
    requires b_in_bounds { min limits.items (length b.now) ≤ length ys.old }
    ensures { result ≡ sameness limits a.now b.now }
{
    let count = reader::keep(Input::Single, limits, a, xs)?;
    let other = reader::keep(Input::Single, limits, b, ys)?;
    if count != other {
        return Ok(false);
    }
    Ok(all_same(a, b, &xs[..count], &ys[..count]))
}

// In tables of so many entries.
fn same_by_tables<const N: usize>(a: &[u8], b: &[u8], limits: Limits) -> Result<bool, Refusal>
    requires fits { N ≤ 4096 }
    requires a_in_bounds { (min limits.items (length a.now) ≤ N) × (limits.bytes < 65536) × (limits.containers < 256) }
    requires b_in_bounds { min limits.items (length b.now) ≤ N }
    ensures { result ≡ sameness limits a.now b.now }
{
    let mut xs = [0u64; N];
    let mut ys = [0u64; N];
    same_in(a, b, limits, &mut xs, &mut ys)
}

// Whether two single ARIs within these limits, none above the gate's own, are the same; or the first's refusal, or the second's.
pub fn same_within(limits: Limits, a: &[u8], b: &[u8]) -> Result<bool, Refusal>
    ensures { result ≡ sameness (capped limits) a.now b.now }
{
    let most = ari::cap(limits);
    // Small tables are cleared in a fraction of the time.
    if a.len() <= 128 && b.len() <= 128 {
        same_by_tables::<128>(a, b, most)
    } else {
        same_by_tables::<{ ari::ITEMS }>(a, b, most)
    }
}

// Whether two single ARIs are the same.
pub fn same(a: &[u8], b: &[u8]) -> Result<bool, Refusal>
    ensures { result ≡ sameness gate_limits a.now b.now }
{
    same_within(ari::LIMITS, a, b)
}
