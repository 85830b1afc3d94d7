// A message without one of its targets or reports: what stands before its inner array's head, a new head, what stands up to the struck part, and
// what stands behind it.
#![tactic(auto)]

ghost use Rattle.std.specs.Prelude.{◌≡◌, ◌+◌, ◌<◌, ◌≤◌, min, length, drop};
ghost use Rattle.buffer.specs.Put.{Put};
ghost use Rattle.cbor.specs.Head.{array, head_bytes};
ghost use Rattle.ari.specs.declared.Input.TheVariants as input;
ghost use Rattle.ari.specs.Reader.{accept};
ghost use Rattle.ari.specs.Limits.{gate_limits, capped};
ghost use Rattle.ari.specs.Items.{spots_of};
ghost use Rattle.ari.specs.Decode.{decode};
ghost use Rattle.item_table.specs.Entries.{Tabled};
ghost use Rattle.strike.specs.Strike.{cut_of, struck_bytes, strike_by, strike, room_after};
ghost use Rattle.strike.specs.Code.{found_of, inner_after, below, copied, Ordered, Known};

use ari::{Fault, Input, Limits, Refusal};

// The items and bytes of the shorter message.
#[derive(Clone, Copy)]
pub struct Struck {
    pub items: usize,
    pub bytes: usize,
}

// The target or report of a number: its item, the place of the inner array around it, its ends.
#[derive(Clone, Copy)]
struct Found {
    index: usize,
    inner: usize,
    first: usize,
    after: usize,
}

// What lies directly in a set has one container around it: its type, and then its inner array.
const IN_SET: usize = 1;

fn inner_after(inner: usize, around: usize, first: usize) -> usize
    ensures { result ≡ inner_after inner around first }
{
    if around == IN_SET { first } else { inner }
}

// The target or report of a number, by the item table; or 27 with how many there are.
fn find(
    s: &[u8],
    limits: Limits,
    count: usize,
    entries: &[u64],
    number: usize,
) -> Result<Found, Refusal>
    requires { Tabled limits input.Message s.now count entries.now }
    ensures { result ≡ found_of (cut_of number s.now) }
{
    let mut passed = 0;
    let mut inner = 0;
    for k in 0..count {
        let x = item_table::item_of(entries[k]);
        if !item_records::is_target(x.slot) {
            inner = inner_after(inner, x.around, x.first);
            continue;
        }
        if passed == number {
            return Ok(Found {
                index: k,
                inner,
                first: x.first,
                after: x.after,
            });
        }
        passed += 1;
    }
    Err(Refusal {
        fault: Fault::NoSuchTarget,
        place: passed,
    })
}

// The item behind those that begin before a place, from one item on.
fn item_behind(
    s: &[u8],
    limits: Limits,
    count: usize,
    entries: &[u64],
    from: usize,
    place: usize,
) -> usize
    requires tabled { Tabled limits input.Message s.now count entries.now }
    requires from_le_count { from ≤ count }
    ensures { result ≡ from + below place (drop from (spots_of input.Message (decode s.now))) }
{
    for k in from..count {
        if place <= item_table::item_of(entries[k]).first {
            return k;
        }
    }
    count
}

// How many bytes the head of an array has, the shortest there is.
fn head_size(members: u64) -> usize
    ensures { result ≡ length (head_bytes array members) }
{
    match members {
        0..=23 => 1,
        24..=255 => 2,
        256..=65535 => 3,
        65536..=4294967295 => 5,
        _ => 9,
    }
}

// The message with a head of so many members in place of the inner array's, up to `next`, and without the part that was found.
fn put_struck(s: &[u8], next: usize, members: u64, found: Found, out: &mut [u8]) -> usize
    requires { Ordered s.now found.inner next found.first found.after }
    ensures { Put out.old out.new 0 result (copied s.now found.inner next members found.first found.after) }
{
    let a = buffer::put_block(out, 0, &s[..found.inner]);
    let b = cbor::put_head(out, a, cbor::ARRAY, members);
    let c = buffer::put_block(out, b, &s[next..found.first]);
    buffer::put_block(out, c, &s[found.after..])
}

// The message without the target or report that was found.
fn strike_found(
    s: &[u8],
    limits: Limits,
    count: usize,
    entries: &[u64],
    number: usize,
    found: Found,
    out: &mut [u8],
) -> Result<Struck, Refusal>
    requires { Known limits s.now entries.now number count found.index found.inner found.first found.after }
    ensures value { result ≡ strike_by (accept count) number s.now (length out.old) }
    ensures out_after { out.new ≡ room_after result (struck_bytes number s.now) out.old }
{
    let cbor::Head::Good { arg, next, .. } = cbor::head_again(s, found.inner) else {
        unreachable!()
    };
    let members = arg - 1;
    let bytes = found.inner + head_size(members) + (found.first - next) + (s.len() - found.after);
    if out.len() < bytes {
        return Err(Refusal {
            fault: Fault::NoRoom,
            place: bytes,
        });
    }
    put_struck(s, next, members, found, out);
    let behind = item_behind(s, limits, count, entries, found.index + 1, found.after);
    Ok(Struck {
        items: count - (behind - found.index),
        bytes,
    })
}

// In a table with room for the items.
fn strike_in(
    s: &[u8],
    limits: Limits,
    number: usize,
    out: &mut [u8],
    entries: &mut [u64],
) -> Result<Struck, Refusal>
    requires { (min limits.items (length s.now) ≤ length entries.old) × (limits.bytes < 65536) × (limits.containers < 256) }
    ensures value { result ≡ strike limits number s.now (length out.old) }
    ensures out_after { out.new ≡ room_after result (struck_bytes number s.now) out.old }
{
    let count = reader::keep(Input::Message, limits, s, entries)?;
    let found = find(s, limits, count, entries, number)?;
    strike_found(s, limits, count, entries, number, found, out)
}

// In a table of so many entries.
fn strike_by_table<const N: usize>(
    s: &[u8],
    limits: Limits,
    number: usize,
    out: &mut [u8],
) -> Result<Struck, Refusal>
    requires fits { N ≤ 4096 }
    requires s_in_bounds { (min limits.items (length s.now) ≤ N) × (limits.bytes < 65536) × (limits.containers < 256) }
    ensures value { result ≡ strike limits number s.now (length out.old) }
    ensures out_after { out.new ≡ room_after result (struck_bytes number s.now) out.old }
{
    let mut entries = [0u64; N];
    strike_in(s, limits, number, out, &mut entries)
}

// A message without its target or report of a number, in the lent room, within these limits, none above the gate's own; or the message's own refusal, 27
// with the count of targets and reports, or 16 with the bytes needed.
pub fn strike_within(
    limits: Limits,
    s: &[u8],
    number: usize,
    out: &mut [u8],
) -> Result<Struck, Refusal>
    ensures value { result ≡ strike (capped limits) number s.now (length out.old) }
    ensures out_after { out.new ≡ room_after result (struck_bytes number s.now) out.old }
{
    let most = ari::cap(limits);
    // A message has no more items than bytes, and a small table is cleared in a fraction of the time.
    if s.len() <= 128 {
        strike_by_table::<128>(s, most, number, out)
    } else {
        strike_by_table::<{ ari::ITEMS }>(s, most, number, out)
    }
}

// A message without its target or report of a number, in the lent room.
pub fn strike_message(s: &[u8], number: usize, out: &mut [u8]) -> Result<Struck, Refusal>
    ensures value { result ≡ strike gate_limits number s.now (length out.old) }
    ensures out_after { out.new ≡ room_after result (struck_bytes number s.now) out.old }
{
    strike_within(ari::LIMITS, s, number, out)
}
