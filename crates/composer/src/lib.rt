// Orders composed at a field console: the message of a nonce and of targets that are given as texts. What is read, judged and handed over is the gate's.
#![tactic(auto)]

ghost use Rattle.std.specs.Prelude.{◌≡◌, true, ◌≤◌, ◌<◌, length};
ghost use Rattle.buffer.specs.Put.{Put};
ghost use Rattle.buffer.specs.Runs.{RunTo};
ghost use Rattle.ari.specs.Limits.{gate_limits, capped};
ghost use Rattle.ari.specs.Decode.{decode};
ghost use Rattle.ari.specs.Refusals.{refusal_of};
ghost use Rattle.text.specs.Answer.{lent};
ghost use Rattle.text_write.specs.Written.{written_of, room_after};
ghost use Rattle.answer_codes.specs.Code.{text_code};
ghost use Rattle.composer.specs.Compose.{nonce_of, in_range, finished, composed_by, compose};
ghost use Rattle.composer.specs.Code.{in_text, feed_of, feeds, InRange, is_object_at, opening, nonce_bytes, front_bytes, TakesText, PutsText, RestIs, gather_at, TargetsPut, OrderBuilt, Order};

use ari::{Fault, Limits, Refusal};
use text_write::Written;

// How a nonce is given.
const NULL: u64 = 0;

const NUMBER: u64 = 1;

const STRING: u64 = 2;

// The greatest number that a nonce may be.
const GREATEST: u64 = 9223372036854775807;

// A target in a room: so many bytes and items.
#[derive(Clone, Copy)]
pub struct Target {
    pub size: usize,
    pub count: usize,
}

// Why a text gives no target: it is no object reference, or the room is too short for its ARI.
#[derive(Clone, Copy)]
pub enum TextError {
    Other,
    TooLong,
}

// An order in a room: so many bytes and items.
#[derive(Clone, Copy)]
pub struct Built {
    pub size: usize,
    pub count: usize,
}

// Why no order is built: the text of this number is no object reference; or the room is too short, and the texts from a place on, the first of which
// has this number, were not looked at.
#[derive(Clone, Copy)]
pub enum BuildError {
    Wrong(usize),
    Over { at: usize, number: usize },
}

fn is_in_text(x: u8) -> bool
    ensures { result ≡ in_text x }
{
    x != b'\n'
}

// The place of the next line feed, or the end.
fn text_end(texts: &[u8], from: usize) -> usize
    requires { from ≤ length texts.now }
    ensures { RunTo in_text texts.now from result }
{
    for i in from..texts.len() {
        if !is_in_text(texts[i]) {
            return i;
        }
    }
    texts.len()
}

fn feed(x: u8) -> usize
    ensures value { result ≡ feed_of x }
    ensures upper_bound { result ≤ 1 }
{
    if x == b'\n' {
        return 1;
    }
    0
}

// The texts that are ended.
fn count_texts(texts: &[u8]) -> usize
    ensures { result ≡ feeds texts.now }
{
    let mut n = 0;
    for x in texts {
        n += feed(*x);
    }
    n
}

// A nonce that a message may have.
fn is_nonce(kind: u64, number: u64) -> bool
    ensures { InRange kind number result }
{
    if kind == NUMBER {
        return number <= GREATEST;
    }
    kind <= STRING
}

fn put_nonce(kind: u64, number: u64, nonce: &[u8], out: &mut [u8], at: usize) -> usize
    ensures { Put out.old out.new at result (nonce_bytes (nonce_of kind number nonce.now)) }
{
    if kind == NUMBER {
        return cbor::put_head(out, at, cbor::UNSIGNED, number);
    }
    if kind == STRING {
        let p = cbor::put_head(out, at, cbor::BYTES, nonce.len() as u64);
        return buffer::put_block(out, p, nonce);
    }
    cbor::put_head(out, at, cbor::SIMPLE, 22)
}

// The version, and the EXECSET's own head and type.
fn put_opening(out: &mut [u8]) -> usize
    ensures { Put out.old out.new 0 result opening }
{
    let a = cbor::put_head(out, 0, cbor::UNSIGNED, 1);
    let b = cbor::put_head(out, a, cbor::ARRAY, 2);
    cbor::put_head(out, b, cbor::UNSIGNED, 20)
}

// What stands before so many targets: the opening, the head of the nonce and them, the nonce.
fn put_front(kind: u64, number: u64, nonce: &[u8], many: usize, out: &mut [u8]) -> usize
    requires { many < 18446744073709551615 }
    ensures { Put out.old out.new 0 result (front_bytes (nonce_of kind number nonce.now) many) }
{
    let a = put_opening(out);
    let b = cbor::put_head(out, a, cbor::ARRAY, (1 + many) as u64);
    put_nonce(kind, number, nonce, out, b)
}

// An array of the length that object references have.
fn is_object(b: &[u8]) -> bool
    ensures { result ≡ is_object_at b.now }
{
    let cbor::Head::Good { kind, arg, .. } = cbor::head_again(b, 0) else {
        return false;
    };
    kind == cbor::ARRAY && 3 <= arg && arg <= 4
}

// A text without its line feed. Its ARI goes to the front of the room.
fn take_text(limits: Limits, t: &[u8], room: &mut [u8]) -> Result<Target, TextError>
    ensures { TakesText (capped limits) t.now room.old room.new result }
{
    match text_read::read_text_within(limits, t, room) {
        Ok(Written { length, count }) => {
            if is_object(room) {
                return Ok(Target {
                    size: length,
                    count,
                });
            }
            Err(TextError::Other)
        }
        Err(Refusal { fault, .. }) => {
            match fault {
                Fault::NoRoom => Err(TextError::TooLong),
                _ => Err(TextError::Other),
            }
        }
    }
}

// The same from a place in the room on.
fn put_text(limits: Limits, t: &[u8], room: &mut [u8], at: usize) -> Result<Target, TextError>
    requires { at ≤ length room.old }
    ensures { PutsText (capped limits) t.now room.old room.new at result }
{
    take_text(limits, t, &mut room[at..])
}

// The targets, one after the other as their texts are; `before` is the number of items in front of them.
fn put_targets(
    limits: Limits,
    texts: &[u8],
    room: &mut [u8],
    at: usize,
    before: usize,
) -> Result<Built, BuildError>
    requires { (at ≤ length room.old) × (before ≤ at) }
    ensures { TargetsPut (capped limits) texts.now room.old room.new at before result }
{
    let mut p = 0;
    let mut k = 0;
    let mut q = at;
    let mut n = before;
    while p < texts.len() {
        let e = text_end(texts, p);
        if e == texts.len() {
            return Err(BuildError::Wrong(k));
        }
        match put_text(limits, &texts[p..e], room, q) {
            Ok(Target { size, count }) => {
                q += size;
                n += count;
            }
            Err(TextError::Other) => return Err(BuildError::Wrong(k)),
            Err(TextError::TooLong) => return Err(BuildError::Over { at: p, number: k }),
        }
        p = e + 1;
        k += 1;
    }
    Ok(Built { size: q, count: n })
}

// The texts from a place on are read, each into the same room, which holds any ARI: the number of the first that is no object reference, if there is one.
fn rest_of(limits: Limits, texts: &[u8], at: usize, number: usize, room: &mut [u8]) -> Option<usize>
    requires { (at ≤ length texts.now) × (number ≤ at) × (gate_limits.bytes ≤ length room.old) }
    ensures { RestIs (gather_at (capped limits) texts.now at number) result }
{
    let mut p = at;
    let mut k = number;
    while p < texts.len() {
        let e = text_end(texts, p);
        if e == texts.len() {
            return Some(k);
        }
        let Ok(_) = take_text(limits, &texts[p..e], room) else {
            return Some(k);
        };
        p = e + 1;
        k += 1;
    }
    None
}

// A nonce but for the bytes of its string: what it is, and its number.
#[derive(Clone, Copy)]
struct Lead {
    kind: u64,
    number: u64,
}

// The items in front of the targets.
const FRONT_ITEMS: usize = 5;

// The order's bytes from front to back, each once. A room that the front fills, or that has no more bytes than there are targets, is too short.
fn build(
    limits: Limits,
    lead: Lead,
    nonce: &[u8],
    texts: &[u8],
    room: &mut [u8],
) -> Result<Built, BuildError>
    ensures { OrderBuilt (capped limits) (nonce_of lead.kind lead.number nonce.now) texts.now room.old room.new result }
{
    let many = count_texts(texts);
    if room.len() <= many {
        return Err(BuildError::Over { at: 0, number: 0 });
    }
    let q = put_front(lead.kind, lead.number, nonce, many, room);
    if room.len() <= q {
        return Err(BuildError::Over { at: 0, number: 0 });
    }
    put_targets(limits, texts, room, q, FRONT_ITEMS)
}

// The limits, of a finished order: its containers are judged by the gate's own check.
fn finish(limits: Limits, b: &[u8], count: usize, out: &mut [u8]) -> Result<Written, Refusal>
    requires { Order b.now count }
    ensures value { result ≡ written_of (lent (length out.old) (finished (capped limits) (decode b.now))) }
    ensures out_after { out.new ≡ room_after out.old (lent (length out.old) (finished (capped limits) (decode b.now))) }
{
    let most = ari::cap(limits);
    if most.bytes < b.len() {
        return Err(Refusal {
            fault: Fault::TooLong,
            place: 0,
        });
    }
    if most.items < count {
        return Err(Refusal {
            fault: Fault::TooManyItems,
            place: 0,
        });
    }
    match reader::check(ari::Input::Message, most, b) {
        Ok(items) => text_write::hand_over(b, items, out),
        Err(_) => Err(Refusal {
            fault: Fault::TooDeep,
            place: 0,
        }),
    }
}

// The text of this number is no object reference.
fn bad_text(number: usize) -> Refusal
    ensures { result ≡ refusal_of 24 number }
{
    Refusal {
        fault: Fault::BadText,
        place: number,
    }
}

// Through a scratch that holds any message. Of an order that it does not hold, the texts that are left are looked at all the same.
fn compose_long(
    limits: Limits,
    lead: Lead,
    nonce: &[u8],
    texts: &[u8],
    out: &mut [u8],
) -> Result<Written, Refusal>
    requires { in_range (nonce_of lead.kind lead.number nonce.now) ≡ true }
    ensures value { result ≡ written_of (lent (length out.old) (composed_by (capped limits) (nonce_of lead.kind lead.number nonce.now) (gather_at (capped limits) texts.now 0 0))) }
    ensures out_after { out.new ≡ room_after out.old (lent (length out.old) (composed_by (capped limits) (nonce_of lead.kind lead.number nonce.now) (gather_at (capped limits) texts.now 0 0))) }
{
    let mut scratch = [0u8; ari::BYTES + 1];
    match build(limits, lead, nonce, texts, &mut scratch) {
        Ok(Built { size, count }) => finish(limits, &scratch[0..size], count, out),
        Err(BuildError::Wrong(k)) => Err(bad_text(k)),
        Err(BuildError::Over { at, number: k }) => {
            match rest_of(limits, texts, at, k, &mut scratch) {
                Some(j) => Err(bad_text(j)),
                None => Err(Refusal {
                    fault: Fault::TooLong,
                    place: 0,
                }),
            }
        }
    }
}

// What is this short makes a short order, nearly always.
const SHORT: usize = 128;

// A short order, with little scratch to clear: should it fill that, it is composed as a long one.
fn compose_short(
    limits: Limits,
    lead: Lead,
    nonce: &[u8],
    texts: &[u8],
    out: &mut [u8],
) -> Result<Written, Refusal>
    requires { in_range (nonce_of lead.kind lead.number nonce.now) ≡ true }
    ensures value { result ≡ written_of (lent (length out.old) (composed_by (capped limits) (nonce_of lead.kind lead.number nonce.now) (gather_at (capped limits) texts.now 0 0))) }
    ensures out_after { out.new ≡ room_after out.old (lent (length out.old) (composed_by (capped limits) (nonce_of lead.kind lead.number nonce.now) (gather_at (capped limits) texts.now 0 0))) }
{
    let mut scratch = [0u8; 2 * SHORT];
    match build(limits, lead, nonce, texts, &mut scratch) {
        Ok(Built { size, count }) => finish(limits, &scratch[0..size], count, out),
        Err(BuildError::Wrong(k)) => Err(bad_text(k)),
        Err(BuildError::Over { .. }) => compose_long(limits, lead, nonce, texts, out),
    }
}

// The message of a nonce and of the object references that texts are, each text ended by a line feed, within these limits, none above the gate's own.
pub fn compose_within(
    limits: Limits,
    kind: u64,
    number: u64,
    nonce: &[u8],
    texts: &[u8],
    out: &mut [u8],
) -> Result<Written, Refusal>
    ensures value { result ≡ written_of (lent (length out.old) (compose (capped limits) (nonce_of kind number nonce.now) texts.now)) }
    ensures out_after { out.new ≡ room_after out.old (lent (length out.old) (compose (capped limits) (nonce_of kind number nonce.now) texts.now)) }
{
    if !is_nonce(kind, number) {
        return Err(Refusal {
            fault: Fault::Misplaced,
            place: 0,
        });
    }
    let lead = Lead { kind, number };
    if texts.len() < SHORT && nonce.len() < SHORT {
        return compose_short(limits, lead, nonce, texts, out);
    }
    compose_long(limits, lead, nonce, texts, out)
}

// The same within the gate's own limits.
pub fn compose(
    kind: u64,
    number: u64,
    nonce: &[u8],
    texts: &[u8],
    out: &mut [u8],
) -> Result<Written, Refusal>
    ensures value { result ≡ written_of (lent (length out.old) (compose gate_limits (nonce_of kind number nonce.now) texts.now)) }
    ensures out_after { out.new ≡ room_after out.old (lent (length out.old) (compose gate_limits (nonce_of kind number nonce.now) texts.now)) }
{
    compose_within(ari::LIMITS, kind, number, nonce, texts, out)
}

// The same with the answer as one number, as host/composer.h says; for C it is exported by `composer_c`.
pub fn composer_compose(kind: u64, number: u64, nonce: &[u8], texts: &[u8], out: &mut [u8]) -> u64
    ensures value { result ≡ text_code (written_of (lent (length out.old) (compose gate_limits (nonce_of kind number nonce.now) texts.now))) }
    ensures out_after { out.new ≡ room_after out.old (lent (length out.old) (compose gate_limits (nonce_of kind number nonce.now) texts.now)) }
{
    answer_codes::text_code(compose(kind, number, nonce, texts, out))
}
