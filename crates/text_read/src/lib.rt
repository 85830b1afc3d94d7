// An ARI's text is read: one walk along the slots puts a candidate's bytes, which count only if they are an accepted ARI whose own text is the text that was read.
#![tactic(auto)]

ghost use Rattle.std.specs.Prelude.{◌≡◌, cond, ◌<◌, ◌≤◌, length, drop};
ghost use Rattle.ari.specs.Table.{due};
ghost use Rattle.ari.specs.Limits.{gate_limits, capped};
ghost use Rattle.ari.specs.Items.{encode};
ghost use Rattle.grammar.specs.Code.{slot_of};
ghost use Rattle.grammar.specs.Code.{IsSlot};
ghost use Rattle.reader.specs.Walks.{inside_level};
ghost use Rattle.buffer.specs.Put.{Put};
ghost use Rattle.text.specs.Parse.{level, parse, candidate};
ghost use Rattle.text.specs.Answer.{refused, output, write_text, checked, read_text, lent};
ghost use Rattle.text_write.specs.Written.{written_of, room_after};
ghost use Rattle.text_read.specs.Parsed.{Parsed, Begins, middle};

use ari::{Fault, Limits, Refusal};
use text_write::Written;

// Where a walk stands: in the text, and in the room that it puts bytes into.
#[derive(Clone, Copy)]
pub struct Pos {
    pub next: usize,
    pub end: usize,
}

// The members of a head at a slot.
#[cycle(read_inside_read_level)]
fn read_inside(
    t: &[u8],
    at: usize,
    items: usize,
    depth: usize,
    slot: u64,
    kind: u8,
    arg: u64,
    out: &mut [u8],
    end: usize,
) -> Pos
    requires { IsSlot slot × (at ≤ length t.now) }
    ensures { Parsed t.now (parse items depth (inside_level (slot_of slot) kind arg) (drop at t.now)) end out.old out.new result }
{
    if depth == 0 {
        return Pos { next: at, end };
    }
    let inner = grammar::inside(slot, kind, arg);
    match inner {
        grammar::Next::Done => Pos { next: at, end },
        grammar::Next::Due { slot: a, more: b } => read_level(
            t,
            at,
            items,
            depth - 1,
            a,
            b,
            out,
            end,
        ),
    }
}

// The items of a level from the slot on. Each puts a byte at least, so a full room ends the walk.
#[cycle(read_inside_read_level)]
fn read_level(
    t: &[u8],
    at: usize,
    items: usize,
    depth: usize,
    slot: u64,
    more: u64,
    out: &mut [u8],
    end: usize,
) -> Pos
    requires { IsSlot slot × (at ≤ length t.now) }
    ensures { Parsed t.now (level (parse items depth) items (due (slot_of slot) more) (drop at t.now)) end out.old out.new result }
{
    let mut p = at;
    let mut r = end;
    let mut place = slot;
    let mut left = more;
    for _turn in 0..items {
        if out.len() <= r {
            return Pos { next: p, end: r };
        }
        let x = text_read_item::take_item(t, p, place, out, r);
        let w = read_inside(t, x.next, items, depth, place, x.kind, x.arg, out, x.end);
        let n = grammar::next_slot(place, x.arg, left);
        let grammar::Next::Due { slot: a, more: b } = n else {
            let e = text_read_item::skip_after(t, w.next, x.spelling, x.kind, false);
            return Pos {
                next: e,
                end: w.end,
            };
        };
        p = text_read_item::skip_after(t, w.next, x.spelling, x.kind, true);
        r = w.end;
        place = a;
        left = b;
    }
    Pos { next: p, end: r }
}

// The bytes of `ari:`.
const SCHEME: usize = 4;

// Behind the scheme, which only a relative reference lacks.
fn begin(t: &[u8]) -> usize
    ensures { Begins t.now result }
{
    if t.len() == 0 {
        return 0;
    }
    if t[0] == b'.' {
        return 0;
    }
    text_read_item::skip(t, 0, SCHEME)
}

// The candidate's bytes, as many as there is room for.
fn put_candidate(limits: Limits, t: &[u8], out: &mut [u8]) -> usize
    ensures { Put out.old out.new 0 result (encode (candidate limits t.now)) }
{
    let p = begin(t);
    let w = read_level(
        t,
        p,
        limits.items,
        limits.containers,
        grammar::ARI_INSIDE,
        0,
        out,
        0,
    );
    w.end
}

// Bytes are handed over, if the text that was read is theirs; otherwise it is none: test 15.
fn hand_over_if(spelled: bool, b: &[u8], count: usize, out: &mut [u8]) -> Result<Written, Refusal>
    ensures value { result ≡ written_of (lent (length out.old) (cond spelled (output b.now count) (refused 15 0))) }
    ensures out_after { out.new ≡ room_after out.old (lent (length out.old) (cond spelled (output b.now count) (refused 15 0))) }
{
    if spelled {
        return text_write::hand_over(b, count, out);
    }
    Err(Refusal {
        fault: Fault::NoAri,
        place: 0,
    })
}

// Bytes are handed over, if they are an ARI whose text is t. The scratch has room for more than t: a longer text does not pass for it.
fn confirm(
    limits: Limits,
    t: &[u8],
    b: &[u8],
    scratch: &mut [u8],
    out: &mut [u8],
) -> Result<Written, Refusal>
    requires { length t.now < length scratch.old }
    ensures value { result ≡ written_of (lent (length out.old) (checked t.now b.now (write_text limits b.now))) }
    ensures out_after { out.new ≡ room_after out.old (lent (length out.old) (checked t.now b.now (write_text limits b.now))) }
{
    let Ok(Written { length, count }) = text_write::put_text(limits, b, scratch) else {
        return Err(Refusal {
            fault: Fault::NoAri,
            place: 0,
        });
    };
    let spelled = buffer::same(&scratch[0..length], t);
    hand_over_if(spelled, b, count, out)
}

// A text that is not too long. There is room for more bytes than an ARI may have: a longer candidate is refused, and so is what there is room for.
fn read_in(
    limits: Limits,
    t: &[u8],
    bytes: &mut [u8],
    scratch: &mut [u8],
    out: &mut [u8],
) -> Result<Written, Refusal>
    requires { (length t.now ≤ limits.text) × (limits.bytes < length bytes.old) × (length t.now < length scratch.old) }
    ensures value { result ≡ written_of (lent (length out.old) (read_text limits t.now)) }
    ensures out_after { out.new ≡ room_after out.old (lent (length out.old) (read_text limits t.now)) }
{
    let size = put_candidate(limits, t, bytes);
    confirm(limits, t, &bytes[0..size], scratch, out)
}

fn read_long(limits: Limits, t: &[u8], out: &mut [u8]) -> Result<Written, Refusal>
    requires { (length t.now ≤ limits.text) × (limits.bytes ≤ gate_limits.bytes) × (limits.text ≤ gate_limits.text) }
    ensures value { result ≡ written_of (lent (length out.old) (read_text limits t.now)) }
    ensures out_after { out.new ≡ room_after out.old (lent (length out.old) (read_text limits t.now)) }
{
    let mut bytes = [0u8; ari::BYTES + 1];
    let mut scratch = [0u8; ari::TEXT + 1];
    read_in(limits, t, &mut bytes, &mut scratch, out)
}

// A text of fewer bytes is one of middle length, and has less room to clear.
const MIDDLE: usize = 16384;

fn read_middle(limits: Limits, t: &[u8], out: &mut [u8]) -> Result<Written, Refusal>
    requires { (length t.now < middle) × (length t.now ≤ limits.text) × (limits.bytes ≤ gate_limits.bytes) }
    ensures value { result ≡ written_of (lent (length out.old) (read_text limits t.now)) }
    ensures out_after { out.new ≡ room_after out.old (lent (length out.old) (read_text limits t.now)) }
{
    let mut bytes = [0u8; ari::BYTES + 1];
    let mut scratch = [0u8; MIDDLE];
    read_in(limits, t, &mut bytes, &mut scratch, out)
}

// A text of fewer bytes is a short one.
const SHORT: usize = 128;

// Within limits of which none is above the gate's own. A short text has little room: should its candidate fill that, it is read as a longer one. A text
// that is too long is refused as its front is: by that call of itself this stays a function without the large rooms, as `text_write::write_capped` does.
fn read_capped(limits: Limits, t: &[u8], out: &mut [u8]) -> Result<Written, Refusal>
    requires { (limits.bytes ≤ gate_limits.bytes) × (limits.text ≤ gate_limits.text) }
    ensures value { result ≡ written_of (lent (length out.old) (read_text limits t.now)) }
    ensures out_after { out.new ≡ room_after out.old (lent (length out.old) (read_text limits t.now)) }
{
    let enough = limits.text + 1;
    if enough < t.len() {
        return read_capped(limits, &t[0..enough], out);
    }
    if limits.text < t.len() {
        return Err(Refusal {
            fault: Fault::TooLong,
            place: 0,
        });
    }
    if t.len() < SHORT {
        let mut bytes = [0u8; SHORT];
        let mut scratch = [0u8; SHORT];
        let size = put_candidate(limits, t, &mut bytes);
        if size < bytes.len() {
            return confirm(limits, t, &bytes[0..size], &mut scratch, out);
        }
        return read_middle(limits, t, out);
    }
    if t.len() < MIDDLE {
        return read_middle(limits, t, out);
    }
    read_long(limits, t, out)
}

// The binary form of the single ARI that a text is, within these limits, none above the gate's own.
pub fn read_text_within(limits: Limits, t: &[u8], out: &mut [u8]) -> Result<Written, Refusal>
    ensures value { result ≡ written_of (lent (length out.old) (read_text (capped limits) t.now)) }
    ensures out_after { out.new ≡ room_after out.old (lent (length out.old) (read_text (capped limits) t.now)) }
{
    let most = ari::cap(limits);
    read_capped(most, t, out)
}

// The binary form of the single ARI that a text is.
pub fn read_text(t: &[u8], out: &mut [u8]) -> Result<Written, Refusal>
    ensures value { result ≡ written_of (lent (length out.old) (read_text gate_limits t.now)) }
    ensures out_after { out.new ≡ room_after out.old (lent (length out.old) (read_text gate_limits t.now)) }
{
    read_text_within(ari::LIMITS, t, out)
}
