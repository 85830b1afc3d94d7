// An ARI's text: one walk over an accepted ARI, which puts what each head writes before its members and after them.
#![tactic(auto)]

ghost use Rattle.std.specs.Prelude.{◌≡◌, true, false, ◌&&◌, pred, ◌≤◌, min, length, eqb};
ghost use Rattle.buffer.specs.Bytes.{all, is_byte};
ghost use Rattle.cbor.specs.Head.{is_container};
ghost use Rattle.ari.specs.Table.{due};
ghost use Rattle.grammar.specs.Code.{slot_of};
ghost use Rattle.grammar.specs.Code.{IsSlot};
ghost use Rattle.buffer.specs.Bytes.{part};
ghost use Rattle.reader.specs.Walks.{inside_level};
ghost use Rattle.buffer.specs.Put.{Put};
ghost use Rattle.text_write_item.specs.Spellings.{spelling_at, before_by, after_by};
ghost use Rattle.text_write.specs.Walks.{ItemAt, Writes};
ghost use Rattle.ari.specs.Limits.{gate_limits, capped};
ghost use Rattle.ari.specs.declared.Input.TheVariants.{Single};
ghost use Rattle.ari.specs.Rules.{Is};
ghost use Rattle.ari.specs.Decode.{decode};
ghost use Rattle.text.specs.Answer.{output, write_text, lent, cut, longest};
ghost use Rattle.text_write.specs.Forms.{set_by, member_by, outer_of, is_whole, FloatAt};
ghost use Rattle.text_write.specs.Written.{written_of, room_after, spelling_of, scheme_of, WritesWhole, small};

use ari::{Fault, Input, Limits, Refusal};

// A head with the place of its string.
#[derive(Clone, Copy)]
pub struct Item {
    pub kind: u8,
    pub arg: u64,
    pub from: usize,
    pub to: usize,
}

// Where a walk stands: in the input, and in the room that it writes into.
#[derive(Clone, Copy)]
pub struct Pos {
    pub next: usize,
    pub end: usize,
}

// The item at a place, if its head may stand there.
fn take_item(s: &[u8], at: usize, slot: u64, depth: usize) -> Option<Item>
    ensures { ItemAt s.now at slot depth result }
{
    let h = cbor::head_again(s, at);
    let cbor::Head::Good { kind, arg, next } = h else {
        return None;
    };
    if reader::is_too_deep(kind, depth) {
        return None;
    }
    let end = reader::string_end(s, kind, arg, next)?;
    Some(Item {
        kind,
        arg,
        from: next,
        to: end,
    })
}

// What a head writes, before its members and after them; the slot's spelling is looked up once for both.
fn write_before(
    s: &[u8],
    slot: u64,
    spelling: text_write_item::Spelling,
    kind: u8,
    arg: u64,
    from: usize,
    to: usize,
    out: &mut [u8],
    at: usize,
) -> usize
    requires { (spelling ≡ spelling_at slot) × (from ≤ to) × (to ≤ length s.now) }
    ensures { Put out.old out.new at result (before_by (spelling_at slot) kind arg (part s.now from to)) }
{
    text_write_item::put_before(out, at, spelling, kind, arg, &s[from..to])
}

fn write_after(
    slot: u64,
    spelling: text_write_item::Spelling,
    kind: u8,
    more: bool,
    out: &mut [u8],
    at: usize,
) -> usize
    requires { spelling ≡ spelling_at slot }
    ensures { Put out.old out.new at result (after_by (spelling_at slot) kind more) }
{
    text_write_item::put_after(out, at, spelling, kind, more)
}

// The members of a head at a slot.
#[cycle(write_inside_write_level)]
fn write_inside(
    s: &[u8],
    at: usize,
    depth: usize,
    slot: u64,
    kind: u8,
    arg: u64,
    out: &mut [u8],
    end: usize,
) -> Pos
    requires { IsSlot slot × (at ≤ length s.now) × ((is_container kind && eqb depth 0) ≡ false) }
    ensures { Writes s.now (inside_level (slot_of slot) kind arg) (pred depth) at end result out.old out.new }
{
    let inner = grammar::inside(slot, kind, arg);
    match inner {
        grammar::Next::Done => Pos { next: at, end },
        grammar::Next::Due { slot: a, more: b } => write_level(s, at, depth - 1, a, b, out, end),
    }
}

// The items of a level from the slot on. No `for`: what is due next is known only behind an item.
#[cycle(write_inside_write_level)]
fn write_level(
    s: &[u8],
    at: usize,
    depth: usize,
    slot: u64,
    more: u64,
    out: &mut [u8],
    end: usize,
) -> Pos
    requires { IsSlot slot × (at ≤ length s.now) }
    ensures { Writes s.now (due (slot_of slot) more) depth at end result out.old out.new }
{
    let mut p = at;
    let mut r = end;
    let mut place = slot;
    let mut left = more;
    loop {
        let spelling = text_write_item::spelling_of(place);
        let t = take_item(s, p, place, depth);
        let Some(
            Item {
                kind,
                arg,
                from,
                to,
            },
        ) = t
        else {
            return Pos { next: p, end: r };
        };
        let q = write_before(s, place, spelling, kind, arg, from, to, out, r);
        let w = write_inside(s, to, depth, place, kind, arg, out, q);
        let n = grammar::next_slot(place, arg, left);
        let grammar::Next::Due { slot: a, more: b } = n else {
            let e = write_after(place, spelling, kind, false, out, w.end);
            return Pos {
                next: w.next,
                end: e,
            };
        };
        r = write_after(place, spelling, kind, true, out, w.end);
        p = w.next;
        place = a;
        left = b;
    }
}

// What the outermost ARI is: a set, which has no text form; a relative reference, which has no scheme; or another.
#[derive(Clone, Copy)]
pub enum Outer {
    Set,
    Relative,
    Other,
}

// A typed literal's members, the type and the value; and the types of the sets.
const TYPED: u64 = 2;

const EXECSET: u64 = 20;

const RPTSET: u64 = 21;

fn is_set(length: u64, arg: u64) -> bool
    ensures { result ≡ set_by length arg }
{
    length == TYPED && (arg == EXECSET || arg == RPTSET)
}

// By the length of an array and the head of its first member.
fn outer_by(length: u64, h: cbor::Head) -> Outer
    ensures { result ≡ member_by length h }
{
    let cbor::Head::Good { kind, arg, .. } = h else {
        return Outer::Other;
    };
    if is_set(length, arg) {
        return Outer::Set;
    }
    if kind == cbor::SIMPLE {
        return Outer::Relative;
    }
    Outer::Other
}

fn outermost(s: &[u8]) -> Outer
    ensures { result ≡ outer_of s.now }
{
    let h = cbor::head_again(s, 0);
    let cbor::Head::Good { kind, arg, next } = h else {
        return Outer::Other;
    };
    if kind == cbor::ARRAY {
        return outer_by(arg, cbor::head_again(s, next));
    }
    Outer::Other
}

// The bytes that are a head of one byte without a string, and no float: a bit for each eight of them.
const WHOLE: u64 = 0x77770077;

fn is_whole(b: u8) -> bool
    ensures { result ≡ is_whole b }
{
    (WHOLE >> (b / 8) as u64) % 2 == 1
}

// The place of the first float's head, if there is a float. No `for`: a step is as long as an item's head with its string.
fn first_float(s: &[u8]) -> Option<usize>
    ensures { FloatAt s.now 0 result }
{
    let mut p = 0;
    while p < s.len() {
        if is_whole(s[p]) {
            p += 1;
            continue;
        }
        let h = cbor::head_again(s, p);
        let cbor::Head::Good { kind, arg, next } = h else {
            return None;
        };
        if cbor::HALF <= kind {
            return Some(p);
        }
        let end = reader::string_end(s, kind, arg, next)?;
        p = end;
    }
    None
}

// The text form of an ARI of so many items: whether it is a relative reference's.
#[derive(Clone, Copy)]
pub struct Spelling {
    pub relative: bool,
    pub count: usize,
}

// An accepted ARI: test 14.
fn form_of(limits: Limits, s: &[u8], count: usize) -> Result<Spelling, Refusal>
    requires { (all is_byte s.now ≡ true) × Is limits Single s.now (decode s.now) count }
    ensures { result ≡ spelling_of limits s.now }
{
    let relative = match outermost(s) {
        Outer::Set => {
            return Err(Refusal {
                fault: Fault::NoText,
                place: 0,
            });
        }
        Outer::Relative => true,
        Outer::Other => false,
    };
    match first_float(s) {
        Some(place) => Err(Refusal {
            fault: Fault::NoText,
            place,
        }),
        None => Ok(Spelling { relative, count }),
    }
}

// The tests 1 to 14.
fn judge(limits: Limits, s: &[u8]) -> Result<Spelling, Refusal>
    ensures { result ≡ spelling_of limits s.now }
{
    let count = reader::check(Input::Single, limits, s)?;
    form_of(limits, s, count)
}

fn put_scheme(relative: bool, out: &mut [u8]) -> usize
    ensures { Put out.old out.new 0 result (scheme_of relative) }
{
    if relative {
        return 0;
    }
    buffer::put_all(out, 0, b"ari:")
}

// The text of an ARI that has one.
fn put_whole(s: &[u8], containers: usize, relative: bool, out: &mut [u8]) -> usize
    ensures { WritesWhole s.now containers relative result out.old out.new }
{
    let q = put_scheme(relative, out);
    let w = write_level(s, 0, containers, grammar::ARI_INSIDE, 0, out, q);
    w.end
}

// So many bytes were written, of an ARI of so many items.
#[derive(Clone, Copy)]
pub struct Written {
    pub length: usize,
    pub count: usize,
}

// The text of a single ARI in binary form at the front of lent room: as much of it as there is room for.
pub fn put_text(limits: Limits, s: &[u8], out: &mut [u8]) -> Result<Written, Refusal>
    ensures value { result ≡ written_of (cut (length out.old) (write_text limits s.now)) }
    ensures out_after { out.new ≡ room_after out.old (cut (length out.old) (write_text limits s.now)) }
{
    let Spelling { relative, count } = judge(limits, s)?;
    let length = put_whole(s, limits.containers, relative, out);
    Ok(Written { length, count })
}

// Bytes are handed over, if the room holds them: test 16.
pub fn hand_over(b: &[u8], count: usize, out: &mut [u8]) -> Result<Written, Refusal>
    ensures value { result ≡ written_of (lent (length out.old) (output b.now count)) }
    ensures out_after { out.new ≡ room_after out.old (lent (length out.old) (output b.now count)) }
{
    if out.len() < b.len() {
        return Err(Refusal {
            fault: Fault::NoRoom,
            place: b.len(),
        });
    }
    let length = buffer::put_block(out, 0, b);
    Ok(Written { length, count })
}

// The text goes into the scratch, which holds any, and from there into the room: a refusal leaves that as it was.
fn write_in(
    limits: Limits,
    s: &[u8],
    scratch: &mut [u8],
    out: &mut [u8],
) -> Result<Written, Refusal>
    requires { longest limits (length s.now) ≤ length scratch.old }
    ensures value { result ≡ written_of (lent (length out.old) (write_text limits s.now)) }
    ensures out_after { out.new ≡ room_after out.old (lent (length out.old) (write_text limits s.now)) }
{
    let Written { length, count } = put_text(limits, s, scratch)?;
    hand_over(&scratch[0..length], count, out)
}

// An ARI of so few bytes is a small one.
const SMALL: usize = 64;

// No text of a small ARI is longer: 4 bytes, and 19 for each byte, of which 3 are for the byte and 16 for an item.
const SMALL_TEXT: usize = 4 + 19 * SMALL;

// A small ARI needs a small scratch, which is cleared in a fraction of the time.
fn write_small(limits: Limits, s: &[u8], out: &mut [u8]) -> Result<Written, Refusal>
    requires { length s.now ≤ small }
    ensures value { result ≡ written_of (lent (length out.old) (write_text limits s.now)) }
    ensures out_after { out.new ≡ room_after out.old (lent (length out.old) (write_text limits s.now)) }
{
    let mut scratch = [0u8; SMALL_TEXT];
    write_in(limits, s, &mut scratch, out)
}

fn write_large(limits: Limits, s: &[u8], out: &mut [u8]) -> Result<Written, Refusal>
    requires { (limits.bytes ≤ gate_limits.bytes) × (limits.items ≤ gate_limits.items) }
    ensures value { result ≡ written_of (lent (length out.old) (write_text limits s.now)) }
    ensures out_after { out.new ≡ room_after out.old (lent (length out.old) (write_text limits s.now)) }
{
    let mut scratch = [0u8; ari::TEXT];
    write_in(limits, s, &mut scratch, out)
}

// The most bytes that the text of an ARI of this size has.
fn longest(limits: Limits, size: usize) -> usize
    requires { (limits.bytes ≤ gate_limits.bytes) × (limits.items ≤ gate_limits.items) }
    ensures { result ≡ longest limits size }
{
    4 + 3 * buffer::least(size, limits.bytes) + 16 * buffer::least(size, limits.items)
}

// Within limits of which none is above the gate's own; at once, if the room holds any text of such an ARI. An input that is too long is refused as its
// front is. By that call of itself this stays a function without the large scratch: LLVM leaves large arrays out of what calls itself, and with
// them each call would touch all pages of the scratch first.
fn write_capped(limits: Limits, s: &[u8], out: &mut [u8]) -> Result<Written, Refusal>
    requires { (limits.bytes ≤ gate_limits.bytes) × (limits.items ≤ gate_limits.items) }
    ensures value { result ≡ written_of (lent (length out.old) (write_text limits s.now)) }
    ensures out_after { out.new ≡ room_after out.old (lent (length out.old) (write_text limits s.now)) }
{
    let enough = limits.bytes + 1;
    if enough < s.len() {
        return write_capped(limits, &s[0..enough], out);
    }
    if longest(limits, s.len()) <= out.len() {
        return put_text(limits, s, out);
    }
    if s.len() <= SMALL {
        return write_small(limits, s, out);
    }
    write_large(limits, s, out)
}

// The text of a single ARI in binary form, within these limits, none above the gate's own, is written into lent room.
pub fn write_text_within(limits: Limits, s: &[u8], out: &mut [u8]) -> Result<Written, Refusal>
    ensures value { result ≡ written_of (lent (length out.old) (write_text (capped limits) s.now)) }
    ensures out_after { out.new ≡ room_after out.old (lent (length out.old) (write_text (capped limits) s.now)) }
{
    let most = ari::cap(limits);
    write_capped(most, s, out)
}

// The text of a single ARI in binary form is written into lent room.
pub fn write_text(s: &[u8], out: &mut [u8]) -> Result<Written, Refusal>
    ensures value { result ≡ written_of (lent (length out.old) (write_text gate_limits s.now)) }
    ensures out_after { out.new ≡ room_after out.old (lent (length out.old) (write_text gate_limits s.now)) }
{
    write_text_within(ari::LIMITS, s, out)
}
