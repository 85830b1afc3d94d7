// A message as the link delivers it: fragments are fed one by one, and the message is closed at its end. A state in lent words keeps what is due, so each
// fragment goes on from there; the message itself stands in a lent room.
#![tactic(auto)]

ghost use Rattle.std.specs.Prelude.{◌≡◌, false, ◌&&◌, ◌+◌, ◌-◌, ◌≤◌, ◌<◌, length, set, eqb};
ghost use Rattle.buffer.specs.Put.{Put};
ghost use Rattle.cbor.specs.Answer.{head_at};
ghost use Rattle.cbor.specs.Head.{is_container};
ghost use Rattle.grammar.specs.Code.{next_code, inside_code};
ghost use Rattle.ari.specs.Limits.{gate_limits, capped};
ghost use Rattle.stream.specs.State.{word, frame_at};
ghost use Rattle.std.specs.declared.result.Result.TheVariants.{Err};
ghost use Rattle.ari.specs.Refusals.{number_of};
ghost use Rattle.stream.specs.Calls.{words, stored, due_frame, open_behind, words_behind, open_inside, words_inside, string_until, halt_of, step_due, TakenDue, open_after, words_after, Advanced, needed, Walks, Overflows, Receives, Answers, Fresh, Ends, wants_room, lent_of, kept_in, Opens, Feeds, Closes};

use ari::{Fault, Limits, Refusal};
use listing::Listed;
use reader::{Span, Taken};

// What is due on a level: a slot and how often again, where the key before stands, and the open containers around.
#[derive(Clone, Copy)]
pub struct Frame {
    pub slot: u64,
    pub more: u64,
    pub from: usize,
    pub to: usize,
    pub around: usize,
}

// Where a walk over the heads has come to: a place where one is due, the items taken, the levels that are open.
#[derive(Clone, Copy)]
pub struct Place {
    pub at: usize,
    pub count: usize,
    pub opened: usize,
}

// Where the heads of a message that may go on end: a head or its string is not all there, and nothing can be said below so many bytes.
#[derive(Clone, Copy)]
pub struct Stop {
    pub place: Place,
    pub until: usize,
}

// The words of a state.
const RECEIVED: usize = 0; // bytes of the message

const NUMBER: usize = 1; // of the refusal that stands, or 0

const PLACE: usize = 2; // of that refusal

const UNTIL: usize = 3; // below so many bytes there is nothing to do

const NEXT: usize = 4; // the place where a head is due

const COUNT: usize = 5; // items taken

const OPEN: usize = 6; // levels that are open, a frame each

const FRAMES: usize = 7; // their first word

const FRAME: usize = 5; // words of a frame

pub const WORDS: usize = FRAMES + FRAME * ari::CONTAINERS;

fn frame_at(state: &[u64], k: usize) -> Frame
    requires { (words ≤ length state.now) × (k < gate_limits.containers) }
    ensures { result ≡ frame_at state.now k }
{
    let start = FRAMES + k * FRAME;
    Frame {
        slot: state[start],
        more: state[start + 1],
        from: state[start + 2] as usize,
        to: state[start + 3] as usize,
        around: state[start + 4] as usize,
    }
}

fn store_frame(state: &mut [u64], k: usize, f: Frame)
    requires { (words ≤ length state.old) × (k < gate_limits.containers) }
    ensures { state.new ≡ stored state.old k f }
{
    let start = FRAMES + k * FRAME;
    state[start] = f.slot;
    state[start + 1] = f.more;
    state[start + 2] = f.from as u64;
    state[start + 3] = f.to as u64;
    state[start + 4] = f.around as u64;
}

// What is due at a place. At the bottom it is the version, and behind it the sets.
fn due(state: &[u64], at: usize, opened: usize) -> Frame
    requires { (words ≤ length state.now) × (opened ≤ gate_limits.containers) }
    ensures { result ≡ due_frame state.now at opened }
{
    if opened != 0 {
        return frame_at(state, opened - 1);
    }
    let mut slot = grammar::ARI_MESSAGE;
    if at == 0 {
        slot = grammar::VERSION;
    }
    Frame {
        slot,
        more: 0,
        from: 0,
        to: 0,
        around: 0,
    }
}

// What is due behind an item takes the place of its level's frame; answers the levels that are open. At the bottom the sets stay due.
fn leave(state: &mut [u64], opened: usize, f: Frame, arg: u64, from: usize, to: usize) -> usize
    requires { (words ≤ length state.old) × (opened ≤ gate_limits.containers) }
    ensures value { result ≡ open_behind (next_code f.slot arg f.more) opened }
    ensures state_after { state.new ≡ words_behind (next_code f.slot arg f.more) state.old opened f from to }
{
    if opened == 0 {
        return 0;
    }
    match grammar::next_slot(f.slot, arg, f.more) {
        grammar::Next::Done => opened - 1,
        grammar::Next::Due { slot, more } => {
            let key = reader::key_after(
                f.slot,
                Span {
                    from: f.from,
                    to: f.to,
                },
                from,
                to,
            );
            let next = Frame {
                slot,
                more,
                from: key.from,
                to: key.to,
                around: f.around,
            };
            store_frame(state, opened - 1, next);
            opened
        }
    }
}

// What is due inside an item is a level of its own.
fn enter(
    state: &mut [u64],
    opened: usize,
    slot: u64,
    kind: u8,
    arg: u64,
    around: usize,
    depth: usize,
) -> usize
    requires { (words ≤ length state.old) × (opened ≤ around) × (around + depth ≤ gate_limits.containers) × ((is_container kind && eqb depth 0) ≡ false) }
    ensures value { result ≡ open_inside (inside_code slot kind arg) opened }
    ensures state_after { state.new ≡ words_inside (inside_code slot kind arg) state.old opened around }
{
    match grammar::inside(slot, kind, arg) {
        grammar::Next::Done => opened,
        grammar::Next::Due { slot: a, more } => {
            let next = Frame {
                slot: a,
                more,
                from: 0,
                to: 0,
                around: around + 1,
            };
            store_frame(state, opened, next);
            opened + 1
        }
    }
}

// The length below which the string of the head at a place is not all there. One that no message has room for ends past the limit.
fn string_until(s: &[u8], at: usize, most: usize) -> usize
    requires { (length s.now < 65536) × (most < 65536) }
    ensures { result ≡ string_until (head_at s.now at) most (length s.now) }
{
    match cbor::head_again(s, at) {
        cbor::Head::Good { arg, next, .. } => next + buffer::least(arg as usize, most),
        cbor::Head::Bad(_) => s.len() + 1,
    }
}

// Where no head is taken: its bytes or its string's are not all there, or it is refused.
fn halt(s: &[u8], most: usize, refusal: Refusal, place: Place) -> Result<Stop, Refusal>
    requires { (length s.now < 65536) × (most < 65536) }
    ensures { result ≡ halt_of s.now most refusal place.at place.count place.opened }
{
    let until = match refusal.fault {
        Fault::Truncated => s.len() + 1,
        Fault::StringCut => string_until(s, place.at, most),
        _ => return Err(refusal),
    };
    Ok(Stop { place, until })
}

// The head that is due, at a place. Where a frame has not so many containers around it as these calls would have made it, the message waits.
fn take_due(s: &[u8], limits: Limits, f: Frame, place: Place) -> Result<Taken, Refusal>
    ensures value { result ≡ step_due limits s.now f place.at place.count place.opened }
    ensures taken_due { TakenDue limits s.now f place.at place.count place.opened result }
{
    if f.around < place.opened || limits.containers < f.around {
        return Err(Refusal {
            fault: Fault::Truncated,
            place: place.at,
        });
    }
    let key = Span {
        from: f.from,
        to: f.to,
    };
    reader::take(
        s,
        place.at,
        f.slot,
        key,
        place.count,
        limits.items,
        limits.containers - f.around,
    )
}

// A head was taken: what is due behind it, and what is due inside.
fn settle(
    state: &mut [u64],
    opened: usize,
    f: Frame,
    containers: usize,
    kind: u8,
    arg: u64,
    from: usize,
    to: usize,
) -> usize
    requires { (words ≤ length state.old) × (opened ≤ f.around) × (f.around ≤ containers) × (containers ≤ gate_limits.containers) × ((is_container kind && eqb (containers - f.around) 0) ≡ false) }
    ensures value { result ≡ open_after f kind arg opened }
    ensures state_after { state.new ≡ words_after f kind arg state.old opened from to }
{
    let left = leave(state, opened, f, arg, from, to);
    enter(
        state,
        left,
        f.slot,
        kind,
        arg,
        f.around,
        containers - f.around,
    )
}

// The heads of a message that may go on are taken from a place on, as far as they are there. Of a state that these calls have not made nothing is promised.
fn advance(s: &[u8], limits: Limits, state: &mut [u64], start: Place) -> Result<Stop, Refusal>
    requires { (words ≤ length state.old) × (length s.now ≤ limits.bytes) × (limits.bytes < 65536) × (limits.containers ≤ gate_limits.containers) }
    ensures { Advanced limits s.now state.old start.at start.count start.opened result state.new }
{
    let mut here = start;
    while here.at < s.len() {
        if limits.containers < here.opened {
            return Ok(Stop {
                place: here,
                until: 0,
            });
        }
        let f = due(state, here.at, here.opened);
        match take_due(s, limits, f, here) {
            Err(refusal) => return halt(s, limits.bytes, refusal, here),
            Ok(Taken { kind, arg, after }) => {
                let opened = settle(
                    state,
                    here.opened,
                    f,
                    limits.containers,
                    kind,
                    arg,
                    here.at,
                    after,
                );
                here = Place {
                    at: after,
                    count: here.count + 1,
                    opened,
                };
            }
        }
    }
    Ok(Stop {
        place: here,
        until: s.len() + 1,
    })
}

// A refusal stands from here on.
fn stand(state: &mut [u64], refusal: Refusal) -> Result<(), Refusal>
    requires { words ≤ length state.old }
    ensures value { result ≡ Err refusal }
    ensures state_after { state.new ≡ set (set state.old 1 (number_of refusal.fault)) 2 refusal.place }
{
    state[NUMBER] = refusal.fault.number() as u64;
    state[PLACE] = refusal.place as u64;
    Err(refusal)
}

// The refusal that stands, if one does.
fn unrefused(state: &[u64]) -> Result<(), Refusal>
    requires { words ≤ length state.now }
    ensures { result ≡ kept_in state.now }
{
    let number = state[NUMBER];
    if number != 0 {
        return Err(ari::refusal_by((number % 256) as u8, state[PLACE] as usize));
    }
    Ok(())
}

// The heads from the place on that the state has come to.
fn go_on(s: &[u8], limits: Limits, state: &mut [u64]) -> Result<Stop, Refusal>
    requires { (words ≤ length state.old) × (length s.now ≤ limits.bytes) × (limits.bytes < 65536) × (limits.containers ≤ gate_limits.containers) }
    ensures { Advanced limits s.now state.old (word state.old 4) (word state.old 5) (word state.old 6) result state.new }
{
    let start = Place {
        at: state[NEXT] as usize,
        count: state[COUNT] as usize,
        opened: state[OPEN] as usize,
    };
    advance(s, limits, state, start)
}

// All bytes that were received are within the limit.
fn walk(s: &[u8], limits: Limits, state: &mut [u64]) -> Result<(), Refusal>
    requires { (words ≤ length state.old) × (length s.now ≤ limits.bytes) × (limits.bytes < 65536) × (limits.containers ≤ gate_limits.containers) }
    ensures { Walks limits s.now state.old result state.new }
{
    match go_on(s, limits, state) {
        Err(refusal) => stand(state, refusal),
        Ok(Stop { place, until }) => {
            state[UNTIL] = until as u64;
            state[NEXT] = place.at as u64;
            state[COUNT] = place.count as u64;
            state[OPEN] = place.opened as u64;
            Ok(())
        }
    }
}

// There are more than the limit, and these are the first: what refuses them stands if no more bytes can change it, and otherwise that they are too many.
fn overflow(s: &[u8], limits: Limits, state: &mut [u64]) -> Result<(), Refusal>
    requires { (words ≤ length state.old) × (length s.now ≤ limits.bytes) × (limits.bytes < 65536) × (limits.containers ≤ gate_limits.containers) }
    ensures { Overflows limits s.now state.old result state.new }
{
    match go_on(s, limits, state) {
        Err(refusal) => stand(state, refusal),
        Ok(_) => stand(
            state,
            Refusal {
                fault: Fault::TooLong,
                place: 0,
            },
        ),
    }
}

fn count_to(state: &mut [u64], end: usize)
    requires { words ≤ length state.old }
    ensures { state.new ≡ set state.old 0 end }
{
    state[RECEIVED] = end as u64;
}

// Many links hand over one byte at a time: it is not worth a copy's call.
fn put_fragment(message: &mut [u8], at: usize, fragment: &[u8]) -> usize
    ensures { Put message.old message.new at result fragment.now }
{
    if fragment.len() == 1 {
        return buffer::put(message, at, fragment[0]);
    }
    buffer::put_block(message, at, fragment)
}

// A fragment goes behind the bytes that were received, and the message stays within the limit.
fn append(
    limits: Limits,
    state: &mut [u64],
    message: &mut [u8],
    fragment: &[u8],
    end: usize,
) -> Result<(), Refusal>
    requires words_in_bounds { (words ≤ length state.old) × (limits.bytes ≤ length message.old) × (limits.bytes < 65536) × (limits.containers ≤ gate_limits.containers) }
    requires end_value { (end ≡ word state.old 0 + length fragment.now) × (end ≤ limits.bytes) }
    ensures { Receives limits state.old message.old fragment.now result state.new message.new }
{
    let n = state[RECEIVED] as usize;
    let until = state[UNTIL] as usize;
    put_fragment(message, n, fragment);
    count_to(state, end);
    if end < until {
        return Ok(());
    }
    walk(&message[0..end], limits, state)
}

// A fragment of which there is more than the limit allows: its front fills the message up.
fn fill(
    limits: Limits,
    state: &mut [u64],
    message: &mut [u8],
    fragment: &[u8],
    free: usize,
) -> Result<(), Refusal>
    requires words_in_bounds { (words ≤ length state.old) × (limits.bytes ≤ length message.old) × (limits.bytes < 65536) × (limits.containers ≤ gate_limits.containers) }
    requires state_bound { (word state.old 0 ≤ limits.bytes) × (free ≡ limits.bytes - word state.old 0) × (free < length fragment.now) }
    ensures { Receives limits state.old message.old fragment.now result state.new message.new }
{
    let n = state[RECEIVED] as usize;
    let limit = limits.bytes;
    buffer::put_block(message, n, &fragment[0..free]);
    overflow(&message[0..limit], limits, state)
}

fn receive(
    limits: Limits,
    state: &mut [u64],
    message: &mut [u8],
    fragment: &[u8],
) -> Result<(), Refusal>
    requires { (words ≤ length state.old) × (limits.bytes ≤ length message.old) × (limits.bytes < 65536) × (limits.containers ≤ gate_limits.containers) }
    ensures { Receives limits state.old message.old fragment.now result state.new message.new }
{
    let n = state[RECEIVED] as usize;
    if limits.bytes < n {
        return Ok(());
    }
    let free = limits.bytes - n;
    if free < fragment.len() {
        return fill(limits, state, message, fragment, free);
    }
    append(limits, state, message, fragment, n + fragment.len())
}

// Where the state or the room for the message is too short, the bytes that are needed of the first that is.
fn lent(state: usize, room: usize, most: usize) -> Result<(), Refusal>
    ensures { result ≡ lent_of (needed state room most) }
{
    if state < WORDS {
        return Err(Refusal {
            fault: Fault::NoRoom,
            place: WORDS * 8,
        });
    }
    if room < most {
        return Err(Refusal {
            fault: Fault::NoRoom,
            place: most,
        });
    }
    Ok(())
}

fn feed_capped(
    limits: Limits,
    state: &mut [u64],
    message: &mut [u8],
    fragment: &[u8],
) -> Result<(), Refusal>
    requires { capped limits ≡ limits }
    ensures { Feeds limits state.old message.old fragment.now result state.new message.new }
{
    lent(state.len(), message.len(), limits.bytes)?;
    unrefused(state)?;
    receive(limits, state, message, fragment)
}

// Takes a fragment of a message within these limits, none above the gate's own. The state and the room for the message are lent: any contents are safe,
// and what is promised is for a state that was opened, or is all zeros, and went through these calls only.
pub fn feed_within(
    limits: Limits,
    state: &mut [u64],
    message: &mut [u8],
    fragment: &[u8],
) -> Result<(), Refusal>
    ensures { Feeds (capped limits) state.old message.old fragment.now result state.new message.new }
{
    let most = ari::cap(limits);
    feed_capped(most, state, message, fragment)
}

pub fn feed(state: &mut [u64], message: &mut [u8], fragment: &[u8]) -> Result<(), Refusal>
    ensures { Feeds gate_limits state.old message.old fragment.now result state.new message.new }
{
    feed_within(ari::LIMITS, state, message, fragment)
}

// A fresh message begins. The place of a refusal and the frames may stay: nothing reads them.
fn clear(state: &mut [u64])
    requires { words ≤ length state.old }
    ensures { Fresh state.new }
{
    state[RECEIVED] = 0;
    state[NUMBER] = 0;
    state[UNTIL] = 0;
    state[NEXT] = 0;
    state[COUNT] = 0;
    state[OPEN] = 0;
}

// Begins a fresh message: what was fed before is dropped.
pub fn open(state: &mut [u64]) -> Result<(), Refusal>
    ensures { Opens state.old result state.new }
{
    lent(state.len(), 0, 0)?;
    clear(state);
    Ok(())
}

// The refusal that stands, or the listing of the message.
fn answer(limits: Limits, state: &[u64], message: &[u8], out: &mut [u8]) -> Result<Listed, Refusal>
    requires { (words ≤ length state.now) × (capped limits ≡ limits) × (limits.bytes ≤ length message.now) }
    ensures { Answers limits state.now message.now out.old result out.new }
{
    unrefused(state)?;
    let n = buffer::least(state[RECEIVED] as usize, message.len());
    listing::list_within(limits, &message[0..n], out)
}

fn wants_room(a: Result<Listed, Refusal>) -> bool
    ensures { result ≡ wants_room a }
{
    matches!(
        a,
        Err(Refusal {
            fault: Fault::NoRoom,
            ..
        })
    )
}

// A close that asks for more room closes nothing.
fn end(state: &mut [u64], a: Result<Listed, Refusal>)
    requires { words ≤ length state.old }
    ensures { Ends a state.old state.new }
{
    if wants_room(a) {
        return;
    }
    clear(state);
}

fn close_capped(
    limits: Limits,
    state: &mut [u64],
    message: &[u8],
    out: &mut [u8],
) -> Result<Listed, Refusal>
    requires { capped limits ≡ limits }
    ensures { Closes limits state.old message.now out.old result state.new out.new }
{
    lent(state.len(), message.len(), limits.bytes)?;
    let r = answer(limits, state, message, out);
    end(state, r);
    r
}

// Ends a message: its refusal, or its listing in the lent room. A close that answers 16 closes nothing; after any other a fresh message begins.
pub fn close_within(
    limits: Limits,
    state: &mut [u64],
    message: &[u8],
    out: &mut [u8],
) -> Result<Listed, Refusal>
    ensures { Closes (capped limits) state.old message.now out.old result state.new out.new }
{
    let most = ari::cap(limits);
    close_capped(most, state, message, out)
}

pub fn close(state: &mut [u64], message: &[u8], out: &mut [u8]) -> Result<Listed, Refusal>
    ensures { Closes gate_limits state.old message.now out.old result state.new out.new }
{
    close_within(ari::LIMITS, state, message, out)
}
