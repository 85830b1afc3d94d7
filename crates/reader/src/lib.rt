// The reading: one walk over the input, head by head, in the order of the tests. The walk may keep a table of the items, or of the references alone.
#![tactic(auto)]

ghost use Rattle.std.specs.Prelude.{◌≡◌, Bool, true, false, not, ◌&&◌, ◌+◌, ◌-◌, ◌*◌, ◌^◌, ◌<◌, ◌≤◌, length, set, ltb, eqb, [], pred, suc, min};
ghost use Rattle.buffer.specs.Bytes.{all, is_byte};
ghost use Rattle.cbor.specs.Head.{is_container, key_of};
ghost use Rattle.cbor.specs.Answer.{head_at};
ghost use Rattle.cbor.specs.declared.Head.TheVariants.{Good};
ghost use Rattle.ari.specs.Table.{rule, due};
ghost use Rattle.grammar.specs.Code.{fits_code, extra_of};
ghost use Rattle.ari.specs.Reader.{wrong_version, not_greater, is_empty};
ghost use Rattle.grammar.specs.Code.{slot_of};
ghost use Rattle.grammar.specs.Code.{IsSlot, level_of, spelled_as, next_code};
ghost use Rattle.grammar.specs.Words.{WordOf};
ghost use Rattle.buffer.specs.Bytes.{part};
ghost use Rattle.reader.specs.Steps.{stands_at, string_end, key_at, step_at, content_at, ContentShown, no_head, Bounded, key_span, Quick};
ghost use Rattle.reader.specs.Walks.{both, Walked, end_of_head, first_of, SetsWalked, Opens, LastShown};
ghost use Rattle.ari.specs.declared.Input.TheVariants.{Single, Message};
ghost use Rattle.ari.specs.Reader.{read};
ghost use Rattle.ari.specs.Limits.{gate_limits};
ghost use Rattle.reader.specs.Results.{result_of, Keeps, Notes};

use ari::{Fault, Input, Limits, Refusal};

// The place of a map key.
#[derive(Clone, Copy)]
pub struct Span {
    pub from: usize,
    pub to: usize,
}

// A head that was taken, with the first byte behind its string.
#[derive(Clone, Copy)]
pub struct Taken {
    pub kind: u8,
    pub arg: u64,
    pub after: usize,
}

// The items of a level that were read: up to a place, and so many in all.
#[derive(Clone, Copy)]
pub struct Read {
    pub next: usize,
    pub count: usize,
}

// What a slot's word says: test 7, the slot's own test, how a text string is spelled, what is due beside a head.
fn fits_at(slot: u64, word: u64, kind: u8, arg: u64) -> bool
    requires { WordOf slot word }
    ensures { result ≡ fits_code slot kind arg }
{
    grammar::fits_by(word, kind, arg)
}

fn extra_at(slot: u64, word: u64) -> u64
    requires { WordOf slot word }
    ensures { result ≡ extra_of slot }
{
    (word >> 60) % 4
}

fn spelling_at(slot: u64, word: u64) -> u64
    requires { WordOf slot word }
    ensures { spelled_as result ≡ (rule (slot_of slot)).spelling }
{
    word >> 62
}

fn next_at(slot: u64, word: u64, arg: u64, more: u64) -> grammar::Next
    requires { WordOf slot word }
    ensures { result ≡ next_code slot arg more }
{
    grammar::next_by(word, arg, more)
}

// Test 8.
fn wrong_version(slot: u64, extra: u64, arg: u64) -> bool
    requires { extra ≡ extra_of slot }
    ensures { result ≡ wrong_version (rule (slot_of slot)).extra arg }
{
    if extra == 1 {
        return arg != 1;
    }
    false
}

// The bytes from a place on.
fn left(s: &[u8], at: usize) -> usize
    ensures { result ≡ length s.now - at }
{
    if s.len() < at {
        return 0;
    }
    s.len() - at
}

fn end_of(s: &[u8], arg: u64, next: usize) -> Option<usize>
    ensures { result ≡ string_end s.now 2 arg next }
{
    let size = arg as usize;
    if left(s, next) < size {
        return None;
    }
    Some(next + size)
}

// Test 9: where the string behind a head ends, if the input has it all. What is no string ends where its head does.
pub fn string_end(s: &[u8], kind: u8, arg: u64, next: usize) -> Option<usize>
    ensures { result ≡ string_end s.now kind arg next }
{
    if kind == cbor::BYTES {
        return end_of(s, arg, next);
    }
    if kind == cbor::TEXT {
        return end_of(s, arg, next);
    }
    Some(next)
}

fn is_spelled(slot: u64, word: u64, t: &[u8]) -> bool
    requires { WordOf slot word }
    ensures { result ≡ (rule (slot_of slot)).spelling t.now }
{
    let spelling = spelling_at(slot, word);
    match spelling {
        0 => cbor::is_utf8(t),
        1 => grammar::is_identifier(t),
        2 => grammar::is_namespace_name(t),
        _ => cbor::is_utf8(t),
    }
}

// Test 10.
fn is_misspelt(s: &[u8], slot: u64, word: u64, kind: u8, next: usize, end: usize) -> bool
    requires { WordOf slot word × (next ≤ end) × (end ≤ length s.now) }
    ensures { result ≡ (eqb kind 3 && not ((rule (slot_of slot)).spelling (part s.now next end))) }
{
    if kind == cbor::TEXT {
        return !is_spelled(slot, word, &s[next..end]);
    }
    false
}

// Test 11.
fn is_not_greater(s: &[u8], slot: u64, extra: u64, prev: Span, at: usize, end: usize) -> bool
    requires { (extra ≡ extra_of slot) × (prev.from ≤ prev.to) × (prev.to ≤ length s.now) × (at ≤ end) × (end ≤ length s.now) }
    ensures { result ≡ not_greater (rule (slot_of slot)).extra (key_of (part s.now prev.from prev.to)) (key_of (part s.now at end)) }
{
    if extra == 2 {
        let from = prev.from;
        let to = prev.to;
        return !cbor::is_key_below(&s[from..to], &s[at..end]);
    }
    false
}

// Test 12.
fn is_empty(slot: u64, extra: u64, arg: u64) -> bool
    requires { extra ≡ extra_of slot }
    ensures { result ≡ is_empty (rule (slot_of slot)).extra arg }
{
    if extra == 3 {
        return arg == 0;
    }
    false
}

// Test 11 where it is the slot's: what asks nothing of keys calls nothing.
fn is_unordered(s: &[u8], slot: u64, extra: u64, prev: Span, at: usize, end: usize) -> bool
    requires { (extra ≡ extra_of slot) × (prev.from ≤ prev.to) × (prev.to ≤ length s.now) × (at ≤ end) × (end ≤ length s.now) }
    ensures { result ≡ not_greater (rule (slot_of slot)).extra (key_of (part s.now prev.from prev.to)) (key_of (part s.now at end)) }
{
    if extra == grammar::KEY_TEST {
        return is_not_greater(s, slot, extra, prev, at, end);
    }
    false
}

// The tests 8 to 12. Most slots have no test of their own: 8, 11 and 12 are not theirs. Where 8 is the slot's no string is taken, so 9 and 10 may come first.
fn judge_content(
    s: &[u8],
    at: usize,
    slot: u64,
    word: u64,
    extra: u64,
    prev: Span,
    kind: u8,
    arg: u64,
    next: usize,
) -> Result<Taken, Refusal>
    requires word_of { WordOf slot word × (all is_byte s.now ≡ true) × (extra ≡ extra_of slot) × (prev.from ≤ prev.to) × (prev.to ≤ length s.now) }
    requires at_value { (head_at s.now at ≡ Good kind arg next) × (at < next) × (next ≤ length s.now) × (fits_code slot kind arg ≡ true) × (kind ≤ 9) }
    ensures value { result ≡ content_at s.now at (slot_of slot) (key_of (part s.now prev.from prev.to)) }
    ensures content_shown { ContentShown s.now kind arg next result }
{
    let Some(end) = string_end(s, kind, arg, next) else {
        return Err(Refusal {
            fault: Fault::StringCut,
            place: at,
        });
    };
    if is_misspelt(s, slot, word, kind, next, end) {
        return Err(Refusal {
            fault: Fault::Misspelt,
            place: at,
        });
    }
    if extra == 0 {
        return Ok(Taken {
            kind,
            arg,
            after: end,
        });
    }
    if wrong_version(slot, extra, arg) {
        return Err(Refusal {
            fault: Fault::WrongVersion,
            place: at,
        });
    }
    if is_unordered(s, slot, extra, prev, at, end) {
        return Err(Refusal {
            fault: Fault::KeyOrder,
            place: at,
        });
    }
    if is_empty(slot, extra, arg) {
        return Err(Refusal {
            fault: Fault::NoParameters,
            place: at,
        });
    }
    Ok(Taken {
        kind,
        arg,
        after: end,
    })
}

// A container that may not be opened.
pub fn is_too_deep(kind: u8, depth: usize) -> bool
    ensures { result ≡ (is_container kind && eqb depth 0) }
{
    if kind < cbor::ARRAY {
        return false;
    }
    if cbor::MAP < kind {
        return false;
    }
    depth == 0
}

// A head that is no head is refused.
fn no_head(h: cbor::Head, at: usize) -> Result<Taken, Refusal>
    ensures { result ≡ no_head h at }
{
    match h {
        cbor::Head::Bad(number) => Err(ari::refusal_by(number, at)),
        cbor::Head::Good { .. } => Err(Refusal {
            fault: Fault::TooLong,
            place: 0,
        }),
    }
}

// One head: the tests 2 to 12.
fn take_head(
    s: &[u8],
    at: usize,
    slot: u64,
    word: u64,
    prev: Span,
    count: usize,
    items: usize,
    depth: usize,
) -> Result<Taken, Refusal>
    requires { WordOf slot word × (all is_byte s.now ≡ true) × (prev.from ≤ prev.to) × (prev.to ≤ length s.now) }
    ensures value { result ≡ step_at s.now at (slot_of slot) (key_of (part s.now prev.from prev.to)) (items - count) depth }
    ensures bounded { Bounded s.now at count items depth slot result }
{
    let h = cbor::head_at(s, at);
    let cbor::Head::Good { kind, arg, next } = h else {
        return no_head(h, at);
    };
    if items <= count {
        return Err(Refusal {
            fault: Fault::TooManyItems,
            place: at,
        });
    }
    if is_too_deep(kind, depth) {
        return Err(Refusal {
            fault: Fault::TooDeep,
            place: at,
        });
    }
    if !fits_at(slot, word, kind, arg) {
        return Err(Refusal {
            fault: Fault::Misplaced,
            place: at,
        });
    }
    let extra = extra_at(slot, word);
    judge_content(s, at, slot, word, extra, prev, kind, arg, next)
}

// The key before, for what is due next on a level, by the slot's own test.
fn key_by(slot: u64, extra: u64, prev: Span, from: usize, to: usize) -> Span
    requires { extra ≡ extra_of slot }
    ensures { (result.from ≡ key_span (rule (slot_of slot)).extra prev.from from) × (result.to ≡ key_span (rule (slot_of slot)).extra prev.to to) }
{
    if extra == grammar::KEY_TEST {
        return Span { from, to };
    }
    prev
}

// The key before, for what is due next on a level.
pub fn key_after(slot: u64, prev: Span, from: usize, to: usize) -> Span
    ensures { (result.from ≡ key_span (rule (slot_of slot)).extra prev.from from) × (result.to ≡ key_span (rule (slot_of slot)).extra prev.to to) }
{
    key_by(slot, grammar::extra_test(slot), prev, from, to)
}

// A number or a string at a slot with no test of its own: nothing is inside it, and it is no key.
fn is_plain(slot: u64, word: u64, kind: u8) -> bool
    requires { WordOf slot word }
    ensures { result ≡ (ltb kind 4 && eqb (extra_of slot) 0) }
{
    if kind < cbor::ARRAY {
        return extra_at(slot, word) == grammar::NO_TEST;
    }
    false
}

fn wide(x: u8) -> u64
    ensures { result ≡ x }
{
    x as u64
}

// A number of one byte stands at a place, and the slot, with no test of its own, takes it: many heads are such.
fn is_quick(s: &[u8], at: usize, slot: u64, count: usize, items: usize) -> bool
    ensures { result ≡ true → Quick s.now at slot count items }
{
    if s.len() <= at {
        return false;
    }
    if count >= items {
        return false;
    }
    grammar::takes_number(slot, s[at])
}

// What is inside a container that is the last of its level, where it has no room in the table of items: then the walk goes on inside with no call. Behind it
// nothing is left to do but to end it in the table of references, where its word can name the one that waited before.
fn last_inside(
    slot: u64,
    word: u64,
    arg: u64,
    more: u64,
    room: usize,
    count: usize,
    taken: usize,
    inner: grammar::Next,
) -> grammar::Next
    requires { WordOf slot word }
    ensures { LastShown slot arg more room count taken inner result }
{
    let grammar::Next::Due { slot: a, more: b } = inner else {
        return grammar::Next::Done;
    };
    if count < room {
        return grammar::Next::Done;
    }
    if 65535 < taken {
        return grammar::Next::Done;
    }
    let n = next_at(slot, word, arg, more);
    match n {
        grammar::Next::Done => grammar::Next::Due { slot: a, more: b },
        grammar::Next::Due { slot: _, more: _ } => grammar::Next::Done,
    }
}

// What is due inside a head: nothing, or a level that is walked with a container more around it.
#[cycle(walk_inside_walk_level)]
fn walk_inside(
    s: &[u8],
    at: usize,
    count: usize,
    items: usize,
    depth: usize,
    around: usize,
    inner: grammar::Next,
    entries: &mut [u64],
    references: &mut [u64],
) -> Result<Read, Refusal>
    requires { (all is_byte s.now ≡ true) × (depth + around < 2 ^ 64) × Opens inner depth × (at ≤ length s.now) × (count ≤ items) }
    ensures { Walked s.now items (level_of inner) [] (pred depth) (suc around) at count result (both entries.old references.old) (both entries.new references.new) }
{
    match inner {
        grammar::Next::Done => Ok(Read { next: at, count }),
        grammar::Next::Due { slot, more } => {
            walk_level(
                s,
                at,
                count,
                items,
                depth - 1,
                around + 1,
                slot,
                more,
                entries,
                references,
            )
        }
    }
}

// The items of a level from the slot on, leaves in the loop, a call for each container but one that `last_inside` goes on with. References among those
// wait for their end, each with the place of the one before in its word.
#[cycle(walk_inside_walk_level)]
fn walk_level(
    s: &[u8],
    at: usize,
    count: usize,
    items: usize,
    depth: usize,
    around: usize,
    slot: u64,
    more: u64,
    entries: &mut [u64],
    references: &mut [u64],
) -> Result<Read, Refusal>
    requires { (all is_byte s.now ≡ true) × (depth + around < 2 ^ 64) × IsSlot slot × (at ≤ length s.now) × (count ≤ items) }
    ensures { Walked s.now items (due (slot_of slot) more) [] depth around at count result (both entries.old references.old) (both entries.new references.new) }
{
    let mut p = at;
    let mut c = count;
    let mut place = slot;
    let mut left = more;
    let mut prev = Span { from: 0, to: 0 };
    let mut allowed = depth;
    let mut opened = around;
    let mut pending = 0;
    loop {
        let word = grammar::walk_word(place);
        if is_quick(s, p, place, c, items) {
            item_table::put_plain(entries, c, p, p + 1, opened, place);
            let n = next_at(place, word, wide(s[p]) % 32, left);
            let grammar::Next::Due { slot: a, more: b } = n else {
                item_table::end_all(references, pending, p + 1);
                return Ok(Read {
                    next: p + 1,
                    count: c + 1,
                });
            };
            p = p + 1;
            c = c + 1;
            place = a;
            left = b;
            continue;
        }
        let Taken { kind, arg, after } = take_head(s, p, place, word, prev, c, items, allowed)?;
        if is_plain(place, word, kind) {
            item_table::put_plain(entries, c, p, after, opened, place);
            let n = next_at(place, word, arg, left);
            let grammar::Next::Due { slot: a, more: b } = n else {
                item_table::end_all(references, pending, after);
                return Ok(Read {
                    next: after,
                    count: c + 1,
                });
            };
            p = after;
            c = c + 1;
            place = a;
            left = b;
            continue;
        }
        let inner = grammar::walk_members(place, kind, arg);
        let taken = item_table::reserve(references, place, kind, arg);
        let last = last_inside(place, word, arg, left, entries.len(), c, taken, inner);
        if let grammar::Next::Due { slot: a, more: b } = last {
            pending = item_table::wait(references, taken, p, pending, opened, place, after - p);
            p = after;
            c = c + 1;
            place = a;
            left = b;
            prev = Span { from: 0, to: 0 };
            allowed = allowed - 1;
            opened = opened + 1;
            continue;
        }
        let Read { next: q, count: e } = walk_inside(
            s,
            after,
            c + 1,
            items,
            allowed,
            opened,
            inner,
            entries,
            references,
        )?;
        let head = after - p;
        item_table::put(entries, c, p, q, opened, place, kind, arg, head);
        item_table::fill(references, taken, p, q, opened, place, head);
        prev = key_by(place, extra_at(place, word), prev, p, after);
        let n = next_at(place, word, arg, left);
        let grammar::Next::Due { slot: a, more: b } = n else {
            item_table::end_all(references, pending, q);
            return Ok(Read { next: q, count: e });
        };
        p = q;
        c = e;
        place = a;
        left = b;
    }
}

// A number that is no slot's stands for the version's.
fn slot_known(slot: u64) -> u64
    ensures { IsSlot result × (slot_of result ≡ slot_of slot) }
{
    if slot < grammar::SLOTS {
        return slot;
    }
    grammar::VERSION
}

// What a walk gives that could take one head: a refusal elsewhere is that of the next.
fn first_of(w: Result<Read, Refusal>, at: usize) -> Result<usize, Refusal>
    ensures { result ≡ first_of at w }
{
    match w {
        Ok(read) => Ok(read.next),
        Err(refusal) => {
            if refusal.place == at {
                return Err(refusal);
            }
            Ok(refusal.place)
        }
    }
}

// Where one head ends with its string, with no key before it.
fn first_head(
    s: &[u8],
    at: usize,
    slot: u64,
    count: usize,
    items: usize,
    depth: usize,
) -> Result<usize, Refusal>
    ensures { result ≡ end_of_head (step_at s.now at (slot_of slot) [] (items - count) depth) }
{
    if s.len() < at {
        return Err(Refusal {
            fault: Fault::Truncated,
            place: at,
        });
    }
    let known = slot_known(slot);
    let c = buffer::least(count, items);
    let most = buffer::least(items, buffer::saturating_add(c as u64, 1) as usize);
    let mut entries = [0u64; 1];
    let mut references = [0u64; 1];
    let w = walk_level(
        s,
        at,
        c,
        most,
        depth,
        0,
        known,
        0,
        &mut entries[0..0],
        &mut references[0..0],
    );
    first_of(w, at)
}

// The ends of a key before; none where they are not those of a part of the input.
fn key_ends(s: &[u8], prev: Span) -> Span
    ensures { (result.from ≤ result.to) × (result.to ≤ length s.now) × (part s.now result.from result.to ≡ key_at s.now prev.from prev.to) }
{
    if prev.to < prev.from {
        return Span { from: 0, to: 0 };
    }
    if s.len() < prev.to {
        return Span { from: 0, to: 0 };
    }
    prev
}

// Test 11, after a key before.
fn falls(s: &[u8], slot: u64, prev: Span, at: usize, end: usize) -> bool
    requires { (at ≤ end) × (end ≤ length s.now) }
    ensures { result ≡ not_greater (rule (slot_of slot)).extra (key_of (key_at s.now prev.from prev.to)) (key_of (part s.now at end)) }
{
    let extra = grammar::extra_test(slot);
    let key = key_ends(s, prev);
    is_not_greater(s, slot, extra, key, at, end)
}

// One head, for those who take them one by one: the tests 2 to 12. It is the walk that takes it, so that its loop has them to itself; the head is then
// looked at once more. A key before that does not lie in the input stands for none.
pub fn take(
    s: &[u8],
    at: usize,
    slot: u64,
    prev: Span,
    count: usize,
    items: usize,
    depth: usize,
) -> Result<Taken, Refusal>
    ensures value { result ≡ step_at s.now at (slot_of slot) (key_of (key_at s.now prev.from prev.to)) (items - count) depth }
    ensures bounded { Bounded s.now at count items depth slot result }
{
    let end = first_head(s, at, slot, count, items, depth)?;
    let h = cbor::head_again(s, at);
    let cbor::Head::Good { kind, arg, next: _ } = h else {
        return no_head(h, at);
    };
    if falls(s, slot, prev, at, end) {
        return Err(Refusal {
            fault: Fault::KeyOrder,
            place: at,
        });
    }
    Ok(Taken {
        kind,
        arg,
        after: end,
    })
}

// A single ARI within these limits.
fn read_single(
    s: &[u8],
    limits: Limits,
    entries: &mut [u64],
    references: &mut [u64],
) -> Result<usize, Refusal>
    ensures value { result ≡ result_of (read limits Single s.now) }
    ensures kept { Keeps Single s.now result entries.old entries.new }
    ensures noted { Notes Single s.now result references.old references.new }
{
    if limits.bytes < s.len() {
        return Err(Refusal {
            fault: Fault::TooLong,
            place: 0,
        });
    }
    let Read { next, count } = walk_level(
        s,
        0,
        0,
        limits.items,
        limits.containers,
        0,
        grammar::ARI_ALONE,
        0,
        entries,
        references,
    )?;
    if next < s.len() {
        return Err(Refusal {
            fault: Fault::BytesBehind,
            place: next,
        });
    }
    Ok(count)
}

// A byte stands at a place, and one more item may come.
fn stands(s: &[u8], at: usize, byte: u8, count: usize, items: usize) -> bool
    ensures { result ≡ stands_at s.now at byte (items - count) }
{
    if s.len() <= at {
        return false;
    }
    if count >= items {
        return false;
    }
    s[at] == byte
}

// A message's version. The byte 01 is the only one that is accepted; of any other head the walk says what is wrong with it.
fn walk_version(
    s: &[u8],
    items: usize,
    containers: usize,
    entries: &mut [u64],
    references: &mut [u64],
) -> Result<Read, Refusal>
    requires { all is_byte s.now ≡ true }
    ensures { Walked s.now items (due (slot_of 0) 0) [] containers 0 0 0 result (both entries.old references.old) (both entries.new references.new) }
{
    if !stands(s, 0, 0x01, 0, items) {
        return walk_level(
            s,
            0,
            0,
            items,
            containers,
            0,
            grammar::VERSION,
            0,
            entries,
            references,
        );
    }
    item_table::put_plain(entries, 0, 0, 1, 0, grammar::VERSION);
    Ok(Read { next: 1, count: 1 })
}

// One set of a message. Its head is the byte 82, and what it holds is walked at once; any other head is left to the walk as well.
fn walk_set(
    s: &[u8],
    at: usize,
    count: usize,
    items: usize,
    containers: usize,
    entries: &mut [u64],
    references: &mut [u64],
) -> Result<Read, Refusal>
    requires { (all is_byte s.now ≡ true) × (at ≤ length s.now) × (count ≤ items) }
    ensures { Walked s.now items (due (slot_of 2) 0) [] containers 0 at count result (both entries.old references.old) (both entries.new references.new) }
{
    if containers == 0 {
        return walk_level(
            s,
            at,
            count,
            items,
            containers,
            0,
            grammar::ARI_MESSAGE,
            0,
            entries,
            references,
        );
    }
    if !stands(s, at, 0x82, count, items) {
        return walk_level(
            s,
            at,
            count,
            items,
            containers,
            0,
            grammar::ARI_MESSAGE,
            0,
            entries,
            references,
        );
    }
    let Read { next, count: e } = walk_level(
        s,
        at + 1,
        count + 1,
        items,
        containers - 1,
        1,
        grammar::TYPE_MESSAGE,
        0,
        entries,
        references,
    )?;
    item_table::put_plain(entries, count, at, next, 0, grammar::ARI_MESSAGE);
    Ok(Read { next, count: e })
}

// The sets of a message, from the place behind its version.
fn walk_sets(
    s: &[u8],
    at: usize,
    count: usize,
    items: usize,
    containers: usize,
    entries: &mut [u64],
    references: &mut [u64],
) -> Result<Read, Refusal>
    requires { (all is_byte s.now ≡ true) × (at ≤ length s.now) × (count ≤ items) }
    ensures { SetsWalked s.now items containers at count result (both entries.old references.old) (both entries.new references.new) }
{
    let mut p = at;
    let mut c = count;
    while p < s.len() {
        let Read { next, count: e } = walk_set(s, p, c, items, containers, entries, references)?;
        p = next;
        c = e;
    }
    Ok(Read { next: p, count: c })
}

// A message within these limits.
fn read_message(
    s: &[u8],
    limits: Limits,
    entries: &mut [u64],
    references: &mut [u64],
) -> Result<usize, Refusal>
    ensures value { result ≡ result_of (read limits Message s.now) }
    ensures kept { Keeps Message s.now result entries.old entries.new }
    ensures noted { Notes Message s.now result references.old references.new }
{
    if limits.bytes < s.len() {
        return Err(Refusal {
            fault: Fault::TooLong,
            place: 0,
        });
    }
    let Read { next, count } = walk_version(
        s,
        limits.items,
        limits.containers,
        entries,
        references,
    )?;
    let sets = walk_sets(
        s,
        next,
        count,
        limits.items,
        limits.containers,
        entries,
        references,
    )?;
    Ok(sets.count)
}

// An input is checked, and its items and its references go into the lent tables, as many as they have room for. The tables are working memory: of a
// refused input they hold what the walk had come to.
fn keep_both(
    input: Input,
    limits: Limits,
    s: &[u8],
    entries: &mut [u64],
    references: &mut [u64],
) -> Result<usize, Refusal>
    ensures value { result ≡ result_of (read limits input s.now) }
    ensures kept { Keeps input s.now result entries.old entries.new }
    ensures noted { Notes input s.now result references.old references.new }
{
    match input {
        Input::Single => read_single(s, limits, entries, references),
        Input::Message => read_message(s, limits, entries, references),
    }
}

// The table of items alone.
pub fn keep(input: Input, limits: Limits, s: &[u8], entries: &mut [u64]) -> Result<usize, Refusal>
    ensures value { result ≡ result_of (read limits input s.now) }
    ensures kept { Keeps input s.now result entries.old entries.new }
{
    let mut none = [0u64; 1];
    keep_both(input, limits, s, entries, &mut none[0..0])
}

// The table of references alone, from its start.
pub fn keep_references(
    input: Input,
    limits: Limits,
    s: &[u8],
    references: &mut [u64],
) -> Result<usize, Refusal>
    ensures value { result ≡ result_of (read limits input s.now) }
    ensures noted { Notes input s.now result (set references.old 0 0) references.new }
{
    item_table::clear(references);
    let mut none = [0u64; 1];
    keep_both(input, limits, s, &mut none[0..0], references)
}

// An input is checked.
pub fn check(input: Input, limits: Limits, s: &[u8]) -> Result<usize, Refusal>
    ensures { result ≡ result_of (read limits input s.now) }
{
    let mut entries = [0u64; 1];
    let mut references = [0u64; 1];
    keep_both(input, limits, s, &mut entries[0..0], &mut references[0..0])
}

// A single ARI in binary form, and a message, within the gate's own limits.
pub fn check_single(s: &[u8]) -> Result<usize, Refusal>
    ensures { result ≡ result_of (read gate_limits Single s.now) }
{
    check(Input::Single, ari::LIMITS, s)
}

pub fn check_message(s: &[u8]) -> Result<usize, Refusal>
    ensures { result ≡ result_of (read gate_limits Message s.now) }
{
    check(Input::Message, ari::LIMITS, s)
}
