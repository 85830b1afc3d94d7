// The slots of the grammar (R21 to R46) as numbers, and the grammar as one table: a word for each slot.
//
// A slot says what is due at a place. Its word holds, from the lowest bits: for each of the ten kinds of heads five bits, the number of the
// range that the argument must lie in (test 7); at 50 the slot that may follow, seven bits; at 57, 58 and 59 how it follows: it takes one of
// those that are left, those that are left stay, the argument is added to it; at 60 the slot's own test (8, 11 or 12); at 62 how a text string
// is spelled (10). The words stand here alone: that they say what `rule` of the definitions says is the contract of `walk_word` and `follow_word`.
#![tactic(auto)]

ghost use Rattle.std.specs.Prelude.{◌≡◌, ◌-◌, ◌%◌, ◌≤◌, ◌<◌, length, drop};
ghost use Rattle.ari.specs.Table.{reference_level, rule};
ghost use Rattle.grammar.specs.Code.{IsSlot, slot_of, next_of, type_number, fits_code, extra_of, spelled_as, takes_reference_of, next_code, inside_code};
ghost use Rattle.grammar.specs.Words.{field, fits_word, next_word, bits_of, small_of, top_of, if_set, many_of, in_ari_of, in_array_of, in_map_of, word_means, word_for, follow_means, follow_for, inner_means, inner_for, takes_number, numbers_of, number_bits, name_bits};
ghost use Rattle.ari.specs.Name.{starts_name, continues_name, identifier, namespace_name};

// What is due next on a level: nothing more, or a slot and how often again.
#[derive(Clone, Copy)]
pub enum Next {
    Done,
    Due { slot: u64, more: u64 },
}

// The numbers of the slots that functions name; walk_word has them all.
pub const VERSION: u64 = 0; // a message's version

pub const ARI_ALONE: u64 = 1; // a single ARI

pub const ARI_MESSAGE: u64 = 2; // one of a message's ARIs

pub const ARI_INSIDE: u64 = 3; // an ARI inside another

pub const ARI_PARAM: u64 = 4; // an ARI inside an object reference's parameters

pub const TYPE_MESSAGE: u64 = 6; // the type of one of a message's ARIs

pub const NAMESPACE: u64 = 9; // of a namespace reference

pub const OBJECT_NAMESPACE: u64 = 10; // of an object reference without parameters

pub const OBJECT_NAMESPACE_PARAMS: u64 = 11; // of one with parameters

pub const OBJECT_ID_PARAMS: u64 = 15; // the id of one with parameters: the last slot of a name, of which NAMESPACE is the first

pub const TARGET: u64 = 24;

pub const REPORT: u64 = 25;

// The slots are below this number.
pub const SLOTS: u64 = 72;

// A slot's own test, beside those that every slot has.
pub const NO_TEST: u64 = 0;

pub const VERSION_TEST: u64 = 1; // test 8: the version is 1

pub const KEY_TEST: u64 = 2; // test 11: a key is greater than the one before

pub const FILLED_TEST: u64 = 3; // test 12: parameters are not empty

// How a text string is spelled (test 10).
pub const UTF8: u64 = 0;

pub const IDENTIFIER: u64 = 1;

pub const NAMESPACE_NAME: u64 = 2;

// How the members of an array come.
const NO_MEMBERS: u64 = 0;

const AS_ARI: u64 = 1; // by its length, as an ARI's; 2 is by its length, as a reference's

const AS_LIST: u64 = 3; // as many of the slot as there are members; n more: the slot once, and behind it as many as are beyond n members

// The types are below this number.
const TYPES: u64 = 22;

// A slot's word, for the walk alone: a function that has one caller is put into it, and the look-up stands in the walk's loop. A value's slots, inside and in
// parameters, have the same word.
pub fn walk_word(slot: u64) -> u64
    ensures { word_means result ≡ word_for (rule (slot_of slot)) }
{
    match slot {
        0 => 0x1200000000000001, // version
        1 => 0x0604210980908441, // ari alone
        2 => 0x0608000000a00000, // ari message
        3 => 0x060c210980908441, // ari inside
        4 => 0x0610210980908441, // ari param
        5 => 0x087000000000000e, // type alone
        6 => 0x087000000000000f, // type message
        7 => 0x0870000000000010, // type inside
        8 => 0x08c8000000000011, // type param
        9 => 0x8200000000008042, // namespace
        10 => 0x8030000200008042, // object_namespace false
        11 => 0x8034000200008042, // object_namespace true
        12 => 0x4038000000008060, // object_type false
        13 => 0x403c000000008060, // object_type true
        14 => 0x4200000000008002, // object_id false
        15 => 0x4040000000008002, // object_id true
        16 => 0x3200000002100000, // params
        17 => 0x244c000000008041, // key inside
        18 => 0x2450000000008041, // key param
        19 => 0x0644210980908441, // entry inside
        20 => 0x0648210980908441, // entry param
        21 => 0x0660000200000402, // nonce 20
        22 => 0x045c000200000402, // nonce 21
        23 => 0x0664000000000042, // set_time
        24 => 0x0660000000b00000, // target
        25 => 0x0664000000d00000, // report
        26 => 0x046c000000000042, // report_time
        27 => 0x060c000000b00000, // report_source
        28 | 50 => 0x0200000200000000, // value 0: NULL
        29 | 51 => 0x02000001c0000000, // value 1: BOOL
        30 | 52 => 0x0200000000000003, // value 2: BYTE
        31 | 53 => 0x0200000000000000, // value 3: no type
        32 | 54 => 0x0200000000000084, // value 4: INT
        33 | 55 => 0x0200000000000005, // value 5: UINT
        34 | 56 => 0x0200000000000042, // value 6: VAST
        35 | 57 => 0x0200000000000001, // value 7: UVAST
        36 | 58 => 0x0200010800000000, // value 8: REAL32
        37 | 59 => 0x0200210800000000, // value 9: REAL64
        38 | 60 => 0x0200000000008000, // value 10: TEXTSTR
        39 | 61 => 0x0200000000000400, // value 11: BYTESTR
        40 | 62 => 0x0200000000000042, // value 12: TP
        41 | 63 => 0x0200000000000042, // value 13: TD
        42 | 64 => 0x4200000000008000, // value 14: LABEL
        43 | 65 => 0x0200000000000400, // value 15: CBOR
        44 | 66 => 0x0200000000000000, // value 16: no type
        45 | 67 => 0x0200000000100000, // value 17: AC
        46 | 68 => 0x0200000002000000, // value 18: AM
        47 | 69 => 0x0200000000000000, // value 19: no type
        48 | 70 => 0x0200000000c00000, // value 20: EXECSET
        49 | 71 => 0x0200000000d00000, // value 21: RPTSET
        _ => 0x1204000000000001, // no slot: means what version's does, in other bits, so that the look-up starts at 0
    }
}

// What follows alone, and the slot's own test, for all others.
fn follow_word(slot: u64) -> u64
    ensures { follow_means result ≡ follow_for (rule (slot_of slot)) }
{
    match slot {
        0 => 0x1200000000000000, // version
        1 => 0x0604000000000000, // ari alone
        2 => 0x0608000000000000, // ari message
        3 | 27 => 0x060c000000000000, // ari inside, report_source
        4 => 0x0610000000000000, // ari param
        5 | 7 => 0x0870000000000000, // type alone, type inside
        6 => 0x0870000000000000, // type message
        8 => 0x08c8000000000000, // type param
        10 => 0x0030000000000000, // object_namespace false
        11 => 0x0034000000000000, // object_namespace true
        12 => 0x0038000000000000, // object_type false
        13 => 0x003c000000000000, // object_type true
        15 => 0x0040000000000000, // object_id true
        16 => 0x3200000000000000, // params
        17 => 0x244c000000000000, // key inside
        18 => 0x2450000000000000, // key param
        19 => 0x0644000000000000, // entry inside
        20 => 0x0648000000000000, // entry param
        21 | 24 => 0x0660000000000000, // nonce 20, target
        22 => 0x045c000000000000, // nonce 21
        23 | 25 => 0x0664000000000000, // set_time, report
        26 => 0x046c000000000000, // report_time
        9
        | 14
        | 28
        | 30
        | 32
        | 34
        | 36
        | 38
        | 40
        | 42
        | 44
        | 46
        | 48
        | 50
        | 52
        | 54
        | 56
        | 58
        | 60
        | 62
        | 64
        | 66
        | 68
        | 70 => 0x0200000000000000, // namespace, object_id false, values: nothing
        29
        | 31
        | 33
        | 35
        | 37
        | 39
        | 41
        | 43
        | 45
        | 47
        | 49
        | 51
        | 53
        | 55
        | 57
        | 59
        | 61
        | 63
        | 65
        | 67
        | 69
        | 71 => 0x0200000000000000,
        _ => 0x1204000000000000, // no slot: as the version, in other bits
    }
}

// What is due inside: for an array the slot at 0, eight bits, and at 8 how it comes; for a map the slot at 16, and 3 at 24. At 28 whether an ARI
// or an object reference is due. Neighbours with one word stand in two arms: a run of numbers in one arm would be compared, not looked up.
fn inside_word(slot: u64) -> u64
    ensures { inner_means result ≡ inner_for (rule (slot_of slot)) }
{
    match slot {
        0 | 5 | 7 | 9 | 11 | 13 | 15 | 17 | 21 | 23 | 26 => 0x00000000, // what holds nothing
        6 | 8 | 10 | 12 | 14 | 18 | 22 => 0x00000000,
        1 => 0x10000105, // ari alone
        2 => 0x10000106, // ari message
        3 | 19 => 0x10000107, // ari inside, entry inside
        4 | 20 => 0x10000108, // ari param, entry param
        24 | 27 => 0x10000200, // target, report_source
        25 => 0x0000051a, // report
        28 | 30 | 32 | 34 | 36 | 38 | 40 | 42 | 44 | 46 => 0x03110303, // value 0 to 19 inside
        29 | 31 | 33 | 35 | 37 | 39 | 41 | 43 | 45 | 47 => 0x03110303,
        48 => 0x03110415, // value 20 inside
        49 => 0x03110516, // value 21 inside
        16 | 50 | 52 | 54 | 56 | 58 | 60 | 62 | 64 | 66 | 68 => 0x03120304, // params, value 0 to 19 param
        51 | 53 | 55 | 57 | 59 | 61 | 63 | 65 | 67 | 69 => 0x03120304,
        70 => 0x03120415, // value 20 param
        71 => 0x03120516, // value 21 param
        _ => 0x00000000,
    }
}

// The same for the walk alone: what has one caller is put into it, so that the walk looks up what it opens without a call.
fn walk_inside_word(slot: u64) -> u64
    ensures { inner_means result ≡ inner_for (rule (slot_of slot)) }
{
    match slot {
        0 | 5 | 7 | 9 | 11 | 13 | 15 | 17 | 21 | 23 | 26 => 0x00000000,
        6 | 8 | 10 | 12 | 14 | 18 | 22 => 0x00000000,
        1 => 0x10000105,
        2 => 0x10000106,
        3 | 19 => 0x10000107,
        4 | 20 => 0x10000108,
        24 | 27 => 0x10000200,
        25 => 0x0000051a, // a report, as above
        28 | 30 | 32 | 34 | 36 | 38 | 40 | 42 | 44 | 46 => 0x03110303,
        29 | 31 | 33 | 35 | 37 | 39 | 41 | 43 | 45 | 47 => 0x03110303,
        48 => 0x03110415,
        49 => 0x03110516,
        16 | 50 | 52 | 54 | 56 | 58 | 60 | 62 | 64 | 66 | 68 => 0x03120304,
        51 | 53 | 55 | 57 | 59 | 61 | 63 | 65 | 67 | 69 => 0x03120304,
        70 => 0x03120415,
        71 => 0x03120516,
        _ => 0x00000000,
    }
}

// The arguments below 32 of a range, a bit each. With an arm for every number of five bits, and none that gives what the rest gives, the look-up
// needs no bound.
fn small(range: u64) -> u64
    requires { range < 32 }
    ensures { bits_of result ≡ small_of range }
{
    match range {
        0 => 0x00000000, // none
        1 => 0xffffffff, // all
        2 => 0xffffffff, // to 2^63 - 1
        3 => 0xffffffff, // to 255
        4 => 0xffffffff, // to 2^31 - 1
        5 => 0xffffffff, // to 2^32 - 1
        6 => 0x00f00000, // 20 to 23
        7 => 0x00300000, // 20 and 21
        8 => 0x00400000, // 22
        9 => 0x0000001e, // 1 to 4
        10 => 0x00000004, // 2
        11 => 0x00000018, // 3 and 4
        12 => 0xfffffffe, // from 1 on
        13 => 0xfffffffc, // from 2 on
        14 => 0x0036bff7, // types alone
        15 => 0x00300000, // types in a message
        16 => 0x0006bff7, // types inside
        17 => 0x0006fff7, // types in parameters
        18 | 20 | 22 | 24 | 26 | 28 | 30 => 0, // no range
        19 | 21 | 23 | 25 | 27 | 29 | 31 => 0,
        _ => 1,
    }
}

// The greatest argument of a range, if 32 or more are in it.
fn top(range: u64) -> u64
    requires { range < 32 }
    ensures { result ≡ top_of range }
{
    match range {
        0 => 0, // none
        1 => 0xffffffffffffffff, // all
        2 => 0x7fffffffffffffff, // to 2^63 - 1
        3 => 0xff, // to 255
        4 => 0x7fffffff, // to 2^31 - 1
        5 => 0xffffffff, // to 2^32 - 1
        6 => 0, // 20 to 23
        7 => 0, // 20 and 21
        8 => 0, // 22
        9 => 0, // 1 to 4
        10 => 0, // 2
        11 => 0, // 3 and 4
        12 => 0xffffffffffffffff, // from 1 on
        13 => 0xffffffffffffffff, // from 2 on
        14 => 0, // types alone
        15 => 0, // types in a message
        16 => 0, // types inside
        17 => 0, // types in parameters
        18 | 20 | 22 | 24 | 26 | 28 | 30 => 0, // no range
        19 | 21 | 23 | 25 | 27 | 29 | 31 => 0,
        _ => 1,
    }
}

// Test 7 by a slot's word.
pub fn fits_by(word: u64, kind: u8, arg: u64) -> bool
    ensures { result ≡ fits_word word kind arg }
{
    if cbor::DOUBLE < kind {
        return false;
    }
    let range = (word >> (kind as u64 * 5)) % 32;
    if arg < 32 {
        let bits = small(range);
        return (bits >> arg) % 2 == 1;
    }
    arg <= top(range)
}

// The bytes below 56 that are numbers which a slot without a test of its own takes, a bit each: 0 to 23 unsigned, 32 to 55 negative. Neighbours stand in
// two arms, as above.
fn number_bits(slot: u64) -> u64
    ensures { number_bits result ≡ numbers_of slot }
{
    match slot {
        1 | 3 | 9 | 11 | 19 | 23 | 41 | 63 => 0x00ffffff00ffffff, // ARIs, namespaces, times, INT, VAST, TP and TD
        4 | 10 | 20 | 26 | 32 | 34 | 40 | 54 | 56 | 62 => 0x00ffffff00ffffff,
        5 => 0x000000000036bff7, // type alone
        6 => 0x0000000000300000, // type message
        7 => 0x000000000006bff7, // type inside
        8 => 0x000000000006fff7, // type param
        12 => 0x00ffffff00000000, // object_type
        13 => 0x00ffffff00000000,
        14 | 22 | 30 | 52 => 0x0000000000ffffff, // object_id, nonces, BYTE, UINT, UVAST
        15 | 21 | 33 | 35 | 55 | 57 => 0x0000000000ffffff,
        0
        | 2
        | 16
        | 18
        | 24
        | 28
        | 36
        | 38
        | 42
        | 44
        | 46
        | 48
        | 50
        | 58
        | 60
        | 64
        | 66
        | 68
        | 70 => 0x0000000000000000, // all others
        17
        | 25
        | 27
        | 29
        | 31
        | 37
        | 39
        | 43
        | 45
        | 47
        | 49
        | 51
        | 53
        | 59
        | 61
        | 65
        | 67
        | 69
        | 71 => 0x0000000000000000,
        _ => 0x0100000000000000, // no slot: none, in a bit that nobody looks at
    }
}

// Whether a byte is such a number.
pub fn takes_number(slot: u64, b: u8) -> bool
    ensures { result ≡ takes_number slot b }
{
    let x = wide(b);
    if 55 < x {
        return false;
    }
    let bits = number_bits(slot);
    (bits >> x) % 2 == 1
}

// The slot's own test, as NO_TEST and the constants behind it.
pub fn extra_test(slot: u64) -> u64
    ensures { result ≡ extra_of slot }
{
    (follow_word(slot) >> 60) % 4
}

// Whether an ARI or an object reference is due.
pub fn takes_reference(slot: u64) -> bool
    ensures { result ≡ takes_reference_of slot }
{
    (inside_word(slot) >> 28) % 2 == 1
}

// So many of a slot.
fn many(slot: u64, count: u64) -> Next
    requires { IsSlot slot }
    ensures { result ≡ many_of slot count }
{
    if count == 0 {
        return Next::Done;
    }
    Next::Due {
        slot,
        more: count - 1,
    }
}

// A number, or 0, by a bit.
fn if_set(bit: u64, n: u64) -> u64
    ensures { (result ≡ if_set bit n) × (result ≤ n) }
{
    if bit == 0 {
        return 0;
    }
    n
}

// A type's number; 0 for what is none, so that a slot follows.
fn type_number(arg: u64) -> u64
    ensures { (result ≡ type_number arg) × (result < 22) }
{
    if arg < TYPES {
        return arg;
    }
    0
}

// What is due beside a head, by its slot's word.
pub fn next_by(word: u64, arg: u64, more: u64) -> Next
    ensures { result ≡ next_word word arg more }
{
    let took = (word >> 57) % 2;
    let rest = if_set((word >> 58) % 2, more);
    if rest < took {
        return Next::Done;
    }
    Next::Due {
        slot: (word >> 50) % 128 + if_set((word >> 59) % 2, type_number(arg)),
        more: rest - took,
    }
}

// What is due beside a head at the slot.
pub fn next_slot(slot: u64, arg: u64, more: u64) -> Next
    ensures { result ≡ next_code slot arg more }
{
    next_by(follow_word(slot), arg, more)
}

fn minus(a: u64, b: u64) -> u64
    ensures { result ≡ a - b }
{
    if a < b {
        return 0;
    }
    a - b
}

// The members of an array where an ARI is due: [ns], a typed literal, an object reference, the same with parameters.
fn in_ari(type_slot: u64, length: u64) -> Next
    requires { IsSlot type_slot }
    ensures { result ≡ next_of (in_ari_of type_slot length) }
{
    if length == 2 {
        return Next::Due {
            slot: type_slot,
            more: 0,
        };
    }
    in_reference(length)
}

fn in_reference(length: u64) -> Next
    ensures { result ≡ next_of (reference_level length) }
{
    match length {
        1 => Next::Due {
            slot: NAMESPACE,
            more: 0,
        },
        4 => Next::Due {
            slot: OBJECT_NAMESPACE_PARAMS,
            more: 0,
        },
        _ => Next::Due {
            slot: OBJECT_NAMESPACE,
            more: 0,
        },
    }
}

fn in_array(word: u64, length: u64) -> Next
    requires { IsSlot (word % 256) }
    ensures { result ≡ next_of (in_array_of word length) }
{
    let form = (word >> 8) % 16;
    let to = word % 256;
    if form < AS_LIST {
        if form == AS_ARI {
            return in_ari(to, length);
        }
        if form == NO_MEMBERS {
            return Next::Done;
        }
        return in_reference(length);
    }
    if form == AS_LIST {
        return many(to, length);
    }
    Next::Due {
        slot: to,
        more: minus(length, form - AS_LIST),
    }
}

fn in_map(word: u64, pairs: u64) -> Next
    requires { IsSlot (field word 16 256) }
    ensures { result ≡ next_of (in_map_of word pairs) }
{
    let form = (word >> 24) % 16;
    let to = (word >> 16) % 256;
    if form == AS_LIST {
        return many(to, pairs);
    }
    Next::Done
}

// What is due inside a head at the slot.
pub fn inside(slot: u64, kind: u8, arg: u64) -> Next
    ensures { result ≡ inside_code slot kind arg }
{
    if kind < cbor::ARRAY {
        return Next::Done;
    }
    if cbor::MAP < kind {
        return Next::Done;
    }
    let word = inside_word(slot);
    if kind == cbor::ARRAY {
        return in_array(word, arg);
    }
    in_map(word, arg)
}

// The same for the walk alone.
pub fn walk_members(slot: u64, kind: u8, arg: u64) -> Next
    ensures { result ≡ inside_code slot kind arg }
{
    if kind < cbor::ARRAY {
        return Next::Done;
    }
    if cbor::MAP < kind {
        return Next::Done;
    }
    let word = walk_inside_word(slot);
    if kind == cbor::ARRAY {
        return in_array(word, arg);
    }
    in_map(word, arg)
}

// Identifiers and namespace names.
fn wide(x: u8) -> u64
    ensures { (result ≡ x) × (result < 256) }
{
    x as u64
}

// The bytes from 64 to 127 that stand in a name, a bit each: letters and underscore. A test by bits costs no branch that bytes decide.
const LETTERS: u64 = 0x07fffffe87fffffe;

// Those below 64: digits, hyphen and full stop.
const DIGITS: u64 = 0x03ff600000000000;

fn starts_name(b: u8) -> bool
    ensures { result ≡ starts_name b }
{
    let x = wide(b);
    if x < 64 {
        return false;
    }
    if 127 < x {
        return false;
    }
    (LETTERS >> (x % 64)) % 2 == 1
}

// The bits of the bytes around this one. With an arm for each number of two bits the look-up needs no bound.
fn name_bits(x: u64) -> u64
    requires { x < 256 }
    ensures { result ≡ name_bits x }
{
    match x / 64 {
        0 => DIGITS,
        1 => LETTERS,
        2 => 0,
        3 => 0,
        _ => 1,
    }
}

pub fn continues_name(b: u8) -> bool
    ensures { result ≡ continues_name b }
{
    let x = wide(b);
    let bits = name_bits(x);
    (bits >> (x % 64)) % 2 == 1
}

// The bytes from `at` on are an identifier.
fn is_identifier_at(s: &[u8], at: usize) -> bool
    ensures { result ≡ identifier (drop at s.now) }
{
    if s.len() <= at {
        return false;
    }
    if 64 < s.len() - at {
        return false;
    }
    if starts_name(s[at]) {
        let mut i = at + 1;
        while i < s.len() {
            if continues_name(s[i]) {
                i += 1;
                continue;
            }
            return false;
        }
        return true;
    }
    false
}

pub fn is_identifier(s: &[u8]) -> bool
    ensures { result ≡ identifier s.now }
{
    is_identifier_at(s, 0)
}

// "!" starts no identifier, so one test tells which form it is.
pub fn is_namespace_name(s: &[u8]) -> bool
    ensures { result ≡ namespace_name s.now }
{
    if s.len() == 0 {
        return false;
    }
    if s[0] == b'!' {
        return is_identifier_at(s, 1);
    }
    is_identifier_at(s, 0)
}
