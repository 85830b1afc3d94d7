// Answers as one number, as host/surfbodkin.h says: the top byte 0, a refusal's number or 255, and 56 bits below.
#![tactic(auto)]

ghost use Rattle.std.specs.Prelude.{◌≡◌, ◌-◌};
ghost use Rattle.grants.specs.Verdict.{check_of};
ghost use Rattle.release.specs.Release.{answer_of as released_of};
ghost use Rattle.release.specs.Compared.{count_after};
ghost use Rattle.answer_codes.specs.Code.{refusal_code, code_of, count_code, check_code, list_code, table_code, release_code, held_code, why_code, text_code, fed_code, same_code, compare_code, names_code, number_code, number_after, day_code, find_code, add_code, search_code, strike_code, month_code, shown_code};

use ari::Refusal;
use comparison::Compared;
use day_file::{Added, Found};
use listing::Listed;
use names::Names;
use release::Released;
use strike::Struck;
use text_write::Written;
use why_held::Outcome;

// The top byte is the refusal's number, the low 56 bits its place.
fn refusal_code(number: u8, low: u64) -> u64
    ensures { result ≡ refusal_code number low }
{
    number as u64 * 72057594037927936 + buffer::least(low as usize, 72057594037927935) as u64
}

fn code_of(refusal: Refusal) -> u64
    ensures { result ≡ code_of refusal }
{
    refusal_code(refusal.fault.number(), refusal.place as u64)
}

// An acceptance: the item count in bits 32 to 55, a length or a number of entries below.
fn count_code(count: usize, low: usize) -> u64
    ensures { result ≡ count_code count low }
{
    buffer::least(count, 16777215) as u64 * 4294967296 + buffer::least(low, 4294967295) as u64
}

pub fn check_code(a: Result<usize, Refusal>) -> u64
    ensures { result ≡ check_code a }
{
    match a {
        Ok(count) => count_code(count, 0),
        Err(refusal) => code_of(refusal),
    }
}

pub fn list_code(a: Result<Listed, Refusal>) -> u64
    ensures { result ≡ list_code a }
{
    match a {
        Ok(Listed { listed, count }) => count_code(count, listed),
        Err(refusal) => code_of(refusal),
    }
}

pub fn fed_code(a: Result<(), Refusal>) -> u64
    ensures { result ≡ fed_code a }
{
    match a {
        Ok(()) => 0, // go on
        Err(refusal) => code_of(refusal),
    }
}

pub fn same_code(a: Result<bool, Refusal>) -> u64
    ensures { result ≡ same_code a }
{
    match a {
        Ok(true) => 1,
        Ok(false) => 0,
        Err(refusal) => code_of(refusal),
    }
}

pub fn compare_code(a: Result<Compared, Refusal>) -> u64
    ensures { result ≡ compare_code a }
{
    match a {
        Ok(Compared { different, entries }) => count_code(different, entries),
        Err(Refusal { fault, place }) => refusal_code(fault.number(), place as u64),
    }
}

pub fn names_code(a: Names) -> u64
    ensures { result ≡ names_code a }
{
    match a {
        Names::Passes => 0,
        Names::Refused { place } => refusal_code(19, place),
    }
}

pub fn number_code(a: Option<u64>) -> u64
    ensures { result ≡ number_code a }
{
    match a {
        Some(_) => 1,
        None => 0,
    }
}

// The number, if the name has one.
pub fn put_number(a: Option<u64>, number: &mut u64)
    ensures { number.new ≡ number_after a number.old }
{
    match a {
        Some(word) => *number = word,
        None => {}
    }
}

pub fn table_code(a: Result<(), Refusal>) -> u64
    ensures { result ≡ table_code (check_of a) }
{
    match a {
        Ok(()) => 0,
        Err(clash) => refusal_code(clash.fault.number(), clash.place as u64),
    }
}

pub fn release_code(a: Result<Released, Refusal>) -> u64
    ensures { result ≡ release_code (released_of a) }
{
    match a {
        Ok(Released::Yes { .. }) => 0,
        Ok(Released::No { entry, .. }) => refusal_code(255, entry as u64),
        Err(e) => refusal_code(e.fault.number(), e.place as u64),
    }
}

// The rows compared, if the answer has them.
pub fn put_compared(a: Result<Released, Refusal>, compared: &mut u64)
    ensures { compared.new ≡ count_after a compared.old }
{
    match a {
        Ok(Released::Yes { compared: c }) => *compared = c,
        Ok(Released::No { compared: c, .. }) => *compared = c,
        Err(_) => {}
    }
}

// Held: the entry in bits 0 to 31, the links in 32 to 47, the reason in 48 to 55.
fn held_code(entry: usize, reason: u64, links: usize) -> u64
    ensures { result ≡ held_code entry reason links }
{
    18374686479671623680
        + buffer::least(reason as usize, 255) as u64 * 281474976710656
        + buffer::least(links, 65535) as u64 * 4294967296
        + buffer::least(entry, 4294967295) as u64
}

pub fn why_code(a: Result<Outcome, Refusal>) -> u64
    ensures { result ≡ why_code a }
{
    match a {
        Ok(Outcome::Released) => 0,
        Ok(
            Outcome::Held {
                entry,
                reason,
                links,
            },
        ) => held_code(entry, reason, links),
        Err(e) => refusal_code(e.fault.number(), e.place as u64),
    }
}

pub fn text_code(a: Result<Written, Refusal>) -> u64
    ensures { result ≡ text_code a }
{
    match a {
        Ok(Written { length, count }) => count_code(count, length),
        Err(refusal) => code_of(refusal),
    }
}

pub fn day_code(a: Result<usize, Refusal>) -> u64
    ensures { result ≡ day_code a }
{
    match a {
        Ok(messages) => count_code(0, messages),
        Err(refusal) => code_of(refusal),
    }
}

// The bytes from one place to another.
fn bytes_between(from: usize, to: usize) -> usize
    ensures { result ≡ to - from }
{
    if to < from {
        return 0;
    }
    to - from
}

pub fn find_code(a: Result<Found, Refusal>) -> u64
    ensures { result ≡ find_code a }
{
    match a {
        Ok(found) => count_code(bytes_between(found.from, found.to), found.from),
        Err(refusal) => code_of(refusal),
    }
}

pub fn add_code(a: Result<Added, Refusal>) -> u64
    ensures { result ≡ add_code a }
{
    match a {
        Ok(added) => count_code(added.messages, added.bytes),
        Err(refusal) => code_of(refusal),
    }
}

pub fn search_code(a: Result<usize, Refusal>) -> u64
    ensures { result ≡ search_code a }
{
    match a {
        Ok(found) => count_code(0, found),
        Err(refusal) => code_of(refusal),
    }
}

pub fn strike_code(a: Result<Struck, Refusal>) -> u64
    ensures { result ≡ strike_code a }
{
    match a {
        Ok(Struck { items, bytes }) => count_code(items, bytes),
        Err(refusal) => code_of(refusal),
    }
}

pub fn month_code(a: Result<(), Refusal>) -> u64
    ensures { result ≡ month_code a }
{
    match a {
        Ok(()) => 0, // done
        Err(refusal) => code_of(refusal),
    }
}

pub fn shown_code(a: Result<usize, Refusal>) -> u64
    ensures { result ≡ shown_code a }
{
    match a {
        Ok(lines) => count_code(0, lines),
        Err(refusal) => code_of(refusal),
    }
}
