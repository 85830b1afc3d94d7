// What the arguments of a program say.
#![tactic(auto)]

ghost use Rattle.std.specs.Prelude.{◌≤◌, length};

use std::env::{Env, FillError};

// No argument; the one word that may stand there; or anything else.
#[derive(Clone, Copy, PartialEq, Eq)]
pub enum Choice {
    Plain,
    Word,
    Unknown,
}

// Whether there is an argument k. Its bytes need no room for that.
pub fn is_given(rt: &impl Env, k: usize) -> bool {
    !matches!(rt.arg(k, &mut []), Err(FillError::NotPresent))
}

// Argument k at the start of a buffer: so many bytes, and none where it is missing or has no room.
pub fn put(rt: &impl Env, k: usize, word: &mut [u8]) -> usize
    ensures { result ≤ length word.new }
{
    rt.arg(k, word).unwrap_or(0)
}

// Room for a word: more than any that is asked for has, so that no longer one passes for it.
const WORD: usize = 8;

// Whether a word is the only argument.
pub fn asked(rt: &impl Env, word: &[u8]) -> Choice {
    if !is_given(rt, 1) {
        return Choice::Plain;
    }
    if is_given(rt, 2) {
        return Choice::Unknown;
    }
    let mut given = [0u8; WORD];
    let n = put(rt, 1, &mut given);
    if &given[..n] == word {
        Choice::Word
    } else {
        Choice::Unknown
    }
}

// Room for a number: more than any has, so that no longer word passes for one.
const NUMBER: usize = 32;

// Argument k, in plain decimal.
pub fn number(rt: &impl Env, k: usize) -> Option<u64> {
    let mut word = [0u8; NUMBER];
    let n = put(rt, k, &mut word);
    buffer::unsigned(&word[..n])
}
