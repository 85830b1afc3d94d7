// Month figures: what they are, the words of a lent state that keep them, a state made fresh, and the figures as bytes.
#![tactic(auto)]

ghost use Rattle.std.specs.Prelude.{◌≡◌, ◌++◌, ◌≤◌, ◌<◌, length};
ghost use Rattle.std.proofs.lemmas.List.Edits.{sets};
ghost use Rattle.buffer.specs.Put.{Put};
ghost use Rattle.month_figures.specs.Figures.{turned};
ghost use Rattle.month_figures.specs.State.{words, word, Opens, Shows};
ghost use Rattle.month_figures.specs.Code.{no_figures, sums_of, totals_of, line_at, lines_at};

use ari::{Fault, Refusal};

// The words of a state.
pub const MESSAGES: usize = 0;

pub const BYTES: usize = 1;

pub const ITEMS: usize = 2;

pub const UNKNOWN: usize = 3; // references whose names stand for no number

pub const RELATIVE: usize = 4; // references with no namespace

pub const COUNT: usize = 5; // lines

pub const PLACES: usize = 6; // of the lines, in rising order

pub const AMOUNTS: usize = 262; // of references, by the lines' order

pub const WORDS: usize = 518;

// A state with fewer words, and the bytes that it needs.
pub const TOO_SHORT: Refusal = Refusal {
    fault: Fault::NoRoom,
    place: WORDS * 8,
};

const HALF: u64 = 9223372036854775808;

// The place of a namespace among all numbers in rising order, by its word in two's complement; and back.
#[tactic(auto, using(crate::proofs::Words::turns))]
pub fn turned(word: u64) -> u64
    ensures { result ≡ turned word }
{
    if word < HALF {
        word + HALF
    } else {
        word - HALF
    }
}

// No figures. The lines' words may stay: none of them is in use.
fn clear(state: &mut [u64])
    requires { words ≤ length state.old }
    ensures { state.new ≡ sets state.old 0 no_figures }
{
    state[..PLACES].fill(0);
}

// Begins a month: what was counted before is dropped.
#[tactic(auto, using(crate::proofs::Words::opens))]
pub fn open(state: &mut [u64]) -> Result<(), Refusal>
    ensures { Opens state.old result state.new }
{
    if state.len() < WORDS {
        return Err(TOO_SHORT);
    }
    clear(state);
    Ok(())
}

#[tactic(auto, using(crate::proofs::Words::totals))]
fn put_sums(state: &[u64], out: &mut [u8]) -> usize
    requires { words ≤ length state.now }
    ensures { Put out.old out.new 0 result (sums_of state.now) }
{
    let a = buffer::put8(out, 0, state[MESSAGES]);
    let b = buffer::put8(out, a, state[BYTES]);
    buffer::put8(out, b, state[ITEMS])
}

#[tactic(auto, using(crate::proofs::Words::totals))]
fn put_totals(state: &[u64], out: &mut [u8]) -> usize
    requires { words ≤ length state.now }
    ensures { Put out.old out.new 0 result (totals_of state.now) }
{
    let a = put_sums(state, out);
    let b = buffer::put8(out, a, state[UNKNOWN]);
    buffer::put8(out, b, state[RELATIVE])
}

#[tactic(auto, using(crate::proofs::Words::puts))]
fn put_line(state: &[u64], i: usize, out: &mut [u8], at: usize) -> usize
    requires { (words ≤ length state.now) × (i < 256) }
    ensures { Put out.old out.new at result (line_at state.now i) }
{
    let a = buffer::put8(out, at, turned(state[PLACES + i]));
    buffer::put8(out, a, state[AMOUNTS + i])
}

#[tactic(auto, using(crate::proofs::Words::puts))]
fn put_lines(state: &[u64], lines: usize, out: &mut [u8], at: usize) -> usize
    requires { (words ≤ length state.now) × (lines ≤ 256) }
    ensures { Put out.old out.new at result (lines_at state.now 0 lines) }
{
    let mut p = at;
    for i in 0..lines {
        p = put_line(state, i, out, p);
    }
    p
}

#[tactic(auto, using(crate::proofs::Words::puts))]
fn put_figures(state: &[u64], lines: usize, out: &mut [u8]) -> usize
    requires { (words ≤ length state.now) × (lines ≤ 256) }
    ensures { Put out.old out.new 0 result (totals_of state.now ++ lines_at state.now 0 lines) }
{
    let at = put_totals(state, out);
    put_lines(state, lines, out, at)
}

// The figures of a state, in lent room: how many lines were written, or 16 with the bytes needed. Any words are safe; what is promised is for a state that
// began empty.
#[tactic(auto, using(crate::proofs::Words::shows))]
pub fn show(state: &[u64], out: &mut [u8]) -> Result<usize, Refusal>
    ensures { Shows state.now out.old result out.new }
{
    if state.len() < WORDS {
        return Err(TOO_SHORT);
    }
    let lines = (state[COUNT] as usize).min(month_lines::LINES);
    let needed = 40 + 16 * lines;
    if out.len() < needed {
        return Err(Refusal {
            fault: Fault::NoRoom,
            place: needed,
        });
    }
    put_figures(state, lines, out);
    Ok(lines)
}
