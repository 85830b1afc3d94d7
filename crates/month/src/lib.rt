// Month figures: day files are counted one after another into a lent state. A file is counted in a copy, which takes the state's place when all of it was
// taken: of a file that is refused half way only the reading was in vain.
#![tactic(auto)]

ghost use Rattle.std.specs.Prelude.{◌≡◌, ◌+◌, ◌<◌, ◌≤◌, min, length, drop, map};
ghost use Rattle.std.proofs.lemmas.List.Edits.{sets};
ghost use Rattle.std.proofs.Math.Seq.{paste};
ghost use Rattle.ari.specs.declared.Input.TheVariants as input;
ghost use Rattle.ari.specs.Limits.{gate_limits, capped};
ghost use Rattle.item_table.specs.Entries.{Tabled};
ghost use Rattle.names.specs.Translated.{translated};
ghost use Rattle.month_figures.specs.Figures.{space_of};
ghost use Rattle.month_figures.specs.State.{words};
ghost use Rattle.day_file.specs.Versions.{format_of, limits_of};
ghost use Rattle.month.specs.Adding.{source_of, Adds};
ghost use Rattle.month.specs.Code.{with_code, with_spaces, Goes, sized, MessageWalked, tally_in, tally_words, Fetches, put_back, totals_small, lines_small, Judges, Settles, CountedOn, Files};

use ari::{Fault, Input, Limits, Refusal};
use day_file::Format;
use listing::{Namespace, Reference};
use names::Names;

// The totals of a month, and how many lines there are.
#[derive(Clone, Copy)]
pub struct Tally {
    pub messages: u64,
    pub bytes: u64,
    pub items: u64,
    pub unknown: u64,
    pub relative: u64,
    pub lines: usize,
}

// One reference more: to a number, by a name that stands for none, or with no namespace.
#[tactic(auto, using(crate::proofs::Counting::counts))]
fn count_space(places: &mut [u64], amounts: &mut [u64], t: Tally, namespace: Namespace) -> Tally
    requires { (256 ≤ length places.old) × (256 ≤ length amounts.old) }
    ensures { Goes t places.old amounts.old (with_code namespace) result places.new amounts.new }
{
    match namespace {
        Namespace::Number(word) => Tally {
            lines: month_lines::count(places, amounts, t.lines, month_figures::turned(word)),
            ..t
        },
        Namespace::Name { .. } => Tally {
            unknown: month_lines::more(t.unknown, 1),
            ..t
        },
        Namespace::Relative => Tally {
            relative: month_lines::more(t.relative, 1),
            ..t
        },
    }
}

// A message more, with so many bytes and items.
#[tactic(auto, using(crate::proofs::Counting::counts))]
fn with_size(t: Tally, bytes: usize, items: usize) -> Tally
    ensures { result ≡ sized t bytes items }
{
    Tally {
        messages: month_lines::more(t.messages, 1),
        bytes: month_lines::more(t.bytes, bytes as u64),
        items: month_lines::more(t.items, items as u64),
        ..t
    }
}

// The references of a table.
#[tactic(auto, using(crate::proofs::Walking::spacings))]
fn count_table<'a>(
    s: &[u8],
    limits: Limits,
    count: usize,
    entries: &[u64],
    published: &'a [u8],
    own: &'a [u8],
    places: &mut [u64],
    amounts: &mut [u64],
    t: Tally,
) -> Tally
    requires tabled { Tabled limits input.Message s.now count entries.now }
    requires in_bounds { (256 ≤ length places.old) × (256 ≤ length amounts.old) }
    ensures { Goes t places.old amounts.old (with_spaces (map space_of (translated published.now own.now s.now))) result places.new amounts.new }
{
    let mut tally = t;
    for k in 0..count {
        let Reference::To { namespace, .. } = listing::reference_at(s, entries[k]) else {
            continue;
        };
        let space = names::stands_for(published, own, s, namespace);
        tally = count_space(places, amounts, tally, space);
    }
    tally
}

// A message's size and references, if it is accepted.
#[tactic(auto, using(crate::proofs::Walking::messages))]
fn count_message<'a>(
    limits: Limits,
    s: &[u8],
    published: &'a [u8],
    own: &'a [u8],
    places: &mut [u64],
    amounts: &mut [u64],
    t: Tally,
    table: &mut [u64],
) -> Result<Tally, Refusal>
    requires s_in_bounds { (min limits.items (length s.now) ≤ length table.old) × (limits.bytes < 65536) × (limits.containers < 256) }
    requires in_bounds { (256 ≤ length places.old) × (256 ≤ length amounts.old) }
    ensures { MessageWalked limits s.now published.now own.now t places.old amounts.old result places.new amounts.new }
{
    let count = reader::keep(Input::Message, limits, s, table)?;
    let sized = with_size(t, s.len(), count);
    Ok(count_table(
        s, limits, count, table, published, own, places, amounts, sized,
    ))
}

#[tactic(auto, using(crate::proofs::Keeping::loaded))]
fn load(state: &[u64]) -> Tally
    requires { words ≤ length state.now }
    ensures value { result ≡ tally_in state.now }
    ensures lines_bound { result.lines ≤ 256 }
{
    Tally {
        messages: state[month_figures::MESSAGES],
        bytes: state[month_figures::BYTES],
        items: state[month_figures::ITEMS],
        unknown: state[month_figures::UNKNOWN],
        relative: state[month_figures::RELATIVE],
        lines: (state[month_figures::COUNT] as usize).min(month_lines::LINES),
    }
}

// A state's figures, to count on.
#[tactic(auto, using(crate::proofs::Keeping::fetched))]
fn fetch(state: &[u64], places: &mut [u64], amounts: &mut [u64]) -> Tally
    requires { (words ≤ length state.now) × (256 ≤ length places.old) × (256 ≤ length amounts.old) }
    ensures { Fetches state.now result places.new amounts.new }
{
    let t = load(state);
    let lines = t.lines;
    places[..lines].copy_from_slice(&state[month_figures::PLACES..month_figures::PLACES + lines]);
    amounts[..lines].copy_from_slice(
        &state[month_figures::AMOUNTS..month_figures::AMOUNTS + lines],
    );
    t
}

fn store(state: &mut [u64], t: Tally)
    requires { words ≤ length state.old }
    ensures { state.new ≡ sets state.old 0 (tally_words t) }
{
    state[month_figures::MESSAGES] = t.messages;
    state[month_figures::BYTES] = t.bytes;
    state[month_figures::ITEMS] = t.items;
    state[month_figures::UNKNOWN] = t.unknown;
    state[month_figures::RELATIVE] = t.relative;
    state[month_figures::COUNT] = t.lines as u64;
}

// Figures back into a state.
#[tactic(auto, using(crate::proofs::Keeping::put_back_is))]
fn put_back(state: &mut [u64], t: Tally, places: &[u64], amounts: &[u64])
    requires { (words ≤ length state.old) × (256 ≤ length places.now) × (256 ≤ length amounts.now) × (t.lines ≤ 256) }
    ensures { state.new ≡ put_back state.old t places.now amounts.now }
{
    store(state, t);
    let lines = t.lines;
    state[month_figures::PLACES..month_figures::PLACES + lines].copy_from_slice(&places[..lines]);
    state[month_figures::AMOUNTS..month_figures::AMOUNTS + lines].copy_from_slice(
        &amounts[..lines],
    );
}

fn totals_small(t: Tally) -> bool
    ensures { result ≡ totals_small t }
{
    t.messages < month_lines::BEYOND
        && t.bytes < month_lines::BEYOND
        && t.items < month_lines::BEYOND
        && t.unknown < month_lines::BEYOND
        && t.relative < month_lines::BEYOND
}

#[tactic(auto, using(crate::proofs::Keeping::checks))]
fn lines_small(amounts: &[u64], lines: usize) -> bool
    requires { lines ≤ length amounts.now }
    ensures { result ≡ lines_small amounts.now lines }
{
    for i in 0..lines {
        if month_lines::BEYOND <= amounts[i] {
            return false;
        }
    }
    true
}

// Whether figures stay within 256 lines and 2^63 - 1.
#[tactic(auto, using(crate::proofs::Keeping::judges))]
fn judge(t: Tally, amounts: &[u64]) -> Result<(), Refusal>
    requires { 256 ≤ length amounts.now }
    ensures { Judges t amounts.now result }
{
    if month_lines::LINES < t.lines {
        return Err(Refusal {
            fault: Fault::MonthFull,
            place: 0,
        });
    }
    if !totals_small(t) || !lines_small(amounts, t.lines) {
        return Err(Refusal {
            fault: Fault::TotalTooLarge,
            place: 0,
        });
    }
    Ok(())
}

// The state takes the figures that a file has left, if they are within the bounds.
#[tactic(auto, using(crate::proofs::Keeping::settles))]
fn settle(state: &mut [u64], t: Tally, places: &[u64], amounts: &[u64]) -> Result<(), Refusal>
    requires { (words ≤ length state.old) × (256 ≤ length places.now) × (256 ≤ length amounts.now) }
    ensures { Settles state.old t places.now amounts.now result state.new }
{
    judge(t, amounts)?;
    put_back(state, t, places, amounts);
    Ok(())
}

// A state's figures, with the messages of a file whose trailer and table stand, each read once; or the number of the first that is refused. The table serves one
// after the other.
#[tactic(auto, using(crate::proofs::Walking::files, crate::proofs::Adding::counted_on))]
fn count_file<'a>(
    format: Format,
    limits: Limits,
    state: &[u64],
    file: &[u8],
    count: usize,
    published: &'a [u8],
    own: &'a [u8],
    places: &mut [u64],
    amounts: &mut [u64],
    table: &mut [u64],
) -> Result<Tally, usize>
    requires limits_le_gate_limits { (limits.items ≤ gate_limits.items) × (gate_limits.items ≤ length table.old) × (limits.bytes < 65536) × (limits.containers < 256) × (count < 65536) × (8 ≤ length file.now) }
    requires words_in_bounds { (words ≤ length state.now) × (256 ≤ length places.old) × (256 ≤ length amounts.old) }
    ensures { CountedOn format limits file.now count published.now own.now state.now result places.new amounts.new }
{
    let mut tally = fetch(state, places, amounts);
    for k in 0..count {
        let s = day_file::message_at(format, file, k);
        let Ok(counted) = count_message(limits, s, published, own, places, amounts, tally, table)
        else {
            return Err(k);
        };
        tally = counted;
    }
    Ok(tally)
}

// A file whose lists are well-formed. A refusal leaves the state as it is.
#[tactic(auto, using(crate::proofs::Adding::files, crate::proofs::Adding::messages))]
fn add_file<'a>(
    format: Format,
    limits: Limits,
    state: &mut [u64],
    file: &[u8],
    published: &'a [u8],
    own: &'a [u8],
    places: &mut [u64],
    amounts: &mut [u64],
    table: &mut [u64],
) -> Result<(), Refusal>
    requires limits_le_gate_limits { (limits.items ≤ gate_limits.items) × (gate_limits.items ≤ length table.old) × (limits.bytes < 65536) × (limits.containers < 256) }
    requires words_in_bounds { (words ≤ length state.old) × (256 ≤ length places.old) × (256 ≤ length amounts.old) }
    ensures { Files format limits file.now published.now own.now state.old result state.new }
{
    let count = day_file::outline(format, file)?;
    match count_file(
        format, limits, state, file, count, published, own, places, amounts, table,
    ) {
        Ok(tally) => settle(state, tally, places, amounts),
        Err(message) => Err(Refusal {
            fault: Fault::BadMessage,
            place: message,
        }),
    }
}

// Where the lists are wrong the file is only checked. The working memory is a copy of the lines, and the items of one message.
#[tactic(auto, using(crate::proofs::Adding::adds))]
fn add_listed<'a>(
    format: Format,
    limits: Limits,
    state: &mut [u64],
    file: &[u8],
    published: &'a [u8],
    own: &'a [u8],
) -> Result<(), Refusal>
    requires { (limits.items ≤ gate_limits.items) × (limits.bytes < 65536) × (limits.containers < 256) × (words ≤ length state.old) }
    ensures { Adds limits state.old (source_of format file.now published.now own.now) result state.new }
{
    match names::check_names(published, own) {
        Names::Passes => {
            let mut places = [0u64; month_lines::LINES];
            let mut amounts = [0u64; month_lines::LINES];
            let mut table = [0u64; ari::ITEMS];
            add_file(
                format,
                limits,
                state,
                file,
                published,
                own,
                &mut places,
                &mut amounts,
                &mut table,
            )
        }
        Names::Refused { place } => day_file::check(format, limits, file).and(Err(Refusal {
            fault: Fault::BadLine,
            place: place as usize,
        })),
    }
}

// Counts a day file of this format, with messages within these limits, none above the gate's own, into a month's state. The state is lent: any words are safe,
// and what is promised is for one that was opened, or is all zeros, and went through these calls only.
#[tactic(auto, using(crate::proofs::Adding::within))]
pub fn add_within<'a>(
    format: Format,
    limits: Limits,
    state: &mut [u64],
    file: &[u8],
    published: &'a [u8],
    own: &'a [u8],
) -> Result<(), Refusal>
    ensures { Adds (capped limits) state.old (source_of format file.now published.now own.now) result state.new }
{
    if state.len() < month_figures::WORDS {
        return Err(month_figures::TOO_SHORT);
    }
    add_listed(format, ari::cap(limits), state, file, published, own)
}

// The same by the version that the file's trailer names.
#[tactic(auto, using(crate::proofs::Adding::add_version))]
pub fn add<'a>(
    state: &mut [u64],
    file: &[u8],
    published: &'a [u8],
    own: &'a [u8],
) -> Result<(), Refusal>
    ensures { Adds (limits_of file.now) state.old (source_of (format_of file.now) file.now published.now own.now) result state.new }
{
    add_within(
        day_file::format_of(file),
        day_file::limits_of(file),
        state,
        file,
        published,
        own,
    )
}
