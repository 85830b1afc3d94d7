// Search of a day file: the references whose namespace is a number, or a name that stands for it, in all messages.
#![tactic(auto)]

ghost use Rattle.std.specs.Prelude.{◌≡◌, ◌++◌, ◌+◌, ◌/◌, ◌<◌, ◌≤◌, min, length};
ghost use Rattle.std.proofs.lemmas.List.Edits.{sets};
ghost use Rattle.std.specs.declared.result.Result.TheVariants.{Ok};
ghost use Rattle.buffer.specs.Bytes.{be};
ghost use Rattle.ari.specs.declared.Input.TheVariants as input;
ghost use Rattle.ari.specs.Limits.{gate_limits, capped};
ghost use Rattle.item_table.specs.Entries.{Tabled};
ghost use Rattle.names.specs.Translated.{stands_by, translated};
ghost use Rattle.day_file.specs.Day.{check_day};
ghost use Rattle.day_search.specs.Search.{hits_in, hits, search_day, room_after};
ghost use Rattle.day_search.specs.Tally.{is_sought, hits_within, hits_over, Finds, found_or};

use ari::{Fault, Input, Limits, Refusal};
use day_file::Format;
use listing::{Namespace, Reference};
use names::Names;

#[tactic(auto, using(crate::proofs::Finding::seeks))]
fn is_sought<'a>(
    published: &'a [u8],
    own: &'a [u8],
    s: &[u8],
    namespace: Namespace,
    word: u64,
) -> bool
    ensures { result ≡ is_sought word (stands_by published.now own.now s.now namespace) }
{
    match names::stands_for(published, own, s, namespace) {
        Namespace::Number(number) => number == word,
        Namespace::Name { .. } => false,
        Namespace::Relative => false,
    }
}

// The 24 bytes of an entry.
#[tactic(auto, using(crate::proofs::Finding::hit_put))]
fn put_hit(out: &mut [u8], at: usize, message: u64, first: u64, after: u64)
    ensures { out.new ≡ sets out.old at (be 8 message ++ (be 8 first ++ be 8 after)) }
{
    let a = buffer::put8(out, at, message);
    let b = buffer::put8(out, a, first);
    buffer::put8(out, b, after);
}

// The matching references of a table, by their places in the file: entries from number `before` on, as far as there is room; the number behind them.
#[tactic(auto, using(crate::proofs::Finding::findings))]
fn find_table<'a>(
    s: &[u8],
    limits: Limits,
    count: usize,
    entries: &[u64],
    published: &'a [u8],
    own: &'a [u8],
    word: u64,
    message: usize,
    base: usize,
    out: &mut [u8],
    before: usize,
) -> usize
    requires tabled { Tabled limits input.Message s.now count entries.now }
    requires base_bound { (base < 4294967296) × (before < 4294967296) }
    ensures finds { Finds out.old out.new before result (hits_in word message base (translated published.now own.now s.now)) }
    ensures upper_bound { result ≤ before + limits.items }
{
    let mut found = before;
    for k in 0..count {
        let Reference::To {
            first,
            after,
            namespace,
        } = listing::reference_at(s, entries[k])
        else {
            continue;
        };
        if !is_sought(published, own, s, namespace, word) {
            continue;
        }
        put_hit(
            out,
            24 * found,
            message as u64,
            (base + first) as u64,
            (base + after) as u64,
        );
        found += 1;
    }
    found
}

// Those of a message; of one that is refused none.
#[tactic(auto, using(crate::proofs::Finding::messages))]
fn find_message<'a>(
    limits: Limits,
    s: &[u8],
    published: &'a [u8],
    own: &'a [u8],
    word: u64,
    message: usize,
    base: usize,
    out: &mut [u8],
    before: usize,
    table: &mut [u64],
) -> usize
    requires s_in_bounds { (min limits.items (length s.now) ≤ length table.old) × (limits.bytes < 65536) × (limits.containers < 256) }
    requires base_bound { (base < 4294967296) × (before < 4294967296) }
    ensures finds { Finds out.old out.new before result (hits_within limits published.now own.now word message base s.now) }
    ensures upper_bound { result ≤ before + limits.items }
{
    match reader::keep(Input::Message, limits, s, table) {
        Ok(count) => find_table(
            s, limits, count, table, published, own, word, message, base, out, before,
        ),
        Err(_) => before,
    }
}

// Those of so many messages, and how many they are. The table serves one message after the other.
#[tactic(auto, using(crate::proofs::Finding::days))]
fn find_day<'a>(
    format: Format,
    limits: Limits,
    file: &[u8],
    count: usize,
    published: &'a [u8],
    own: &'a [u8],
    word: u64,
    out: &mut [u8],
    table: &mut [u64],
) -> usize
    requires { (limits.items ≤ gate_limits.items) × (gate_limits.items ≤ length table.old) × (limits.bytes < 65536) × (limits.containers < 256) × (count < 65536) }
    ensures { Finds out.old out.new 0 result (hits_over format limits file.now published.now own.now word 0 count) }
{
    let mut found = 0;
    for k in 0..count {
        let s = day_file::message_at(format, file, k);
        let base = day_file::first_at(format, file, k);
        found = find_message(limits, s, published, own, word, k, base, out, found, table);
    }
    found
}

// Those of a file that passes. It has no more than half as many references as bytes: only for less room are they counted, with no room at all, before any is put.
#[tactic(auto, using(crate::proofs::Searching::rooms))]
fn search_messages<'a>(
    format: Format,
    limits: Limits,
    file: &[u8],
    count: usize,
    published: &'a [u8],
    own: &'a [u8],
    word: u64,
    out: &mut [u8],
    table: &mut [u64],
) -> Result<usize, Refusal>
    requires limits_le_gate_limits { (limits.items ≤ gate_limits.items) × (gate_limits.items ≤ length table.old) × (limits.bytes < 65536) × (limits.containers < 256) × (count < 65536) }
    requires count_value { Ok count ≡ check_day format limits file.now }
    ensures value { result ≡ found_or (length (hits_over format limits file.now published.now own.now word 0 count)) (length out.old / 24) }
    ensures out_after { out.new ≡ room_after result (hits_over format limits file.now published.now own.now word 0 count) out.old }
{
    if file.len() / 2 <= out.len() / 24 {
        let found = find_day(
            format, limits, file, count, published, own, word, out, table,
        );
        return Ok(found);
    }
    let found = find_day(
        format,
        limits,
        file,
        count,
        published,
        own,
        word,
        &mut [],
        table,
    );
    if out.len() / 24 < found {
        return Err(Refusal {
            fault: Fault::NoRoom,
            place: found,
        });
    }
    let put = find_day(
        format, limits, file, count, published, own, word, out, table,
    );
    Ok(put)
}

#[tactic(auto, using(crate::proofs::Searching::searches))]
fn search_within<'a>(
    format: Format,
    limits: Limits,
    file: &[u8],
    published: &'a [u8],
    own: &'a [u8],
    word: u64,
    out: &mut [u8],
) -> Result<usize, Refusal>
    requires { (limits.items ≤ gate_limits.items) × (limits.bytes < 65536) × (limits.containers < 256) }
    ensures value { result ≡ search_day format limits file.now published.now own.now word (length out.old / 24) }
    ensures out_after { out.new ≡ room_after result (hits format file.now published.now own.now word) out.old }
{
    let count = day_file::check(format, limits, file)?;
    match names::check_names(published, own) {
        Names::Refused { place } => Err(Refusal {
            fault: Fault::BadLine,
            place: place as usize,
        }),
        Names::Passes => {
            let mut table = [0u64; ari::ITEMS];
            search_messages(
                format, limits, file, count, published, own, word, out, &mut table,
            )
        }
    }
}

// The references in a day file, with messages within these limits, none above the gate's own, whose namespace is or by the lists stands for a number that is
// given in two's complement. The entries written; or the file's refusal, 19 with the place of a line, 16 with the number of entries.
pub fn search<'a>(
    format: Format,
    limits: Limits,
    file: &[u8],
    published: &'a [u8],
    own: &'a [u8],
    word: u64,
    out: &mut [u8],
) -> Result<usize, Refusal>
    ensures value { result ≡ search_day format (capped limits) file.now published.now own.now word (length out.old / 24) }
    ensures out_after { out.new ≡ room_after result (hits format file.now published.now own.now word) out.old }
{
    search_within(format, ari::cap(limits), file, published, own, word, out)
}
