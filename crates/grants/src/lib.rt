// The grant table as bytes, 16 a row: its check, and what it grants.
#![tactic(auto)]

ghost use Rattle.std.specs.Prelude.{◌≡◌, ◌+◌, ◌*◌, ◌^◌, ◌≤◌, length, take, drop};
ghost use Rattle.ari.specs.Listing.{number};
ghost use Rattle.grants.specs.Grants.{some, clash, holds, granted};
ghost use Rattle.ari.specs.Signed.{signed};
ghost use Rattle.grants.specs.Bytes.{row_of, holds_at, rows, row_by, check_bytes};
ghost use Rattle.grants.specs.Verdict.{check_of};

use ari::{Fault, Refusal};

// The bytes of a row: its subscriber and its namespace, 8 each.
const ROW: usize = 16;

// A row holds both numbers.
fn holds_row(row: &[u8], subscriber: u64, namespace: u64) -> bool
    requires { 16 ≤ length row.now }
    ensures { result ≡ holds subscriber (signed namespace) (row_of row.now) }
{
    buffer::load8(row, 0) == subscriber && buffer::load8(row, 8) == namespace
}

// A whole row stands at a place and holds both.
#[tactic(auto, using(crate::proofs::RowWays::ways))]
pub fn holds_at(t: &[u8], at: usize, subscriber: u64, namespace: u64) -> bool
    ensures { result ≡ holds_at t.now at subscriber namespace }
{
    if t.len() < ROW || t.len() - ROW < at {
        return false;
    }
    holds_row(&t[at..], subscriber, namespace)
}

// Some whole row holds both. The namespace is a two's complement.
pub fn granted(t: &[u8], subscriber: u64, namespace: u64) -> bool
    ensures { result ≡ granted (rows t.now) subscriber (number (signed namespace)) }
{
    t.chunks_exact(ROW)
        .any(|row| holds_row(row, subscriber, namespace))
}

// A row is another subscriber's in the same negative namespace.
fn clashes(row: &[u8], subscriber: u64, namespace: u64) -> bool
    requires { (16 ≤ length row.now) × (2 ^ 63 ≤ namespace) }
    ensures { result ≡ clash (row_by subscriber namespace) (row_of row.now) }
{
    buffer::load8(row, 8) == namespace && buffer::load8(row, 0) != subscriber
}

fn has_partner(t: &[u8], subscriber: u64, namespace: u64) -> bool
    requires { 2 ^ 63 ≤ namespace }
    ensures { result ≡ some (clash (row_by subscriber namespace)) (rows t.now) }
{
    t.chunks_exact(ROW)
        .any(|row| clashes(row, subscriber, namespace))
}

// The row at a place has a partner among the rows before it: only a negative namespace can, and only then is one looked for.
#[tactic(auto, using(crate::proofs::RowWays::ways))]
fn is_second(t: &[u8], at: usize) -> bool
    requires { at + 16 ≤ length t.now }
    ensures { result ≡ some (clash (row_of (drop at t.now))) (rows (take at t.now)) }
{
    let namespace = buffer::load8(t, at + 8);
    if namespace < 9223372036854775808 {
        return false;
    }
    has_partner(&t[..at], buffer::load8(t, at), namespace)
}

// The first row with a partner among the rows before it. Bytes that are no whole rows are no table.
#[tactic(auto, using(crate::proofs::RowWays::ways))]
pub fn check_table(t: &[u8]) -> Result<(), Refusal>
    ensures { check_of result ≡ check_bytes t.now }
{
    let rows = t.len() / ROW;
    if t.len() % ROW != 0 {
        return Err(Refusal {
            fault: Fault::Clash,
            place: rows,
        });
    }
    for row in 0..rows {
        if is_second(t, ROW * row) {
            return Err(Refusal {
                fault: Fault::Clash,
                place: row,
            });
        }
    }
    Ok(())
}
