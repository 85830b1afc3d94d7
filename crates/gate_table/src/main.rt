// Reads the text of a grant table from standard input and writes whether it passes its check: `passes ROWS`, or `refused 18 ROW`
// and a line that says which two rows clash. With the argument `pack` it writes the rows as bytes. A text that is no table is said
// on standard error.
#![tactic(auto)]

use arguments::Choice;
use std::io::Read;

// The bytes of a row.
const ROW: usize = 16;

fn subscriber_of(t: &[u8], row: usize) -> u64 {
    buffer::load8(t, row.saturating_mul(ROW))
}

fn namespace_of(t: &[u8], row: usize) -> u64 {
    buffer::load8(t, row.saturating_mul(ROW).saturating_add(8))
}

// Whether two rows are of one namespace and of two subscribers.
fn clash(t: &[u8], row: usize, other: usize) -> bool {
    namespace_of(t, row) == namespace_of(t, other)
        && subscriber_of(t, row) != subscriber_of(t, other)
}

// The first row that clashes with a row, or the row itself.
fn partner(t: &[u8], row: usize) -> usize {
    (0..row).find(|&other| clash(t, row, other)).unwrap_or(row)
}

fn put_row(out: &mut [u8], at: usize, word: &[u8], t: &[u8], row: usize) -> usize {
    let a = print::numbered(out, at, word, row as u64);
    print::numbered(out, a, b": subscriber ", subscriber_of(t, row))
}

// `row 3: subscriber 9 holds private namespace -20 of row 1: subscriber 7`
fn put_clash(out: &mut [u8], at: usize, t: &[u8], row: usize) -> usize {
    let a = put_row(out, at, b"row ", t, row);
    let b = buffer::put_all(out, a, b" holds private namespace ");
    let c = print::integer(out, b, namespace_of(t, row));
    let d = put_row(out, c, b" of row ", t, partner(t, row));
    buffer::put(out, d, b'\n')
}

fn judge(t: &[u8], out: &mut [u8]) {
    match grants::check_table(t) {
        Ok(()) => {
            let a = print::numbered(out, 0, b"passes ", (t.len() / ROW) as u64);
            let b = buffer::put(out, a, b'\n');
            print::flush(out, b);
        }
        Err(refusal) => {
            let a = print::refused(out, 0, refusal);
            let b = put_clash(out, a, t, refusal.place);
            print::flush(out, b);
        }
    }
}

fn answer(room: &[u8], rows: usize, pack: bool) {
    if room.len() / ROW < rows {
        return;
    }
    let size = rows * ROW;
    if pack {
        print::flush(room, size);
        return;
    }
    let mut out = [0u8; 1024];
    judge(&room[0..size], &mut out);
}

fn answer_in<F: Read>(input: &mut F, room: &mut [u8], pack: bool) {
    if let Some(rows) = grant_file::load(input, b"table", room) {
        answer(room, rows, pack);
    }
}

fn answer_input<F: Read>(input: &mut F, pack: bool) {
    let mut room = grant_file::buffer();
    answer_in(input, &mut room, pack);
}

fn main(rt: HostRuntime) {
    let mut input = rt.stdin();
    match arguments::asked(&rt, b"pack") {
        Choice::Plain => answer_input(&mut input, false),
        Choice::Word => answer_input(&mut input, true),
        Choice::Unknown => {
            io::write_all(2, b"usage: gate table [pack]\n");
        }
    }
}
