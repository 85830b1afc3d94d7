// Reads a message from standard input, or with the argument `single` a single ARI, and writes a line for each item, or the
// input's refusal.
#![tactic(auto)]

use arguments::Choice;
use ari::Input;

// The items of an accepted input, by the words of its table, or its refusal.
fn show_input(s: &[u8], input: Input, entries: &mut [u64], out: &mut [u8]) {
    match reader::keep(input, ari::LIMITS, s, entries) {
        Ok(count) => {
            if count <= entries.len() {
                let p = print::items(out, 0, s, &entries[0..count], b"  ");
                print::flush(out, p);
            }
        }
        Err(refusal) => print::refusal(out, refusal),
    }
}

// At most one byte past the limit is read.
fn show_all(kind: Input) {
    let mut input = [0u8; ari::BYTES + 1];
    let n = io::read_full(0, &mut input);
    let mut entries = [0u64; ari::ITEMS];
    let mut out = io::buffer();
    show_input(&input[..n], kind, &mut entries, &mut out);
}

fn main(rt: HostRuntime) {
    match arguments::asked(&rt, b"single") {
        Choice::Plain => show_all(Input::Message),
        Choice::Word => show_all(Input::Single),
        Choice::Unknown => {
            io::write_all(2, b"usage: gate items [single]\n");
        }
    }
}
