// Reads a single ARI in binary form from standard input and writes its text; with the argument `read` the other way round. A
// refusal is the line `refused N P`; a text and a binary form have nothing behind them.
#![tactic(auto)]

use arguments::Choice;
use ari::Refusal;
use text_write::Written;

// What was written into a lent buffer, or the refusal.
fn send(answer: Result<Written, Refusal>, room: &[u8]) {
    match answer {
        Ok(Written { length, .. }) => {
            print::flush(room, length);
        }
        Err(refusal) => print::send_refusal(refusal),
    }
}

fn write_ari(ari: &[u8], room: &mut [u8]) {
    let answer = text_write::write_text(ari, room);
    send(answer, room);
}

fn read_ari(text: &[u8], room: &mut [u8]) {
    let answer = text_read::read_text(text, room);
    send(answer, room);
}

// At most one byte past the limit of a binary form is read.
fn write_input() {
    let mut input = [0u8; ari::BYTES + 1];
    let n = io::read_full(0, &mut input);
    let mut room = [0u8; ari::TEXT];
    write_ari(&input[..n], &mut room);
}

// At most one byte past the limit of a text is read.
fn read_input() {
    let mut input = [0u8; ari::TEXT + 1];
    let n = io::read_full(0, &mut input);
    let mut room = [0u8; ari::BYTES];
    read_ari(&input[..n], &mut room);
}

fn main(rt: HostRuntime) {
    match arguments::asked(&rt, b"read") {
        Choice::Plain => write_input(),
        Choice::Word => read_input(),
        Choice::Unknown => {
            io::write_all(2, b"usage: gate text [read]\n");
        }
    }
}
