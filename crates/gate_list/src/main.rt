// Reads a message from standard input and writes its references (R82), or the message's refusal.
#![tactic(auto)]

fn show(s: &[u8], out: &mut [u8], room: &mut [u8]) {
    match listing::list_message(s, room) {
        Err(refusal) => print::refusal(out, refusal),
        Ok(entries) => print::references(out, s, room, entries.listed, entries.count),
    }
}

fn main() {
    let mut input = [0u8; ari::BYTES + 1];
    let n = io::read_full(0, &mut input);
    let mut room = [0u8; listing::ROOM];
    let mut out = io::buffer();
    show(&input[..n], &mut out, &mut room);
}
