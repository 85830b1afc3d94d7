// Reads a message from standard input in whatever pieces it comes, and writes what `gate list` writes; a refusal as soon as it stands.
#![tactic(auto)]

use std::io::Read;

// Feeds what is read until the input ends, true, or a refusal stands and is written. More bytes than the limit are refused, so no more are read.
// A read that fails ends the input.
fn is_received<F: Read>(
    input: &mut F,
    state: &mut [u64],
    message: &mut [u8],
    piece: &mut [u8],
    out: &mut [u8],
) -> bool {
    let mut total = 0;
    while total <= ari::BYTES {
        let n = match input.read(piece) {
            Ok(n) => n,
            Err(_) => 0,
        };
        if n == 0 {
            return true;
        }
        if let Err(refusal) = stream::feed(state, message, &piece[..n]) {
            print::refusal(out, refusal);
            return false;
        }
        total += n;
    }
    true
}

fn show(state: &mut [u64], message: &[u8], out: &mut [u8], room: &mut [u8]) {
    match stream::close(state, message, room) {
        Err(refusal) => print::refusal(out, refusal),
        Ok(entries) => print::references(out, message, room, entries.listed, entries.count),
    }
}

fn main(rt: HostRuntime) {
    let mut state = [0u64; stream::WORDS];
    let mut message = [0u8; ari::BYTES];
    let mut piece = io::buffer();
    let mut room = [0u8; listing::ROOM];
    let mut out = io::buffer();
    let mut input = rt.stdin();
    if is_received(&mut input, &mut state, &mut message, &mut piece, &mut out) {
        show(&mut state, &message, &mut out, &mut room);
    }
}
