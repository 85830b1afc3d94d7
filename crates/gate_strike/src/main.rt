// Reads a message from standard input and writes it without one of its targets or reports, the one of the number that the argument is. A refusal is the
// line `refused N P`; a message has nothing behind it.
#![tactic(auto)]

fn strike_message(message: &[u8], number: usize, room: &mut [u8]) {
    match strike::strike_message(message, number, room) {
        Ok(struck) => {
            print::flush(room, struck.bytes);
        }
        Err(refusal) => print::send_refusal(refusal),
    }
}

// At most one byte past the limit is read.
fn strike_input(number: usize) {
    let mut input = [0u8; ari::BYTES + 1];
    let n = io::read_full(0, &mut input);
    let mut room = [0u8; ari::BYTES];
    strike_message(&input[..n], number, &mut room);
}

fn main(rt: HostRuntime) {
    if !arguments::is_given(&rt, 1) || arguments::is_given(&rt, 2) {
        io::write_all(2, b"usage: gate strike NUMBER\n");
        return;
    }
    match arguments::number(&rt, 1) {
        Some(n) => strike_input(n as usize),
        None => {
            io::write_all(2, b"NUMBER is no number from 0 to 18446744073709551615\n");
        }
    }
}
