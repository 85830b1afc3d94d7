// A grant table's text from an open file into rows of 16 bytes. What is wrong is said on standard error, after the name that the
// caller gives.
#![tactic(auto)]

ghost use Rattle.std.specs.Prelude.{◌≡◌, length};

use grant_text::Fault;
use std::io::Read;

fn say(out: &mut [u8], name: &[u8], words: &[u8]) {
    let a = buffer::put_all(out, 0, name);
    let b = buffer::put_all(out, a, words);
    end_line(out, b);
}

fn say_line(out: &mut [u8], name: &[u8], line: usize, words: &[u8]) {
    let a = buffer::put_all(out, 0, name);
    let b = print::numbered(out, a, b": line ", line as u64);
    let c = buffer::put_all(out, b, words);
    end_line(out, c);
}

fn end_line(out: &mut [u8], at: usize) {
    let p = buffer::put(out, at, b'\n');
    if p < out.len() {
        io::write_all(2, &out[0..p]);
    }
}

fn take(name: &[u8], text: &[u8], room: &mut [u8], out: &mut [u8]) -> Option<usize> {
    match grant_text::rows(text, room) {
        Ok(rows) => Some(rows),
        Err(Fault::Bad(line)) => {
            say_line(
                out,
                name,
                line,
                b": expected SUBSCRIBER NAMESPACE in decimal",
            );
            None
        }
        Err(Fault::Full(line)) => {
            say_line(out, name, line, b": more than 16384 rows");
            None
        }
    }
}

// One byte more tells whether the text went on, or could not be read.
fn load_in<F: Read>(file: &mut F, name: &[u8], text: &mut [u8], room: &mut [u8]) -> Option<usize> {
    let n = input_file::read_full(file, text);
    let mut one = [0u8; 1];
    let mut out = [0u8; 8192];
    match file.read(&mut one) {
        Ok(0) => take(name, &text[..n], room, &mut out),
        Ok(_) => {
            say(&mut out, name, b": more than 262144 bytes");
            None
        }
        Err(error) => {
            input_file::fail(name, error);
            None
        }
    }
}

// Room for a text, or for 16,384 rows. The `ensures` is what lending the array asks for.
pub fn buffer() -> [u8; 262144]
    ensures { 262144 ≡ length result }
{
    [0; 262144]
}

// So many rows stand in the room, or what was wrong has been said.
pub fn load<F: Read>(file: &mut F, name: &[u8], room: &mut [u8]) -> Option<usize> {
    let mut text = buffer();
    load_in(file, name, &mut text, room)
}
