// A list of names from a file into lent room. What is wrong is said on standard error, after the file's name.
#![tactic(auto)]

ghost use Rattle.std.specs.Prelude.{◌≡◌, ◌≤◌, Some, None, cond, ltb, length, IfSome};

use std::env::Env;
use std::fs::Files;

// Room for a list of 262144 bytes, and one byte more, which tells that a file goes on. The `ensures` is what lending the array asks for.
pub fn buffer() -> [u8; 262145]
    ensures { 262145 ≡ length result }
{
    [0; 262145]
}

// What was loaded of a list, if it leaves a byte of the room: one that fills it goes on.
fn whole(loaded: usize, room: usize) -> Option<usize>
    ensures { result ≡ cond (ltb loaded room) (Some loaded) None }
{
    if loaded < room { Some(loaded) } else { None }
}

// The file that argument k names, if it leaves a byte of the room; no bytes where there is no such argument.
pub fn load_argument(rt: &(impl Env + Files), k: usize, text: &mut [u8]) -> Option<usize>
    ensures { IfSome result (λ n. n ≤ length text.old) }
{
    if !arguments::is_given(rt, k) {
        return Some(0);
    }
    let loaded = input_file::load(rt, k, text)?;
    let list = whole(loaded, text.len());
    if list.is_none() {
        input_file::say(rt, k, b": more than 262144 bytes\n");
    }
    list
}
