// An input from a file that an argument names. What is wrong is said on standard error, after the file's name.
#![tactic(auto)]

ghost use Rattle.std.specs.Prelude.{◌≤◌, length, IfOk, IfSome};
ghost use Rattle.io.specs.Counts.{IsPrefixLen};

use std::env::Env;
use std::fmt::InlineText;
use std::fs::{File, Files};
use std::io::{Error, Read};

// Why a file could not be read: std opens none whose path is no UTF-8.
#[derive(Drop)]
enum Fault {
    NotUtf8,
    System(Error),
}

impl From<Error> for Fault {
    fn from(error: Error) -> Fault {
        Fault::System(error)
    }
}

// A line on standard error: the name, and what was wrong in the system's words, without the number that std puts behind them.
pub fn fail(name: &[u8], error: Error) {
    let said = InlineText::<256>::of(error);
    let words = said.as_str().as_bytes();
    let end = said.as_str().find(" (os error ").unwrap_or(words.len());
    io::write_all(2, name);
    io::write_all(2, b": ");
    io::write_all(2, &words[..end]);
    io::write_all(2, b"\n");
}

// What was wrong with a file, on standard error.
fn explain(path: &[u8], fault: Fault) {
    match fault {
        Fault::NotUtf8 => {
            io::write_all(2, path);
            io::write_all(2, b": the name is not UTF-8\n");
        }
        Fault::System(error) => fail(path, error),
    }
}

fn open_path<R: Files>(rt: &R, path: &[u8]) -> Result<R::File, Fault> {
    match std::str::from_utf8(path) {
        Ok(name) => Ok(File::open(rt, name)?),
        Err(_) => Err(Fault::NotUtf8),
    }
}

// The file of a path, or what was wrong has been said.
pub fn open<R: Files>(rt: &R, path: &[u8]) -> Option<R::File> {
    open_path(rt, path)
        .map_err(|fault| explain(path, fault))
        .ok()
}

// Reads until the room is full, the input ends or a read fails, and answers how many bytes stand in the room.
pub fn read_full<F: Read>(file: &mut F, room: &mut [u8]) -> usize
    ensures { result ≤ length room.new }
{
    let mut done = 0;
    while done < room.len() {
        match file.read(&mut room[done..]) {
            Ok(0) | Err(_) => return done,
            Ok(n) => done += n,
        }
    }
    done
}

// Where the room was not filled the file has ended, or could not be read: one read more tells.
fn load_path(rt: &impl Files, path: &[u8], room: &mut [u8]) -> Result<usize, Fault>
    ensures { IfOk result (λ n. n ≤ length room.new) }
{
    let mut file = open_path(rt, path)?;
    let n = read_full(&mut file, room);
    if n < room.len() {
        let mut one = [0u8; 1];
        file.read(&mut one)?;
    }
    Ok(n)
}

// The file that argument k names, as far as there is room: a byte past an input's limit is enough to have it refused. So many bytes of it stand
// in the room, or what was wrong has been said.
pub fn load(rt: &(impl Env + Files), k: usize, room: &mut [u8]) -> Option<usize>
    ensures { IfSome result (λ n. n ≤ length room.new) }
{
    let mut path = io::buffer();
    let n = arguments::put(rt, k, &mut path);
    let path = &path[..n];
    load_path(rt, path, room)
        .map_err(|fault| explain(path, fault))
        .ok()
}

// So many bytes of two files stand each in its room.
#[derive(Clone, Copy)]
pub struct Both {
    pub first: usize,
    pub second: usize,
}

// The files that the only two arguments name, each as far as its room goes, or what was wrong has been said; with any other number of arguments
// the usage is.
pub fn load_both(
    rt: &(impl Env + Files),
    usage: &[u8],
    first: &mut [u8],
    second: &mut [u8],
) -> Option<Both>
    ensures { IfSome result (λ both. IsPrefixLen both.first first.new × IsPrefixLen both.second second.new) }
{
    if !arguments::is_given(rt, 2) || arguments::is_given(rt, 3) {
        io::write_all(2, usage);
        return None;
    }
    Some(Both {
        first: load(rt, 1, first)?,
        second: load(rt, 2, second)?,
    })
}

// The file's name and what is said of it, on standard error.
pub fn say(rt: &impl Env, k: usize, words: &[u8]) {
    let mut path = io::buffer();
    let n = arguments::put(rt, k, &mut path);
    io::write_all(2, &path[..n]);
    io::write_all(2, words);
}

// The name alone, on a line.
pub fn say_name(rt: &impl Env, k: usize) {
    say(rt, k, b"\n");
}
