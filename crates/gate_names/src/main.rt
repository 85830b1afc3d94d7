// `gate names PUBLISHED [OWN]`: whether each line of the two lists of names is well-formed: `passes LINES`, or `refused 19 BYTE` and a line that says which
// line of which file it is and what is wrong with it. `gate names PUBLISHED OWN NAME` writes the line that the name has, if it has one.
#![tactic(auto)]

ghost use Rattle.std.specs.Prelude.{◌≤◌, length};

use ari::{Fault, Refusal};
use std::env::Env;
use std::fs::Files;

// How many lines end in a part of a list.
fn line_ends(t: &[u8]) -> u64
    ensures { result ≤ length t.now }
{
    t.iter().filter(|&&byte| byte == b'\n').count() as u64
}

// What is wrong with a line that has a line feed behind it.
fn put_fault(out: &mut [u8], at: usize, line: &[u8]) -> usize {
    let Some(q) = line.iter().position(|&byte| byte == b'=') else {
        return buffer::put_all(out, at, b"no \"=\" in it");
    };
    if !grammar::is_namespace_name(&line[0..q]) {
        return buffer::put_all(out, at, b"no namespace name before the \"=\"");
    }
    buffer::put_all(
        out,
        at,
        b"no plain decimal number from -2^63 to 2^63 - 1 behind the \"=\"",
    )
}

// The same, from the line's first byte on.
fn put_reason(out: &mut [u8], at: usize, rest: &[u8]) -> usize {
    let Some(e) = rest.iter().position(|&byte| byte == b'\n') else {
        return buffer::put_all(out, at, b"no line feed behind it");
    };
    put_fault(out, at, &rest[0..e])
}

// `FILE: line 3: no "=" in it`
fn show_fault(out: &mut [u8], at: usize, name: &[u8], before: &[u8], rest: &[u8]) {
    let a = buffer::put_all(out, at, name);
    let line = line_ends(before) + 1;
    let b = print::numbered(out, a, b": line ", line);
    let c = buffer::put_all(out, b, b": ");
    let d = put_reason(out, c, rest);
    let p = buffer::put(out, d, b'\n');
    print::flush(out, p);
}

fn show_at(out: &mut [u8], at: usize, name: &[u8], t: &[u8], place: usize) {
    if t.len() < place {
        return;
    }
    let end = t.len();
    show_fault(out, at, name, &t[0..place], &t[place..end]);
}

fn show_passes(out: &mut [u8], lines: u64) {
    let a = print::numbered(out, 0, b"passes ", lines);
    let b = buffer::put(out, a, b'\n');
    print::flush(out, b);
}

fn show_refused(
    out: &mut [u8],
    place: usize,
    published: &[u8],
    own: &[u8],
    published_name: &[u8],
    own_name: &[u8],
) {
    let fault = Fault::BadLine;
    let p = print::refused(out, 0, Refusal { fault, place });
    if place < published.len() {
        show_at(out, p, published_name, published, place);
        return;
    }
    show_at(out, p, own_name, own, place - published.len());
}

fn show(out: &mut [u8], published: &[u8], own: &[u8], published_name: &[u8], own_name: &[u8]) {
    match names::check_names(published, own) {
        names::Names::Passes => show_passes(out, line_ends(published) + line_ends(own)),
        names::Names::Refused { place } => {
            show_refused(
                out,
                place as usize,
                published,
                own,
                published_name,
                own_name,
            )
        }
    }
}

fn write_line(line: &[u8]) {
    if line.len() == 0 {
        return;
    }
    io::write_all(1, line);
    io::write_all(1, b"\n");
}

fn write_found<'a>(published: &'a [u8], own: &'a [u8], name: &[u8]) {
    write_line(names::find_line(published, own, name));
}

// Lists by the two files, of which the second may be missing; a name asks for its line.
fn judge<'a>(
    rt: &impl Env,
    published: &'a [u8],
    own: &'a [u8],
    published_name: &[u8],
    own_name: &[u8],
) {
    if arguments::is_given(rt, 3) {
        let mut name = [0u8; 128];
        let n = arguments::put(rt, 3, &mut name);
        write_found(published, own, &name[..n]);
        return;
    }
    let mut out = [0u8; 16384];
    show(&mut out, published, own, published_name, own_name);
}

fn judge_own(rt: &(impl Env + Files), published: &[u8], published_name: &[u8], text: &mut [u8]) {
    let mut path = io::buffer();
    let n = arguments::put(rt, 2, &mut path);
    if let Some(size) = list_file::load_argument(rt, 2, text) {
        judge(rt, published, &text[0..size], published_name, &path[..n]);
    }
}

fn judge_published(rt: &(impl Env + Files), text: &mut [u8], own: &mut [u8]) {
    let mut path = io::buffer();
    let n = arguments::put(rt, 1, &mut path);
    if let Some(size) = list_file::load_argument(rt, 1, text) {
        judge_own(rt, &text[0..size], &path[..n], own);
    }
}

fn main(rt: HostRuntime) {
    if !arguments::is_given(&rt, 1) || arguments::is_given(&rt, 4) {
        io::write_all(2, b"usage: gate names PUBLISHED [OWN [NAME]]\n");
        return;
    }
    let mut text = list_file::buffer();
    let mut own = list_file::buffer();
    judge_published(&rt, &mut text, &mut own);
}
