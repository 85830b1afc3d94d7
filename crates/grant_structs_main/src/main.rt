// Both forms of a grant table are asked, bytes and structs. Each line has the bytes' answer, then the structs'. A release's yes, and its no with an entry, is
// followed by the number of rows compared, in brackets.
// C is message C of the rules' examples (docs/RULES.md), whose entries are 65536 and -20; `02` is refused. N is C with a name in the place of each number.
#![tactic(auto)]

use ari::Refusal;
use grant_structs::{Answers, Grant};
use release::Released;

fn text(b: &[u8]) {
    io::write_all(1, b);
}

fn verdict(v: Result<(), Refusal>) {
    match v {
        Ok(()) => {
            text(b" passes");
        }
        Err(refusal) => {
            text(b" ");
            io::print_decimal(1, refusal.fault.number() as u64);
            text(b" ");
            io::print_decimal(1, refusal.place as u64);
        }
    }
}

fn yes_or_no(y: bool) {
    if y {
        text(b" yes");
    } else {
        text(b" no");
    }
}

fn rows(compared: u64) {
    text(b" (");
    io::print_decimal(1, compared);
    text(b")");
}

fn released(r: Result<Released, Refusal>) {
    match r {
        Ok(Released::Yes { compared }) => {
            text(b" yes");
            rows(compared);
        }
        Ok(Released::No { entry, compared }) => {
            text(b" no ");
            io::print_decimal(1, entry as u64);
            rows(compared);
        }
        Err(e) => {
            text(b" refused ");
            io::print_decimal(1, e.fault.number() as u64);
            text(b" ");
            io::print_decimal(1, e.place as u64);
        }
    }
}

// The table's check.
fn checks(bytes: &[u8], a: Answers) {
    text(b"check");
    verdict(grants::check_table(bytes));
    let check = a.check;
    verdict(check);
}

// Whether the subscriber has a namespace number, given in two's complement.
fn has(bytes: &[u8], subscriber: u64, word: u64, a: Answers) {
    yes_or_no(grants::granted(bytes, subscriber, word));
    yes_or_no(a.granted);
}

// Whether a message is released to the subscriber under two lists.
fn releases<'a>(
    message: &'a [u8],
    bytes: &[u8],
    published: &'a [u8],
    own: &'a [u8],
    subscriber: u64,
    a: Answers,
) {
    released(release::release_message(message, bytes, published, own, subscriber));
    let release = a.release;
    released(release);
}

// C and `02` name nothing, so the lists, which are well-formed, decide nothing.
fn asks(bytes: &[u8], t: [Grant; 4]) {
    let c = b"\x01\x82\x14\x82\xf6\x84\x1a\0\x01\0\0\x22\0\x81\x83\x33\x2a\x05";
    let refused = b"\x02";
    let published = b"adm=65536\n";
    let own = b"!own=-20\n";
    let first = grant_structs::ask_four(c, t, published, own, 7, 65536);
    let second = grant_structs::ask_four(refused, t, published, own, 7, -20);
    let third = grant_structs::ask_four(c, t, published, own, 9, -20);
    checks(bytes, first);
    text(b"; 7 has 65536");
    has(bytes, 7, 65536, first);
    text(b"; 7 has -20");
    has(bytes, 7, 18446744073709551596, second);
    text(b"; 9 has -20");
    has(bytes, 9, 18446744073709551596, third);
    text(b"; C to 7");
    releases(c, bytes, published, own, 7, first);
    text(b"; C to 9");
    releases(c, bytes, published, own, 9, third);
    text(b"; 02 to 7");
    releases(refused, bytes, published, own, 7, second);
    text(b"\n");
}

// Whether a message is released to subscriber 7 under two lists.
fn to_7<'a>(message: &'a [u8], bytes: &[u8], t: [Grant; 4], published: &'a [u8], own: &'a [u8]) {
    let a = grant_structs::ask_four(message, t, published, own, 7, 0);
    releases(message, bytes, published, own, 7, a);
}

// The lists decide whether N is released: each of its two names stands for its line's number, or for none. A wrong line releases nothing, also no C.
fn names(bytes: &[u8], t: [Grant; 4]) {
    let c = b"\x01\x82\x14\x82\xf6\x84\x1a\0\x01\0\0\x22\0\x81\x83\x33\x2a\x05";
    let n = b"\x01\x82\x14\x82\xf6\x84\x63adm\x22\0\x81\x83\x64!own\x2a\x05";
    let refused = b"\x02";
    let empty = b"";
    let published = b"adm=65536\n";
    let own = b"!own=-20\n";
    let other = b"!own=-21\n";
    let wrong = b"!own\n";
    text(b"N to 7 under both lists");
    to_7(n, bytes, t, published, own);
    text(b"; under none");
    to_7(n, bytes, t, empty, empty);
    text(b"; under the published one");
    to_7(n, bytes, t, published, empty);
    text(b"; with another number");
    to_7(n, bytes, t, published, other);
    text(b"; with a wrong line");
    to_7(n, bytes, t, published, wrong);
    text(b"; C with a wrong line");
    to_7(c, bytes, t, published, wrong);
    text(b"; 02 with a wrong line");
    to_7(refused, bytes, t, published, wrong);
    text(b"\n");
}

fn main() {
    let a = Grant {
        subscriber: 7,
        namespace: 65536,
    };
    let b = Grant {
        subscriber: 7,
        namespace: -20,
    };
    let c = Grant {
        subscriber: 9,
        namespace: -20,
    };
    let d = Grant {
        subscriber: 9,
        namespace: 65536,
    };
    let one =
        b"\0\0\0\0\0\0\0\x07\0\0\0\0\0\x01\0\0\0\0\0\0\0\0\0\x07\0\0\0\0\0\x01\0\0\0\0\0\0\0\0\0\x07\0\0\0\0\0\x01\0\0\0\0\0\0\0\0\0\x07\0\0\0\0\0\x01\0\0";
    let both =
        b"\0\0\0\0\0\0\0\x07\0\0\0\0\0\x01\0\0\0\0\0\0\0\0\0\x07\xff\xff\xff\xff\xff\xff\xff\xec\0\0\0\0\0\0\0\x07\0\0\0\0\0\x01\0\0\0\0\0\0\0\0\0\x07\xff\xff\xff\xff\xff\xff\xff\xec";
    asks(one, [a, a, a, a]);
    asks(both, [a, b, a, b]);
    asks(
        b"\0\0\0\0\0\0\0\x07\0\0\0\0\0\x01\0\0\0\0\0\0\0\0\0\x07\xff\xff\xff\xff\xff\xff\xff\xec\0\0\0\0\0\0\0\x07\0\0\0\0\0\x01\0\0\0\0\0\0\0\0\0\x09\xff\xff\xff\xff\xff\xff\xff\xec",
        [a, b, a, c],
    );
    asks(
        b"\0\0\0\0\0\0\0\x07\0\0\0\0\0\x01\0\0\0\0\0\0\0\0\0\x09\0\0\0\0\0\x01\0\0\0\0\0\0\0\0\0\x09\xff\xff\xff\xff\xff\xff\xff\xec\0\0\0\0\0\0\0\x09\xff\xff\xff\xff\xff\xff\xff\xec",
        [a, d, c, c],
    );
    names(one, [a, a, a, a]);
    names(both, [a, b, a, b]);
}
