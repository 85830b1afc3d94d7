// The text of a grant table: on each line a subscriber and a namespace in plain decimal, with blanks (spaces, tabs) between and
// around; `#` starts a comment, and a line with nothing before it is skipped.
#![tactic(auto)]

ghost use Rattle.std.specs.Prelude.{◌≡◌, ◌++◌, ◌+◌, ◌/◌, ◌≤◌, ◌<◌, length};
ghost use Rattle.std.proofs.lemmas.List.Edits.{sets};
ghost use Rattle.buffer.specs.Bytes.{be};
ghost use Rattle.buffer.specs.Runs.{RunTo};
ghost use Rattle.grant_text.specs.Rows.{blank, is_of, grant_of, fields_of, row_of};
ghost use Rattle.grant_text.specs.Table.{contents, TakenAt, table_of, packed, room_after, HasRoom};

// The classes of bytes that a line is cut at: no `#`, a blank, no blank, no line end.
#[derive(Clone, Copy)]
enum Class {
    Uncommented,
    Blank,
    Word,
    InLine,
}

#[tactic(auto, unfolding(crate::specs::Rows::blank))]
fn is_blank(x: u8) -> bool
    ensures { result ≡ blank x }
{
    x == b' ' || x == b'\t'
}

#[tactic(auto, unfolding(crate::specs::Rows::is_of))]
fn is(class: Class, x: u8) -> bool
    ensures { result ≡ is_of class x }
{
    match class {
        Class::Uncommented => x != b'#',
        Class::Blank => is_blank(x),
        Class::Word => !is_blank(x),
        Class::InLine => x != b'\n',
    }
}

// The place behind the bytes of a class, from a place on.
fn behind(t: &[u8], from: usize, class: Class) -> usize
    requires { from ≤ length t.now }
    ensures { RunTo (is_of class) t.now from result }
{
    for i in from..t.len() {
        if !is(class, t[i]) {
            return i;
        }
    }
    t.len()
}

// What a line holds: nothing, a row (its namespace as two's complement), or something else.
#[derive(Clone, Copy)]
pub enum Line {
    Blank,
    Grant { subscriber: u64, namespace: u64 },
    Bad,
}

fn grant(subscriber: Option<u64>, namespace: Option<u64>) -> Line
    ensures { result ≡ grant_of subscriber namespace }
{
    let Some(s) = subscriber else {
        return Line::Bad;
    };
    let Some(n) = namespace else {
        return Line::Bad;
    };
    Line::Grant {
        subscriber: s,
        namespace: n,
    }
}

// A line without its comment.
fn fields(t: &[u8]) -> Line
    ensures { result ≡ fields_of t.now }
{
    let a = behind(t, 0, Class::Blank);
    if t.len() <= a {
        return Line::Blank;
    }
    let b = behind(t, a, Class::Word);
    let c = behind(t, b, Class::Blank);
    let d = behind(t, c, Class::Word);
    let e = behind(t, d, Class::Blank);
    if e < t.len() {
        return Line::Bad;
    }
    let s = buffer::unsigned(&t[a..b]);
    let n = buffer::signed(&t[c..d]);
    grant(s, n)
}

// A line without its end.
pub fn row(line: &[u8]) -> Line
    ensures { result ≡ row_of line.now }
{
    let end = behind(line, 0, Class::Uncommented);
    fields(&line[0..end])
}

// A line's content, and the place where the next line starts.
#[derive(Clone, Copy)]
struct Taken {
    content: Line,
    next: usize,
}

fn take_line(t: &[u8], from: usize) -> Taken
    requires { from < length t.now }
    ensures { TakenAt t.now from result }
{
    let end = behind(t, from, Class::InLine);
    let content = row(&t[from..end]);
    if end < t.len() {
        return Taken {
            content,
            next: end + 1,
        };
    }
    Taken { content, next: end }
}

// The 16 bytes of a row.
fn put_row(out: &mut [u8], at: usize, subscriber: u64, namespace: u64)
    requires { at + 16 ≤ length out.old }
    ensures { out.new ≡ sets out.old at (be 8 subscriber ++ be 8 namespace) }
{
    buffer::store8(out, at, subscriber);
    buffer::store8(out, at + 8, namespace);
}

// Why a text is no table: a line is no row, or its row has no room. Lines are counted from 1.
#[derive(Clone, Copy, PartialEq, Eq)]
pub enum Fault {
    Bad(usize),
    Full(usize),
}

// How many rows a text gives, if it is a table of no more than there is room for.
#[tactic(auto, using(crate::proofs::Whole::counting_ways))]
fn count(text: &[u8], room: usize) -> Result<usize, Fault>
    ensures { result ≡ table_of text.now room }
{
    let mut from = 0;
    let mut lines = 0;
    let mut n = 0;
    while from < text.len() {
        let taken = take_line(text, from);
        from = taken.next;
        lines += 1;
        match taken.content {
            Line::Blank => {}
            Line::Grant { .. } => {
                if room <= n {
                    return Err(Fault::Full(lines));
                }
                n += 1;
            }
            Line::Bad => return Err(Fault::Bad(lines)),
        }
    }
    Ok(n)
}

// The rows of a text that is a table.
#[tactic(auto, using(crate::proofs::Whole::writing_ways))]
fn write(text: &[u8], out: &mut [u8])
    requires { HasRoom text.now (length out.old / 16) }
    ensures { out.new ≡ sets out.old 0 (packed (contents text.now)) }
{
    let mut from = 0;
    let mut n = 0;
    while from < text.len() {
        let taken = take_line(text, from);
        from = taken.next;
        if let Line::Grant {
            subscriber,
            namespace,
        } = taken.content
        {
            put_row(out, n * 16, subscriber, namespace);
            n += 1;
        }
    }
}

// The rows of a text, 16 bytes each, in the lent room. A text that is no table leaves the room as it was.
pub fn rows(text: &[u8], out: &mut [u8]) -> Result<usize, Fault>
    ensures value { result ≡ table_of text.now (length out.old / 16) }
    ensures out_after { out.new ≡ room_after result text.now out.old }
{
    let n = count(text, out.len() / 16)?;
    write(text, out);
    Ok(n)
}
