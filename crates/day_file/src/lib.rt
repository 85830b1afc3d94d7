// The day file: released messages back to back, a table of their offsets, a trailer. It is checked, a message is found by its number, and one is added.
#![tactic(auto)]

ghost use Rattle.std.specs.Prelude.{◌≡◌, true, ◌++◌, ◌+◌, ◌*◌, ◌<◌, ◌≤◌, length};
ghost use Rattle.buffer.specs.Bytes.{be, part};
ghost use Rattle.buffer.specs.Put.{Put};
ghost use Rattle.day_file.specs.Day.{width, most_bytes, trailer, count_in, start_in, offset_in, end_in, message_in, first_at, message_at, trailer_stands, entry_stands, message_stands, Sized, check_day, outline_day, find_day, part_of, is_full, full_or, grown, with_message, add_day, room_after};
ghost use Rattle.day_file.specs.Versions.{is_second, format_of, limits_of};

use ari::{Fault, Input, Limits, Refusal};

// The bytes of an offset.
#[derive(Clone, Copy, PartialEq, Eq)]
pub enum Offsets {
    Two = 2,
    Four = 4,
}

// A version with its offsets and the most bytes of a file.
#[derive(Clone, Copy, PartialEq, Eq)]
pub struct Format {
    pub version: u8,
    pub offsets: Offsets,
    pub bytes: usize,
}

pub const VERSION_1: Format = Format {
    version: 1,
    offsets: Offsets::Two,
    bytes: 65535,
};

pub const VERSION_2: Format = Format {
    version: 2,
    offsets: Offsets::Four,
    bytes: 1048576,
};

// Where a message stands in the file.
#[derive(Clone, Copy, PartialEq, Eq)]
pub struct Found {
    pub from: usize,
    pub to: usize,
}

// A new file's messages and bytes.
#[derive(Clone, Copy, PartialEq, Eq)]
pub struct Added {
    pub messages: usize,
    pub bytes: usize,
}

// The bytes from one place to another, as far as there are.
pub fn part<'a>(s: &'a [u8], from: usize, to: usize) -> &'a [u8]
    ensures { result.now ≡ part s.now from to }
{
    let end = to.min(s.len());
    if end < from {
        return &[];
    }
    &s[from..end]
}

fn width(format: Format) -> usize
    ensures value { result ≡ width format }
    ensures upper_bound { result ≤ 4 }
{
    format.offsets as usize
}

// The bytes of a table of so many entries.
fn table_bytes(format: Format, count: usize) -> usize
    requires { count < 65536 }
    ensures value { result ≡ width format * count }
    ensures upper_bound { result < 262144 }
{
    width(format) * count
}

fn most_bytes(format: Format) -> usize
    ensures { result ≡ most_bytes format }
{
    let largest = match format.offsets {
        Offsets::Two => 65535,
        Offsets::Four => 4294967295,
    };
    format.bytes.min(largest)
}

// The trailer names version 2.
#[tactic(auto, unfolding(crate::specs::Versions::is_second))]
fn is_second(file: &[u8]) -> bool
    ensures { result ≡ is_second file.now }
{
    let n = file.len();
    8 <= n && file[n - 8] == 2
}

// The format of a file, and the limits of its messages, by the version that its trailer names. One that names neither is refused in version 1.
pub fn format_of(file: &[u8]) -> Format
    ensures { result ≡ format_of file.now }
{
    if is_second(file) {
        return VERSION_2;
    }
    VERSION_1
}

pub fn limits_of(file: &[u8]) -> Limits
    ensures { result ≡ limits_of file.now }
{
    if is_second(file) {
        return ari::LIMITS;
    }
    ari::FIRST_LIMITS
}

// What the trailer says: the number of messages, and the table's first byte.
fn count_in(file: &[u8]) -> usize
    requires { 8 ≤ length file.now }
    ensures value { result ≡ count_in file.now }
    ensures upper_bound { result < 65536 }
{
    buffer::load2(file, file.len() - 6) as usize
}

fn start_in(file: &[u8]) -> usize
    requires { 8 ≤ length file.now }
    ensures value { result ≡ start_in file.now }
    ensures upper_bound { result < 4294967296 }
{
    buffer::load4(file, file.len() - 4) as usize
}

// Entry k of the table.
#[tactic(auto, using(crate::proofs::Ways::places))]
fn offset_in(format: Format, file: &[u8], k: usize) -> usize
    requires { (8 ≤ length file.now) × (k ≤ 65536) }
    ensures value { result ≡ offset_in format file.now k }
    ensures upper_bound { result < 4294967296 }
{
    let start = start_in(file);
    match format.offsets {
        Offsets::Two => buffer::load2(file, start + 2 * k) as usize,
        Offsets::Four => buffer::load4(file, start + 4 * k) as usize,
    }
}

// The end of message k: the next one's first byte, or the table.
#[tactic(auto, using(crate::proofs::Ways::places))]
fn end_in(format: Format, file: &[u8], k: usize) -> usize
    requires { (8 ≤ length file.now) × (k < 65536) }
    ensures { result ≡ end_in format file.now k }
{
    if k + 1 < count_in(file) {
        return offset_in(format, file, k + 1);
    }
    start_in(file)
}

#[tactic(auto, using(crate::proofs::Ways::places))]
fn message_in<'a>(format: Format, file: &'a [u8], k: usize) -> &'a [u8]
    requires { (8 ≤ length file.now) × (k < 65536) }
    ensures { result.now ≡ message_in format file.now k }
{
    let from = offset_in(format, file, k);
    part(file, from, end_in(format, file, k))
}

// The first byte of message k by the table, and the message: of any bytes, for those who have checked them.
#[tactic(auto, using(crate::proofs::Ways::anywhere))]
pub fn first_at(format: Format, file: &[u8], k: usize) -> usize
    ensures value { result ≡ first_at format file.now k }
    ensures upper_bound { result < 4294967296 }
{
    if file.len() < 8 {
        return 0;
    }
    if 65535 < k {
        return 0;
    }
    offset_in(format, file, k)
}

#[tactic(auto, using(crate::proofs::Ways::anywhere))]
pub fn message_at<'a>(format: Format, file: &'a [u8], k: usize) -> &'a [u8]
    ensures { result.now ≡ message_at format file.now k }
{
    if file.len() < 8 {
        return &[];
    }
    if 65535 < k {
        return &[];
    }
    message_in(format, file, k)
}

// The version, a zero byte, and parts that add up to the file; no messages have no bytes.
#[tactic(auto, using(crate::proofs::Ways::trailers))]
fn trailer_stands(format: Format, file: &[u8]) -> bool
    ensures { result ≡ trailer_stands format file.now }
{
    let n = file.len();
    if n < 8 {
        return false;
    }
    if most_bytes(format) < n {
        return false;
    }
    if file[n - 8] != format.version {
        return false;
    }
    if file[n - 7] != 0 {
        return false;
    }
    let count = count_in(file);
    let start = start_in(file);
    if start + (table_bytes(format, count) + 8) != n {
        return false;
    }
    if count != 0 {
        return true;
    }
    start == 0
}

// The first entry is 0, each is above the one before, all are below the table's start.
#[tactic(auto, using(crate::proofs::Ways::tests))]
fn entry_stands(format: Format, file: &[u8], k: usize) -> bool
    requires { (8 ≤ length file.now) × (k < 65536) }
    ensures { result ≡ entry_stands format file.now k }
{
    let offset = offset_in(format, file, k);
    if k == 0 {
        if offset != 0 {
            return false;
        }
        return offset < start_in(file);
    }
    if offset <= offset_in(format, file, k - 1) {
        return false;
    }
    offset < start_in(file)
}

#[tactic(auto, using(crate::proofs::Ways::tests))]
fn message_stands(format: Format, limits: Limits, file: &[u8], k: usize) -> bool
    requires { (8 ≤ length file.now) × (k < 65536) }
    ensures { result ≡ message_stands format limits file.now k }
{
    reader::check(Input::Message, limits, message_in(format, file, k)).is_ok()
}

// The trailer and the table, which come before any message: for those who check the messages as they read them. The number of messages; or 20, 21 with
// an entry of the table.
#[tactic(auto, using(crate::proofs::Ways::outlines, crate::proofs::Ways::firsts))]
pub fn outline(format: Format, file: &[u8]) -> Result<usize, Refusal>
    ensures value { result ≡ outline_day format file.now }
    ensures sized { Sized format file.now result }
{
    if !trailer_stands(format, file) {
        return Err(Refusal {
            fault: Fault::BadTrailer,
            place: 0,
        });
    }
    let count = count_in(file);
    for entry in 0..count {
        if !entry_stands(format, file, entry) {
            return Err(Refusal {
                fault: Fault::BadOffset,
                place: entry,
            });
        }
    }
    Ok(count)
}

// The check, and what is known of a file that passes it.
#[tactic(auto, using(crate::proofs::Ways::checks, crate::proofs::Ways::firsts))]
fn checked(format: Format, limits: Limits, file: &[u8]) -> Result<usize, Refusal>
    ensures value { result ≡ check_day format limits file.now }
    ensures sized { Sized format file.now result }
{
    let count = outline(format, file)?;
    for message in 0..count {
        if !message_stands(format, limits, file, message) {
            return Err(Refusal {
                fault: Fault::BadMessage,
                place: message,
            });
        }
    }
    Ok(count)
}

// Whether bytes are a day file of messages within these limits: their number; or 20, 21, 22 with a message's number.
pub fn check(format: Format, limits: Limits, file: &[u8]) -> Result<usize, Refusal>
    ensures { result ≡ check_day format limits file.now }
{
    checked(format, limits, file)
}

// Where a message stands, by its number.
#[tactic(auto, using(crate::proofs::Ways::finds))]
pub fn find(format: Format, limits: Limits, file: &[u8], number: u64) -> Result<Found, Refusal>
    ensures { result ≡ find_day format limits file.now number }
{
    let count = checked(format, limits, file)?;
    let k = number as usize;
    if count <= k {
        return Err(Refusal {
            fault: Fault::NoSuchNumber,
            place: count,
        });
    }
    Ok(Found {
        from: offset_in(format, file, k),
        to: end_in(format, file, k),
    })
}

// That part of the file; no accepted message is empty, so an empty part is none.
#[tactic(auto, using(crate::proofs::Ways::finds))]
pub fn message<'a>(format: Format, limits: Limits, file: &'a [u8], number: u64) -> &'a [u8]
    ensures { result.now ≡ part_of file.now (find_day format limits file.now number) }
{
    match find(format, limits, file, number) {
        Ok(found) => part(file, found.from, found.to),
        Err(_) => &[],
    }
}

// An entry of the table, which names a byte of the file.
fn put_offset(format: Format, out: &mut [u8], at: usize, x: usize) -> usize
    requires { x ≤ most_bytes format }
    ensures { Put out.old out.new at result (be (width format) x) }
{
    match format.offsets {
        Offsets::Two => buffer::put2(out, at, x as u16),
        Offsets::Four => buffer::put4(out, at, x as u32),
    }
}

// A trailer: how many messages, and the table's first byte.
pub fn put_trailer(format: Format, out: &mut [u8], at: usize, count: u16, start: u32) -> usize
    ensures { Put out.old out.new at result (trailer format count start) }
{
    let a = buffer::put(out, at, format.version);
    let b = buffer::put(out, a, 0);
    let c = buffer::put2(out, b, count);
    buffer::put4(out, c, start)
}

// The messages up to the table, and one more.
fn put_messages(file: &[u8], start: usize, message: &[u8], out: &mut [u8]) -> usize
    ensures { Put out.old out.new 0 result (part file.now 0 start ++ message.now) }
{
    let at = buffer::put_block(out, 0, part(file, 0, start));
    buffer::put_block(out, at, message)
}

// The table, and an entry more for the message that now stands where it stood.
#[tactic(auto, using(crate::proofs::Adding::puts))]
fn put_table(
    format: Format,
    file: &[u8],
    start: usize,
    count: usize,
    out: &mut [u8],
    at: usize,
) -> usize
    requires { (start ≤ most_bytes format) × (start < 4294967296) × (count < 65536) }
    ensures { Put out.old out.new at result (part file.now start (start + width format * count) ++ be (width format) start) }
{
    let end = start + table_bytes(format, count);
    let behind = buffer::put_block(out, at, part(file, start, end));
    put_offset(format, out, behind, start)
}

// The file with a message between its messages and its table, an entry more and another trailer.
#[tactic(auto, using(crate::proofs::Adding::puts))]
fn put_grown(format: Format, file: &[u8], count: usize, message: &[u8], out: &mut [u8]) -> usize
    requires in_bounds { (8 ≤ length file.now) × (start_in file.now ≤ most_bytes format) }
    requires count_bound { (count + 1 < 65536) × (start_in file.now + length message.now < 4294967296) }
    ensures { Put out.old out.new 0 result (grown format file.now count message.now) }
{
    let start = start_in(file);
    let a = put_messages(file, start, message, out);
    let b = put_table(format, file, start, count, out, a);
    let new_start = start + message.len();
    put_trailer(format, out, b, (count + 1) as u16, new_start as u32)
}

#[tactic(auto, using(crate::proofs::Adding::fulls))]
fn is_full(format: Format, file: &[u8], count: usize, message: &[u8]) -> bool
    requires { (length file.now ≤ most_bytes format) × (count ≡ count_in file.now) }
    ensures { result ≡ is_full format file.now message.now }
{
    let left = most_bytes(format) - file.len();
    if left < message.len() {
        return true;
    }
    if left - message.len() < width(format) {
        return true;
    }
    count == 65535
}

// An accepted message into a file that passes.
#[tactic(auto, using(crate::proofs::Adding::adds))]
fn add_accepted(
    format: Format,
    file: &[u8],
    count: usize,
    message: &[u8],
    out: &mut [u8],
) -> Result<Added, Refusal>
    requires { (trailer_stands format file.now ≡ true) × (count ≡ count_in file.now) × (count < 65536) }
    ensures value { result ≡ full_or format file.now message.now (length out.old) }
    ensures out_after { out.new ≡ room_after result (grown format file.now count message.now) out.old }
{
    if is_full(format, file, count, message) {
        return Err(Refusal {
            fault: Fault::DayFull,
            place: 0,
        });
    }
    let bytes = file.len() + (message.len() + width(format));
    if out.len() < bytes {
        return Err(Refusal {
            fault: Fault::NoRoom,
            place: bytes,
        });
    }
    put_grown(format, file, count, message, out);
    Ok(Added {
        messages: count + 1,
        bytes,
    })
}

// The file with one message more, in lent room.
#[tactic(auto, using(crate::proofs::Adding::addings, crate::proofs::Ways::sizes))]
pub fn add(
    format: Format,
    limits: Limits,
    file: &[u8],
    message: &[u8],
    out: &mut [u8],
) -> Result<Added, Refusal>
    ensures value { result ≡ add_day format limits file.now message.now (length out.old) }
    ensures out_after { out.new ≡ room_after result (with_message format file.now message.now) out.old }
{
    let count = checked(format, limits, file)?;
    reader::check(Input::Message, limits, message)?;
    add_accepted(format, file, count, message, out)
}
