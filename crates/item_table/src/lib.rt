// The table of an input's items, in the order of their first bytes: one word for each; and that of its references alone. The walk writes them; all else that
// asks about items reads them, with the heads that still stand in the input's bytes.
#![tactic(auto)]

ghost use Rattle.std.specs.Prelude.{◌≡◌, set};
ghost use Rattle.item_table.specs.Entries.{packed, item_of, head_of, head_by, reference_by};
ghost use Rattle.item_table.specs.References.{place_for, reserved_for, filled, latest, with_end, ended};

// An item: its first byte, the byte after its last, the open containers around it, and the number of its slot.
#[derive(Clone, Copy)]
pub struct Item {
    pub first: usize,
    pub after: usize,
    pub around: usize,
    pub slot: u64,
}

// The item of a word.
pub fn item_of(entry: u64) -> Item
    ensures { result ≡ item_of entry }
{
    Item {
        first: (entry % 65536) as usize,
        after: (entry / 65536 % 65536) as usize,
        around: (entry / 4294967296 % 256) as usize,
        slot: entry / 1099511627776 % 256,
    }
}

// The bytes of a reference's head; 0 where the item is no reference.
pub fn head_of(entry: u64) -> usize
    ensures { result ≡ head_of entry }
{
    (entry / 281474976710656) as usize
}

// A word of the table; each field keeps its lowest bits.
fn pack(first: usize, after: usize, around: usize, slot: u64, head: usize) -> u64
    ensures { result ≡ packed first after around slot head }
{
    (first % 65536) as u64
        + (after % 65536) as u64 * 65536
        + (around % 256) as u64 * 4294967296
        + slot % 256 * 1099511627776
        + (head % 65536) as u64 * 281474976710656
}

// Whether a head of this kind and argument, at a slot, is a reference: an array of length 1, 3 or 4 where an ARI or an object reference is due. The
// slot is looked up last: few heads come to that.
pub fn is_reference(slot: u64, kind: u8, arg: u64) -> bool
    ensures { result ≡ reference_by slot kind arg }
{
    if kind != cbor::ARRAY {
        return false;
    }
    if arg == 2 {
        return false;
    }
    grammar::takes_reference(slot)
}

// The bytes of a head, if it is a reference's.
fn head_by(slot: u64, kind: u8, arg: u64, head: usize) -> usize
    ensures { result ≡ head_by slot kind arg head }
{
    if is_reference(slot, kind, arg) {
        return head;
    }
    0
}

// Item k goes into the table, by its head and how many bytes that has. A table that is too short, or empty, keeps what it has room for, and nothing
// is looked up for the rest.
pub fn put(
    entries: &mut [u64],
    k: usize,
    first: usize,
    after: usize,
    around: usize,
    slot: u64,
    kind: u8,
    arg: u64,
    head: usize,
)
    ensures { entries.new ≡ set entries.old k (packed first after around slot (head_by slot kind arg head)) }
{
    if k < entries.len() {
        entries[k] = pack(first, after, around, slot, head_by(slot, kind, arg, head));
    }
}

// The same of an item that is no reference.
pub fn put_plain(
    entries: &mut [u64],
    k: usize,
    first: usize,
    after: usize,
    around: usize,
    slot: u64,
)
    ensures { entries.new ≡ set entries.old k (packed first after around slot 0) }
{
    if k < entries.len() {
        entries[k] = pack(first, after, around, slot, 0);
    }
}

// A table of references alone has none yet.
pub fn clear(references: &mut [u64])
    ensures { references.new ≡ set references.old 0 0 }
{
    if references.len() > 0 {
        references[0] = 0;
    }
}

// A head takes the next place in a table of references alone, if it is a reference and there is one; 0 is no place.
pub fn reserve(references: &mut [u64], slot: u64, kind: u8, arg: u64) -> usize
    ensures value { result ≡ place_for slot kind arg references.old }
    ensures references_after { references.new ≡ reserved_for slot kind arg references.old }
{
    if references.len() == 0 {
        return 0;
    }
    if !is_reference(slot, kind, arg) {
        return 0;
    }
    let n = references[0] as usize;
    if references.len() - 1 <= n {
        return 0;
    }
    references[0] = (n + 1) as u64;
    n + 1
}

// The reference at its place, when its end is known.
pub fn fill(
    references: &mut [u64],
    place: usize,
    first: usize,
    after: usize,
    around: usize,
    slot: u64,
    head: usize,
)
    ensures { references.new ≡ filled references.old place (packed first after around slot head) }
{
    if place == 0 {
        return;
    }
    if place < references.len() {
        references[place] = pack(first, after, around, slot, head);
    }
}

// A word with another end.
fn with_end(entry: u64, after: usize) -> u64
    ensures { result ≡ with_end entry after }
{
    entry % 65536 + (after % 65536) as u64 * 65536 + entry / 4294967296 * 4294967296
}

// The reference at its place, while its end is not known: it waits, with the place of the one that waited before, and is the last one that does.
pub fn wait(
    references: &mut [u64],
    place: usize,
    first: usize,
    pending: usize,
    around: usize,
    slot: u64,
    head: usize,
) -> usize
    ensures value { result ≡ latest place pending }
    ensures references_after { references.new ≡ filled references.old place (packed first pending around slot head) }
{
    if place == 0 {
        return pending;
    }
    if place < references.len() {
        references[place] = pack(first, pending, around, slot, head);
    }
    place
}

// References that wait for their end get it, from the last one on: where it is due each one's word has the place of the one before, or 0.
pub fn end_all(references: &mut [u64], pending: usize, after: usize)
    ensures { references.new ≡ ended references.old pending after }
{
    if pending == 0 {
        return;
    }
    let mut k = pending;
    while k != 0 {
        if references.len() <= k {
            return;
        }
        let entry = references[k];
        let x = item_of(entry);
        references[k] = with_end(entry, after);
        if k <= x.after {
            return;
        }
        k = x.after;
    }
}
