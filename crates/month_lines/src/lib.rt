// The lines of a month, a line for each namespace: their places in rising order in one array, how many references are to each in another.
#![tactic(auto)]

ghost use Rattle.std.specs.Prelude.{◌≡◌, ◌+◌, ◌<◌, ◌≤◌, min, length};
ghost use Rattle.month_lines.specs.Code.{beyond, shifted, Counts};

// The most lines. One more stands for all that are more.
pub const LINES: usize = 256;

// One past the most that a total may be: it stands for all that are beyond.
pub const BEYOND: u64 = 9223372036854775808;

// A total with so much more.
pub fn more(total: u64, by: u64) -> u64
    ensures { result ≡ min (total + by) beyond }
{
    total.saturating_add(by).min(BEYOND)
}

// A word at a place; those from there on move up by one.
fn insert(words: &mut [u64], lines: usize, at: usize, word: u64)
    requires { (at ≤ lines) × (lines < length words.old) }
    ensures { words.new ≡ shifted lines at word words.old }
{
    // No `rotate_right`, which is `memmove` in an archive.
    let mut carried = word;
    for i in at..lines {
        let moved = words[i];
        words[i] = carried;
        carried = moved;
    }
    words[lines] = carried;
}

// One reference more to the namespace at a place; answers how many lines there are then. Of less room than for all lines nothing is promised.
pub fn count(places: &mut [u64], amounts: &mut [u64], lines: usize, place: u64) -> usize
    ensures { Counts places.old amounts.old lines place result places.new amounts.new }
{
    if LINES < lines {
        return lines;
    }
    if places.len() < LINES {
        return lines;
    }
    if amounts.len() < LINES {
        return lines;
    }
    match places[..lines].binary_search(&place) {
        Ok(at) => {
            amounts[at] = more(amounts[at], 1);
            lines
        }
        Err(_) if lines == LINES => LINES + 1,
        Err(at) => {
            insert(places, lines, at, place);
            insert(amounts, lines, at, 1);
            lines + 1
        }
    }
}
