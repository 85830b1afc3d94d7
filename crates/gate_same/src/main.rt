// `gate same FILE FILE`: whether two files hold the same single ARI: `same`, `different`, or `refused N P` with the name of the refused file on standard
// error.
#![tactic(auto)]

use ari::Refusal;
use std::env::Env;

// The refused file is the first, if it is refused by itself.
fn show_refused(rt: &impl Env, first: &[u8], refusal: Refusal) {
    print::send_refusal(refusal);
    let file = if reader::check_single(first).is_err() {
        1
    } else {
        2
    };
    input_file::say_name(rt, file);
}

fn show(rt: &impl Env, first: &[u8], second: &[u8]) {
    match sameness::same(first, second) {
        Ok(same) => {
            io::write_all(1, if same { b"same\n" } else { b"different\n" });
        }
        Err(refusal) => show_refused(rt, first, refusal),
    }
}

fn main(rt: HostRuntime) {
    let mut first = [0u8; ari::BYTES + 1];
    let mut second = [0u8; ari::BYTES + 1];
    let loaded = input_file::load_both(
        &rt,
        b"usage: gate same FILE FILE\n",
        &mut first,
        &mut second,
    );
    if let Some(both) = loaded {
        let n = both.first;
        let m = both.second;
        show(&rt, &first[..n], &second[..m]);
    }
}
