// `gate why TABLE SUBSCRIBER [PUBLISHED [OWN]]`: reads a message from standard input and writes why it is held: `released`; the entry that release names as its
// text, with the reason in words, and a line for each container from the outermost down to it; or a refusal.
#![tactic(auto)]

fn main(rt: HostRuntime) {
    release_program::run(
        &rt,
        release_program::Asked::Why,
        b"usage: gate why TABLE SUBSCRIBER [PUBLISHED [OWN]]\n",
    );
}
