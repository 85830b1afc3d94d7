// `gate release TABLE SUBSCRIBER [PUBLISHED [OWN]]`: reads a message from standard input and writes whether it may be released to the subscriber under the
// grant table whose text is in the file TABLE and the two lists of names: `yes`, `no` with the number and the line of the first entry that isn't granted, each
// with a second line `compared N`, the number of rows compared; or a refusal.
#![tactic(auto)]

fn main(rt: HostRuntime) {
    release_program::run(
        &rt,
        release_program::Asked::Release,
        b"usage: gate release TABLE SUBSCRIBER [PUBLISHED [OWN]]\n",
    );
}
