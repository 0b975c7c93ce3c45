// The program: reads a run file from standard input and prints its listing. It takes no words.
#![tactic(auto)]

use judging::{MOST_LISTING, MOST_READ, Written};
use words::Program;

// The listing of a file, printed; the buffer is long enough for every listing.
fn print_listing(rt: HostRuntime, file: &[u8]) {
    let mut text = [0u8; MOST_LISTING];
    if let Written::Bytes { count, .. } = judging::judge(file, &mut text) {
        streams::print(rt, b"judge", &text[..count]);
    }
}

fn main(rt: HostRuntime) {
    if let Err(unknown) = streams::words(rt, Program::Judge) {
        streams::tell_unknown(rt, b"judge", unknown.position);
        return;
    }
    let mut file = [0u8; MOST_READ];
    if let Some(count) = streams::read_input(rt, b"judge", &mut file) {
        print_listing(rt, &file[..count]);
    }
}
