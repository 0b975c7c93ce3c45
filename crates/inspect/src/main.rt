// The program for reviewers: reads a run file from standard input and prints its listing, and then the final state. The word `numbers` asks for
// the numbers that accepted steps hand on.
#![tactic(auto)]

ghost use Rattle.judging.specs.Judging.{WrittenWithin};

use judging::{MOST_INSPECTION, MOST_READ, MOST_WITH_NUMBERS, Written};
use words::Program;

// What was written, printed
fn print_text(rt: HostRuntime, written: Written, text: &[u8])
    requires { WrittenWithin text.now written }
{
    if let Written::Bytes { count, .. } = written {
        streams::print(rt, b"inspect", &text[..count]);
    }
}

// The listing and the final state of a file; the buffer is long enough for all. Not inlined: each run has but its own buffer on the stack.
#[inline(never)]
fn print_inspection(rt: HostRuntime, file: &[u8]) {
    let mut text = [0u8; MOST_INSPECTION];
    let written = judging::inspect(file, &mut text);
    print_text(rt, written, &text);
}

// The same with the numbers
#[inline(never)]
fn print_numbers(rt: HostRuntime, file: &[u8]) {
    let mut text = [0u8; MOST_WITH_NUMBERS];
    let written = judging::inspect_numbers(file, &mut text);
    print_text(rt, written, &text);
}

fn main(rt: HostRuntime) {
    let words = match streams::words(rt, Program::Inspect) {
        Ok(words) => words,
        Err(unknown) => {
            streams::tell_unknown(rt, b"inspect", unknown.position);
            return;
        }
    };
    let mut file = [0u8; MOST_READ];
    if let Some(count) = streams::read_input(rt, b"inspect", &mut file) {
        let file = &file[..count];
        if words.numbers {
            print_numbers(rt, file);
        } else {
            print_inspection(rt, file);
        }
    }
}
