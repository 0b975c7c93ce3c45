// Standard input, output and error for programs: a fault of reading or writing is one line on standard error. And the words of the command line.
#![tactic(auto)]

ghost use Rattle.streams.specs.Streams.{EndsWithin, FillsWithin};

use std::env::FillError;
use std::io::Read;
use std::rt::Env;
use words::{MOST_UNKNOWN, MOST_WORD, Program, Unknown, Words, no_words, put_unknown, with_word};

// A program's name and what failed, as one line
fn tell(rt: HostRuntime, program: &[u8], fault: &[u8]) {
    let _ = rt.stderr().write_all(program);
    let _ = rt.stderr().write_all(fault);
}

// Reads to the reader's end, or to the buffer's: how many bytes stand at the buffer's front, all of them or those before a read that failed.
// A read that a signal interrupts counts as one that failed.
pub fn read_full(reader: &mut impl Read, buffer: &mut [u8]) -> Result<usize, usize>
    ensures { FillsWithin buffer.new result }
{
    let mut at: usize = 0;
    // Each turn goes on by as many bytes as came: there is no place to be counted through.
    while at < buffer.len() {
        match reader.read(&mut buffer[at..]) {
            Ok(0) => break,
            Ok(more) => at += more,
            Err(_) => return Err(at),
        }
    }
    Ok(at)
}

// Reads standard input to its end, or to the buffer's: how many bytes stand at the buffer's front; none of them counts where a read failed.
pub fn read_input(rt: HostRuntime, program: &[u8], buffer: &mut [u8]) -> Option<usize>
    ensures { EndsWithin buffer.new result }
{
    match read_full(&mut rt.stdin(), buffer) {
        Ok(n) => Some(n),
        Err(_) => {
            tell(rt, program, b": standard input can't be read\n");
            None
        }
    }
}

// Writes a text to standard output.
pub fn print(rt: HostRuntime, program: &[u8], text: &[u8]) {
    if rt.write_all(text).is_err() {
        tell(rt, program, b": standard output can't be written\n");
    }
}

// The command line's word at a position, unless there is none: how many bytes of it stand at the buffer's front. Of one that is longer than
// the buffer nothing is taken.
pub fn word_at(rt: HostRuntime, position: usize, buffer: &mut [u8]) -> Option<usize>
    ensures { EndsWithin buffer.new result }
{
    match rt.arg(position, buffer) {
        Ok(count) => Some(count),
        Err(FillError::TooLong) => Some(0),
        Err(FillError::NotPresent) => None,
    }
}

// What the words of the command line ask for; or the first that the program does not know. A word that is longer than any of a program's is
// unknown.
pub fn words(rt: HostRuntime, program: Program) -> Result<Words, Unknown> {
    let mut word = [0u8; MOST_WORD];
    let mut words = no_words();
    for position in 1..usize::MAX {
        let Some(count) = word_at(rt, position, &mut word) else {
            break;
        };
        words = with_word(program, words, position, &word[..count]);
    }
    words
}

// Names an unknown word by its position.
pub fn tell_unknown(rt: HostRuntime, program: &[u8], position: usize) {
    let mut line = [0u8; MOST_UNKNOWN];
    let count = put_unknown(&mut line, position);
    print(rt, program, &line[..count]);
}
