// The words of the command line: what they ask for, and the line that names an unknown one.
#![tactic(auto)]

ghost use Rattle.std.specs.Prelude.{◌≡◌, ◌≤◌, length};
ghost use Rattle.text.specs.Text.{Wrote};
ghost use Rattle.words.specs.Words.{is_numbers, known, most_unknown, no_words, unknown_line, with_word};

use text::{put_byte, put_decimal, put_word};

// The programs that take words
#[derive(Clone, Copy, PartialEq, Eq)]
pub enum Program {
    Judge,
    Inspect,
}

// What the words given so far ask for, where the program knows them all
#[derive(Clone, Copy, PartialEq, Eq)]
pub struct Words {
    pub numbers: bool,
}

// The position, from 1, of the first word that the program does not know; and whether `numbers` was asked for before it
#[derive(Clone, Copy, PartialEq, Eq)]
pub struct Unknown {
    pub position: usize,
    pub numbers: bool,
}

// No word of a program has more bytes.
pub const MOST_WORD: usize = 7;

// No line that names an unknown word has more.
pub const MOST_UNKNOWN: usize = 34;

// Before the first word
pub fn no_words() -> Result<Words, Unknown>
    ensures { result ≡ no_words }
{
    Ok(Words { numbers: false })
}

// Whether the word is `numbers`
fn is_numbers(word: &[u8]) -> bool
    ensures { result ≡ is_numbers word.now }
{
    word == b"numbers".as_slice()
}

// Whether the program knows the word
fn is_known(program: Program, word: &[u8]) -> bool
    ensures { result ≡ known program word.now }
{
    match program {
        Program::Judge => false,
        Program::Inspect => is_numbers(word),
    }
}

// One word more, at its position; or the first that the program does not know
pub fn with_word(
    program: Program,
    words: Result<Words, Unknown>,
    position: usize,
    word: &[u8],
) -> Result<Words, Unknown>
    ensures { result ≡ with_word program words position word.now }
{
    let words = words?;
    if !is_known(program, word) {
        return Err(Unknown {
            position,
            numbers: words.numbers,
        });
    }
    Ok(Words {
        numbers: words.numbers || is_numbers(word),
    })
}

// The line that names an unknown word
pub fn put_unknown(out: &mut [u8], position: usize) -> usize
    requires { most_unknown ≤ length out.old }
    ensures { Wrote out.old 0 (unknown_line position) out.new result }
{
    let at = put_word(out, 0, b"unknown word ");
    let at = put_decimal(out, at, position);
    put_byte(out, at, b'\n')
}
