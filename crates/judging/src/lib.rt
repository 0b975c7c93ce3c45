// A whole run file judged into a lent buffer.
#![tactic(auto)]

ghost use Rattle.std.specs.Prelude.{◌≤◌, length};
ghost use Rattle.basis.specs.Numbers.{whole};
ghost use Rattle.calculus.specs.Runs.{plain};
ghost use Rattle.trying.specs.Texts.{beneath, ending, most_text};
ghost use Rattle.judging.specs.Judging.{Leaves, Lists, Shows, ShowsNumbers};

use basis::Refused;
use listing::put_bad;
use steps::read_file;
use trying::run_steps;

// What judging a file into a buffer answers: how many bytes were written, and the number and place that judging ended with; or that the buffer
// is shorter than a text can be, and was left. No Result: `Demand1`, `Demand2` and `EndToEnd` are stated of these two.
#[derive(Clone, Copy)]
pub enum Written {
    Bytes {
        count: usize,
        number: u8,
        place: usize,
    },
    Short,
}

// "Of any file the program reads one byte more and no further": than the 65,536 that a valid file may have.
pub const MOST_READ: usize = 65537;

// No listing has more bytes: the lines of 2,000 steps and the last line.
pub const MOST_LISTING: usize = 54008;

// No inspection has more: the listing, a line for each of 160 entries and 96 clauses, and two more.
pub const MOST_INSPECTION: usize = 136558;

// No inspection with numbers has more: a line of them for each of 2,000 steps besides.
pub const MOST_WITH_NUMBERS: usize = 536558;

// What is written of a file into a buffer that has room for every such text. The whole file is judged before the first step is tried.
fn judged(file: &[u8], out: &mut [u8], numbered: bool, shown: bool) -> Written
    requires { most_text numbered shown ≤ length out.old }
    ensures { Leaves (plain whole) (beneath numbered) (ending shown) (most_text numbered shown) file.now out.old out.new result }
{
    match read_file(file) {
        Ok((head, first)) => {
            let ended = run_steps(file, head, first, out, numbered, shown);
            Written::Bytes {
                count: ended.count,
                number: ended.number,
                place: ended.place as usize,
            }
        }
        Err(Refused { refusal, place }) => {
            let number = u8::from(refusal);
            let count = put_bad(out, 0, number, place);
            Written::Bytes {
                count: count,
                number: number,
                place: place,
            }
        }
    }
}

// The listing of a file, written from the buffer's first byte on
pub fn judge(file: &[u8], out: &mut [u8]) -> Written
    ensures { Lists file.now out.old out.new result }
{
    if out.len() < MOST_LISTING {
        return Written::Short;
    }
    judged(file, out, false, false)
}

// For reviewers: the listing, and after it the final state
pub fn inspect(file: &[u8], out: &mut [u8]) -> Written
    ensures { Shows file.now out.old out.new result }
{
    if out.len() < MOST_INSPECTION {
        return Written::Short;
    }
    judged(file, out, false, true)
}

// The same, with the numbers that accepted steps hand on, a line of them beneath the step's
pub fn inspect_numbers(file: &[u8], out: &mut [u8]) -> Written
    ensures { ShowsNumbers file.now out.old out.new result }
{
    if out.len() < MOST_WITH_NUMBERS {
        return Written::Short;
    }
    judged(file, out, true, true)
}
