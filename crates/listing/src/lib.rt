// The lines of a listing, written into a lent buffer: each function writes from a place on and answers the place after what it wrote. The
// caller sees to the room.
#![tactic(auto)]

ghost use Rattle.std.specs.Prelude.{◌≡◌, ◌+◌, ◌≤◌, length};
ghost use Rattle.runfile.specs.File.{most_steps};
ghost use Rattle.text.specs.Text.{Wrote};
ghost use Rattle.listing.specs.Lines.{numbered, accepted_line, refused_line, bad_line, closing, most_numbered, most_line, most_last, most_bad};
ghost use Rattle.listing.specs.Records as records;

use basis::{Rule, UnknownRule};
use rules::Run;
use text::{put_byte, put_decimal, put_word};

// "Rule name in small letters"; a number that no rule has has no name.
fn name_of(rule: u8) -> &'static [u8]
    ensures { result.now ≡ records.name_of rule }
{
    match Rule::try_from(rule) {
        Ok(Rule::Propagate) => b"propagate",
        Ok(Rule::Decide) => b"decide",
        Ok(Rule::Conflict) => b"conflict",
        Ok(Rule::Resolve) => b"resolve",
        Ok(Rule::Factorize) => b"factorize",
        Ok(Rule::Skip) => b"skip",
        Ok(Rule::Backtrack) => b"backtrack",
        Ok(Rule::Grow) => b"grow",
        Err(UnknownRule) => b"",
    }
}

// "Step number, rule name in small letters"
#[tactic(auto, using(crate::proofs::Lines::digits_step, crate::proofs::Lines::short_name))]
fn put_numbered(out: &mut [u8], at: usize, n: usize, rule: u8) -> usize
    requires { (n ≤ most_steps) × (at + most_numbered ≤ length out.old) }
    ensures { Wrote out.old at (numbered n (records.name_of rule)) out.new result }
{
    let space = put_decimal(out, at, n);
    let name = put_byte(out, space, b' ');
    put_word(out, name, name_of(rule))
}

// "One line per step tried: step number, rule name in small letters, trail length, k"
#[tactic(auto, using(crate::proofs::Lines::length_numbered, crate::proofs::Lines::digits_byte))]
pub fn put_accepted(out: &mut [u8], at: usize, n: usize, rule: u8, trail: u8, level: u8) -> usize
    requires { (n ≤ most_steps) × (at + most_line ≤ length out.old) }
    ensures { Wrote out.old at (accepted_line n (records.name_of rule) trail level) out.new result }
{
    let first = put_numbered(out, at, n, rule);
    let length = put_byte(out, first, b' ');
    let second = put_decimal(out, length, usize::from(trail));
    let k = put_byte(out, second, b' ');
    let end = put_decimal(out, k, usize::from(level));
    put_byte(out, end, b'\n')
}

// "Or number, name, `refused`, refusal". A number and no `Refusal`: every number has its line, and the enum would ask more of callers.
#[tactic(auto, using(crate::proofs::Lines::length_numbered, crate::proofs::Lines::digits_byte))]
pub fn put_refused(out: &mut [u8], at: usize, n: usize, rule: u8, refusal: u8) -> usize
    requires { (n ≤ most_steps) × (at + most_line ≤ length out.old) }
    ensures { Wrote out.old at (refused_line n (records.name_of rule) refusal) out.new result }
{
    let word = put_numbered(out, at, n, rule);
    let number = put_word(out, word, b" refused ");
    let end = put_decimal(out, number, usize::from(refusal));
    put_byte(out, end, b'\n')
}

// "A bad file prints only `bad file`, number, place." A number and no `Refusal`, as in `put_refused`
#[tactic(auto, using(crate::proofs::Lines::digits_byte, crate::proofs::Lines::digits_machine))]
pub fn put_bad(out: &mut [u8], at: usize, number: u8, place: usize) -> usize
    requires { at + most_bad ≤ length out.old }
    ensures { Wrote out.old at (bad_line number place) out.new result }
{
    let first = put_word(out, at, b"bad file ");
    let space = put_decimal(out, first, usize::from(number));
    let second = put_byte(out, space, b' ');
    let end = put_decimal(out, second, place);
    put_byte(out, end, b'\n')
}

// A conflict stands and has no literals.
fn refuted(run: Run) -> bool
    ensures { result ≡ records.refuted run }
{
    run.stands && run.conflict.clause.literalcount == 0
}

// "Last line: `refuted` if the conflict has no literals, else `stopped` if a step was refused, else `open`". A number, 0 for none, as in `put_refused`
pub fn put_last(out: &mut [u8], at: usize, run: Run, refusal: u8) -> usize
    requires { at + most_last ≤ length out.old }
    ensures { Wrote out.old at (closing (records.refuted run) refusal) out.new result }
{
    if refuted(run) {
        put_word(out, at, b"refuted\n")
    } else if refusal == 0 {
        put_word(out, at, b"open\n")
    } else {
        put_word(out, at, b"stopped\n")
    }
}
