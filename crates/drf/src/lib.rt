// Judging, and clauses from lookup tables, for programs in C or Rust: slices are lent, and the answer is numbers.
#![tactic(auto)]

ghost use Rattle.std.specs.Prelude.{◌≡◌, ◌<◌};
ghost use Rattle.drf.specs.Export.{Inspects, InspectsNumbers, Judges, Tables, count, match_of, noted, table_code};

use basis::Refused;
use judging::Written;
use lookup::Match;

// ---- judging

fn counted(answer: Written) -> u64
    ensures { result ≡ count answer }
{
    match answer {
        Written::Bytes { count, .. } => count as u64,
        Written::Short => 0,
    }
}

// The number and place that judging ended with, in front of the slice
fn note(answer: Written, out: &mut [u64])
    ensures { out.new ≡ noted answer out.old }
{
    if let Written::Bytes { number, place, .. } = answer {
        if out.len() < 2 {
            return;
        }
        out[0] = u64::from(number);
        out[1] = place as u64;
    }
}

// The listing of a file, at the front of the buffer; number and place at the front of the other slice
#[unsafe(no_mangle)]
pub extern "C" fn drf_judge(file: &[u8], out: &mut [u8], ends: &mut [u64]) -> u64
    ensures { Judges file.now out.old ends.old out.new ends.new result }
{
    let answer = judging::judge(file, out);
    note(answer, ends);
    counted(answer)
}

// The same, with the final state after the listing
#[unsafe(no_mangle)]
pub extern "C" fn drf_inspect(file: &[u8], out: &mut [u8], ends: &mut [u64]) -> u64
    ensures { Inspects file.now out.old ends.old out.new ends.new result }
{
    let answer = judging::inspect(file, out);
    note(answer, ends);
    counted(answer)
}

// The same, with the numbers that accepted steps hand on
#[unsafe(no_mangle)]
pub extern "C" fn drf_inspect_numbers(file: &[u8], out: &mut [u8], ends: &mut [u64]) -> u64
    ensures { InspectsNumbers file.now out.old ends.old out.new ends.new result }
{
    let answer = judging::inspect_numbers(file, out);
    note(answer, ends);
    counted(answer)
}

// ---- clauses from lookup tables

fn match_of(approximate: u8) -> Match
    ensures { result ≡ match_of approximate }
{
    if approximate == 0 {
        Match::Exact
    } else {
        Match::Approximate
    }
}

fn table_code(made: Result<usize, Refused<u8>>) -> u32
    requires { table_code made < 65536 }
    ensures { result ≡ table_code made }
{
    match made {
        Ok(count) => count as u32,
        Err(Refused { refusal, place }) => { u32::from(u8::from(refusal)) * 256 + u32::from(place) }
    }
}

// The clauses of a table at the front of the buffer, and how many bytes they have; refused, 256 times the number, plus the place
#[unsafe(no_mangle)]
pub extern "C" fn drf_table(keys: &[i32], results: &[i32], approximate: u8, out: &mut [u8]) -> u32
    ensures { Tables keys.now results.now approximate out.old out.new result }
{
    table_code(lookup::clauses_from(keys, results, match_of(approximate), out))
}
