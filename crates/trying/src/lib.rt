// The steps of a run file that is in order, tried one after the other, and their lines written into a lent buffer.
#![tactic(auto)]

ghost use Rattle.std.specs.Prelude.{◌≡◌, ◌+◌, ◌≤◌, length};
ghost use Rattle.basis.specs.Limits.{most_constants};
ghost use Rattle.clausetext.specs.Room.{Put};
ghost use Rattle.runfile.specs.Readers.{got};
ghost use Rattle.steps.specs.Records.{file_answer};
ghost use Rattle.trying.specs.Running.{Prints, text_beneath};
ghost use Rattle.trying.specs.Texts.{most_beneath, most_text};

use asking::{
    Named, count_looked, last_slot, looked_at, named_rightly, number_looked, slot_of, source_atom,
};
use basis::{MOST_BROUGHT, Numbers, Rule, form_of};
use clauses::no_atom;
use header::{Header, read_clauses};
use inspection::{put_numbers, put_state};
use listing::{put_accepted, put_last, put_refused};
use state::new_run;
use steps::{decision_at, outline_at};

// What trying the steps answers: how many bytes were written, and the number and place of the last answer. No `Result`, since
// `judging::Written::Bytes` is made of it, of which `Demand1`, `Demand2` and `EndToEnd` are stated.
#[derive(Clone, Copy)]
pub struct Ended {
    pub count: usize,
    pub number: u8,
    pub place: u8,
}

// What stands beneath the line of an accepted step, which was tried with so many constants
fn put_beneath(
    out: &mut [u8],
    at: usize,
    numbered: bool,
    constants: u8,
    witness: Option<Numbers>,
) -> usize
    requires { (constants ≤ most_constants) × (at + most_beneath numbered ≤ length out.old) }
    ensures { Put (most_beneath numbered) out.old at (text_beneath numbered constants witness) out.new result }
{
    match witness {
        Some(numbers) if numbered => put_numbers(out, at, &numbers[..constants as usize]),
        _ => at,
    }
}

// Tries the steps of a file that is in order, a line for each, and beneath it the numbers handed on if they are to be shown. "It stops at a
// refused step." Then comes the last line, and the final state if it is to be shown. The table stays here: what a step looks at is copied out
// of it, and what it learns is written there. `Prints numbered shown` is promised of all four pairs; an enum of the three that are used would ask
// more of a caller.
pub fn run_steps(
    file: &[u8],
    head: Header,
    first: usize,
    out: &mut [u8],
    numbered: bool,
    shown: bool,
) -> Ended
    requires { (got head first ≡ file_answer file.now) × (most_text numbered shown ≤ length out.old) }
    ensures { Prints numbered shown file.now out.old out.new result }
{
    let form = form_of(head.version);
    let none = no_atom();
    let mut run = new_run(head.version, head.constants, head.input);
    let mut table = read_clauses(file);
    let mut cursor = first;
    let mut at: usize = 0;
    let mut number: u8 = 0;
    let mut place: u8 = 0;
    'steps: for j in 0..head.steps as usize {
        let Ok((told, past)) = outline_at(file, cursor, form) else {
            unreachable!();
        };
        let rule = u8::from(told.rule);
        let instance = told.instance;
        let last = run.trail[last_slot(run.length)];
        let c = number_looked(last, rule, told.clause);
        let held = table[slot_of(c)];
        let looked = looked_at(c, held);
        // `state::step` has the same switch: behind one function the steps take a fifth longer (1.197 times), since a run and a table handed over
        // are copied.
        let a = match told.rule {
            Rule::Propagate => run.propagate(
                looked,
                told.clause,
                told.literal,
                instance,
                told.count,
            ),
            Rule::Decide => {
                let x = decision_at(file, cursor, form);
                let brought = count_looked(head.version, x);
                let mut right = true;
                let mut named = [none; MOST_BROUGHT];
                for i in 0..brought {
                    let z = x.atoms[i];
                    let own = table[slot_of(z.clause)];
                    let of = looked_at(z.clause, own);
                    let clause = of.clause;
                    right &= named_rightly(run.constants, run.input + run.learned, z, clause);
                    named[i] = source_atom(z, clause);
                }
                let atoms = Named { right, at: named };
                run.decide(looked, atoms, x)
            }
            Rule::Conflict => run.conflict(looked, told.clause, instance, told.count),
            Rule::Resolve => run.resolve(looked, told.literal),
            Rule::Factorize => run.factorize(told.literal, told.other),
            Rule::Skip => run.skip(),
            Rule::Backtrack => run.backtrack(told.literal),
            Rule::Grow => run.grow(told.amount),
        };
        let stepped = match a {
            Ok(stepped) => stepped,
            Err(refused) => {
                number = u8::from(refused.refusal);
                place = refused.place;
                at = put_refused(out, at, j + 1, rule, number);
                break 'steps;
            }
        };
        if let Some(n) = stepped.learned {
            let conflict = run.conflict;
            let clause = conflict.clause;
            table[n as usize - 1] = clause;
        }
        let constants = run.constants;
        let next = stepped.run;
        run = next;
        at = put_accepted(out, at, j + 1, rule, run.length, run.level);
        at = put_beneath(out, at, numbered, constants, stepped.witness);
        cursor = past;
    }
    let last = put_last(out, at, run, number);
    let mut count = last;
    if shown {
        count = put_state(out, last, run, table);
    }
    Ended {
        count,
        number,
        place,
    }
}
