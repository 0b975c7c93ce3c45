// Reading the steps of a run file, one at a time, and judging the whole file before the first of them is tried.
#![tactic(auto)]

ghost use Rattle.std.specs.Prelude.{◌≡◌, ◌≤◌, IfOk};
ghost use Rattle.basis.specs.Limits.{most_brought, most_variables};
ghost use Rattle.basis.specs.RuleNumbers.{rule_number};
ghost use Rattle.runfile.specs.File.{end};
ghost use Rattle.fields.specs.Views.{read};
ghost use Rattle.steps.specs.Records.{arguments, blank_step, brought, constants, counted, decided, decision, file_answer, outline, outline_read, passed_over, source_record, source_records, step_there};

use asking::{Source, Step, no_source};
use basis::{Form, MOST_BROUGHT, MOST_VARIABLES, Refusal, Refused, Rule, form_of};
use fields::{Read, byte_at, count_at, rule_at, several, within_at};
use header::{Header, read_header};
use lists::Held;

// A step but for the atoms that it brings, which are counted: rule and arguments; those that the rule has no use for are 0.
// Atoms are 384 bytes of 404: with them in every step's record, each step takes a fifth longer.
#[derive(Clone, Copy)]
pub struct Outline {
    pub rule: Rule,
    pub clause: u8,
    pub literal: u8,
    pub other: u8,
    pub sign: u8,
    pub amount: u8,
    pub count: u8,
    pub brought: u8,
    pub instance: [u8; MOST_VARIABLES],
}

// ---- what is read several times

// "An instance as a count (at most 12) and constants"
fn instance_at(s: &[u8], at: usize) -> Read<Held<u8, MOST_VARIABLES>>
    ensures reads { read result ≡ constants s.now at }
    ensures few { IfOk result (λ r. r.0.n ≤ most_variables) }
{
    let (n, at) = count_at(s, at, MOST_VARIABLES)?;
    several(at, n, 0, |at| byte_at(s, at))
}

// "Each as clause, atom number, sign, instance"
#[tactic(auto, unfolding(runfile::specs::File::source))]
fn source_at(s: &[u8], at: usize) -> Read<Source>
    ensures { read result ≡ source_record s.now at }
{
    let (clause, at) = byte_at(s, at)?;
    let (number, at) = byte_at(s, at)?;
    let (sign, at) = within_at(s, at, 0, 1)?;
    let (Held { n, at: instance }, at) = instance_at(s, at)?;
    let source = Source {
        clause,
        number,
        sign,
        count: n as u8,
        instance,
    };
    Ok((source, at))
}

// "A Decide step ends with a count (at most 24) of atoms", where the file's version has it so
#[tactic(auto, unfolding(runfile::specs::File::sources))]
fn sources_at(s: &[u8], at: usize, form: Form) -> Read<Held<Source, MOST_BROUGHT>>
    ensures reads { read result ≡ source_records form s.now at }
    ensures few { IfOk result (λ r. r.0.n ≤ most_brought) }
{
    if form.brings {
        let (n, at) = count_at(s, at, MOST_BROUGHT)?;
        several(at, n, no_source(), |at| source_at(s, at))
    } else {
        Ok((Held::new(no_source()), at))
    }
}

// So many of them, of which nothing is kept
fn sources_end(s: &[u8], at: usize, brought: u8) -> Read<u8>
    ensures { read result ≡ counted brought s.now at }
{
    let mut past = at;
    for _ in 0..brought {
        let (_, next) = source_at(s, past)?;
        past = next;
    }
    Ok((brought, past))
}

// How many of them a Decide brings
#[tactic(auto, unfolding(runfile::specs::File::sources))]
fn brought_at(s: &[u8], at: usize, form: Form) -> Read<u8>
    ensures { read result ≡ brought form s.now at }
{
    if form.brings {
        let (n, at) = count_at(s, at, MOST_BROUGHT)?;
        sources_end(s, at, n)
    } else {
        Ok((0, at))
    }
}

// ---- steps

// A step whose rule has no use for any argument
const BLANK: Outline = Outline {
    rule: Rule::Skip,
    clause: 0,
    literal: 0,
    other: 0,
    sign: 0,
    amount: 0,
    count: 0,
    brought: 0,
    instance: [0; MOST_VARIABLES],
};

// The arguments of a Propagate
#[tactic(auto, unfolding(runfile::specs::File::ruled))]
fn propagate_at(s: &[u8], at: usize, form: Form) -> Read<Outline>
    ensures { outline_read result ≡ arguments form 1 s.now at }
{
    let (clause, at) = byte_at(s, at)?;
    let (literal, at) = byte_at(s, at)?;
    let (Held { n, at: instance }, at) = instance_at(s, at)?;
    let outline = Outline {
        rule: Rule::Propagate,
        clause,
        literal,
        count: n as u8,
        instance,
        ..BLANK
    };
    Ok((outline, at))
}

// The arguments of a Decide, of whose atoms none is kept: a table of them for each step that is passed over costs more than they do.
#[tactic(auto, unfolding(runfile::specs::File::ruled))]
fn outlined_at(s: &[u8], at: usize, form: Form) -> Read<Outline>
    ensures { outline_read result ≡ arguments form 2 s.now at }
{
    let (clause, at) = byte_at(s, at)?;
    let (literal, at) = byte_at(s, at)?;
    let (sign, at) = within_at(s, at, 0, 1)?;
    let (Held { n, at: instance }, at) = instance_at(s, at)?;
    let (brought, at) = brought_at(s, at, form)?;
    let outline = Outline {
        rule: Rule::Decide,
        clause,
        literal,
        sign,
        count: n as u8,
        brought,
        instance,
        ..BLANK
    };
    Ok((outline, at))
}

// .. with the atoms that it brings
#[tactic(auto, unfolding(runfile::specs::File::ruled))]
fn decide_at(s: &[u8], at: usize, form: Form) -> Read<Step>
    ensures { read result ≡ decided form s.now at }
{
    let (clause, at) = byte_at(s, at)?;
    let (literal, at) = byte_at(s, at)?;
    let (sign, at) = within_at(s, at, 0, 1)?;
    let (Held { n, at: instance }, at) = instance_at(s, at)?;
    let (Held { n: m, at: atoms }, at) = sources_at(s, at, form)?;
    let step = Step {
        rule: 2,
        clause,
        literal,
        other: 0,
        sign,
        amount: 0,
        count: n as u8,
        brought: m as u8,
        instance,
        atoms,
    };
    Ok((step, at))
}

// The arguments of a Conflict
#[tactic(auto, unfolding(runfile::specs::File::ruled))]
fn conflict_at(s: &[u8], at: usize, form: Form) -> Read<Outline>
    ensures { outline_read result ≡ arguments form 3 s.now at }
{
    let (clause, at) = byte_at(s, at)?;
    let (Held { n, at: instance }, at) = instance_at(s, at)?;
    let outline = Outline {
        rule: Rule::Conflict,
        clause,
        count: n as u8,
        instance,
        ..BLANK
    };
    Ok((outline, at))
}

// The arguments of a rule
#[tactic(auto, unfolding(runfile::specs::File::ruled, lists::specs::Arrays::exactly))]
fn arguments_at(s: &[u8], at: usize, form: Form, rule: Rule) -> Read<Outline>
    ensures { outline_read result ≡ arguments form (rule_number rule) s.now at }
{
    match rule {
        Rule::Propagate => propagate_at(s, at, form),
        Rule::Decide => outlined_at(s, at, form),
        Rule::Conflict => conflict_at(s, at, form),
        Rule::Resolve | Rule::Backtrack => {
            let (literal, at) = byte_at(s, at)?;
            Ok((
                Outline {
                    rule,
                    literal,
                    ..BLANK
                },
                at,
            ))
        }
        Rule::Factorize => {
            let (literal, at) = byte_at(s, at)?;
            let (other, at) = byte_at(s, at)?;
            Ok((
                Outline {
                    rule,
                    literal,
                    other,
                    ..BLANK
                },
                at,
            ))
        }
        Rule::Skip => Ok((BLANK, at)),
        Rule::Grow => {
            let (amount, at) = byte_at(s, at)?;
            Ok((
                Outline {
                    rule,
                    amount,
                    ..BLANK
                },
                at,
            ))
        }
    }
}

// The step at a place but for its atoms, which are counted
#[tactic(auto, unfolding(runfile::specs::File::step))]
pub fn outline_at(s: &[u8], place: usize, form: Form) -> Read<Outline>
    ensures { outline_read result ≡ outline form s.now place }
{
    let (rule, at) = rule_at(s, place)?;
    arguments_at(s, at, form, rule)
}

// The blank step
#[tactic(auto, unfolding(lists::specs::Arrays::exactly))]
fn blank_step() -> Step
    ensures { result ≡ blank_step }
{
    Step {
        rule: 0,
        clause: 0,
        literal: 0,
        other: 0,
        sign: 0,
        amount: 0,
        count: 0,
        brought: 0,
        instance: [0; MOST_VARIABLES],
        atoms: [no_source(); MOST_BROUGHT],
    }
}

// The whole step at a place at which a Decide stands; blank where none can be read
pub fn decision_at(s: &[u8], place: usize, form: Form) -> Step
    ensures { result ≡ step_there (decision form s.now place) }
{
    let Ok((_, at)) = rule_at(s, place) else {
        return blank_step();
    };
    let Ok((step, _)) = decide_at(s, at, form) else {
        return blank_step();
    };
    step
}

// ---- the whole file

// n steps, of which nothing is kept
fn steps_end(s: &[u8], at: usize, n: u32, form: Form) -> Read<()>
    ensures { read result ≡ passed_over n form s.now at }
{
    let mut past = at;
    for _ in 0..n {
        let (_, next) = outline_at(s, past, form)?;
        past = next;
    }
    Ok(((), past))
}

// "8: bytes after the last step"
fn end_at(s: &[u8], at: usize) -> Read<()>
    ensures { read result ≡ end s.now at }
{
    if s.len() <= at {
        Ok(((), at))
    } else {
        Err(Refused {
            refusal: Refusal::Surplus,
            place: at,
        })
    }
}

// "22, before all others, a file above 65,536 bytes"
const MOST_FILE: usize = 65536;

// What stands before the first step and the place of that step, the whole file being in order; or its refusal
pub fn read_file(s: &[u8]) -> Read<Header>
    ensures { read result ≡ file_answer s.now }
{
    if MOST_FILE < s.len() {
        return Err(Refused {
            refusal: Refusal::TooLong,
            place: MOST_FILE,
        });
    }
    let (head, first) = read_header(s)?;
    let (_, last) = steps_end(s, first, head.steps, form_of(head.version))?;
    end_at(s, last)?;
    Ok((head, first))
}
