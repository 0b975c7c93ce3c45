// A state with its clauses: only admission makes it and only steps change it.
#![tactic(auto)]

ghost use Rattle.std.specs.Prelude.{◌≡◌, ◌≤◌, length};
ghost use Rattle.basis.specs.Limits.{most_clauses, most_input, most_predicates};
ghost use Rattle.lists.specs.Arrays.{exactly};
ghost use Rattle.calculus.specs.Clauses as calculus;
ghost use Rattle.clauses.specs.Records.{packed};
ghost use Rattle.admission.specs.Offered.{offered_table};
ghost use Rattle.state.specs.Runs.{start_again};
ghost use Rattle.state.specs.States.{Answers, IsNew, Made, new_run, opened};

use asking::{
    Named, Step, count_looked, last_slot, looked_at, named_rightly, number_looked, slot_of,
    source_atom,
};
use basis::{MOST_BROUGHT, MOST_CLAUSES, MOST_PREDICATES, Numbers, Rule, Version};
use clauses::{Clause, no_atom, no_clause, no_instanced};
use rules::Run;
use trail::empty_trail;

// "A state is predicates with arities, trail, input clauses, learned clauses, constants, level k, and a conflict or none"; its run knows its
// version. The fields are private: what stands here was admitted or learned.
#[derive(Clone, Copy)]
pub struct State {
    run: Run,
    predicates: u8,
    arities: [u8; MOST_PREDICATES],
    table: [Clause; MOST_CLAUSES],
}

// "hands a state back, with a number (0 for accepted) and a place"; and the numbers behind the yes of the step's constraint test, where it
// was accepted and asked for one. No Result: `step_right` (`Demand1`) and `RightAnswer` (`Demand2`) read number and place, of a refused step the state
// too.
#[derive(Clone, Copy)]
pub struct Answered {
    pub state: State,
    pub number: u8,
    pub place: u8,
    pub witness: Option<Numbers>,
}

// What admission hands back: a state; or the refusal's number and place. "A refused file yields no state": what stands beside a refusal is the record
// of no clauses, no predicates and no constants. No Result: the theorem AdmitKeeps speaks of the state beside a refusal.
#[derive(Clone, Copy)]
pub struct Opened {
    pub state: State,
    pub number: u8,
    pub place: u8,
}

// ---- admission

// A run of no steps
pub fn new_run(version: Version, constants: u8, input: u8) -> Run
    ensures { result ≡ new_run version constants input }
{
    let trail = empty_trail();
    let conflict = no_instanced();
    Run {
        version: version,
        constants: constants,
        input: input,
        learned: 0,
        level: 0,
        length: 0,
        stands: false,
        trail: trail,
        conflict: conflict,
    }
}

// The arities, and blanks past them
fn first_arities(arities: &[u8]) -> [u8; MOST_PREDICATES]
    requires { length arities.now ≤ most_predicates }
    ensures { result ≡ exactly most_predicates 0 arities.now }
{
    let mut out = [0; MOST_PREDICATES];
    out[..arities.len()].copy_from_slice(arities);
    out
}

// The input clauses, and room for the learned ones
fn with_room(clauses: &[Clause]) -> [Clause; MOST_CLAUSES]
    requires { length clauses.now ≤ most_clauses }
    ensures { result ≡ exactly most_clauses (packed calculus.no_clause) clauses.now }
{
    let mut out = [no_clause(); MOST_CLAUSES];
    out[..clauses.len()].copy_from_slice(clauses);
    out
}

// The state in which nothing has been done, of clauses that were read
fn new_state(version: Version, constants: u8, arities: &[u8], clauses: &[Clause]) -> State
    requires { (length arities.now ≤ most_predicates) × (length clauses.now ≤ most_input) }
    ensures { IsNew version constants arities.now clauses.now result }
{
    let run = new_run(version, constants, clauses.len() as u8);
    let first = first_arities(arities);
    let table = with_room(clauses);
    State {
        run,
        predicates: arities.len() as u8,
        arities: first,
        table,
    }
}

// "Only admission makes a state", of the version that is offered: clause records offered without a file "meet 3 to 7 .. before anything else; the
// place is then the number of the first bad clause, or 0 .. for counts and arities, which are judged first." A refused file yields no state.
pub fn admit(version: Version, constants: u8, arities: &[u8], clauses: &[Clause]) -> Opened
    ensures { result ≡ opened version constants arities.now (offered_table arities.now clauses.now) }
{
    match admission::admit(constants, arities, clauses) {
        Ok(table) => {
            let state = new_state(version, constants, arities, &table[..clauses.len()]);
            Opened {
                state,
                number: 0,
                place: 0,
            }
        }
        Err(refused) => {
            let blank = new_state(Version::One, 0, &[], &[]);
            Opened {
                state: blank,
                number: u8::from(refused.refusal),
                place: refused.place,
            }
        }
    }
}

// ---- steps

impl State {
    // "The tool takes a state and one proposed step and hands a state back, with a number (0 for accepted) and a place." What the step looks at
    // is copied out of the table; what it learns is written there.
    pub fn step(self, x: Step) -> Answered
        requires { Made self }
        ensures { Answers self x result }
    {
        let run = self.run;
        let last = run.trail[last_slot(run.length)];
        let c = number_looked(last, x.rule, x.clause);
        let held = self.table[slot_of(c)];
        let looked = looked_at(c, held);
        let n = count_looked(run.version, x);
        let none = no_atom();
        let mut right = true;
        let mut at = [none; MOST_BROUGHT];
        for j in 0..n {
            let z = x.atoms[j];
            let own = self.table[slot_of(z.clause)];
            let of = looked_at(z.clause, own);
            let clause = of.clause;
            right &= named_rightly(run.constants, run.input + run.learned, z, clause);
            at[j] = source_atom(z, clause);
        }
        let named = Named { right, at };
        let instance = x.instance;
        let a = match Rule::try_from(x.rule) {
            Ok(Rule::Propagate) => run.propagate(looked, x.clause, x.literal, instance, x.count),
            Ok(Rule::Decide) => run.decide(looked, named, x),
            Ok(Rule::Conflict) => run.conflict(looked, x.clause, instance, x.count),
            Ok(Rule::Resolve) => run.resolve(looked, x.literal),
            Ok(Rule::Factorize) => run.factorize(x.literal, x.other),
            Ok(Rule::Skip) => run.skip(),
            Ok(Rule::Backtrack) => run.backtrack(x.literal),
            Ok(Rule::Grow) => run.grow(x.amount),
            Err(_) => run.unknown(x.rule),
        };
        let mut state = self;
        match a {
            Ok(stepped) => {
                let next = stepped.run;
                state.run = next;
                if let Some(number) = stepped.learned {
                    let n = run.conflict;
                    let clause = n.clause;
                    state.table[number as usize - 1] = clause;
                }
                Answered {
                    state,
                    number: 0,
                    place: 0,
                    witness: stepped.witness,
                }
            }
            Err(refused) => Answered {
                state,
                number: u8::from(refused.refusal),
                place: refused.place,
                witness: None,
            },
        }
    }

    // "Start again from an empty trail at level 0, with the input clauses, constants and learned clauses held at the end."
    pub fn start_again(self) -> State
        ensures { result ≡ start_again self }
    {
        let old = self.run;
        let version = old.version;
        let mut run = new_run(version, old.constants, old.input);
        run.learned = old.learned;
        let mut state = self;
        state.run = run;
        state
    }

    // ---- what a state says to whoever looks at it

    pub fn run(self) -> Run
        ensures { result ≡ self.run }
    {
        self.run
    }

    pub fn table(self) -> [Clause; MOST_CLAUSES]
        ensures { result ≡ self.table }
    {
        self.table
    }

    pub fn predicates(self) -> u8
        ensures { result ≡ self.predicates }
    {
        self.predicates
    }

    pub fn arities(self) -> [u8; MOST_PREDICATES]
        ensures { result ≡ self.arities }
    {
        self.arities
    }
}
