// The run state and its rules, each a method by value that gives the next run state or a refusal. A rule is handed the one clause that
// it looks at; it changes no other.
#![tactic(auto)]

ghost use Rattle.std.specs.Prelude.{◌≡◌, cond, ◌+◌, ◌-◌, ◌≤◌, ◌<◌, eqb, length};
ghost use Rattle.basis.specs.Limits.{most_atoms, most_entries};
ghost use Rattle.basis.specs.Refusals.{not_false, number_of};
ghost use Rattle.lists.specs.Arrays.{exactly};
ghost use Rattle.calculus.specs.States.{Propagate, Conflict, Resolve, Factorize, Skip, Backtrack, Grow, Unknown};
ghost use Rattle.asking.specs.Steps.{decide_of};
ghost use Rattle.std.proofs.Math.Option.{some};
ghost use Rattle.std.specs.Option.{unwrap_or};
ghost use Rattle.calculus.specs.Trails.{background};
ghost use Rattle.trail.specs.Entries.{Recorded};
ghost use Rattle.rules.specs.Records.{accepted_answer, appended_at, decided_at, outcome, source_kept, taken_up};
ghost use Rattle.rules.specs.Answers.{Kept, Handed, HandedNamed, Answers, Answered, AnsweredNamed};

use asking::{
    Looked, Named, Source, Step, first_lacking, in_conflict, instance_named, is_complement,
    is_propagated, last_slot, level_after, literal_named, resolvent,
};
use basis::{
    Atom, MOST_CONSTANTS, MOST_ENTRIES, MOST_LEARNED, MOST_VARIABLES, Numbers, Refusal, Refused,
    Version,
};
use clauses::{Instanced, no_instanced, no_literal};
use deciding::weigh;
use instances::{
    again, conflict_instance, first_constants, index_of, literal_exists, literal_instance,
    same_instance, two_literals,
};
use testing::{Atoms, gathered, new_atoms, possible};
use trail::{
    Entry, background_entry, blank_entry, brought_entry, empty_trail, levels, literals_seen,
    propagated_entry,
};

// "The tool takes a state and one proposed step": what a rule changes of the state. The clause table stands beside it. The trail comes first,
// so that a copy of it begins where a word does. `stands` is beside `conflict`, and no Option of it, since `Refutes` (`Demand2`) and `replayed`
// (`Demand3`) read both of a record.
#[derive(Clone, Copy)]
pub struct Run {
    pub trail: [Entry; MOST_ENTRIES],
    pub conflict: Instanced,
    pub version: Version,
    pub constants: u8,
    pub input: u8,
    pub learned: u8,
    pub level: u8,
    pub length: u8,
    pub stands: bool,
}

// What an accepted step gives: the next run; the number under which the conflict that stood was learned, where it was; and the numbers behind the
// yes of the step's constraint test, where its rule asks for one.
#[derive(Clone, Copy)]
pub struct Stepped {
    pub run: Run,
    pub learned: Option<u8>,
    pub witness: Option<Numbers>,
}

// The answer to a step. A refused step has no next run: whoever asked still has the one that was given.
pub type Outcome = Result<Stepped, Refused<u8>>;

// "Instance" means variables replaced by constants: a constant for each variable, in order; slots past a count are not looked at.
// With its count beside and no slice, since a count above 12 is refused by 3 with the instance given (`Handed`): no slice of 12 slots is so long.
type Instance = [u8; MOST_VARIABLES];

// ---- answers

// Refused, with the place that every refusal but 12 has
fn refused(refusal: Refusal) -> Refused<u8>
    ensures { result ≡ record { refusal = refusal; place = 0 } }
{
    Refused { refusal, place: 0 }
}

// "Refusal 12 names the first literal": the place is that of 12, and 0 of any other refusal.
fn refused_at(refusal: Refusal, first: Option<u8>) -> Refused<u8>
    ensures { result ≡ record { refusal = refusal; place = cond (eqb (number_of refusal) not_false) (unwrap_or first 0) 0 } }
{
    let place = if refusal == Refusal::NotFalse {
        first.unwrap_or(0)
    } else {
        0
    };
    Refused { refusal, place }
}

// Accepted: `of` is the conflict that stands, and the witness is handed on.
fn taken_up(mut run: Run, of: Instanced, witness: Option<Numbers>) -> Stepped
    ensures { accepted_answer result ≡ taken_up run of witness }
{
    run.stands = true;
    run.conflict = of;
    Stepped {
        run,
        learned: None,
        witness,
    }
}

// Accepted: the trail is cut to m entries, where it has more, `own` is entry m, the new atoms follow it and are the last. `learned` is the number under which a
// clause was learned, if one was, and the witness is handed on.
fn appended(
    mut run: Run,
    m: usize,
    own: Entry,
    fresh: Atoms,
    learned: Option<u8>,
    witness: Option<Numbers>,
) -> Stepped
    requires { (fresh.n ≤ most_atoms) × (m + fresh.n < most_entries) × (run.length ≤ most_entries) }
    ensures { accepted_answer result ≡ appended_at run m own fresh learned witness }
{
    let length = usize::from(run.length);
    run.trail[m.min(length)..length].fill(blank_entry());
    run.trail[m] = own;
    for (j, a) in fresh.as_slice().iter().enumerate() {
        run.trail[m + 1 + j] = background_entry(*a);
    }
    run.length = (m + fresh.n + 1) as u8;
    Stepped {
        run,
        learned,
        witness,
    }
}

// An atom that a decision brings, with its source
fn source_entry(a: Atom, z: Source) -> Entry
    ensures { Recorded result (background a (some (source_kept z))) }
{
    brought_entry(a, z.clause, z.number, z.sign, z.constants())
}

// Accepted: the decision `own` is appended, and behind it the atoms that it brings, each with its source; k grows by one. The witness is handed on.
fn decided(
    mut run: Run,
    own: Entry,
    at: &[Atom],
    sources: &[Source],
    witness: Option<Numbers>,
) -> Stepped
    requires { (length at.now ≡ length sources.now) × (run.length + length at.now < most_entries) × (run.level ≤ most_entries) }
    ensures { accepted_answer result ≡ decided_at run own at.now sources.now witness }
{
    let m = usize::from(run.length);
    run.trail[m] = own;
    for (j, (a, z)) in at.iter().zip(sources).enumerate() {
        run.trail[m + 1 + j] = source_entry(*a, *z);
    }
    run.length = (m + at.len() + 1) as u8;
    run.level += 1;
    Stepped {
        run,
        learned: None,
        witness,
    }
}

// ---- the rules

impl Run {
    // "1 Propagate (clause, literal L, instance). No conflict. L's instance is undefined; every literal with another instance is false; trail
    // atoms and the clause's atoms together are possible. Appended: L, then the atoms not yet on the trail, in clause order, each once."
    pub fn propagate(self, looked: Looked, c: u8, l: u8, instance: Instance, count: u8) -> Outcome
        requires { Handed self looked (Propagate c l (exactly count 0 instance)) }
        ensures { Answered self looked (Propagate c l (exactly count 0 instance)) (outcome self result) }
    {
        let constants = &instance[..usize::from(count).min(MOST_VARIABLES)];
        let clause = looked.clause;
        let named = literal_named(
            self.constants,
            self.input + self.learned,
            c,
            clause,
            l,
            constants,
        );
        let g = literal_instance(clause, l, constants);
        let m = self.length as usize;
        let trail = &self.trail[..m];
        let seen = literals_seen(trail, clause, constants, true, g);
        let tested = gathered(trail, clause, constants);
        let together = possible(self.constants, &tested);
        let fresh = new_atoms(&tested);
        let lacking = first_lacking(&[
            (count as usize <= MOST_VARIABLES, Refusal::AboveLimit),
            (!self.stands, Refusal::WrongMoment),
            (named, Refusal::NoSuch),
            (seen.free, Refusal::AlreadyDefined),
            (seen.first.is_none(), Refusal::NotFalse),
            (together.is_some(), Refusal::NotPossible),
            (m + fresh.n < MOST_ENTRIES, Refusal::NoRoom),
        ]);
        if let Err(refusal) = lacking {
            return Err(refused_at(refusal, seen.first));
        }
        let e = propagated_entry(g, c, l, constants);
        Ok(appended(self, m, e, fresh, None, together))
    }

    // "2 Decide (clause, literal, sign, instance). No conflict. The atom of the literal, with the sign given, is undefined. It is appended, k
    // grows by one." From version 2 on it brings atoms, which "follow the literal in the order named".
    pub fn decide(self, looked: Looked, named: Named, x: Step) -> Outcome
        requires { HandedNamed self looked named (decide_of x) }
        ensures { AnsweredNamed self looked named (decide_of x) (outcome self result) }
    {
        let trail = &self.trail[..self.length as usize];
        let weighed = weigh(
            trail,
            self.constants,
            self.input + self.learned,
            self.stands,
            self.version,
            looked,
            named,
            x,
        );
        if let Some(refusal) = weighed.refusal {
            return Err(refused(refusal));
        }
        let n = weighed.count as usize;
        Ok(decided(
            self,
            weighed.own,
            &named.at[..n],
            &x.atoms[..n],
            weighed.witness,
        ))
    }

    // "3 Conflict (clause, instance). No conflict. All literals false; trail and clause atoms together possible. The clause becomes the
    // conflict."
    pub fn conflict(self, looked: Looked, c: u8, instance: Instance, count: u8) -> Outcome
        requires { Handed self looked (Conflict c (exactly count 0 instance)) }
        ensures { Answered self looked (Conflict c (exactly count 0 instance)) (outcome self result) }
    {
        let constants = &instance[..usize::from(count).min(MOST_VARIABLES)];
        let clause = looked.clause;
        let of = Instanced {
            clause,
            instance: first_constants(constants),
        };
        let named = instance_named(
            self.constants,
            self.input + self.learned,
            c,
            clause,
            constants,
        );
        let trail = &self.trail[..self.length as usize];
        let seen = literals_seen(trail, clause, constants, false, no_literal());
        let tested = gathered(trail, clause, constants);
        let witness = possible(self.constants, &tested);
        let lacking = first_lacking(&[
            (count as usize <= MOST_VARIABLES, Refusal::AboveLimit),
            (!self.stands, Refusal::WrongMoment),
            (named, Refusal::NoSuch),
            (seen.first.is_none(), Refusal::NotFalse),
            (witness.is_some(), Refusal::NotPossible),
        ]);
        if let Err(refusal) = lacking {
            return Err(refused_at(refusal, seen.first));
        }
        Ok(taken_up(self, of, witness))
    }

    // "4 Resolve (literal L'). The last entry is a propagated literal, the complement of L'." It looks at the clause of the last entry's step,
    // from which the entry's reason follows.
    pub fn resolve(self, looked: Looked, l: u8) -> Outcome
        requires { Handed self looked (Resolve l) }
        ensures { Answered self looked (Resolve l) (outcome self result) }
    {
        let n = self.conflict;
        let c = n.clause;
        let e = self.trail[last_slot(self.length)];
        let clause = looked.clause;
        let merged = resolvent(n, l, e, clause);
        let of = merged.unwrap_or(no_instanced());
        let lacking = first_lacking(&[
            (self.stands, Refusal::WrongMoment),
            (literal_exists(c, l), Refusal::NoSuch),
            (0 < self.length, Refusal::NoEntry),
            (is_propagated(e), Refusal::NoEntry),
            (is_complement(e, n, l), Refusal::WrongLiteral),
            (merged.is_some(), Refusal::NoRoom),
        ]);
        if let Err(refusal) = lacking {
            return Err(refused(refusal));
        }
        Ok(taken_up(self, of, None))
    }

    // "5 Factorize (two different literals with the same instance). Their variables are merged; the one with the larger number goes."
    pub fn factorize(self, i: u8, j: u8) -> Outcome
        requires { Kept self }
        ensures { Answers self (Factorize i j) (outcome self result) }
    {
        let n = self.conflict;
        let merged = merging::factorize(&n, index_of(i), index_of(j));
        let of = merged.unwrap_or(no_instanced());
        let lacking = first_lacking(&[
            (self.stands, Refusal::WrongMoment),
            (two_literals(n, i, j), Refusal::NoSuch),
            (same_instance(n, i, j), Refusal::WrongLiteral),
        ]);
        if let Err(refusal) = lacking {
            return Err(refused(refusal));
        }
        Ok(taken_up(self, of, None))
    }

    // "6 Skip. The last entry goes, if it is an atom or if its complement is not in the conflict. A decision skipped lowers k by one."
    pub fn skip(mut self) -> Outcome
        requires { Kept self }
        ensures { Answers self Skip (outcome self result) }
    {
        let k = last_slot(self.length);
        let e = self.trail[k];
        let n = self.conflict;
        let lacking = first_lacking(&[
            (self.stands, Refusal::WrongMoment),
            (0 < self.length, Refusal::NoEntry),
            (!in_conflict(n, e), Refusal::WrongLiteral),
        ]);
        if let Err(refusal) = lacking {
            return Err(refused(refusal));
        }
        self.level = level_after(e, self.level);
        self.length = k as u8;
        self.trail[k] = blank_entry();
        Ok(Stepped {
            run: self,
            learned: None,
            witness: None,
        })
    }

    // "7 Backtrack (literal L, the others D). L's instance is not in D; i is the largest level in D, 0 if D is empty; L's level is above i. The
    // trail is cut just before decision i + 1. Kept atoms and conflict atoms together are possible. The conflict is learned; L and its new
    // atoms are appended as Propagate would append them from the learned clause; k is i, no conflict."
    pub fn backtrack(mut self, l: u8) -> Outcome
        requires { Kept self }
        ensures { Answers self (Backtrack l) (outcome self result) }
    {
        let n = self.conflict;
        let c = n.clause;
        let constants = n.constants();
        let trail = &self.trail[..self.length as usize];
        let at = levels(trail, n, l);
        let kept = at.kept as usize;
        let entries = &self.trail[..kept];
        let tested = gathered(entries, c, constants);
        let together = possible(self.constants, &tested);
        let fresh = new_atoms(&tested);
        let lacking = first_lacking(&[
            (self.stands, Refusal::WrongMoment),
            (literal_exists(c, l), Refusal::NoSuch),
            (!again(n, l), Refusal::WrongLiteral),
            (at.others < at.own, Refusal::NotAbove),
            (together.is_some(), Refusal::KeptNotPossible),
            (kept + fresh.n < MOST_ENTRIES, Refusal::NoRoom),
            ((self.learned as usize) < MOST_LEARNED, Refusal::NoRoom),
        ]);
        if let Err(refusal) = lacking {
            return Err(refused(refusal));
        }
        let own = self.input + self.learned + 1;
        let g = conflict_instance(n, l);
        self.level = at.others;
        self.learned += 1;
        self.stands = false;
        self.conflict = no_instanced();
        let e = propagated_entry(g, own, l, constants);
        Ok(appended(self, kept, e, fresh, Some(own), together))
    }

    // "8 Grow (count). No conflict. So many constants are added at the end; trail empty, k is 0."
    pub fn grow(mut self, amount: u8) -> Outcome
        requires { Kept self }
        ensures { Answers self (Grow amount) (outcome self result) }
    {
        let constants = self.constants as usize + amount as usize;
        let lacking = first_lacking(&[
            (!self.stands, Refusal::WrongMoment),
            (0 < amount, Refusal::NoSuch),
            (constants <= MOST_CONSTANTS, Refusal::NoRoom),
        ]);
        if let Err(refusal) = lacking {
            return Err(refused(refusal));
        }
        self.constants = constants as u8;
        self.level = 0;
        self.length = 0;
        self.trail = empty_trail();
        Ok(Stepped {
            run: self,
            learned: None,
            witness: None,
        })
    }

    // No rule: refused by 7.
    pub fn unknown(self, rule: u8) -> Outcome
        requires { Kept self }
        ensures { Answers self (Unknown rule) (outcome self result) }
    {
        Err(refused(Refusal::UnknownRule))
    }
}
