// What the constraint test is asked: the trail's atoms from the first entry on, then the step's; which of them are new; and what a Decide asks of the
// trail.
#![tactic(auto)]

ghost use Rattle.std.specs.Prelude.{◌≡◌, [], not, ◌||◌, ◌<◌, ◌≤◌, length};
ghost use Rattle.basis.specs.Atoms.{denial};
ghost use Rattle.basis.specs.Limits.{most_atoms, most_entries, most_tested};
ghost use Rattle.lists.specs.Lists.{any_of};
ghost use Rattle.calculus.specs.Clauses.{ground_atoms, same_atom};
ghost use Rattle.calculus.specs.Tests.{atoms_undefined};
ghost use Rattle.calculus.specs.Trails.{atoms_of};
ghost use Rattle.clauses.specs.Records.{clause_of};
ghost use Rattle.trail.specs.Entries.{entries_of, entry_of};
ghost use Rattle.testing.specs.Asked.{is_background, tested_atoms, known_atoms, step_atoms, tested_with, Gathers, InRoom, SeesDecision, WitnessOf};
ghost use Rattle.testing.specs.New.{new_atoms, packed_atoms};

use basis::{Atom, Literal, MOST_ATOMS, MOST_TESTED, Numbers};
use clauses::{Clause, denial, ground_atom, no_atom};
use lists::Held;
use slices::prefix;
use trail::{Entry, Kind, undefined};

// The atoms put to the constraint test: `known` of the trail, then the step's, `count` in all; blank past them. An array, since no heap is used, and no
// `Held`, since two counts stand in it (`GathersOnce`).
#[derive(Clone, Copy)]
pub struct Tested {
    pub known: u8,
    pub count: u8,
    pub atoms: [Atom; MOST_TESTED],
}

// The atoms of a step, blank past their count: those not yet on the trail
pub type Atoms = Held<Atom, MOST_ATOMS>;

// What a Decide asks of the trail and of the atoms that it brings: whether its literal is undefined, whether they are, and the numbers behind the
// yes of the test of them and the trail's
#[derive(Clone, Copy)]
pub struct DecisionSeen {
    pub free: bool,
    pub fresh: bool,
    pub witness: Option<Numbers>,
}

impl Tested {
    // All of them, and no more than there is room for
    pub fn all(&self) -> &[Atom]
        ensures { result.now ≡ tested_atoms self.now }
    {
        prefix(&self.atoms, usize::from(self.count))
    }

    // One more, after the others
    fn push(&mut self, a: Atom)
        requires { self.old.count < most_tested }
        ensures { self.new ≡ tested_with self.old a }
    {
        self.atoms[usize::from(self.count)] = a;
        self.count += 1;
    }
}

// Whether the entry is an atom
fn is_background(e: &Entry) -> bool
    ensures { result ≡ is_background (entry_of e.now) }
{
    matches!(e.kind, Kind::Background | Kind::Brought)
}

// The trail's atoms, from the first entry on, and none of a step
fn trail_gathered(trail: &[Entry]) -> Tested
    requires { length trail.now ≤ most_entries }
    ensures { Gathers result (atoms_of (entries_of trail.now)) [] }
{
    let blank = no_atom();
    let mut tested = Tested {
        known: 0,
        count: 0,
        atoms: [blank; MOST_TESTED],
    };
    for e in trail {
        if is_background(e) {
            tested.push(e.atom);
        }
    }
    tested.known = tested.count;
    tested
}

// "trail atoms and the clause's atoms": the trail's, then those of the clause's instance in clause order
pub fn gathered(trail: &[Entry], clause: Clause, instance: &[u8]) -> Tested
    requires { length trail.now ≤ most_entries }
    ensures { Gathers result (atoms_of (entries_of trail.now)) (ground_atoms instance.now (clause_of clause).atoms) }
{
    let mut tested = trail_gathered(trail);
    for a in clause.atoms() {
        tested.push(ground_atom(*a, instance));
    }
    tested
}

// The trail's, then those that a step brings, in order
pub fn gathered_with(trail: &[Entry], step: &[Atom]) -> Tested
    requires { (length trail.now ≤ most_entries) × (length step.now ≤ most_atoms) }
    ensures { Gathers result (atoms_of (entries_of trail.now)) step.now }
{
    let mut tested = trail_gathered(trail);
    for a in step {
        tested.push(*a);
    }
    tested
}

// The numbers behind the yes of the constraint test; none where the atoms are not such as it takes, or not together possible
pub fn possible(constants: u8, tested: &Tested) -> Option<Numbers>
    ensures { WitnessOf constants (tested_atoms tested.now) result }
{
    match constraint::possible(constants, tested.all()) {
        Ok(numbers) => numbers,
        Err(_) => None,
    }
}

// Whether the atom is among those
fn is_among(a: Atom, among: &[Atom]) -> bool
    ensures { result ≡ any_of (same_atom a) among.now }
{
    among.contains(&a)
}

// Whether the atom or its denial is among those
fn is_defined(a: Atom, among: &[Atom]) -> bool
    ensures { result ≡ (any_of (same_atom a) among.now || any_of (same_atom (denial a)) among.now) }
{
    is_among(a, among) || is_among(denial(a), among)
}

// "an atom so brought, or its denial, is on the trail or brought before it": whether none of the step's is
pub fn all_undefined(tested: &Tested) -> bool
    requires { InRoom tested.now }
    ensures { result ≡ atoms_undefined (known_atoms tested.now) (step_atoms tested.now) }
{
    let all = tested.all();
    let known = usize::from(tested.known);
    for j in known..all.len() {
        if is_defined(all[j], &all[..j]) {
            return false;
        }
    }
    true
}

// What a Decide asks: whether its literal is undefined, whether the atoms that it brings are, and whether they are possible together with the
// trail's.
pub fn decision_seen(trail: &[Entry], constants: u8, l: Literal, step: &[Atom]) -> DecisionSeen
    requires { (length trail.now ≤ most_entries) × (length step.now ≤ most_atoms) }
    ensures { SeesDecision constants (entries_of trail.now) l step.now result }
{
    let tested = gathered_with(trail, step);
    DecisionSeen {
        free: undefined(trail, l),
        fresh: all_undefined(&tested),
        witness: possible(constants, &tested),
    }
}

// "the atoms not yet on the trail, in clause order, each once": those of the clause's that equal no earlier one
pub fn new_atoms(tested: &Tested) -> Atoms
    requires { InRoom tested.now }
    ensures { result ≡ packed_atoms (new_atoms (known_atoms tested.now) (step_atoms tested.now)) }
{
    let all = tested.all();
    let known = usize::from(tested.known);
    let mut fresh = Held::new(no_atom());
    for j in known..all.len() {
        if !is_among(all[j], &all[..j]) {
            fresh.push(all[j]);
        }
    }
    fresh
}
