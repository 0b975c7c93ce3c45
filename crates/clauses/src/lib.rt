// Clause records, their blanks, complements, denials, ground instances, and which variables occur.
// Slots past a count are blank in every record that is made here or above, so that equal clauses are equal values.
#![tactic(auto)]

ghost use Rattle.std.specs.Prelude.{◌≡◌, ◌||◌, eqb};
ghost use Rattle.basis.specs.Atoms as atoms;
ghost use Rattle.basis.specs.Atoms.{no_atom};
ghost use Rattle.lists.specs.Lists.{any_of};
ghost use Rattle.calculus.specs.Clauses.{arguments, no_literal, no_clause, no_instanced, rename_atom, under};
ghost use Rattle.calculus.specs.Clauses as calculus;
ghost use Rattle.calculus.specs.Merging.{occurs_in};
ghost use Rattle.clauses.specs.Records.{clause_of, instanced_of, packed, packed_instanced};
ghost use Rattle.clauses.specs.Records as records;

use basis::{Atom, Literal, MOST_ATOMS, MOST_LITERALS, MOST_VARIABLES};
use slices::prefix;

// "A clause is a record of at most 12 variables, 24 atoms and 8 literals." A form that the paper names: a clause struct holding arrays of atom and
// literal structs with their counts; `atoms` and `literals` give the slices.
#[derive(Clone, Copy)]
pub struct Clause {
    pub variables: u8,
    pub atomcount: u8,
    pub literalcount: u8,
    pub atoms: [Atom; MOST_ATOMS],
    pub literals: [Literal; MOST_LITERALS],
}

// A clause with a constant for each of its variables
#[derive(Clone, Copy)]
pub struct Instanced {
    pub clause: Clause,
    pub instance: [u8; MOST_VARIABLES],
}

impl Clause {
    // Its atoms, as many as are counted and no more than there is room for
    pub fn atoms(&self) -> &[Atom]
        ensures { result.now ≡ (clause_of self.now).atoms }
    {
        prefix(&self.atoms, usize::from(self.atomcount))
    }

    // Its literals, likewise
    pub fn literals(&self) -> &[Literal]
        ensures { result.now ≡ (clause_of self.now).literals }
    {
        prefix(&self.literals, usize::from(self.literalcount))
    }
}

impl Instanced {
    // A constant for each variable, and no more than there is room for
    pub fn constants(&self) -> &[u8]
        ensures { result.now ≡ (instanced_of self.now).instance }
    {
        prefix(&self.instance, usize::from(self.clause.variables))
    }
}

// The blank atom
pub fn no_atom() -> Atom
    ensures { result ≡ no_atom }
{
    Atom { p: 0, q: 0, c: 0 }
}

// The blank literal
pub fn no_literal() -> Literal
    ensures { result ≡ no_literal }
{
    Literal {
        positive: false,
        predicate: 0,
        x: 0,
        y: 0,
        z: 0,
    }
}

// The blank clause
#[tactic(auto, unfolding(lists::specs::Arrays::exactly))]
pub fn no_clause() -> Clause
    ensures { result ≡ packed no_clause }
{
    Clause {
        variables: 0,
        atomcount: 0,
        literalcount: 0,
        atoms: [no_atom(); MOST_ATOMS],
        literals: [no_literal(); MOST_LITERALS],
    }
}

// The blank clause with its instance
#[tactic(auto, unfolding(lists::specs::Arrays::exactly))]
pub fn no_instanced() -> Instanced
    ensures { result ≡ packed_instanced no_instanced }
{
    Instanced {
        clause: no_clause(),
        instance: [0; MOST_VARIABLES],
    }
}

pub fn complement(l: Literal) -> Literal
    ensures { result ≡ calculus.complement l }
{
    Literal {
        positive: !l.positive,
        ..l
    }
}

// "The denial of p − q ≤ c is q − p ≤ −c − 1."
pub fn denial(a: Atom) -> Atom
    ensures { result ≡ atoms.denial a }
{
    Atom {
        p: a.q,
        q: a.p,
        c: -1 - a.c,
    }
}

// The constant that an instance has for variable x; 0 for place 0, and past them
pub fn constant_of(instance: &[u8], x: u8) -> u8
    ensures { result ≡ under instance.now x }
{
    if x == 0 {
        return 0;
    }
    instance.get(usize::from(x) - 1).copied().unwrap_or(0)
}

// A literal's instance
pub fn ground(l: Literal, instance: &[u8]) -> Literal
    ensures { result ≡ calculus.ground instance.now l }
{
    Literal {
        x: constant_of(instance, l.x),
        y: constant_of(instance, l.y),
        z: constant_of(instance, l.z),
        ..l
    }
}

// An atom's instance
pub fn ground_atom(a: Atom, instance: &[u8]) -> Atom
    ensures { result ≡ rename_atom (under instance.now) a }
{
    Atom {
        p: constant_of(instance, a.p),
        q: constant_of(instance, a.q),
        ..a
    }
}

// Whether a record's counts are within the limits
pub fn counted(c: Clause) -> bool
    ensures { result ≡ records.counted c }
{
    usize::from(c.variables) <= MOST_VARIABLES
        && usize::from(c.atomcount) <= MOST_ATOMS
        && usize::from(c.literalcount) <= MOST_LITERALS
}

// Whether variable x stands in one of the atoms
fn in_atoms(atoms: &[Atom], x: u8) -> bool
    ensures { result ≡ any_of (λ a. eqb x a.p || eqb x a.q) atoms.now }
{
    atoms.iter().any(|a| x == a.p || x == a.q)
}

// Whether variable x is an argument of one of the literals
fn in_literals(literals: &[Literal], x: u8) -> bool
    ensures { result ≡ any_of (λ m. any_of (eqb x) (arguments m)) literals.now }
{
    literals.iter().any(|l| [l.x, l.y, l.z].contains(&x))
}

// Whether variable x occurs in one of the atoms or of the literals
pub fn occurs_in(atoms: &[Atom], literals: &[Literal], x: u8) -> bool
    ensures { result ≡ occurs_in atoms.now literals.now x }
{
    in_atoms(atoms, x) || in_literals(literals, x)
}

// Whether variable x occurs in an atom or a literal of the clause
pub fn occurs(c: Clause, x: u8) -> bool
    ensures { result ≡ occurs_in (clause_of c).atoms (clause_of c).literals x }
{
    occurs_in(c.atoms(), c.literals(), x)
}
