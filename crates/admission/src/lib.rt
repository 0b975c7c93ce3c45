// Admission: a clause record judged against arities, and a whole table of them. Refusals 3 to 6 in the file's order.
#![tactic(auto)]

ghost use Rattle.std.specs.Prelude.{◌≡◌, ◌||◌, ◌&&◌, ◌≤◌, eqb, leb, length, map};
ghost use Rattle.basis.specs.Limits.{most_arguments, most_input};
ghost use Rattle.lists.specs.Lists.{any_of, all_of, up_from};
ghost use Rattle.calculus.specs.Checks.{between};
ghost use Rattle.calculus.specs.Merging.{occurs_in};
ghost use Rattle.calculus.specs.Class.{arity_of, proper_atom, proper_literal, bounded, differences_bounded, clause_refusal};
ghost use Rattle.calculus.specs.Admission.{clauses_refusal, counts_fit};
ghost use Rattle.clauses.specs.Records.{clause_of, packed, Counted};
ghost use Rattle.admission.specs.Offered.{answered, clause_answer, cleaned, handed, offered, offered_table, table_answer, told, told_at};

use basis::{
    Atom, Literal, MOST_ARGUMENTS, MOST_C, MOST_CONSTANTS, MOST_INPUT, MOST_LITERALS,
    MOST_PREDICATES, Refusal, Refused,
};
use clauses::{Clause, counted, no_atom, no_clause, no_literal, occurs};

// ---- reading a record

// The arity of predicate p; 0 where there is none
pub fn arity_of(arities: &[u8], p: u8) -> u8
    ensures { result ≡ arity_of arities.now p }
{
    let place = usize::from(p).saturating_sub(1);
    arities.get(place).copied().unwrap_or(0)
}

fn clean_literal(arities: &[u8], l: Literal) -> Literal
    ensures { result ≡ cleaned arities.now l }
{
    let n = arity_of(arities, l.predicate);
    Literal {
        x: if 0 < n { l.x } else { 0 },
        y: if 1 < n { l.y } else { 0 },
        z: if 2 < n { l.z } else { 0 },
        ..l
    }
}

// Each literal blank past its arity
fn clean_literals(
    arities: &[u8],
    mut literals: [Literal; MOST_LITERALS],
) -> [Literal; MOST_LITERALS]
    ensures { result ≡ map (cleaned arities.now) literals }
{
    for l in literals.iter_mut() {
        *l = clean_literal(arities, *l);
    }
    literals
}

// The clause as it is read: blank past its counts, and past its literals' arities
fn clean(arities: &[u8], c: Clause) -> Clause
    requires { Counted c }
    ensures { result ≡ packed (offered arities.now c) }
{
    let mut read = c;
    read.atoms[usize::from(c.atomcount)..].fill(no_atom());
    read.literals = clean_literals(arities, c.literals);
    read.literals[usize::from(c.literalcount)..].fill(no_literal());
    read
}

// ---- refusal 4

fn proper_atom(v: u8, a: Atom) -> bool
    ensures { result ≡ proper_atom v a }
{
    a.p <= v && a.q <= v && 1 <= u16::from(a.p) + u16::from(a.q) && -MOST_C <= a.c && a.c <= MOST_C
}

// Whether each argument is a variable
fn are_variables(v: u8, arguments: &[u8]) -> bool
    ensures { result ≡ all_of (between 1 v) arguments.now }
{
    arguments.iter().all(|x| 1 <= *x && *x <= v)
}

// Whether nothing stands where no argument does
fn are_blank(slots: &[u8]) -> bool
    ensures { result ≡ all_of (eqb 0) slots.now }
{
    slots.iter().all(|x| 0 == *x)
}

fn proper_literal(arities: &[u8], v: u8, l: Literal) -> bool
    ensures { result ≡ proper_literal arities.now v l }
{
    let arguments = [l.x, l.y, l.z];
    let n = usize::from(arity_of(arities, l.predicate)).min(arguments.len());
    1 <= l.predicate
        && usize::from(l.predicate) <= arities.len()
        && are_variables(v, &arguments[..n])
        && are_blank(&arguments[n..])
}

fn proper_atoms(c: &Clause) -> bool
    ensures { result ≡ all_of (proper_atom c.now.variables) (clause_of c.now).atoms }
{
    c.atoms().iter().all(|a| proper_atom(c.variables, *a))
}

fn proper_literals(arities: &[u8], c: &Clause) -> bool
    ensures { result ≡ all_of (proper_literal arities.now c.now.variables) (clause_of c.now).literals }
{
    c.literals()
        .iter()
        .all(|l| proper_literal(arities, c.variables, *l))
}

// ---- refusal 5

fn all_occur(c: Clause) -> bool
    ensures { result ≡ all_of (occurs_in (clause_of c).atoms (clause_of c).literals) (up_from 1 c.variables) }
{
    // Not `1..=v`: that what holds of each number of such a range is `all_of` of them did not prove.
    (0..c.variables).all(|x| occurs(c, x + 1))
}

// ---- refusal 6

// Whether one of the atoms has these places
fn has_between(atoms: &[Atom], p: u8, q: u8) -> bool
    ensures { result ≡ any_of (λ a. eqb a.p p && eqb a.q q) atoms.now }
{
    atoms.iter().any(|a| a.p == p && a.q == q)
}

// "an atom bounding it above (x, 0, c) and one bounding it below (0, x, c)"
fn is_bounded(atoms: &[Atom], x: u8) -> bool
    ensures { result ≡ bounded atoms.now x }
{
    has_between(atoms, x, 0) && has_between(atoms, 0, x)
}

// Where an atom has two variables, both are bounded.
fn differences_bounded(atoms: &[Atom]) -> bool
    ensures { result ≡ differences_bounded atoms.now }
{
    atoms.iter().all(|a| a.p == 0 || a.q == 0 || (is_bounded(atoms, a.p) && is_bounded(atoms, a.q)))
}

// ---- one clause

// A clause as it was read, handed back where it is not refused; its counts are within the limits already.
fn judge(arities: &[u8], c: Clause) -> Result<Clause, Refusal>
    requires { Counted c }
    ensures { told result ≡ handed c (clause_refusal arities.now (clause_of c)) }
{
    if !(proper_atoms(&c) && proper_literals(arities, &c)) {
        return Err(Refusal::OutOfRange);
    }
    if !all_occur(c) {
        return Err(Refusal::OccursNowhere);
    }
    if !differences_bounded(c.atoms()) {
        return Err(Refusal::LacksBound);
    }
    Ok(c)
}

// A clause record judged against arities, and handed back as it was read
pub fn admit_clause(arities: &[u8], c: Clause) -> Result<Clause, Refusal>
    ensures { told result ≡ clause_answer arities.now c }
{
    if !counted(c) {
        return Err(Refusal::AboveLimit);
    }
    judge(arities, clean(arities, c))
}

// ---- a table of clauses

fn small_arities(arities: &[u8]) -> bool
    ensures { result ≡ all_of (λ n. leb n most_arguments) arities.now }
{
    arities.iter().all(|n| usize::from(*n) <= MOST_ARGUMENTS)
}

fn counts_fit(constants: u8, arities: &[u8], clauses: &[Clause]) -> bool
    ensures { result ≡ counts_fit constants arities.now (offered_table arities.now clauses.now) }
{
    usize::from(constants) <= MOST_CONSTANTS
        && arities.len() <= MOST_PREDICATES
        && small_arities(arities)
        && clauses.len() <= MOST_INPUT
}

// The clauses one after the other, up to the first that is refused
fn admit_clauses(arities: &[u8], clauses: &[Clause]) -> Result<[Clause; MOST_INPUT], Refused<u8>>
    requires { length clauses.now ≤ most_input }
    ensures { told_at result ≡ answered (clauses_refusal arities.now 1 (offered_table arities.now clauses.now)) (offered_table arities.now clauses.now) }
{
    let mut table = [no_clause(); MOST_INPUT];
    for (j, c) in clauses.iter().enumerate() {
        // No `map_err` and `?`: the refusal that leaves the loop by them did not prove.
        match admit_clause(arities, *c) {
            Ok(read) => table[j] = read,
            Err(refusal) => {
                return Err(Refused {
                    refusal,
                    place: j as u8 + 1,
                });
            }
        }
    }
    Ok(table)
}

// "The place is then the number of the first bad clause, or 0 .. for counts and arities, which are judged first." The table is handed back as it was
// read, and is blank past the clauses.
pub fn admit(
    constants: u8,
    arities: &[u8],
    clauses: &[Clause],
) -> Result<[Clause; MOST_INPUT], Refused<u8>>
    ensures { told_at result ≡ table_answer constants arities.now (offered_table arities.now clauses.now) }
{
    if !counts_fit(constants, arities, clauses) {
        return Err(Refused {
            refusal: Refusal::AboveLimit,
            place: 0,
        });
    }
    admit_clauses(arities, clauses)
}
