// Merging: the reason of a Propagate, the resolvent and the factored conflict, all by the same steps. Variables are joined in a table of
// group numbers; atoms and literals are renamed by it, an atom equal to an earlier one going; then numbers close up.
#![tactic(auto)]

ghost use Rattle.std.specs.Prelude.{◌≡◌, not, ◌+◌, ◌++◌, map, ◌≤◌, length, get_or, take, Some};
ghost use Rattle.std.specs.List.{count_by};
ghost use Rattle.lists.specs.Lists.{any_of, without};
ghost use Rattle.lists.specs.Arrays.{held, held_in};
ghost use Rattle.basis.specs.Atoms.{no_atom};
ghost use Rattle.calculus.specs.Clauses.{no_literal, same_atom, same_literal, rename_atom, rename_literal, under};
ghost use Rattle.calculus.specs.Clauses as calculus;
ghost use Rattle.calculus.specs.Merging.{joins, own_pairs, reason_literals, reason, resolvent, factored};
ghost use Rattle.clauses.specs.Records.{clause_of, instanced_of, Counted};
ghost use Rattle.joining.specs.Scratch.{both_variables, both_atoms, both_literals, through};
ghost use Rattle.joining.specs.Fitted.{fitted};
ghost use Rattle.merging.specs.Added.{add_each};
ghost use Rattle.merging.specs.Results.{packed_reason, no_reason, resolved, factorized, reason_of};

use basis::{Atom, Literal};
use clauses::{Clause, Instanced, counted, ground, no_atom, no_instanced, no_literal};
use joining::{
    Atoms, Literals, Names, Table, atom_by, close_up, joined_arguments, literal_by, start,
};
use lists::Held;

// A reason, with its own literal's place, from 0
#[derive(Clone, Copy)]
pub struct Reason {
    pub of: Instanced,
    pub own: usize,
}

// ---- lists that grow

fn has_atom(atoms: &[Atom], b: Atom) -> bool
    ensures { result ≡ any_of (λ a. same_atom a b) atoms.now }
{
    atoms.contains(&b)
}

// Atoms by the table, their variables following v others, each put after those held where it is new
fn append_atoms(out: &mut Atoms, atoms: &[Atom], v: u8, t: &Table)
    requires { (out.old ≡ held both_atoms no_atom (held_in out.old)) × (out.old.n + length atoms.now ≤ both_atoms) }
    ensures { out.new ≡ held both_atoms no_atom (add_each (held_in out.old) (map (rename_atom (through t.now v)) atoms.now)) }
{
    for a in atoms {
        let b = atom_by(t, v, *a);
        let old = has_atom(out.as_slice(), b);
        if !old {
            out.push(b);
        }
    }
}

// Literals but the one at i, by the table, their variables following v others, after those held
fn append_literals(out: &mut Literals, literals: &[Literal], i: usize, v: u8, t: &Table)
    requires { (out.old ≡ held both_literals no_literal (held_in out.old)) × (out.old.n + length literals.now ≤ both_literals) }
    ensures { out.new ≡ held both_literals no_literal (held_in out.old ++ map (rename_literal (through t.now v)) (without i literals.now)) }
{
    for (j, l) in literals.iter().enumerate() {
        let b = literal_by(t, v, *l);
        if j != i {
            out.push(b);
        }
    }
}

// Constants after those held
fn append_constants(out: &mut Names, constants: &[u8])
    requires { (out.old ≡ held both_variables 0 (held_in out.old)) × (out.old.n + length constants.now ≤ both_variables) }
    ensures { out.new ≡ held both_variables 0 (held_in out.old ++ constants.now) }
{
    for a in constants {
        out.push(*a);
    }
}

// ---- the clauses that are merged

// The literal of c at j, from 0; the blank one past the last
fn literal_at(c: &Clause, j: usize) -> Literal
    ensures { result ≡ get_or (clause_of c.now).literals j no_literal }
{
    c.literals().get(j).copied().unwrap_or(no_literal())
}

fn resolve_counted(n: &Instanced, j: usize, r: &Instanced, i: usize) -> Option<Instanced>
    requires { Counted n.now.clause × Counted r.now.clause }
    ensures { result ≡ fitted (resolvent (instanced_of n.now) j (instanced_of r.now) i) }
{
    let v = n.clause.variables;
    let w = usize::from(v) + usize::from(r.clause.variables);
    let l = literal_at(&n.clause, j);
    let k = literal_at(&r.clause, i);
    let t = joined_arguments(start(w), l, v, k);
    let mut atoms = Held::new(no_atom());
    append_atoms(&mut atoms, n.clause.atoms(), 0, &t);
    append_atoms(&mut atoms, r.clause.atoms(), v, &t);
    let mut literals = Held::new(no_literal());
    append_literals(&mut literals, n.clause.literals(), j, 0, &t);
    append_literals(&mut literals, r.clause.literals(), i, v, &t);
    let mut constants = Held::new(0);
    append_constants(&mut constants, n.constants());
    append_constants(&mut constants, r.constants());
    close_up(
        w,
        atoms.as_slice(),
        literals.as_slice(),
        constants.as_slice(),
    )
}

// "The reason's variables are renamed apart, then merged argument by argument. New conflict: the old literals without L', then the reason's
// without its own; old atoms, then the reason's." L' is the literal at j of the conflict n, the reason's own is at i of r.
pub fn resolve(n: &Instanced, j: usize, r: &Instanced, i: usize) -> Option<Instanced>
    ensures { result ≡ resolved n.now j r.now i }
{
    if !counted(n.clause) || !counted(r.clause) {
        return None;
    }
    resolve_counted(n, j, r, i)
}

fn factor_counted(n: &Instanced, lo: usize, hi: usize) -> Option<Instanced>
    requires { Counted n.now.clause × (lo ≤ hi) }
    ensures { result ≡ fitted (factored (instanced_of n.now) lo hi) }
{
    let v = usize::from(n.clause.variables);
    let l = literal_at(&n.clause, lo);
    let k = literal_at(&n.clause, hi);
    let t = joined_arguments(start(v), l, 0, k);
    let mut atoms = Held::new(no_atom());
    append_atoms(&mut atoms, n.clause.atoms(), 0, &t);
    let mut literals = Held::new(no_literal());
    append_literals(&mut literals, n.clause.literals(), hi, 0, &t);
    close_up(v, atoms.as_slice(), literals.as_slice(), n.constants())
}

// "Their variables are merged; the one with the larger number goes." The two literals of the conflict n are at i and j.
pub fn factorize(n: &Instanced, i: usize, j: usize) -> Option<Instanced>
    ensures { result ≡ factorized n.now i j }
{
    if !counted(n.clause) {
        return None;
    }
    factor_counted(n, i.min(j), i.max(j))
}

// ---- the literals of one instance

// Whether m's instance is g
fn is_own(n: &Instanced, m: Literal, g: Literal) -> bool
    ensures { result ≡ same_literal (calculus.ground (instanced_of n.now).instance m) g }
{
    ground(m, n.constants()) == g
}

// The literal l joined with every literal of the instance g
fn joined_own(n: &Instanced, l: Literal, g: Literal, mut t: Table) -> Table
    ensures { result ≡ joins (own_pairs (instanced_of n.now).instance g l (clause_of n.now.clause).literals) t }
{
    let literals = n.clause.literals();
    for m in literals {
        if is_own(n, *m, g) {
            // By a name of its own: the prover takes no call's result straight into an array.
            let next = joined_arguments(t, l, 0, *m);
            t = next;
        }
    }
    t
}

// The literals of another instance, and that at i, by the table
fn reason_literals(n: &Instanced, g: Literal, i: usize, t: &Table) -> Literals
    requires { Counted n.now.clause }
    ensures { result ≡ held both_literals no_literal (map (rename_literal (under t.now)) (reason_literals (instanced_of n.now).instance g i (clause_of n.now.clause).literals)) }
{
    let literals = n.clause.literals();
    let mut out = Held::new(no_literal());
    for (j, m) in literals.iter().enumerate() {
        let b = literal_by(t, 0, *m);
        let own = is_own(n, *m, g);
        if j == i || !own {
            out.push(b);
        }
    }
    out
}

// Where the literal at i then stands
fn own_index(n: &Instanced, g: Literal, i: usize) -> usize
    ensures { result ≡ count_by (λ m. not (same_literal (calculus.ground (instanced_of n.now).instance m) g)) (take i (clause_of n.now.clause).literals) }
{
    n.clause
        .literals()
        .iter()
        .take(i)
        .filter(|m| !is_own(n, **m, g))
        .count()
}

fn reason_counted(n: &Instanced, i: usize) -> Reason
    requires { Counted n.now.clause }
    ensures { result ≡ packed_reason (reason (clause_of n.now.clause) i (instanced_of n.now).instance) }
{
    let v = usize::from(n.clause.variables);
    let l = literal_at(&n.clause, i);
    let constants = n.constants();
    let g = ground(l, constants);
    let t = joined_own(n, l, g, start(v));
    let mut atoms = Held::new(no_atom());
    append_atoms(&mut atoms, n.clause.atoms(), 0, &t);
    let literals = reason_literals(n, g, i, &t);
    let own = own_index(n, g, i);
    // It is there: a reason is never larger than its clause.
    let merged = close_up(v, atoms.as_slice(), literals.as_slice(), constants);
    Reason {
        of: merged.unwrap_or(no_instanced()),
        own,
    }
}

fn no_reason() -> Reason
    ensures { result ≡ no_reason }
{
    Reason {
        of: no_instanced(),
        own: 0,
    }
}

// "Its reason is the clause after merging L with all literals of the same instance; L keeps its place, the others go." L is the literal at i.
pub fn reason_of(n: &Instanced, i: usize) -> Reason
    ensures { result ≡ reason_of n.now.clause i n.now.instance }
{
    if !counted(n.clause) {
        return no_reason();
    }
    reason_counted(n, i)
}
