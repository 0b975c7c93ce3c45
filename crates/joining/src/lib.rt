// The parts of a merge: variables joined in a table of group numbers, atoms and literals renamed by it, and numbers closed up.
// What is merged stands in lists with room for two clauses, since the limits are counted after merging.
#![tactic(auto)]

ghost use Rattle.std.specs.Prelude.{◌≡◌, cond, map, ◌≤◌, eqb, length};
ghost use Rattle.std.specs.List.{position};
ghost use Rattle.lists.specs.Lists.{keep_if, up_from, pair_up};
ghost use Rattle.lists.specs.Arrays.{exactly, held};
ghost use Rattle.basis.specs.Limits.{most_variables, most_atoms, most_literals};
ghost use Rattle.basis.specs.Atoms.{no_atom};
ghost use Rattle.calculus.specs.Clauses.{arguments, no_literal, rename_atom, rename_literal, under};
ghost use Rattle.calculus.specs.Merging.{join, joins, occurs_in, close_up, apart};
ghost use Rattle.joining.specs.Scratch.{both_variables, through, closed};
ghost use Rattle.joining.specs.Fitted.{MadeBy, fitted};

use basis::{Atom, Literal, MOST_ATOMS, MOST_LITERALS, MOST_VARIABLES};
use clauses::{Clause, Instanced, no_atom, no_literal, occurs_in};
use lists::Held;

// Two clauses are merged before the limits are counted.
pub const BOTH_VARIABLES: usize = 24;

pub const BOTH_ATOMS: usize = 48;

pub const BOTH_LITERALS: usize = 16;

// A group number for each variable of two clauses
pub type Table = [u8; BOTH_VARIABLES];

// The atoms of two clauses
pub type Atoms = Held<Atom, BOTH_ATOMS>;

// The literals of two clauses
pub type Literals = Held<Literal, BOTH_LITERALS>;

// Variables of two clauses, or the constants that instances have for them
pub type Names = Held<u8, BOTH_VARIABLES>;

// ---- places renamed by a function

// Each place replaced by what f has for it
fn renamed_atom<F: Fn(u8) -> u8>(a: Atom, f: F) -> Atom
    requires { F.IsAlwaysCallable f }
    ensures { F.post f a.p result.p × F.post f a.q result.q × (result.c ≡ a.c) }
{
    Atom {
        p: f(a.p),
        q: f(a.q),
        c: a.c,
    }
}

fn renamed_literal<F: Fn(u8) -> u8>(l: Literal, f: F) -> Literal
    requires { F.IsAlwaysCallable f }
    ensures { F.post f l.x result.x × F.post f l.y result.y × F.post f l.z result.z × (result.positive ≡ l.positive) × (result.predicate ≡ l.predicate) }
{
    Literal {
        positive: l.positive,
        predicate: l.predicate,
        x: f(l.x),
        y: f(l.y),
        z: f(l.z),
    }
}

// ---- a table of variables

// What the table has for variable x of a clause whose variables follow v others
fn look(t: &[u8], v: u8, x: u8) -> u8
    ensures { result ≡ through t.now v x }
{
    if x == 0 {
        return 0;
    }
    let k = x as usize + v as usize - 1;
    t.get(k).copied().unwrap_or(0)
}

pub fn atom_by(t: &[u8], v: u8, a: Atom) -> Atom
    ensures { result ≡ rename_atom (through t.now v) a }
{
    renamed_atom(a, |x| look(t, v, x))
}

pub fn literal_by(t: &[u8], v: u8, l: Literal) -> Literal
    ensures { result ≡ rename_literal (through t.now v) l }
{
    renamed_literal(l, |x| look(t, v, x))
}

// The table in which each of v variables stands for itself
pub fn start(v: usize) -> Table
    requires { v ≤ both_variables }
    ensures { result ≡ exactly both_variables 0 (up_from 1 v) }
{
    let mut out = Held::new(0);
    for x in (1..).take(v) {
        out.push(x);
    }
    out.at
}

// The number z, or lo where it is hi
fn moved(z: u8, hi: u8, lo: u8) -> u8
    ensures { result ≡ cond (eqb z hi) lo z }
{
    if z == hi { lo } else { z }
}

// The table with every hi made lo
fn renumbered(mut t: Table, hi: u8, lo: u8) -> Table
    ensures { result ≡ map (λ z. cond (eqb z hi) lo z) t }
{
    for z in t.iter_mut() {
        *z = moved(*z, hi, lo);
    }
    t
}

// Variable x joined with variable y of a clause whose variables follow v others
fn joined(t: Table, x: u8, v: u8, y: u8) -> Table
    ensures { result ≡ join x (apart v y) t }
{
    let a = look(&t, 0, x);
    let b = look(&t, v, y);
    renumbered(t, a.max(b), a.min(b))
}

// Argument by argument
pub fn joined_arguments(t: Table, l: Literal, v: u8, m: Literal) -> Table
    ensures { result ≡ joins (pair_up (arguments l) (arguments (rename_literal (apart v) m))) t }
{
    let t = joined(t, l.x, v, m.x);
    let t = joined(t, l.y, v, m.y);
    joined(t, l.z, v, m.z)
}

// ---- closing up

// The variables that occur, in order
fn kept(v: usize, atoms: &[Atom], literals: &[Literal]) -> Names
    requires { v ≤ both_variables }
    ensures { result ≡ held both_variables 0 (keep_if (occurs_in atoms.now literals.now) (up_from 1 v)) }
{
    let mut out = Held::new(0);
    for x in (1..).take(v) {
        if occurs_in(atoms, literals, x) {
            out.push(x);
        }
    }
    out
}

// Where x stands first
fn place(ks: &[u8], x: u8) -> Option<usize>
    ensures { result ≡ position (eqb x) ks.now }
{
    ks.iter().position(|k| x == *k)
}

// The new number of variable x
fn number(ks: &[u8], x: u8) -> u8
    requires { length ks.now ≤ both_variables }
    ensures { result ≡ closed ks.now x }
{
    if x == 0 {
        return 0;
    }
    place(ks, x).unwrap_or(ks.len()) as u8 + 1
}

// Each of a list as f makes it, in an array's room; blank past them
fn fit<T: Copy, const N: usize, F: Fn(T) -> T>(list: &[T], blank: T, f: F) -> [T; N]
    requires room { length list.now ≤ N }
    requires callable { F.IsAlwaysCallable f }
    ensures { MadeBy (F.post f) N blank list.now result }
{
    let mut out = [blank; N];
    for (j, x) in list.iter().enumerate() {
        out[j] = f(*x);
    }
    out
}

fn closed_atoms(atoms: &[Atom], ks: &[u8]) -> [Atom; MOST_ATOMS]
    requires { (length atoms.now ≤ most_atoms) × (length ks.now ≤ both_variables) }
    ensures { result ≡ exactly most_atoms no_atom (map (rename_atom (closed ks.now)) atoms.now) }
{
    fit(atoms, no_atom(), |a| renamed_atom(a, |x| number(ks, x)))
}

fn closed_literals(literals: &[Literal], ks: &[u8]) -> [Literal; MOST_LITERALS]
    requires { (length literals.now ≤ most_literals) × (length ks.now ≤ both_variables) }
    ensures { result ≡ exactly most_literals no_literal (map (rename_literal (closed ks.now)) literals.now) }
{
    fit(
        literals,
        no_literal(),
        |l| renamed_literal(l, |x| number(ks, x)),
    )
}

// The constants of the variables that are kept
fn constants(ks: &[u8], instance: &[u8]) -> [u8; MOST_VARIABLES]
    requires { length ks.now ≤ most_variables }
    ensures { result ≡ exactly most_variables 0 (map (under instance.now) ks.now) }
{
    fit(ks, 0, |k| look(instance, 0, k))
}

// The last part of every merge: the limits are counted on what it gives.
pub fn close_up(
    v: usize,
    atoms: &[Atom],
    literals: &[Literal],
    instance: &[u8],
) -> Option<Instanced>
    requires { v ≤ both_variables }
    ensures { result ≡ fitted (close_up v atoms.now literals.now instance.now) }
{
    let names = kept(v, atoms, literals);
    let ks = names.as_slice();
    if MOST_ATOMS < atoms.len() || MOST_LITERALS < literals.len() || MOST_VARIABLES < ks.len() {
        return None;
    }
    let clause = Clause {
        variables: ks.len() as u8,
        atomcount: atoms.len() as u8,
        literalcount: literals.len() as u8,
        atoms: closed_atoms(atoms, ks),
        literals: closed_literals(literals, ks),
    };
    Some(Instanced {
        clause,
        instance: constants(ks, instance),
    })
}
