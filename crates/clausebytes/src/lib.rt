// Atoms, literals and clauses as a run file has them, written into a lent buffer. Each function writes from a place on and answers the place after
// what it wrote; the caller sees to the room.
#![tactic(auto)]

ghost use Rattle.std.specs.Prelude.{◌≡◌, ◌+◌, ◌≤◌, length};
ghost use Rattle.runfile.specs.Written.{bytes_of, unsigned, joined, written_argument, written_atom, written_literal, written_clause};
ghost use Rattle.clauses.specs.Records.{clause_of};
ghost use Rattle.text.specs.Text.{Wrote};

use admission::arity_of;
use basis::{Atom, Literal};
use clauses::Clause;
use text::{put_byte, put_word};

// ---- atoms

// A number as two's complement, the lowest byte first
fn word_of(n: i32) -> [u8; 4]
    ensures { result ≡ bytes_of 4 (unsigned n) }
{
    n.to_le_bytes()
}

pub fn put_atom(out: &mut [u8], at: usize, a: Atom) -> usize
    requires { at + length (written_atom a) ≤ length out.old }
    ensures { Wrote out.old at (written_atom a) out.new result }
{
    let p = put_byte(out, at, a.p);
    let q = put_byte(out, p, a.q);
    put_word(out, q, &word_of(a.c))
}

// ---- literals

// The kth of n arguments; none past them is written.
fn put_argument(out: &mut [u8], at: usize, k: u8, n: u8, x: u8) -> usize
    requires { at + length (written_argument n k x) ≤ length out.old }
    ensures { Wrote out.old at (written_argument n k x) out.new result }
{
    if k <= n { put_byte(out, at, x) } else { at }
}

pub fn put_literal(out: &mut [u8], at: usize, arities: &[u8], l: Literal) -> usize
    requires { at + length (written_literal arities.now l) ≤ length out.old }
    ensures { Wrote out.old at (written_literal arities.now l) out.new result }
{
    let n = arity_of(arities, l.predicate);
    let sign = put_byte(out, at, u8::from(l.positive));
    let predicate = put_byte(out, sign, l.predicate);
    let x = put_argument(out, predicate, 1, n, l.x);
    let y = put_argument(out, x, 2, n, l.y);
    put_argument(out, y, 3, n, l.z)
}

// ---- clauses

fn put_atoms(out: &mut [u8], at: usize, atoms: &[Atom]) -> usize
    requires { at + length (joined written_atom atoms.now) ≤ length out.old }
    ensures { Wrote out.old at (joined written_atom atoms.now) out.new result }
{
    let mut next = at;
    for a in atoms {
        next = put_atom(out, next, *a);
    }
    next
}

// A loop of its own, as `put_atoms`: `put_each` of `clausetext` leaves as much room for each item, and literals are not equally long; one function over a
// closure for these two alone takes, with its promise, 17 lines more than they.
fn put_literals(out: &mut [u8], at: usize, arities: &[u8], literals: &[Literal]) -> usize
    requires { at + length (joined (written_literal arities.now) literals.now) ≤ length out.old }
    ensures { Wrote out.old at (joined (written_literal arities.now) literals.now) out.new result }
{
    let mut next = at;
    for l in literals {
        next = put_literal(out, next, arities, *l);
    }
    next
}

// Variables, the counts of atoms and literals, and then these
pub fn put_clause(out: &mut [u8], at: usize, arities: &[u8], c: Clause) -> usize
    requires { at + length (written_clause arities.now (clause_of c)) ≤ length out.old }
    ensures { Wrote out.old at (written_clause arities.now (clause_of c)) out.new result }
{
    let atoms = c.atoms();
    let literals = c.literals();
    let variables = put_byte(out, at, c.variables);
    let counted = put_byte(out, variables, atoms.len() as u8);
    let counts = put_byte(out, counted, literals.len() as u8);
    let past = put_atoms(out, counts, atoms);
    put_literals(out, past, arities, literals)
}
