// Atoms, literals, instances and clauses as text, written into a lent buffer. Each function writes from a place on and answers the place after
// what it wrote; the caller sees to the room.
#![tactic(auto)]

ghost use Rattle.std.specs.Prelude.{◌≡◌, [], ◌∷◌, ◌++◌, ◌+◌, ◌*◌, ◌≤◌, ◌<◌, length, nat_eq, position};
ghost use Rattle.clauses.specs.Records.{clause_of};
ghost use Rattle.text.specs.Text.{bytes, decimal};
ghost use Rattle.clausetext.specs.ClauseText.{in_turn, parting, number_text, tuple_text, atom_text, until_zero, sign_text, literal_text, listed_atom, listed_literal, clause_text};
ghost use Rattle.clausetext.specs.Room.{most_number, most_atom, most_tuple, most_literal, most_clause_text, Each, Put, PutsEach};

use basis::{Atom, Literal};
use clauses::Clause;
use text::{put_byte, put_decimal, put_signed, put_word};

// ---- lists

// Each item from where the one before ended: `one` is handed the buffer, a place, the item's number, from 0 on, and the item.
pub fn put_each<T: Copy, F: Fn(&mut [u8], usize, usize, T) -> usize>(
    out: &mut [u8],
    at: usize,
    items: &[T],
    one: F,
) -> usize
    ghost each: { Each T }
    requires puts { PutsEach (F.pre one) (F.post one) each items.now }
    requires room { at + length items.now * each.most ≤ length out.old }
    ensures { Put (length items.now * each.most) out.old at (in_turn 0 each.text items.now) out.new result }
{
    let mut next = at;
    for (j, x) in items.iter().enumerate() {
        next = one(out, next, j, *x);
    }
    next
}

// ---- numbers and atoms

// A number of at most three digits
pub fn put_small(out: &mut [u8], at: usize, n: usize) -> usize
    requires { (n < 1000) × (at + most_number ≤ length out.old) }
    ensures { Put most_number out.old at (decimal n) out.new result }
{
    put_decimal(out, at, n)
}

pub fn put_number(out: &mut [u8], at: usize, n: u8) -> usize
    requires { at + most_number ≤ length out.old }
    ensures { Put most_number out.old at (decimal n) out.new result }
{
    put_small(out, at, usize::from(n))
}

// What parts element j of a list from the one before it
fn put_parting(out: &mut [u8], at: usize, j: usize, b: u8) -> usize
    requires { at + 1 ≤ length out.old }
    ensures { Put 1 out.old at (parting (b ∷ []) j) out.new result }
{
    if j == 0 { at } else { put_byte(out, at, b) }
}

fn put_listed_number(out: &mut [u8], at: usize, j: usize, n: u8) -> usize
    requires { at + (1 + most_number) ≤ length out.old }
    ensures { Put (1 + most_number) out.old at (number_text j n) out.new result }
{
    let next = put_parting(out, at, j, b',');
    put_number(out, next, n)
}

// Arguments, or an instance's constants, in brackets
pub fn put_tuple(out: &mut [u8], at: usize, numbers: &[u8]) -> usize
    requires { at + most_tuple (length numbers.now) ≤ length out.old }
    ensures { Put (most_tuple (length numbers.now)) out.old at (tuple_text numbers.now) out.new result }
{
    let open = put_byte(out, at, b'(');
    let close = put_each(out, open, numbers, put_listed_number);
    put_byte(out, close, b')')
}

pub fn put_atom(out: &mut [u8], at: usize, a: Atom) -> usize
    requires { at + most_atom ≤ length out.old }
    ensures { Put most_atom out.old at (atom_text a) out.new result }
{
    let p = put_number(out, at, a.p);
    let minus = put_byte(out, p, b'-');
    let q = put_number(out, minus, a.q);
    let most = put_word(out, q, b"<=");
    put_signed(out, most, a.c)
}

// ---- literals

// The place of the first 0
fn zero_at(numbers: &[u8]) -> Option<usize>
    ensures { result ≡ position (λ n. nat_eq n 0) numbers.now }
{
    numbers.iter().position(|n| *n == 0)
}

// The numbers before the first 0
#[tactic(auto, using(crate::proofs::Literals::shown_within, crate::proofs::Literals::until_taken))]
fn until_zero(numbers: &[u8]) -> &[u8]
    ensures { result.now ≡ until_zero numbers.now }
{
    &numbers[..zero_at(numbers).unwrap_or(numbers.len())]
}

fn put_sign(out: &mut [u8], at: usize, positive: bool) -> usize
    requires { at + 1 ≤ length out.old }
    ensures { Put 1 out.old at (sign_text positive) out.new result }
{
    if positive {
        at
    } else {
        put_byte(out, at, b'~')
    }
}

pub fn put_literal(out: &mut [u8], at: usize, l: Literal) -> usize
    requires { at + most_literal ≤ length out.old }
    ensures { Put most_literal out.old at (literal_text l) out.new result }
{
    let sign = put_sign(out, at, l.positive);
    let letter = put_byte(out, sign, b'P');
    let predicate = put_number(out, letter, l.predicate);
    put_tuple(out, predicate, until_zero(&[l.x, l.y, l.z]))
}

// ---- clauses

fn put_listed_atom(out: &mut [u8], at: usize, j: usize, a: Atom) -> usize
    requires { at + (1 + most_atom) ≤ length out.old }
    ensures { Put (1 + most_atom) out.old at (listed_atom j a) out.new result }
{
    let next = put_parting(out, at, j, b' ');
    put_atom(out, next, a)
}

fn put_atoms(out: &mut [u8], at: usize, atoms: &[Atom]) -> usize
    requires { at + length atoms.now * (1 + most_atom) ≤ length out.old }
    ensures { Put (length atoms.now * (1 + most_atom)) out.old at (in_turn 0 listed_atom atoms.now) out.new result }
{
    put_each(out, at, atoms, put_listed_atom)
}

fn put_listed_literal(out: &mut [u8], at: usize, _: usize, l: Literal) -> usize
    requires { at + (1 + most_literal) ≤ length out.old }
    ensures { Put (1 + most_literal) out.old at (bytes " " ++ literal_text l) out.new result }
{
    let next = put_byte(out, at, b' ');
    put_literal(out, next, l)
}

fn put_literals(out: &mut [u8], at: usize, literals: &[Literal]) -> usize
    requires { at + length literals.now * (1 + most_literal) ≤ length out.old }
    ensures { Put (length literals.now * (1 + most_literal)) out.old at (in_turn 0 listed_literal literals.now) out.new result }
{
    put_each(out, at, literals, put_listed_literal)
}

// Variables, atoms and literals
pub fn put_clause(out: &mut [u8], at: usize, c: Clause) -> usize
    requires { at + most_clause_text ≤ length out.old }
    ensures { Put most_clause_text out.old at (clause_text (clause_of c)) out.new result }
{
    let variables = put_number(out, at, c.variables);
    let open = put_word(out, variables, b" [");
    let atoms = put_atoms(out, open, c.atoms());
    let close = put_byte(out, atoms, b']');
    put_literals(out, close, c.literals())
}
