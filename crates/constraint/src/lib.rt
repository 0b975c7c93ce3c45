// The constraint test. It works on a square of bounds between every two of 17 places: that of the constants' order, into which the atoms
// are put one by one, closed after each, until one closes a chain below zero or all are in.
#![tactic(auto)]

ghost use Rattle.std.specs.Prelude.{◌≡◌, ℕ, ◌<◌, ◌≤◌, ◌+ℤ◌, ◌-ℤ◌};
ghost use Rattle.basis.specs.Limits.{most_constants};
ghost use Rattle.basis.specs.Atoms.{InTest, Proper};
ghost use Rattle.basis.specs.Choices.{less_zero};
ghost use Rattle.lists.specs.Tests.{Decides};
ghost use Rattle.integers.specs.Sides.{Within};
ghost use Rattle.bounds.specs.Whole.{whole_bounds};
ghost use Rattle.bounds.specs.Squares.{lower, lowest, values};
ghost use Rattle.constraint.specs.Test.{Accepted, Says};
ghost use Rattle.constraint.specs.Square.{places, far, most_chain, at, entry, Keeping, Sound, Stands, Ordered, stand_after, stand_before, by_order, FirstImproper};
ghost use Rattle.constraint.specs.Witnesses.{packed_numbers};

use basis::{Atom, MOST_C, MOST_CONSTANTS, MOST_DENIED, MOST_TESTED, Numbers, Refusal, Refused};

// The places of the square: zero and the constants.
const PLACES: usize = 17;

// The bound that stands in place of none: 17 times the largest bound, so that it takes no values away.
const FAR: i64 = 17000017;

// The bounds of one place to each
type Row = [i64; PLACES];

// Each bound of the row lowered to the one that goes by `start` and then by the row `via`.
fn lower_row(row: &mut Row, via: &Row, start: i64)
    requires { ((j : ℕ) → j < places → Within far (at via.now j)) × Within most_chain start }
    ensures { (j : ℕ) → j < places → at row.new j ≡ lower whole_bounds (start +ℤ at via.now j) (at row.old j) }
{
    // By an index: over a `zip` of `iter_mut` no invariant can name the row.
    for (j, bound) in row.iter_mut().enumerate() {
        *bound = (*bound).min(start + via[j]);
    }
}

// How many constants stand after the place i in the order. By comparisons here and below: with `saturating_sub` the compiler doesn't unroll the square's
// making, and each test takes some 600 ns more.
fn stand_after(constants: usize, i: usize) -> usize
    ensures { result ≡ stand_after constants i }
{
    if i < 1 || constants < i {
        0
    } else {
        constants - i
    }
}

// How many constants stand before the place j.
fn stand_before(constants: usize, j: usize) -> usize
    ensures { result ≡ stand_before constants j }
{
    if constants < j || j < 1 { 0 } else { j - 1 }
}

// The bound at i and j by the constants' order alone.
fn by_order(constants: usize, i: usize, j: usize) -> i64
    requires { (constants ≤ most_constants) × (i < places) × (j < places) }
    ensures { result ≡ by_order constants i j }
{
    if i == j {
        0
    } else if 0 < i && i < j && j <= constants {
        i as i64 - j as i64
    } else {
        FAR - (stand_after(constants, i) + stand_before(constants, j)) as i64
    }
}

// The bounds of the row i by the order alone.
fn ordered_row(constants: usize, i: usize) -> Row
    requires { (constants ≤ most_constants) × (i < places) }
    ensures { (j : ℕ) → j < places → at result j ≡ by_order constants i j }
{
    let mut row = [0; PLACES];
    for (j, bound) in row.iter_mut().enumerate() {
        *bound = by_order(constants, i, j);
    }
    row
}

// The square of the constants' order.
fn ordered(constants: usize) -> [Row; PLACES]
    requires { constants ≤ most_constants }
    ensures { Stands (Ordered constants) result }
{
    let mut t = [[0; PLACES]; PLACES];
    for (i, row) in t.iter_mut().enumerate() {
        *row = ordered_row(constants, i);
    }
    t
}

// The lowest of the row's first n + 1 bounds
#[tactic(auto, using(bounds::proofs::Lower::lowest_more), unfolding(bounds::specs::Squares::lowest))]
fn lowest_of(row: &Row, n: usize) -> i64
    requires { n < places }
    ensures { result ≡ lowest whole_bounds (at row.now) n }
{
    let mut low = row[0];
    for bound in &row[1..=n] {
        low = low.min(*bound);
    }
    low
}

// A constant's number: its place's value less zero's
fn less_zero(own: i64, zeroth: i64) -> i32
    requires { Within far own × Within far zeroth }
    ensures { result ≡ own -ℤ zeroth }
{
    (own - zeroth) as i32
}

// The numbers behind a yes: a place's value is the lowest bound of its row among zero and the constants.
#[tactic(auto, unfolding(lists::specs::Arrays::exactly))]
fn numbers_of(constants: usize, t: &[Row; PLACES]) -> Numbers
    requires { (constants ≤ most_constants) × Sound t.now }
    ensures { result ≡ packed_numbers (less_zero constants (values whole_bounds constants (entry t.now))) }
{
    let zeroth = lowest_of(&t[0], constants);
    let mut numbers = [0; MOST_CONSTANTS];
    for (k, row) in t[1..=constants].iter().enumerate() {
        numbers[k] = less_zero(lowest_of(row, constants), zeroth);
    }
    numbers
}

// Whether the order and the atoms can be kept: the numbers behind it, or none. Each atom is put in: a row to which nothing lower comes at q
// stays as it is.
fn kept(constants: usize, atoms: &[Atom]) -> Option<Numbers>
    requires { Accepted constants atoms.now }
    ensures { Keeping constants atoms.now result }
{
    let mut t = ordered(constants);
    for a in atoms {
        let p = usize::from(a.p);
        let q = usize::from(a.q);
        let c = i64::from(a.c);
        let back = t[q][p];
        if c + back < 0 {
            return None;
        }
        if c < t[p][q] {
            let via = t[q];
            for row in &mut t {
                let start = row[p] + c;
                if start < row[q] {
                    lower_row(row, &via, start);
                }
            }
        }
    }
    Some(numbers_of(constants, &t))
}

// Whether c is from -1,000,001 to 1,000,000.
fn in_test(c: i32) -> bool
    ensures { Decides (InTest c) result }
{
    (-MOST_DENIED..=MOST_C).contains(&c)
}

// Whether the atom has its places among the constants, not both 0, and c in range.
fn proper(constants: usize, a: &Atom) -> bool
    ensures { Decides (Proper InTest constants a.now) result }
{
    let p = usize::from(a.p);
    let q = usize::from(a.q);
    p <= constants && q <= constants && 0 < p + q && in_test(a.c)
}

// The first atom that is not proper, from 0.
fn first_improper(constants: usize, atoms: &[Atom]) -> Option<usize>
    ensures { FirstImproper constants atoms.now result }
{
    atoms.iter().position(|a| !proper(constants, a))
}

// The constraint test: whether whole numbers exist for the constants that keep their order and make the atoms true, and which.
pub fn possible(constants: u8, atoms: &[Atom]) -> Result<Option<Numbers>, Refused<u8>>
    ensures { Says constants atoms.now result }
{
    let n = usize::from(constants);
    if n > MOST_CONSTANTS || atoms.len() > MOST_TESTED {
        return Err(Refused {
            refusal: Refusal::AboveLimit,
            place: 0,
        });
    }
    if let Some(k) = first_improper(n, atoms) {
        return Err(Refused {
            refusal: Refusal::OutOfRange,
            place: k as u8 + 1,
        });
    }
    Ok(kept(n, atoms))
}
