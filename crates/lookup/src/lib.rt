// Clauses from a lookup table: rows of key and result make input clauses in file form. Gets is predicate 1, x variable 1 and y variable 2.
#![tactic(auto)]

ghost use Rattle.std.specs.Prelude.{◌≡◌, ℕ, suc, ◌≤◌, ◌<◌, pos, ◌<ℤ◌, length, get_or};
ghost use Rattle.std.proofs.Math.Option.{none, some};
ghost use Rattle.basis.specs.Atoms.{InRange};
ghost use Rattle.lists.specs.Tests.{Decides};
ghost use Rattle.calculus.specs.Clauses.{no_clause};
ghost use Rattle.clauses.specs.Records.{packed};
ghost use Rattle.text.specs.Text.{Wrote};
ghost use Rattle.lookup.specs.Tables.{RowInOrder, InOrder, rows_of};
ghost use Rattle.lookup.specs.TableClauses.{at_least, at_most, gets, gets_arities, row_clause, table_clauses};
ghost use Rattle.lookup.specs.Making.{Makes, bytes_for};
ghost use Rattle.lookup.specs.Claims.{TableAccepted};

use basis::{Atom, Literal, MOST_C, MOST_ROWS, Refusal, Refused};
use clausebytes::put_clause;
use clauses::{Clause, no_clause};

// An atom: p, q and the four bytes of c
const ATOM_BYTES: usize = 6;

// The clause of a row with both ends: three counts, four atoms, and a literal of four bytes
const ROW_BYTES: usize = 31;

// The kind of match: the row of the equal key, or that of the largest key not above
#[derive(Clone, Copy)]
pub enum Match {
    Exact,
    Approximate,
}

// ---- which tables are in order

// Whether c is from -1,000,000 to 1,000,000.
fn in_range(c: i32) -> bool
    ensures { Decides (InRange c) result }
{
    -MOST_C <= c && c <= MOST_C
}

// Whether the key of row j is above the one before it, if there is one
fn rises(keys: &[i32], j: usize) -> bool
    requires { j < length keys.now }
    ensures { Decides ((i : ℕ) → j ≡ suc i → get_or keys.now i (pos 0) <ℤ get_or keys.now j (pos 0)) result }
{
    j == 0 || keys[j - 1] < keys[j]
}

fn row_in_order(keys: &[i32], results: &[i32], j: usize) -> bool
    requires { j < length keys.now }
    ensures { Decides (RowInOrder keys.now results.now j) result }
{
    j < results.len() && rises(keys, j) && in_range(keys[j]) && in_range(results[j])
}

fn in_order(keys: &[i32], results: &[i32]) -> bool
    ensures { Decides (InOrder keys.now results.now) result }
{
    for j in 0..keys.len() {
        if !row_in_order(keys, results, j) {
            return false;
        }
    }
    true
}

// ---- the clause of a row

fn at_least(v: u8, n: i32) -> Atom
    requires { InRange n }
    ensures { result ≡ at_least v n }
{
    Atom { p: 0, q: v, c: -n }
}

fn at_most(v: u8, n: i32) -> Atom
    ensures { result ≡ at_most v n }
{
    Atom { p: v, q: 0, c: n }
}

// Gets(x, y)
fn gets_literal() -> Literal
    ensures { result ≡ gets }
{
    Literal {
        positive: true,
        predicate: 1,
        x: 1,
        y: 2,
        z: 0,
    }
}

// The clause of a row in which x has no upper end
fn endless(key: i32, res: i32) -> Clause
    requires { InRange key × InRange res }
    ensures { result ≡ packed (row_clause (record { key = key; result = res }) none) }
{
    let mut c = no_clause();
    c.variables = 2;
    c.atomcount = 3;
    c.literalcount = 1;
    c.atoms[0] = at_least(1, key);
    c.atoms[1] = at_least(2, res);
    c.atoms[2] = at_most(2, res);
    c.literals[0] = gets_literal();
    c
}

// The clause of a row in which x ends at `last`
fn banded(key: i32, last: i32, res: i32) -> Clause
    requires { InRange key × InRange res }
    ensures { result ≡ packed (row_clause (record { key = key; result = res }) (some last)) }
{
    let mut c = no_clause();
    c.variables = 2;
    c.atomcount = 4;
    c.literalcount = 1;
    c.atoms[0] = at_least(1, key);
    c.atoms[1] = at_most(1, last);
    c.atoms[2] = at_least(2, res);
    c.atoms[3] = at_most(2, res);
    c.literals[0] = gets_literal();
    c
}

// The clause of row j
fn row_clause(keys: &[i32], results: &[i32], kind: Match, j: usize) -> Clause
    requires { InOrder keys.now results.now × (j < length keys.now) }
    ensures { result ≡ packed (get_or (table_clauses kind (rows_of keys.now results.now)) j no_clause) }
{
    let key = keys[j];
    let result = results[j];
    match kind {
        Match::Exact => banded(key, key, result),
        Match::Approximate => {
            if keys.len() <= j + 1 {
                return endless(key, result);
            }
            banded(key, keys[j + 1] - 1, result)
        }
    }
}

// ---- the whole table

// How many bytes the clauses have; the last row of approximate match has no upper end
fn room(keys: &[i32], results: &[i32], kind: Match) -> usize
    requires { TableAccepted keys.now results.now }
    ensures { result ≡ length (bytes_for keys.now results.now kind) }
{
    let most = ROW_BYTES * keys.len();
    match kind {
        Match::Exact => most,
        Match::Approximate => most.saturating_sub(ATOM_BYTES),
    }
}

// Gets alone, of arity 2
fn gets_alone() -> [u8; 1]
    ensures { result ≡ gets_arities }
{
    [2]
}

fn put_rows(keys: &[i32], results: &[i32], kind: Match, out: &mut [u8]) -> usize
    requires { InOrder keys.now results.now × (length (bytes_for keys.now results.now kind) ≤ length out.old) }
    ensures { Wrote out.old 0 (bytes_for keys.now results.now kind) out.new result }
{
    let arities = gets_alone();
    let mut at = 0;
    for j in 0..keys.len() {
        let c = row_clause(keys, results, kind, j);
        at = put_clause(out, at, &arities, c);
    }
    at
}

// The clauses of the table that keys and results make, row by row, at the front of the buffer, and how many bytes they have; or a refusal,
// after which the buffer is as it was
pub fn clauses_from(
    keys: &[i32],
    results: &[i32],
    kind: Match,
    out: &mut [u8],
) -> Result<usize, Refused<u8>>
    ensures { Makes keys.now results.now kind out.old out.new result }
{
    if MOST_ROWS < keys.len() {
        return Err(Refused {
            refusal: Refusal::TooManyRows,
            place: 0,
        });
    }
    if !in_order(keys, results) {
        return Err(Refused {
            refusal: Refusal::NotInOrder,
            place: 0,
        });
    }
    if out.len() < room(keys, results, kind) {
        return Err(Refused {
            refusal: Refusal::BufferShort,
            place: 0,
        });
    }
    Ok(put_rows(keys, results, kind, out))
}
