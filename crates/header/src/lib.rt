// Reading what stands before the first step of a run file: its version, constants, predicates with arities, input clauses, the number of steps.
#![tactic(auto)]

ghost use Rattle.std.specs.Prelude.{◌≡◌, ◌≤◌, length};
ghost use Rattle.basis.specs.Atoms.{no_atom};
ghost use Rattle.basis.specs.Limits.{most_atoms, most_input, most_literals, most_predicates, most_arguments};
ghost use Rattle.lists.specs.Arrays.{exactly, held};
ghost use Rattle.calculus.specs.Clauses.{no_literal};
ghost use Rattle.clauses.specs.Records.{packed};
ghost use Rattle.runfile.specs.Readers.{times};
ghost use Rattle.runfile.specs.File.{count, atom, argument, literal, clause_fields, clause, header};
ghost use Rattle.fields.specs.Views.{read, read_as};
ghost use Rattle.header.specs.Records.{input_of, kept, kept_beside, laid, packed_table, read_beside, seen};

use admission::{admit_clause, arity_of};
use basis::{
    Atom, Literal, MOST_ARGUMENTS, MOST_ATOMS, MOST_CLAUSES, MOST_CONSTANTS, MOST_INPUT,
    MOST_LITERALS, MOST_PREDICATES, MOST_VARIABLES, Refused, Version,
};
use clauses::{Clause, no_atom, no_clause, no_literal};
use fields::{
    Read, constant_at, count_at, mark_at, second_at, several, step_count_at, version_at, within_at,
};
use lists::Held;

// What is kept of what stands before the first step: all but the clauses
#[derive(Clone, Copy)]
pub struct Header {
    pub version: Version,
    pub constants: u8,
    pub arities: Held<u8, MOST_PREDICATES>,
    pub input: u8,
    pub steps: u32,
}

// ---- atoms

#[tactic(auto, unfolding(runfile::specs::File::atom))]
fn atom_at(s: &[u8], at: usize, v: u8) -> Read<Atom>
    ensures { read result ≡ atom v s.now at }
{
    let (p, at) = within_at(s, at, 0, v)?;
    let (q, at) = second_at(s, at, v, p)?;
    let (c, at) = constant_at(s, at)?;
    Ok((Atom { p, q, c }, at))
}

// ---- literals

// The kth of n arguments; 0 past the last
fn argument_at(s: &[u8], at: usize, v: u8, n: u8, k: u8) -> Read<u8>
    ensures { read result ≡ argument v n k s.now at }
{
    if k <= n {
        within_at(s, at, 1, v)
    } else {
        Ok((0, at))
    }
}

#[tactic(auto, unfolding(runfile::specs::File::literal))]
fn literal_at(s: &[u8], at: usize, arities: &[u8], v: u8) -> Read<Literal>
    requires { length arities.now ≤ most_predicates }
    ensures { read result ≡ literal arities.now v s.now at }
{
    let (sign, at) = within_at(s, at, 0, 1)?;
    let (predicate, at) = within_at(s, at, 1, arities.len() as u8)?;
    let n = arity_of(arities, predicate);
    let (x, at) = argument_at(s, at, v, n, 1)?;
    let (y, at) = argument_at(s, at, v, n, 2)?;
    let (z, at) = argument_at(s, at, v, n, 3)?;
    let positive = sign == 1;
    Ok((
        Literal {
            positive,
            predicate,
            x,
            y,
            z,
        },
        at,
    ))
}

// ---- clauses

// The counts and lists of a clause
fn clause_fields_at(s: &[u8], at: usize, arities: &[u8]) -> Read<Clause>
    requires { length arities.now ≤ most_predicates }
    ensures { read result ≡ seen packed (clause_fields arities.now s.now at) }
{
    let (variables, at) = count_at(s, at, MOST_VARIABLES)?;
    let (atomcount, at) = count_at(s, at, MOST_ATOMS)?;
    let (literalcount, at) = count_at(s, at, MOST_LITERALS)?;
    let (Held { at: atoms, .. }, at) = several(
        at,
        atomcount,
        no_atom(),
        |at| atom_at(s, at, variables),
    )?;
    let (Held { at: literals, .. }, at) = several(
        at,
        literalcount,
        no_literal(),
        |at| literal_at(s, at, arities, variables),
    )?;
    let clause = Clause {
        variables,
        atomcount,
        literalcount,
        atoms,
        literals,
    };
    Ok((clause, at))
}

// A clause, its 5 then 6 judged at its end
fn clause_at(s: &[u8], at: usize, arities: &[u8]) -> Read<Clause>
    requires { length arities.now ≤ most_predicates }
    ensures { read result ≡ seen packed (clause arities.now s.now at) }
{
    let (clause, next) = clause_fields_at(s, at, arities)?;
    match admit_clause(arities, clause) {
        Ok(read) => Ok((read, next)),
        Err(refusal) => Err(Refused { refusal, place: at }),
    }
}

// n clauses, each laid into the table where that has a slot for it. They are judged in any case.
fn clauses_at(s: &[u8], at: usize, n: u8, arities: &[u8], table: &mut [Clause]) -> Read<()>
    requires { length arities.now ≤ most_predicates }
    ensures { read_as (λ _. table.new) result ≡ seen (laid table.old) (times n (clause arities.now) s.now at) }
{
    let mut end = at;
    for j in 0..usize::from(n) {
        let (c, next) = clause_at(s, end, arities)?;
        if j < table.len() {
            table[j] = c;
        }
        end = next;
    }
    Ok(((), end))
}

// ---- the header

// What stands before the first step, from the file's first byte on; the clauses are laid into the table where that has slots for them.
#[tactic(auto, unfolding(runfile::specs::File::header))]
fn header_at(s: &[u8], table: &mut [Clause]) -> Read<Header>
    ensures { read_beside table.new result ≡ kept_beside table.old (header s.now 0) }
{
    let (_, at) = mark_at(s, 0)?;
    let (version, at) = version_at(s, at)?;
    let (constants, at) = count_at(s, at, MOST_CONSTANTS)?;
    let (count, at) = count_at(s, at, MOST_PREDICATES)?;
    let (arities, at) = several(at, count, 0, |at| count_at(s, at, MOST_ARGUMENTS))?;
    let (input, at) = count_at(s, at, MOST_INPUT)?;
    let (_, at) = clauses_at(s, at, input, arities.as_slice(), table)?;
    let (steps, at) = step_count_at(s, at)?;
    let header = Header {
        version,
        constants,
        arities,
        input,
        steps,
    };
    Ok((header, at))
}

// What stands before the first step, and the place there. The clauses are judged and not kept.
pub fn read_header(s: &[u8]) -> Read<Header>
    ensures { read result ≡ kept (header s.now 0) }
{
    header_at(s, &mut [])
}

// The input clauses in the table that has room for the learned ones; blank where the file is refused before the first step.
pub fn read_clauses(s: &[u8]) -> [Clause; MOST_CLAUSES]
    ensures { result ≡ packed_table (input_of (header s.now 0)) }
{
    let mut clauses = [no_clause(); MOST_CLAUSES];
    if header_at(s, &mut clauses).is_err() {
        return [no_clause(); MOST_CLAUSES];
    }
    clauses
}
