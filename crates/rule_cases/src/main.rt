// Runs merging and the front door on records that no run file says: counts above the limits, slots past a count or an arity, clauses that
// admission refuses or that lie outside the class, reasons by themselves, unknown rules, instances that are too long. Standard output has for
// each its name and what came of it; what a file says is among the packed files of `file_cases`.
// Standard input has the cases of `checker/cases/records.txt`, as the checker packs them: each has the same width, and in it everything has
// its place, given below. A clause is its three counts, so many atoms and so many literals, and an instance; an atom is p, q, a sign (1 is
// minus) and c in three bytes; a literal is a sign (1 is plus), a predicate and three arguments; a step is its seven numbers, an instance, how many
// atoms it brings, and two of them, each a clause, an atom number, a sign and the count and constants of an instance.
#![tactic(auto)]

ghost use Rattle.std.specs.Prelude.{◌≡◌, ◌<◌, ◌≤◌, length};
ghost use Rattle.inspection.specs.Writing.{most_state};
ghost use Rattle.state.specs.States.{Made};

use asking::{Source, Step};
use basis::{
    Atom, Literal, MOST_ATOMS, MOST_BROUGHT, MOST_LITERALS, MOST_PREDICATES, MOST_VARIABLES,
    Version,
};
use clauses::{Clause, Instanced, no_atom, no_instanced, no_literal};
use inspection::{MOST_STATE, put_conflict, put_state};
use state::{State, admit};
use std::array;
use streams::read_full;

// Cases are read no further.
const MOST_READ: usize = 65536;

// ---- places in a case; its name stands first

const NAME_LENGTH: usize = 24;

const KIND: usize = 25;

// The literals that a merging names
const LITERAL: usize = 26;

// Constants, predicates and clauses
const COUNTS: usize = 28;

// Where the first clause stands in the table, from 0 on; the second stands in every other place
const PLACE: usize = 31;

const STEP_COUNT: usize = 32;

const ARITIES: usize = 33;

// 2 is version 2, any other number version 1
const VERSION: usize = 41;

const FIRST: usize = 42;

const SECOND: usize = 123;

const STEPS: usize = 204;

// Ten steps at most
const CASE: usize = 724;

// The room for as many predicates and clauses as a case can count
const MOST_COUNTED: usize = u8::MAX as usize;

// ---- places in a clause, and how many atoms and literals stand there

const ATOMS: usize = 3;

const LITERALS: usize = 39;

const INSTANCE: usize = 69;

const SLOTS: usize = 6;

// ---- places in a step

const BROUGHT: usize = 19;

// The first atom that it brings; the second stands in every other slot
const SOURCE: usize = 20;

const OTHER_SOURCE: usize = 36;

// ---- widths

const ATOM: usize = 6;

const ONE_LITERAL: usize = 5;

const STEP: usize = 52;

// ---- what is done; any other number is a run

const REASON: u8 = 1;

const RESOLVENT: u8 = 4;

const FACTORED: u8 = 5;

// ---- records

// The byte so far past a place, or 0 past the end
fn byte(s: &[u8], at: usize, past: usize) -> u8 {
    let rest = s.get(at..).unwrap_or(&[]);
    rest.get(past).copied().unwrap_or(0)
}

// The number c of an atom: a sign, and three bytes, the lowest first
fn constant(sign: u8, low: u8, middle: u8, high: u8) -> i32 {
    let size = i32::from(low) + 256 * i32::from(middle) + 65536 * i32::from(high);
    if sign == 1 { -size } else { size }
}

fn atom_at(s: &[u8], at: usize) -> Atom {
    let c = constant(
        byte(s, at, 2),
        byte(s, at, 3),
        byte(s, at, 4),
        byte(s, at, 5),
    );
    Atom {
        p: byte(s, at, 0),
        q: byte(s, at, 1),
        c,
    }
}

fn literal_at(s: &[u8], at: usize) -> Literal {
    Literal {
        positive: byte(s, at, 0) == 1,
        predicate: byte(s, at, 1),
        x: byte(s, at, 2),
        y: byte(s, at, 3),
        z: byte(s, at, 4),
    }
}

// Blank past the atoms and literals that a case has
fn clause_at(s: &[u8], at: usize) -> Clause
    requires { at < 1000 }
{
    let mut atoms = [no_atom(); MOST_ATOMS];
    let mut literals = [no_literal(); MOST_LITERALS];
    for k in 0..SLOTS {
        atoms[k] = atom_at(s, at + ATOMS + ATOM * k);
        literals[k] = literal_at(s, at + LITERALS + ONE_LITERAL * k);
    }
    Clause {
        variables: byte(s, at, 0),
        atomcount: byte(s, at, 1),
        literalcount: byte(s, at, 2),
        atoms,
        literals,
    }
}

fn instance_at(s: &[u8], at: usize) -> [u8; MOST_VARIABLES] {
    array::from_fn(|k| byte(s, at, k))
}

// The arities that a case has, and 0 for predicates past them
fn arities_of(s: &[u8]) -> [u8; MOST_COUNTED] {
    let mut list = [0; MOST_COUNTED];
    for k in 0..MOST_PREDICATES {
        list[k] = byte(s, ARITIES, k);
    }
    list
}

fn instanced_at(s: &[u8], at: usize) -> Instanced
    requires { at < 1000 }
{
    Instanced {
        clause: clause_at(s, at),
        instance: instance_at(s, at + INSTANCE),
    }
}

fn source_at(s: &[u8], at: usize) -> Source
    requires { at < 100000 }
{
    Source {
        clause: byte(s, at, 0),
        number: byte(s, at, 1),
        sign: byte(s, at, 2),
        count: byte(s, at, 3),
        instance: instance_at(s, at + 4),
    }
}

// Step number k, from 0 on
fn step_at(s: &[u8], k: usize) -> Step
    requires { k < 256 }
{
    let at = STEPS + STEP * k;
    let mut atoms = [source_at(s, at + OTHER_SOURCE); MOST_BROUGHT];
    atoms[0] = source_at(s, at + SOURCE);
    Step {
        rule: byte(s, at, 0),
        clause: byte(s, at, 1),
        literal: byte(s, at, 2),
        other: byte(s, at, 3),
        sign: byte(s, at, 4),
        amount: byte(s, at, 5),
        count: byte(s, at, 6),
        brought: byte(s, at, BROUGHT),
        instance: instance_at(s, at + 7),
        atoms,
    }
}

// One clause at its place, and another in every other place
fn table_of(s: &[u8]) -> [Clause; MOST_COUNTED] {
    let k = usize::from(byte(s, PLACE, 0));
    let one = clause_at(s, FIRST);
    let other = clause_at(s, SECOND);
    let mut table = [other; MOST_COUNTED];
    if k < MOST_COUNTED {
        table[k] = one;
    }
    table
}

// ---- writing

// Room for the text of any state
fn room() -> [u8; MOST_STATE]
    ensures { most_state ≡ length result }
{
    [0; MOST_STATE]
}

fn print_state(rt: HostRuntime, state: State)
    requires { Made state }
{
    let mut out = room();
    let end = put_state(&mut out, 0, state.run(), state.table());
    let _ = rt.write_all(&out[..end]);
}

// A clause with its instance, as a state's conflict is printed
fn print_merged(rt: HostRuntime, merged: Option<Instanced>) {
    let mut out = room();
    let end = put_conflict(
        &mut out,
        0,
        merged.is_some(),
        merged.unwrap_or(no_instanced()),
    );
    let _ = rt.write_all(&out[..end]);
}

// "number place" and the end of the line
fn print_answer(rt: HostRuntime, number: u8, place: u8) {
    let _ = println!(rt; "{number} {place}");
}

// The name and a space
fn print_name(rt: HostRuntime, s: &[u8]) {
    let n = usize::from(byte(s, NAME_LENGTH, 0)).min(s.len());
    let _ = rt.write_all(&s[..n]);
    let _ = rt.write_all(b" ");
}

// ---- merging; literals are numbered from 0

// The reason of a literal, and where that literal then stands
fn reason(rt: HostRuntime, s: &[u8]) {
    let i = byte(s, LITERAL, 0) as usize;
    let reason = merging::reason_of(&instanced_at(s, FIRST), i);
    print_merged(rt, Some(reason.of));
    let own = reason.own;
    let _ = print!(rt; " {own}");
}

fn resolve(rt: HostRuntime, s: &[u8]) {
    let j = byte(s, LITERAL, 0) as usize;
    let i = byte(s, LITERAL, 1) as usize;
    let n = instanced_at(s, FIRST);
    let r = instanced_at(s, SECOND);
    print_merged(rt, merging::resolve(&n, j, &r, i));
}

fn factorize(rt: HostRuntime, s: &[u8]) {
    let i = byte(s, LITERAL, 0) as usize;
    let j = byte(s, LITERAL, 1) as usize;
    let n = instanced_at(s, FIRST);
    print_merged(rt, merging::factorize(&n, i, j));
}

// ---- the front door

fn version_of(n: u8) -> Version {
    if n == 2 { Version::Two } else { Version::One }
}

// What admission makes of the clauses
fn admitted(rt: HostRuntime, s: &[u8]) -> State
    ensures { Made result }
{
    let constants = byte(s, COUNTS, 0);
    let predicates = usize::from(byte(s, COUNTS, 1));
    let count = usize::from(byte(s, COUNTS, 2));
    let arities = arities_of(s);
    let table = table_of(s);
    let version = version_of(byte(s, VERSION, 0));
    let opened = admit(version, constants, &arities[..predicates], &table[..count]);
    print_answer(rt, opened.number, opened.place);
    opened.state
}

// A step tried: what it is answered, and the state that it hands back
fn tried(rt: HostRuntime, state: State, x: Step) -> State
    requires { Made state }
    ensures { Made result }
{
    let answer = state.step(x);
    let _ = rt.write_all(b"step ");
    print_answer(rt, answer.number, answer.place);
    print_state(rt, answer.state);
    answer.state
}

// The state after each step; without steps that of admission
fn run(rt: HostRuntime, s: &[u8]) {
    let n = usize::from(byte(s, STEP_COUNT, 0));
    let mut state = admitted(rt, s);
    if n == 0 {
        print_state(rt, state);
    }
    for k in 0..n {
        state = tried(rt, state, step_at(s, k));
    }
}

// ---- cases

fn print_case(rt: HostRuntime, s: &[u8]) {
    print_name(rt, s);
    match byte(s, KIND, 0) {
        REASON => reason(rt, s),
        RESOLVENT => resolve(rt, s),
        FACTORED => factorize(rt, s),
        _ => return run(rt, s),
    }
    let _ = rt.write_all(b"\n");
}

fn main(rt: HostRuntime) {
    let mut cases = [0u8; MOST_READ];
    let n = read_full(&mut rt.stdin(), &mut cases).unwrap_or_else(|n| n);
    for case in cases[..n].chunks_exact(CASE) {
        print_case(rt, case);
    }
}
