// A state as text for reviewers, written into a lent buffer. Each function writes from a place on and answers the place after what it wrote;
// the caller sees to the room.
#![tactic(auto)]

ghost use Rattle.std.specs.Prelude.{◌≡◌, ◌+◌, ◌≤◌, ◌<◌, length, take};
ghost use Rattle.basis.specs.Limits.{most_constants};
ghost use Rattle.trail.specs.Entries.{entry_of};
ghost use Rattle.rules.specs.Records.{conflict_said};
ghost use Rattle.clausetext.specs.Room.{Put};
ghost use Rattle.inspection.specs.StateText.{source_text, step_text, entry_text, first_line, conflict_text, conflict_line};
ghost use Rattle.inspection.specs.NumbersText.{listed_number, most_listed_number, most_numbers_line, numbers_line};
ghost use Rattle.inspection.specs.Writing.{most_rule, most_source, most_step, most_entry, most_entry_line, most_clause_line, most_first_line, most_conflict, most_conflict_line, most_state, entry_line_of, clause_line_of, Beside, PutsState};

use basis::MOST_CLAUSES;
use clauses::{Clause, Instanced};
use clausetext::{put_atom, put_clause, put_each, put_literal, put_number, put_small, put_tuple};
use rules::Run;
use slices::prefix;
use text::{put_byte, put_signed, put_word};
use trail::{Entry, Kind};

// No state's text has more bytes.
pub const MOST_STATE: usize = 82550;

// ---- the trail

// The step that a foreground entry keeps, after its rule's name
fn put_step(out: &mut [u8], at: usize, name: &[u8], e: Entry) -> usize
    requires { (length name.now ≤ most_rule) × (at + most_step ≤ length out.old) }
    ensures { Put most_step out.old at (step_text name.now e.clause e.number (take e.count e.instance)) out.new result }
{
    let rule = put_word(out, at, name);
    let clause = put_number(out, rule, e.clause);
    let first = put_byte(out, clause, b' ');
    let literal = put_number(out, first, e.number);
    let second = put_byte(out, literal, b' ');
    put_tuple(out, second, prefix(&e.instance, usize::from(e.count)))
}

// The source that a brought atom's entry keeps
fn put_source(out: &mut [u8], at: usize, e: Entry) -> usize
    requires { at + most_source ≤ length out.old }
    ensures { Put most_source out.old at (source_text (record { clause = e.clause; number = e.number; sign = e.sign; instance = take e.count e.instance })) out.new result }
{
    let word = put_word(out, at, b" brought ");
    let clause = put_number(out, word, e.clause);
    let first = put_byte(out, clause, b' ');
    let number = put_number(out, first, e.number);
    let second = put_byte(out, number, b' ');
    let sign = put_number(out, second, e.sign);
    let third = put_byte(out, sign, b' ');
    put_tuple(out, third, prefix(&e.instance, usize::from(e.count)))
}

fn put_entry(out: &mut [u8], at: usize, e: Entry) -> usize
    requires { at + most_entry ≤ length out.old }
    ensures { Put most_entry out.old at (entry_text (entry_of e)) out.new result }
{
    match e.kind {
        Kind::Background => put_atom(out, at, e.atom),
        Kind::Brought => {
            let next = put_atom(out, at, e.atom);
            put_source(out, next, e)
        }
        Kind::Propagated => {
            let next = put_literal(out, at, e.literal);
            put_step(out, next, b" propagate ", e)
        }
        Kind::Decided => {
            let next = put_literal(out, at, e.literal);
            put_step(out, next, b" decide ", e)
        }
    }
}

// The line of the entry that j others come before
fn put_entry_line(out: &mut [u8], at: usize, j: usize, e: Entry) -> usize
    requires { (j + 1 < 1000) × (at + most_entry_line ≤ length out.old) }
    ensures { Put most_entry_line out.old at (entry_line_of j e) out.new result }
{
    let word = put_word(out, at, b"trail ");
    let number = put_small(out, word, j + 1);
    let space = put_byte(out, number, b' ');
    let entry = put_entry(out, space, e);
    put_byte(out, entry, b'\n')
}

// ---- clauses

// The line of the clause that j others come before
fn put_clause_line(out: &mut [u8], at: usize, j: usize, c: Clause) -> usize
    requires { (j + 1 < 1000) × (at + most_clause_line ≤ length out.old) }
    ensures { Put most_clause_line out.old at (clause_line_of j c) out.new result }
{
    let word = put_word(out, at, b"clause ");
    let number = put_small(out, word, j + 1);
    let space = put_byte(out, number, b' ');
    let clause = put_clause(out, space, c);
    put_byte(out, clause, b'\n')
}

// ---- the state

fn put_first_line(out: &mut [u8], at: usize, constants: u8, level: u8) -> usize
    requires { at + most_first_line ≤ length out.old }
    ensures { Put most_first_line out.old at (first_line constants level) out.new result }
{
    let first = put_word(out, at, b"constants ");
    let number = put_number(out, first, constants);
    let second = put_word(out, number, b" level ");
    let k = put_number(out, second, level);
    put_byte(out, k, b'\n')
}

// A conflict where one stands: the clause with its instance. Two parameters and no Option: a run has the two (`Run.stands`), and the promise is of
// any pair of them (`conflict_said`).
pub fn put_conflict(out: &mut [u8], at: usize, stands: bool, n: Instanced) -> usize
    requires { at + most_conflict ≤ length out.old }
    ensures { Put most_conflict out.old at (conflict_text (conflict_said stands n)) out.new result }
{
    if stands {
        let clause = put_clause(out, at, n.clause);
        let word = put_word(out, clause, b" at ");
        put_tuple(out, word, n.constants())
    } else {
        put_word(out, at, b"none")
    }
}

fn put_conflict_line(out: &mut [u8], at: usize, stands: bool, n: Instanced) -> usize
    requires { at + most_conflict_line ≤ length out.old }
    ensures { Put most_conflict_line out.old at (conflict_line (conflict_said stands n)) out.new result }
{
    let word = put_word(out, at, b"conflict ");
    let conflict = put_conflict(out, word, stands, n);
    put_byte(out, conflict, b'\n')
}

// The text of a state, of its run and the table of its clauses
pub fn put_state(out: &mut [u8], at: usize, run: Run, table: [Clause; MOST_CLAUSES]) -> usize
    requires { (at + most_state ≤ length out.old) × Beside run table }
    ensures { PutsState run table out.old at out.new result }
{
    let first = put_first_line(out, at, run.constants, run.level);
    let entries = prefix(&run.trail, usize::from(run.length));
    let trail = put_each(out, first, entries, put_entry_line);
    let count = usize::from(run.input) + usize::from(run.learned);
    let clauses = put_each(out, trail, prefix(&table, count), put_clause_line);
    put_conflict_line(out, clauses, run.stands, run.conflict)
}

// ---- numbers

fn put_listed_number(out: &mut [u8], at: usize, _: usize, n: i32) -> usize
    requires { at + most_listed_number ≤ length out.old }
    ensures { Put most_listed_number out.old at (listed_number 0 n) out.new result }
{
    let number = put_byte(out, at, b' ');
    put_signed(out, number, n)
}

// The line of the numbers behind a yes, one for each constant
pub fn put_numbers(out: &mut [u8], at: usize, numbers: &[i32]) -> usize
    requires { (length numbers.now ≤ most_constants) × (at + most_numbers_line ≤ length out.old) }
    ensures { Put most_numbers_line out.old at (numbers_line numbers.now) out.new result }
{
    let word = put_word(out, at, b"numbers");
    let next = put_each(out, word, numbers, put_listed_number);
    put_byte(out, next, b'\n')
}
