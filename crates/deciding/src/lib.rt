// Decide weighed: its refusal, if it is refused, and what it appends where it is not.
#![tactic(auto)]

ghost use Rattle.deciding.specs.Weighing.{Offered, WeighsAll};

use asking::{
    Looked, Named, Step, count_brought, counts_few, first_brought, first_lacking, literal_named,
    signs_fit,
};
use basis::{MOST_ENTRIES, MOST_VARIABLES, Numbers, Refusal, Version};
use instances::decided_literal;
use testing::decision_seen;
use trail::{Entry, decided_entry};

// What a Decide comes to: its refusal, if it is refused, the decision's entry, the atoms that follow it by their count, and the numbers behind the
// yes of the test of them and the trail's. No Result: `WeighsAll` promises the entry, the count and the numbers of a refused Decide too.
#[derive(Clone, Copy)]
pub struct Weighed {
    pub own: Entry,
    pub witness: Option<Numbers>,
    pub refusal: Option<Refusal>,
    pub count: u8,
}

// "2 Decide (clause, literal, sign, instance). No conflict. The atom of the literal, with the sign given, is undefined." From version 2 on it brings
// atoms: they are undefined too, and possible together with the trail's.
pub fn weigh(
    trail: &[Entry],
    constants: u8,
    clauses: u8,
    stands: bool,
    version: Version,
    looked: Looked,
    named: Named,
    x: Step,
) -> Weighed
    requires { Offered trail.now constants clauses stands version looked named x }
    ensures { WeighsAll trail.now constants clauses stands version looked named x result }
{
    let clause = looked.clause;
    let instance = x.constants();
    let positive = x.sign == 1;
    let known = literal_named(constants, clauses, x.clause, clause, x.literal, instance);
    let g = decided_literal(clause, x.literal, positive, instance);
    let brought = count_brought(version, x);
    let n = first_brought(version, x);
    let own = &named.at[..n as usize];
    let seen = decision_seen(trail, constants, g, own);
    let together = seen.witness;
    let lacking = first_lacking(&[
        (x.count as usize <= MOST_VARIABLES, Refusal::AboveLimit),
        (counts_few(x, brought), Refusal::AboveLimit),
        (x.sign <= 1, Refusal::OutOfRange),
        (signs_fit(x, n), Refusal::OutOfRange),
        (!stands, Refusal::WrongMoment),
        (known, Refusal::NoSuch),
        (named.right, Refusal::NoSuch),
        (seen.free, Refusal::AlreadyDefined),
        (seen.fresh, Refusal::AlreadyDefined),
        (together.is_some(), Refusal::NotPossible),
        (trail.len() + (n as usize) < MOST_ENTRIES, Refusal::NoRoom),
    ]);
    Weighed {
        own: decided_entry(g, x.clause, x.literal, positive, instance, n),
        witness: together,
        refusal: lacking.err(),
        count: n,
    }
}
