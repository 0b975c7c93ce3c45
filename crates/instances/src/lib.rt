// Ground instances of a clause's literals, and which numbers name something of a clause.
#![tactic(auto)]

ghost use Rattle.std.specs.Prelude.{◌≡◌, ◌&&◌, not, ◌-◌, ◌≤◌, eqb, get_or};
ghost use Rattle.basis.specs.Limits.{most_variables, most_literals};
ghost use Rattle.lists.specs.Arrays.{exactly};
ghost use Rattle.lists.specs.Lists.{all_of, any_of};
ghost use Rattle.calculus.specs.Checks.{between};
ghost use Rattle.calculus.specs.Clauses.{no_literal, same_literal};
ghost use Rattle.calculus.specs.Clauses as calculus;
ghost use Rattle.calculus.specs.Tests.{literal_exists, instance_fits};
ghost use Rattle.calculus.specs.Rules.{literal_instance, decided_literal, other_instances};
ghost use Rattle.clauses.specs.Records.{clause_of, instanced_of};
ghost use Rattle.instances.specs.Listed.{Listed};

use basis::{Literal, MOST_LITERALS, MOST_VARIABLES};
use clauses::{Clause, Instanced, ground, no_literal};
use lists::Held;

// Ground literals, blank past their count
pub type Instances = Held<Literal, MOST_LITERALS>;

// ---- which numbers name something

// Where a number stands, from 0
pub fn index_of(l: u8) -> usize
    ensures { result ≡ l - 1 }
{
    usize::from(l).saturating_sub(1)
}

pub fn literal_exists(c: Clause, l: u8) -> bool
    ensures { result ≡ literal_exists (clause_of c) l }
{
    1 <= l && usize::from(l) <= c.literals().len()
}

fn each_between(given: &[u8], constants: u8) -> bool
    ensures { result ≡ all_of (between 1 constants) given.now }
{
    given.iter().all(|x| 1 <= *x && *x <= constants)
}

// A constant for each variable, each among the constants
pub fn instance_fits(constants: u8, c: Clause, instance: &[u8]) -> bool
    ensures { result ≡ instance_fits constants (clause_of c) instance.now }
{
    instance.len() == usize::from(c.variables) && each_between(instance, constants)
}

// Two different literals of the conflict
pub fn two_literals(n: Instanced, i: u8, j: u8) -> bool
    ensures { result ≡ (literal_exists (instanced_of n).clause i && (literal_exists (instanced_of n).clause j && not (eqb i j))) }
{
    literal_exists(n.clause, i) && literal_exists(n.clause, j) && i != j
}

// ---- constants

// The first constants of an instance, as many as there is room for, and blanks where it has fewer
pub fn first_constants(instance: &[u8]) -> [u8; MOST_VARIABLES]
    ensures { result ≡ exactly most_variables 0 instance.now }
{
    let n = instance.len().min(MOST_VARIABLES);
    let mut constants = [0; MOST_VARIABLES];
    constants[..n].copy_from_slice(&instance[..n]);
    constants
}

// ---- one literal's instance

// The instance of the literal with number l; that of the blank one where there is no such literal
pub fn literal_instance(c: Clause, l: u8, instance: &[u8]) -> Literal
    ensures { result ≡ calculus.ground instance.now (get_or (clause_of c).literals (l - 1) no_literal) }
{
    let literal = c
        .literals()
        .get(index_of(l))
        .copied()
        .unwrap_or(no_literal());
    ground(literal, instance)
}

// "The atom of the literal, with the sign given"
pub fn decided_literal(c: Clause, l: u8, positive: bool, instance: &[u8]) -> Literal
    ensures { result ≡ decided_literal (clause_of c) (l - 1) positive instance.now }
{
    Literal {
        positive,
        ..literal_instance(c, l, instance)
    }
}

// The instance of the conflict's literal l
pub fn conflict_instance(n: Instanced, l: u8) -> Literal
    ensures { result ≡ literal_instance (instanced_of n) l }
{
    literal_instance(n.clause, l, n.constants())
}

// ---- the instances of the conflict's literals

// Whether two literals of the conflict have the same instance
pub fn same_instance(n: Instanced, i: u8, j: u8) -> bool
    ensures { result ≡ same_literal (literal_instance (instanced_of n) i) (literal_instance (instanced_of n) j) }
{
    conflict_instance(n, i) == conflict_instance(n, j)
}

// Whether g is the instance of a literal of the conflict
pub fn has_instance(n: Instanced, g: Literal) -> bool
    ensures { result ≡ any_of (λ k. same_literal g (calculus.ground (instanced_of n).instance k)) (instanced_of n).clause.literals }
{
    let constants = n.constants();
    n.clause
        .literals()
        .iter()
        .any(|k| g == ground(*k, constants))
}

// The instances of the conflict's literals but the one with number l: D
pub fn other_instances(n: Instanced, l: u8) -> Instances
    ensures { Listed result (other_instances (instanced_of n) l) }
{
    let i = index_of(l);
    let literals = n.clause.literals();
    let constants = n.constants();
    let mut others = Held::new(no_literal());
    for (j, k) in literals.iter().enumerate() {
        if j != i {
            others.push(ground(*k, constants));
        }
    }
    others
}

// Whether g is among the ground literals
fn among(literals: &[Literal], g: Literal) -> bool
    ensures { result ≡ any_of (same_literal g) literals.now }
{
    literals.iter().any(|m| g == *m)
}

// Whether L's instance is again in D
pub fn again(n: Instanced, l: u8) -> bool
    ensures { result ≡ any_of (same_literal (literal_instance (instanced_of n) l)) (other_instances (instanced_of n) l) }
{
    among(other_instances(n, l).as_slice(), conflict_instance(n, l))
}
