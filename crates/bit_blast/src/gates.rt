// Gates, and their clauses.
ghost use Rattle.std.specs.Prelude.{◌≡◌, ◌++◌, ◌∷◌, [], ◌<◌, ◌^◌, IfOk, OnOk, if◌then◌else◌};
ghost use Rattle.refute_check.specs.Resolution.{has, each_once};
ghost use Rattle.bit_blast.specs.Gates.{gate_clauses};

use crate::wires::negation;
use refute_check::{Clause, Items};
use std::alloc::{AllocError, Global};

/// A gate over wires. A wire is a variable or its negation, as a literal: 2 v for the variable v, 2 v + 1 for its negation.
#[derive(Clone, Copy)]
pub enum Gate {
    /// Whether both are true.
    And(u64, u64),
    /// Whether exactly one is true.
    Xor(u64, u64),
    /// The second where the first is true, else the third.
    Mux(u64, u64, u64),
    /// Whether at least two are true.
    Maj(u64, u64, u64),
    /// The same.
    Same(u64),
}

fn holds(clause: &[u64], literal: u64) -> bool
    ensures { result ≡ has clause.now literal }
{
    clause.iter().any(|other| *other == literal)
}

fn put_once(clause: &mut Clause, literal: u64) -> Result<(), AllocError>
    ensures { OnOk result (clause.new ≡ (if has clause.old literal then clause.old else clause.old ++ literal ∷ [])) }
{
    if holds(clause.as_slice(), literal) {
        return Ok(());
    }
    clause.push(literal)
}

/// The literals without those that were there before.
pub fn distinct(alloc: Global, literals: &[u64]) -> Result<Clause, AllocError>
    ensures { IfOk result (λ clause. clause ≡ each_once literals.now) }
{
    let mut clause = Items::new(Vec::new(alloc));
    for literal in literals {
        put_once(&mut clause, *literal)?;
    }
    Ok(clause)
}

/// One more clause of these literals.
fn say(alloc: Global, clauses: &mut Items<Clause>, literals: &[u64]) -> Result<(), AllocError>
    ensures { OnOk result (clauses.new ≡ clauses.old ++ each_once literals.now ∷ []) }
{
    let clause = distinct(alloc, literals)?;
    clauses.push(clause)
}

impl Gate {
    /// Its clauses come after the others; its value is in this variable.
    pub fn say(
        self,
        alloc: Global,
        variable: u64,
        clauses: &mut Items<Clause>,
    ) -> Result<(), AllocError>
        requires { variable < 2 ^ 63 }
        ensures { OnOk result (clauses.new ≡ clauses.old ++ gate_clauses variable self) }
    {
        let yes = 2 * variable;
        let no = yes + 1;
        match self {
            Gate::And(a, b) => {
                say(alloc, clauses, &[no, a])?;
                say(alloc, clauses, &[no, b])?;
                say(alloc, clauses, &[yes, negation(a), negation(b)])
            }
            Gate::Xor(a, b) => {
                say(alloc, clauses, &[no, a, b])?;
                say(alloc, clauses, &[no, negation(a), negation(b)])?;
                say(alloc, clauses, &[yes, negation(a), b])?;
                say(alloc, clauses, &[yes, a, negation(b)])
            }
            Gate::Mux(s, a, b) => {
                say(alloc, clauses, &[negation(s), negation(a), yes])?;
                say(alloc, clauses, &[negation(s), a, no])?;
                say(alloc, clauses, &[s, negation(b), yes])?;
                say(alloc, clauses, &[s, b, no])
            }
            Gate::Maj(a, b, c) => {
                say(alloc, clauses, &[negation(a), negation(b), yes])?;
                say(alloc, clauses, &[negation(a), negation(c), yes])?;
                say(alloc, clauses, &[negation(b), negation(c), yes])?;
                say(alloc, clauses, &[a, b, no])?;
                say(alloc, clauses, &[a, c, no])?;
                say(alloc, clauses, &[b, c, no])
            }
            Gate::Same(a) => {
                say(alloc, clauses, &[no, a])?;
                say(alloc, clauses, &[yes, negation(a)])
            }
        }
    }
}
