// The formula of conditions.
ghost use Rattle.std.specs.Prelude.{◌≡◌, ◌++◌, ◌+◌, ◌≤◌, ◌^◌, [], ◌∷◌, All, map, flat_map, IfOk, IfSome, OnOk};
ghost use Rattle.refute_check.specs.Clauses.{variable_of};
ghost use Rattle.bv_terms.specs.declared.words.Word.TheVariants.{Term as Numbered};
ghost use Rattle.bv_terms.specs.Graphs.{Holds};
ghost use Rattle.bit_blast.specs.Gates.{true_wire, negation as negation_of, clauses_from};
ghost use Rattle.bit_blast.specs.Blocks.{Builds};
ghost use Rattle.bit_blast.specs.Formulas.{decisions, build_first as build_first_of, condition_clauses, variables_from, formula};
ghost use Rattle.bit_blast.specs.GraphConditions.{term_at, conditions_of, first_of};
ghost use Rattle.bit_blast.specs.code.Tasks.{known_of};

use crate::blocks::sames;
use crate::gates::distinct;
use crate::netlist::Netlist;
use crate::order::{Order, terms_in_order};
use crate::terms::{Symbols, build_terms, wires_of};
use crate::wires::{TRUE, Wires, backwards, negation};
use bv_terms::{Cond, Graph, TermId};
use refute_check::{Clause, Cnf, Items};
use std::alloc::{AllocError, Global};

/// The clauses of conditions on a graph's terms, over symbols of these widths (true is 64 bits), and the order in which a
/// solver decides their variables: the bits of `first` come first in it, so that the least model has its least value.
///
/// Variable 1 is true. Then come the symbols' bits, symbol 0 first, each from the highest bit down; then the gates of the
/// terms. Time and memory are linear in the number of gates and terms. More than 2^63 variables count as want of memory.
pub fn clauses(
    alloc: Global,
    g: &Graph,
    conds: &[Cond],
    draws: &[bool],
    first: Option<TermId>,
) -> Result<Cnf, AllocError>
    requires conditions { All (λ cond. Holds g.now (Numbered cond.term)) conds.now }
    requires first { IfSome first (λ t. Holds g.now (Numbered t)) }
    ensures { IfOk result (λ cnf. cnf ≡ formula (conditions_of g.now conds.now) draws.now (first_of g.now first)) }
{
    let order = terms_in_order(alloc, g, conds, first)?;
    let symbols = Symbols::new(alloc, draws)?;
    let mut netlist = Netlist::new(alloc, symbols.end);
    let wires = build_terms(g, draws, &symbols, &order, &mut netlist)?;
    let least = build_first(g, &order, wires.as_slice(), first, &mut netlist)?;
    let said = say_all(alloc, g, &order, wires.as_slice(), conds, &netlist)?;
    let decided = decision_order(alloc, &netlist, least.as_slice())?;
    Ok(Cnf {
        vars: netlist.next().saturating_sub(1),
        clauses: said,
        order: decided,
    })
}

/// The wires of what is to be least, each by a gate of its own, the highest first.
fn build_first(
    g: &Graph,
    order: &Order,
    wires: &[Wires],
    first: Option<TermId>,
    netlist: &mut Netlist,
) -> Result<Wires, AllocError>
    requires first { IfSome first (λ t. Holds g.now (Numbered t)) }
    requires order { All (λ t. Holds g.now (Numbered t)) order.now }
    ensures { IfOk result (λ least. Builds (build_first_of (known_of g.now order.now wires.now) (first_of g.now first)) netlist.old least netlist.new) }
{
    match first {
        Some(t) => {
            let downwards = backwards(netlist.alloc(), wires_of(g, order, wires, t))?;
            sames(netlist, downwards.as_slice())
        }
        None => Ok(Items::new(Vec::new(netlist.alloc()))),
    }
}

/// A clause of one literal comes after the others.
fn say_one(alloc: Global, clauses: &mut Items<Clause>, literal: u64) -> Result<(), AllocError>
    ensures { OnOk result (clauses.new ≡ clauses.old ++ (literal ∷ []) ∷ []) }
{
    let mut clause = Items::new(Vec::new(alloc));
    clause.push(literal)?;
    clauses.push(clause)
}

/// One clause for each wire: that it is false.
fn say_none(alloc: Global, clauses: &mut Items<Clause>, wires: &[u64]) -> Result<(), AllocError>
    ensures { OnOk result (clauses.new ≡ clauses.old ++ map (λ wire. negation_of wire ∷ []) wires.now) }
{
    for wire in wires {
        say_one(alloc, clauses, negation(*wire))?;
    }
    Ok(())
}

/// The clauses of a condition come after the others.
fn say_condition(
    alloc: Global,
    g: &Graph,
    order: &Order,
    wires: &[Wires],
    cond: &Cond,
    clauses: &mut Items<Clause>,
) -> Result<(), AllocError>
    requires condition { Holds g.now (Numbered cond.now.term) }
    requires order { All (λ t. Holds g.now (Numbered t)) order.now }
    ensures { OnOk result (clauses.new ≡ clauses.old ++ condition_clauses (known_of g.now order.now wires.now) (term_at g.now cond.now.term, cond.now.answer)) }
{
    let bits = wires_of(g, order, wires, cond.term);
    if cond.answer {
        let clause = distinct(alloc, bits)?;
        clauses.push(clause)
    } else {
        say_none(alloc, clauses, bits)
    }
}

/// All clauses: that variable 1 is true, those of the gates, and those of the conditions.
fn say_all(
    alloc: Global,
    g: &Graph,
    order: &Order,
    wires: &[Wires],
    conds: &[Cond],
    netlist: &Netlist,
) -> Result<Items<Clause>, AllocError>
    requires conditions { All (λ cond. Holds g.now (Numbered cond.term)) conds.now }
    requires order { All (λ t. Holds g.now (Numbered t)) order.now }
    ensures { IfOk result (λ clauses. clauses ≡ (true_wire ∷ []) ∷ [] ++ clauses_from netlist.now.first netlist.now.gates
        ++ flat_map (condition_clauses (known_of g.now order.now wires.now)) (conditions_of g.now conds.now)) }
{
    let mut clauses = Items::new(Vec::new(alloc));
    say_one(alloc, &mut clauses, TRUE)?;
    netlist.say(&mut clauses)?;
    for cond in conds {
        say_condition(alloc, g, order, wires, cond, &mut clauses)?;
    }
    Ok(clauses)
}

/// So many variables, from one on, come after the others.
fn put_variables(order: &mut Items<u64>, from: u64, count: u64) -> Result<(), AllocError>
    requires { from + count ≤ 2 ^ 63 }
    ensures { OnOk result (order.new ≡ order.old ++ variables_from from count) }
{
    for i in 0..count {
        order.push(from + i)?;
    }
    Ok(())
}

/// The variables of wires.
fn variables_of(alloc: Global, wires: &[u64]) -> Result<Items<u64>, AllocError>
    ensures { IfOk result (λ list. list ≡ map variable_of wires.now) }
{
    let items = wires.iter().map(|wire| *wire / 2).collect(alloc)?;
    Ok(Items::new(items))
}

/// The variables in the order in which they are decided: those of the wires that are to be least, the symbols' bits, and the
/// others upwards.
fn decision_order(alloc: Global, netlist: &Netlist, least: &[u64]) -> Result<Items<u64>, AllocError>
    ensures { IfOk result (λ order. order ≡ decisions netlist.now least.now) }
{
    let mut order = variables_of(alloc, least)?;
    let first = netlist.first();
    put_variables(&mut order, 2, first.saturating_sub(2))?;
    put_variables(&mut order, 1, 1)?;
    let others = (netlist.len() as u64).saturating_sub(least.len() as u64);
    put_variables(&mut order, first, others)?;
    Ok(order)
}
