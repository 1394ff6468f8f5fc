// The terms of conditions in order: each once, after its operands.
ghost use Rattle.std.specs.Prelude.{◌≡◌, ◌<◌, All, [], length, slice_get, Some, IfOk, IfSome, OnOk};
ghost use Rattle.bv_terms.specs.declared.words.Word.TheVariants.{Term as Numbered};
ghost use Rattle.bv_terms.specs.Graphs.{Holds};
ghost use Rattle.bit_blast.specs.declared.tasks.Task.TheVariants.{Visit};
ghost use Rattle.bit_blast.specs.Formulas.{with_terms, terms_in_order as terms_in_order_of};
ghost use Rattle.bit_blast.specs.GraphConditions.{term_at, terms_at, conditions_of, first_of};
ghost use Rattle.bit_blast.specs.code.Tasks.{place_of, with_number, AreDistinct, HoldsTask, CarriesOut};

use crate::tasks::{Task, Tasks};
use bv_terms::{Cond, Graph, TermId};
use std::alloc::{AllocError, Global};
use std::collections::HashMap;
use std::marker::Model;

/// Terms in order, each once. Contracts see it as the list of their numbers.
#[derive(Drop)]
pub struct Order {
    terms: Vec<TermId>,
    places: HashMap<TermId, u64>,
}

impl Model for Order {
    ghost use Rattle.std.specs.Prelude.{ℕ, List};
    ghost use Rattle.bit_blast.specs.code.Tasks.{IsPlaced};

    ghost Value = { List ℕ };

    ghost view = { λ o. o.terms.items };

    ghost invariant = { λ o. IsPlaced o.terms.items o.places };
}

impl Order {
    /// No terms.
    pub fn new(alloc: Global) -> Order
        ensures { result ≡ [] }
    {
        Order {
            terms: Vec::new(alloc),
            places: HashMap::new(alloc),
        }
    }

    /// How many there are.
    pub fn len(&self) -> usize
        ensures { result ≡ length self.now }
    {
        self.terms.len()
    }

    /// The term at a place.
    pub fn get(&self, i: usize) -> TermId
        requires { i < length self.now }
        ensures { slice_get self.now i ≡ Some result }
    {
        self.terms[i]
    }

    /// The place of a term, where it is there.
    pub fn place(&self, t: TermId) -> Option<u64>
        ensures place { result ≡ place_of self.now t }
        ensures once { AreDistinct self.now }
    {
        self.places.get(&t).copied()
    }

    /// Puts a term at the end, where it isn't there yet.
    pub fn put(&mut self, t: TermId) -> Result<(), AllocError>
        ensures { OnOk result (self.new ≡ with_number self.old t) }
    {
        if self.place(t).is_some() {
            return Ok(());
        }
        let place = self.terms.len() as u64;
        self.terms.push(t)?;
        if self.places.insert(t, place).is_err() {
            self.terms.pop();
            return Err(AllocError);
        }
        Ok(())
    }
}

/// The terms of conditions in order, and then those of what is to be least: each once, after its operands, from left to right.
pub fn terms_in_order(
    alloc: Global,
    g: &Graph,
    conds: &[Cond],
    first: Option<TermId>,
) -> Result<Order, AllocError>
    requires conditions { All (λ cond. Holds g.now (Numbered cond.term)) conds.now }
    requires first { IfSome first (λ t. Holds g.now (Numbered t)) }
    ensures order { IfOk result (λ order. terms_at g.now order ≡ terms_in_order_of (conditions_of g.now conds.now) (first_of g.now first)) }
    ensures held { IfOk result (λ order. All (λ t. Holds g.now (Numbered t)) order) }
{
    let mut order = Order::new(alloc);
    for cond in conds {
        put_term(alloc, g, cond.term, &mut order)?;
    }
    match first {
        Some(t) => put_term(alloc, g, t, &mut order)?,
        None => {}
    }
    Ok(order)
}

/// Carries out one task; others may come in its place.
fn carry_out(g: &Graph, task: Task, tasks: &mut Tasks, order: &mut Order) -> Result<(), AllocError>
    requires task { HoldsTask g.now task }
    requires tasks { All (HoldsTask g.now) tasks.old }
    requires order { All (λ t. Holds g.now (Numbered t)) order.old }
    ensures { OnOk result (CarriesOut g.now task tasks.old order.old tasks.new order.new) }
{
    let _terms = g.terms();
    match task {
        Task::Put(t) => {
            order.put(t)?;
            Ok(())
        }
        Task::Visit(t) => {
            let form = g.form(t);
            if order.place(t).is_some() {
                return Ok(());
            }
            tasks.push(Task::Put(t))?;
            tasks.visit_operands(form)?;
            Ok(())
        }
    }
}

/// Puts the terms below a term, and then it, where they aren't there yet: each after its operands, from left to right.
///
/// It goes down by a list of tasks. Each term below is looked at once for each of its uses, and once more.
pub fn put_term(alloc: Global, g: &Graph, t: TermId, order: &mut Order) -> Result<(), AllocError>
    requires held { Holds g.now (Numbered t) }
    requires order { All (λ t. Holds g.now (Numbered t)) order.old }
    ensures order { OnOk result (terms_at g.now order.new ≡ with_terms (term_at g.now t) (terms_at g.now order.old)) }
    ensures held { OnOk result (All (λ t. Holds g.now (Numbered t)) order.new) }
{
    let mut tasks = Tasks::new(alloc);
    tasks.push(Task::Visit(t))?;
    while let Some(task) = tasks.pop() {
        carry_out(g, task, &mut tasks, order)?;
    }
    Ok(())
}
