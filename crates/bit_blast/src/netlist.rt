// Circuits as lists of gates.
ghost use Rattle.std.specs.Prelude.{◌≡◌, ◌++◌, ◌+◌, ◌≤◌, ◌^◌, [], length, reverse, IfOk, OnOk};
ghost use Rattle.bit_blast.specs.Gates.{next_of, clauses_from};
ghost use Rattle.bit_blast.specs.Blocks.{Builds, put as put_one, put_all as put_each};

use crate::gates::Gate;
use crate::wires::Wires;
use refute_check::{Clause, Items};
use std::alloc::{AllocError, Global};
use std::marker::Model;

/// The first number that is too large for a variable, since its literals would be.
const MOST: u64 = 1 << 63;

/// A circuit: its gates in order, each of which has the next variable. All variables are below 2^63, so that their literals
/// are 64 bits; a gate past them counts as want of memory.
#[derive(Drop)]
pub struct Netlist {
    first: u64,
    gates: Vec<Gate>,
    alloc: Global,
}

impl Model for Netlist {
    ghost use Rattle.std.specs.Prelude.{◌+◌, ◌≤◌, ◌^◌, reverse, length};
    ghost use Rattle.bit_blast.specs.Gates.{Circuit};

    ghost Value = { Circuit };

    ghost view = { λ n. record { first = n.first; gates = reverse n.gates.items } };

    ghost invariant = { λ n. n.first + length n.gates.items ≤ 2 ^ 63 };
}

impl Netlist {
    /// No gates yet; the first will have this variable.
    pub fn new(alloc: Global, first: u64) -> Netlist
        requires { first ≤ 2 ^ 63 }
        ensures { result ≡ record { first = first; gates = [] } }
    {
        Netlist {
            first,
            gates: Vec::new(alloc),
            alloc,
        }
    }

    /// The allocator.
    pub fn alloc(&self) -> Global {
        self.alloc
    }

    /// The variable of the first gate.
    pub fn first(&self) -> u64
        ensures value { result ≡ self.now.first }
        ensures within { self.now.first + length self.now.gates ≤ 2 ^ 63 }
    {
        self.first
    }

    /// How many gates there are.
    pub fn len(&self) -> usize
        ensures { result ≡ length self.now.gates }
    {
        self.gates.len()
    }

    /// The variable of the next gate.
    pub fn next(&self) -> u64
        ensures value { result ≡ next_of self.now }
        ensures within { result ≤ 2 ^ 63 }
    {
        self.first + self.gates.len() as u64
    }

    /// Puts a gate, and gives its wire.
    pub fn put(&mut self, gate: Gate) -> Result<u64, AllocError>
        ensures { IfOk result (λ wire. Builds (put_one gate) self.old wire self.new) }
    {
        let variable = self.first + self.gates.len() as u64;
        if variable >= MOST {
            return Err(AllocError);
        }
        self.gates.push(gate)?;
        Ok(2 * variable)
    }

    /// Puts gates one after another, and gives their wires.
    pub fn put_all(&mut self, gates: &[Gate]) -> Result<Wires, AllocError>
        ensures { IfOk result (λ wires. Builds (put_each gates.now) self.old wires self.new) }
    {
        let mut wires = Items::new(Vec::new(self.alloc));
        for gate in gates {
            let wire = self.put(*gate)?;
            wires.push(wire)?;
        }
        Ok(wires)
    }

    /// Its clauses come after the others, those of the first gate first.
    pub fn say(&self, clauses: &mut Items<Clause>) -> Result<(), AllocError>
        ensures { OnOk result (clauses.new ≡ clauses.old ++ clauses_from self.now.first self.now.gates) }
    {
        say_all(self.alloc, self.first, &self.gates, clauses)
    }
}

/// The clauses of gates, the first of which has this variable.
fn say_all(
    alloc: Global,
    first: u64,
    gates: &[Gate],
    clauses: &mut Items<Clause>,
) -> Result<(), AllocError>
    requires { first + length gates.now ≤ 2 ^ 63 }
    ensures { OnOk result (clauses.new ≡ clauses.old ++ clauses_from first (reverse gates.now)) }
{
    for i in 0..gates.len() {
        gates[i].say(alloc, first + i as u64, clauses)?;
    }
    Ok(())
}
