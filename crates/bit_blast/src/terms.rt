// The wires of terms, one term after another.
ghost use Rattle.std.specs.Prelude.{◌≡◌, ◌+◌, [], All, map, length, IfOk};
ghost use Rattle.wasm_rules.specs.Words.{bits_where as bits_where_of};
ghost use Rattle.bv_terms.specs.declared.words.Word.TheVariants.{Term as Numbered};
ghost use Rattle.bv_terms.specs.Graphs.{Holds, OperandsBelow, term_of, form_term};
ghost use Rattle.bv_terms.specs.Terms.{bytes_from};
ghost use Rattle.bit_blast.specs.Blocks.{Builds};
ghost use Rattle.bit_blast.specs.Formulas.{symbol_first as symbol_first_of, symbol_wires as symbol_wires_of, wires_in, operand as operand_of, byte_wires as byte_wires_of, term_wires as term_wires_of, build_terms as build_terms_of};
ghost use Rattle.bit_blast.specs.GraphConditions.{term_at, terms_at};
ghost use Rattle.bit_blast.specs.code.Tasks.{known_of, AreSymbols};

use crate::blocks::choose;
use crate::netlist::Netlist;
use crate::operators::{binary_operator, operand_bits, unary_operator};
use crate::order::Order;
use crate::wires::{FALSE, Wires, falling_wires, fitted, joined, number_wires};
use bv_terms::{Form, Graph, TermId, Word};
use refute_check::Items;
use std::alloc::{AllocError, Global};

/// The greatest number of variables.
const MOST: u64 = 1 << 63;

/// How many bits an i64 has, where wide, or an i32.
fn bits_where(wide: bool) -> u64
    ensures { result ≡ bits_where_of wide }
{
    if wide { 64 } else { 32 }
}

/// The variables of the symbols: that of the highest bit of each, and the first after all of them.
#[derive(Drop)]
pub struct Symbols {
    pub firsts: Items<u64>,
    pub end: u64,
}

impl Symbols {
    /// Of symbols with these widths, from variable 2 on.
    pub fn new(alloc: Global, draws: &[bool]) -> Result<Symbols, AllocError>
        ensures { IfOk result (AreSymbols draws.now) }
    {
        let mut firsts = Items::new(Vec::new(alloc));
        let mut end = 2;
        for wide in draws {
            if end > MOST - 64 {
                return Err(AllocError);
            }
            firsts.push(end)?;
            end += bits_where(*wide);
        }
        Ok(Symbols { firsts, end })
    }
}

/// The variable of the highest bit of a symbol; of one that wasn't drawn the variable after all symbols.
fn symbol_first(draws: &[bool], symbols: &Symbols, number: u64) -> u64
    requires { AreSymbols draws.now symbols.now }
    ensures { result ≡ symbol_first_of 2 draws.now number }
{
    if number < draws.len() as u64 {
        *symbols.firsts.get(number as usize)
    } else {
        symbols.end
    }
}

/// The wires of a symbol.
fn symbol_wires(
    alloc: Global,
    draws: &[bool],
    symbols: &Symbols,
    number: u64,
    wide: bool,
) -> Result<Wires, AllocError>
    requires { AreSymbols draws.now symbols.now }
    ensures { IfOk result (λ wires. wires ≡ symbol_wires_of draws.now number wide) }
{
    let first = symbol_first(draws, symbols, number);
    let bits = bits_where(wide);
    if first > MOST - bits {
        return Err(AllocError);
    }
    falling_wires(alloc, first, bits)
}

/// The wires of a term; none where it has none yet.
pub fn wires_of<'w>(g: &Graph, order: &Order, wires: &'w [Wires], t: TermId) -> &'w [u64]
    requires held { Holds g.now (Numbered t) }
    requires order { All (λ t. Holds g.now (Numbered t)) order.now }
    ensures { result.now ≡ wires_in (known_of g.now order.now wires.now) (term_at g.now t) }
{
    let _terms = g.terms();
    match order.place(t) {
        Some(i) => {
            if i < wires.len() as u64 {
                wires[i as usize].as_slice()
            } else {
                &[]
            }
        }
        None => &[],
    }
}

/// The wires of an operand: of a number in so many bits.
fn operand(
    alloc: Global,
    g: &Graph,
    order: &Order,
    wires: &[Wires],
    bits: usize,
    word: Word,
) -> Result<Wires, AllocError>
    requires held { Holds g.now word }
    requires order { All (λ t. Holds g.now (Numbered t)) order.now }
    ensures { IfOk result (λ list. list ≡ operand_of (known_of g.now order.now wires.now) bits (term_of g.now word)) }
{
    let _terms = g.terms();
    match word {
        Word::Num(n) => number_wires(alloc, bits, n),
        Word::Term(t) => {
            let list = joined(alloc, wires_of(g, order, wires, t), &[])?;
            Ok(list)
        }
    }
}

/// The wires of bytes, one after another.
fn byte_wires(
    alloc: Global,
    g: &Graph,
    order: &Order,
    wires: &[Wires],
    bytes: &[Word],
) -> Result<Wires, AllocError>
    requires held { All (Holds g.now) bytes.now }
    requires order { All (λ t. Holds g.now (Numbered t)) order.now }
    ensures { IfOk result (λ list. list ≡ byte_wires_of (known_of g.now order.now wires.now) (bytes_from (map (term_of g.now) bytes.now))) }
{
    let mut all = Items::new(Vec::new(alloc));
    for byte in bytes {
        let one = operand(alloc, g, order, wires, 8, *byte)?;
        all = joined(alloc, all.as_slice(), one.as_slice())?;
    }
    Ok(all)
}

/// The wires of the term of a form, from those of its operands.
fn term_wires(
    g: &Graph,
    draws: &[bool],
    symbols: &Symbols,
    order: &Order,
    wires: &[Wires],
    form: &Form,
    netlist: &mut Netlist,
) -> Result<Wires, AllocError>
    requires held { OperandsBelow (256 + length g.now.forms) form.now }
    requires order { All (λ t. Holds g.now (Numbered t)) order.now }
    requires symbols { AreSymbols draws.now symbols.now }
    ensures { IfOk result (λ list. Builds (term_wires_of draws.now (known_of g.now order.now wires.now) (form_term g.now form.now)) netlist.old list netlist.new) }
{
    let alloc = netlist.alloc();
    match form {
        Form::Symbol { number, wide } => symbol_wires(alloc, draws, symbols, *number, *wide),
        Form::Un { op, a } => {
            let first = operand(alloc, g, order, wires, operand_bits(*op), *a)?;
            unary_operator(netlist, *op, first.as_slice())
        }
        Form::Bin { op, a, b } => {
            let first = operand(alloc, g, order, wires, operand_bits(*op), *a)?;
            let second = operand(alloc, g, order, wires, operand_bits(*op), *b)?;
            binary_operator(netlist, *op, first.as_slice(), second.as_slice())
        }
        Form::Choose { wide, c, a, b } => {
            let bits = bits_where(*wide) as usize;
            let condition = operand(alloc, g, order, wires, 64, *c)?;
            let first = operand(alloc, g, order, wires, bits, *a)?;
            let second = operand(alloc, g, order, wires, bits, *b)?;
            choose(
                netlist,
                condition.as_slice(),
                first.as_slice(),
                second.as_slice(),
            )
        }
        Form::Byte { a, i } => {
            let whole = operand(alloc, g, order, wires, 64, *a)?;
            let past = (8 * (*i as usize)).min(whole.len());
            fitted(alloc, 8, FALSE, &whole.as_slice()[past..])
        }
        Form::Join { wide, bytes } => {
            let all = byte_wires(alloc, g, order, wires, bytes.as_slice())?;
            let list = fitted(alloc, bits_where(*wide) as usize, FALSE, all.as_slice())?;
            Ok(list)
        }
    }
}

/// The wires of terms in order.
pub fn build_terms(
    g: &Graph,
    draws: &[bool],
    symbols: &Symbols,
    order: &Order,
    netlist: &mut Netlist,
) -> Result<Items<Wires>, AllocError>
    requires order { All (λ t. Holds g.now (Numbered t)) order.now }
    requires symbols { AreSymbols draws.now symbols.now }
    ensures { IfOk result (λ wires. Builds (build_terms_of draws.now (terms_at g.now order.now) []) netlist.old (known_of g.now order.now wires) netlist.new) }
{
    let mut wires = Items::new(Vec::new(netlist.alloc()));
    for i in 0..order.len() {
        let form = g.form(order.get(i));
        let made = term_wires(g, draws, symbols, order, wires.as_slice(), form, netlist)?;
        wires.push(made)?;
    }
    Ok(wires)
}
