// Expressions (Binary Format, Instructions: Expressions).
//
// Sequences inside one another are held in a list of open ones, so that no call goes down in the depth of the input.
ghost use Rattle.std.specs.Prelude.{◌≡◌, ◌<◌, ◌≤◌, length, IfOk, OnOk};
ghost use Rattle.wasm_ast.specs.Opcodes.{is_from};
ghost use Rattle.wasm_binary.specs.Instructions.{expression, is_last};
ghost use Rattle.wasm_read.specs.Nests.{IsNest, rest, after, opener_for, LeadsTo};
ghost use Rattle.wasm_read.specs.Views.{Agrees};

use crate::bad::ReadBad;
use crate::enclosing::Opener;
use crate::instructions::read_plain;
use crate::nests::Nest;
use crate::opcodes::{Context, Opcode, read_opcode};
use crate::types::read_block_type;
use crate::views::View;
use std::alloc::Global;
use wasm_ast::{BlockType, Expr};

/// An expression. Where no data count section stands, it names no data segment.
pub(crate) fn read_expr(
    alloc: Global,
    view: &View,
    start: usize,
    has_data_count: bool,
) -> Result<(Expr, usize), ReadBad>
    requires { start ≤ length view.now.bytes }
    ensures agrees { Agrees ((expression has_data_count).read view.now start) result }
    ensures within { IfOk result (λ x. x.1 ≤ length view.now.bytes) }
{
    let mut nest = Nest::new(alloc)?;
    let mut at = start;
    'turns: loop {
        let (over, next) = read_turn(alloc, view, at, has_data_count, &mut nest)?;
        at = next;
        if over {
            break;
        }
    }
    let seqs = nest.into_seqs(alloc)?;
    Ok((Expr { seqs }, at))
}

// An opcode and what follows it. Answers whether the outermost sequence ended, and the next place.
fn read_turn(
    alloc: Global,
    view: &View,
    at: usize,
    has_data_count: bool,
    nest: &mut Nest,
) -> Result<(bool, usize), ReadBad>
    requires here { at ≤ length view.now.bytes }
    requires nest { IsNest nest.old }
    ensures leads { LeadsTo (rest view.now has_data_count nest.old at) view.now has_data_count nest.new result }
    ensures nest { OnOk result (IsNest nest.new) }
    ensures further { IfOk result (λ x. at < x.1) }
    ensures within { IfOk result (λ x. x.1 ≤ length view.now.bytes) }
{
    let context = Context {
        has_data_count,
        else_may_follow: nest.else_may_follow(),
    };
    let (op, next) = read_opcode(view, at, &context)?;
    follow(alloc, view, next, &op, has_data_count, nest)
}

// What follows an opcode.
fn follow(
    alloc: Global,
    view: &View,
    at: usize,
    op: &Opcode,
    has_data_count: bool,
    nest: &mut Nest,
) -> Result<(bool, usize), ReadBad>
    requires here { at ≤ length view.now.bytes }
    requires nest { IsNest nest.old }
    ensures leads { LeadsTo (after view.now has_data_count nest.old op.now at) view.now has_data_count nest.new result }
    ensures nest { OnOk result (IsNest nest.new) }
    ensures from { IfOk result (λ x. at ≤ x.1) }
    ensures within { IfOk result (λ x. x.1 ≤ length view.now.bytes) }
{
    if opens_sequence(op.first) {
        let (ty, at) = read_block_type(view, at)?;
        nest.open(alloc, opener(op.first, ty))?;
        return Ok((false, at));
    }
    if ends_sequence(op) {
        let over = nest.close(alloc, op.first == 0x05)?;
        return Ok((over, at));
    }
    let (instr, at) = read_plain(alloc, view, at, op)?;
    nest.push(instr)?;
    Ok((false, at))
}

// Whether the opcode is that of a block, a loop or an if.
fn opens_sequence(first: u8) -> bool
    ensures { result ≡ is_from 0x02 0x04 first }
{
    first >= 0x02 && first <= 0x04
}

// Whether the opcode is an end or an else.
fn ends_sequence(op: &Opcode) -> bool
    ensures { result ≡ is_last op.now }
{
    op.first == 0x0B || op.first == 0x05
}

// What a block, a loop or an if of this type opens.
fn opener(first: u8, ty: BlockType) -> Opener
    ensures { result ≡ opener_for first ty }
{
    match first {
        0x02 => Opener::Block(ty),
        0x03 => Opener::Loop(ty),
        _ => Opener::Then(ty),
    }
}
