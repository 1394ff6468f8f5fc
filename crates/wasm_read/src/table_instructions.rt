// The instructions of the opcode FC, on tables and on memory as a whole (Binary Format, Instructions).
#![tactic(auto, unfolding(wasm_binary::specs::Instructions::after_FC))]

ghost use Rattle.std.specs.Prelude.{◌≢◌, ◌≤◌, length, IfOk};
ghost use Rattle.wasm_binary.specs.Instructions.{after_FC};
ghost use Rattle.wasm_read.specs.Views.{Agrees};

use crate::bad::ReadBad;
use crate::numbers::{read_tag, read_u32};
use crate::views::View;
use wasm_ast::Instr;

/// What follows the opcode FC and its number, which is from 8 to 17.
pub(crate) fn read_after_fc(view: &View, at: usize, number: u32) -> Result<(Instr, usize), ReadBad>
    requires { at ≤ length view.now.bytes }
    ensures agrees { Agrees ((after_FC number).read view.now at) result }
    ensures within { IfOk result (λ x. x.1 ≤ length view.now.bytes) }
{
    match number {
        8 => {
            let (segment, at) = read_u32(view, at)?;
            let (_, at) = read_tag(view, at, 0x00)?;
            Ok((Instr::MemoryInit(segment), at))
        }
        9 => {
            let (segment, at) = read_u32(view, at)?;
            Ok((Instr::DataDrop(segment), at))
        }
        10 => {
            let (_, at) = read_tag(view, at, 0x00)?;
            let (_, at) = read_tag(view, at, 0x00)?;
            Ok((Instr::MemoryCopy, at))
        }
        11 => {
            let (_, at) = read_tag(view, at, 0x00)?;
            Ok((Instr::MemoryFill, at))
        }
        _ => read_on_table(view, at, number),
    }
}

// table.init to table.fill.
fn read_on_table(view: &View, at: usize, number: u32) -> Result<(Instr, usize), ReadBad>
    requires here { at ≤ length view.now.bytes }
    requires no_memory_init { number ≢ 8 }
    requires no_data_drop { number ≢ 9 }
    requires no_memory_copy { number ≢ 10 }
    requires no_memory_fill { number ≢ 11 }
    ensures agrees { Agrees ((after_FC number).read view.now at) result }
    ensures within { IfOk result (λ x. x.1 ≤ length view.now.bytes) }
{
    let (first, at) = read_u32(view, at)?;
    match number {
        12 => {
            let (table, at) = read_u32(view, at)?;
            Ok((Instr::TableInit { elem: first, table }, at))
        }
        13 => Ok((Instr::ElemDrop(first), at)),
        14 => {
            let (from, at) = read_u32(view, at)?;
            Ok((Instr::TableCopy { to: first, from }, at))
        }
        15 => Ok((Instr::TableGrow(first), at)),
        16 => Ok((Instr::TableSize(first), at)),
        _ => Ok((Instr::TableFill(first), at)),
    }
}
