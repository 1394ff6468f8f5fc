// Which sections a module has in the binary format (Binary Format, Modules).
ghost use Rattle.std.specs.Prelude.{◌≡◌};
ghost use Rattle.std.specs.List.{list_any};
ghost use Rattle.wasm_ast.specs.Sections.{is_written as is_written_slot, names_data as names_data_of, body_names_data as body_names_data_of};

use crate::instructions::Instr;
use crate::modules::{Func, Module};

fn names_data(instr: &Instr) -> bool
    ensures { result ≡ names_data_of instr.now }
{
    match instr {
        Instr::MemoryInit(_) => true,
        Instr::DataDrop(_) => true,
        _ => false,
    }
}

fn any_names_data(instrs: &[Instr]) -> bool
    ensures { result ≡ list_any names_data_of instrs.now }
{
    instrs.iter().any(|instr| names_data(instr))
}

fn body_names_data(func: &Func) -> bool
    ensures { result ≡ body_names_data_of func.now }
{
    func.body
        .seqs
        .as_slice()
        .iter()
        .any(|seq| any_names_data(seq.as_slice()))
}

fn any_body_names_data(funcs: &[Func]) -> bool
    ensures { result ≡ list_any body_names_data_of funcs.now }
{
    funcs.iter().any(|func| body_names_data(func))
}

/// Whether the section of this slot is written: it has an entry, or it is the start section and there is a start, or it
/// is the data count section and a body has `memory.init` or `data.drop`. `Custom::after` lists the slots; no other
/// number is one.
pub fn is_written(m: &Module, slot: u8) -> bool
    ensures { result ≡ is_written_slot m.now slot }
{
    match slot {
        1 => !m.types.is_empty(),
        2 => !m.imports.is_empty(),
        3 => !m.funcs.is_empty(),
        4 => !m.tables.is_empty(),
        5 => !m.memories.is_empty(),
        6 => !m.globals.is_empty(),
        7 => !m.exports.is_empty(),
        8 => m.start.is_some(),
        9 => !m.elems.is_empty(),
        10 => any_body_names_data(m.funcs.as_slice()),
        11 => !m.funcs.is_empty(),
        12 => !m.segments.is_empty(),
        _ => false,
    }
}
