// How often the code of a module uses each list of its function types: a heuristic, of which no contract speaks.
use crate::spaces::Spaces;
use crate::walk::{Written, instr_at, walk};
use std::alloc::{AllocError, Global};
use type_suffixes::{Lists, Uses};
use wasm_ast::{Func, Module};

// What the body of a function uses.
fn count_body(
    alloc: Global,
    lists: &Lists,
    spaces: &Spaces,
    f: &Func,
    uses: &mut Uses,
) -> Result<(), AllocError> {
    let seqs = &f.body.seqs;
    uses.begin(lists, f.ty)?;
    let mut walker = walk(alloc)?;
    for _ in 0..u64::MAX {
        match walker.next(seqs)? {
            Written::Instruction { seq, at } => {
                if let Some(i) = instr_at(seqs, seq, at) {
                    uses.instruction(lists, spaces.funcs.as_slice(), i)?;
                }
            }
            Written::Other => (),
            Written::End => uses.end(),
            Written::Over => return Ok(()),
        }
    }
    Ok(())
}

/// How often the code of a module uses its lists. Where no list is long nothing is counted.
pub fn uses_of(
    alloc: Global,
    m: &Module,
    spaces: &Spaces,
    lists: &Lists,
) -> Result<Uses, AllocError> {
    let mut uses = Uses::new(alloc, m.types.as_slice())?;
    if uses.counts() {
        for f in m.funcs.as_slice() {
            count_body(alloc, lists, spaces, f, &mut uses)?;
        }
    }
    Ok(uses)
}
