// How often the code of a module uses each list of its function types: a heuristic. It decides which lists are made known
// before the bodies are checked, so how long a check takes and what memory it needs, and nothing else; so no contract speaks
// of what it counts.
use crate::lists::{LONG, Listed, Lists};
use std::alloc::{AllocError, Global};
use wasm_ast::{BlockType, FuncType, Instr};

/// How often each list is put on the operands, taken off, or compared with another one: the instructions of one body after
/// another are told, as they are written.
#[derive(Drop)]
pub struct Uses {
    takes: Vec<usize>,
    gives: Vec<usize>,
    // what a branch to each open sequence of the body carries, the innermost last
    labels: Vec<Listed>,
    // what the function gives
    results: Listed,
}

// A list that is used no more often is compared type by type wherever it meets another one. To make a word of it takes about
// the time of so many comparisons, and far more memory than the list.
const SELDOM: usize = 100;

// Adds to the count of this number.
fn more(counts: &mut Vec<usize>, x: u32, times: usize) {
    let x = x as usize;
    if x < counts.len() {
        counts[x] = counts[x].saturating_add(times);
    }
}

// What a function type takes and gives.
fn of_type(lists: &Lists, x: u32) -> (Listed, Listed) {
    (lists.takes(x), lists.gives(x))
}

// What a block takes and gives.
fn of_block(lists: &Lists, ty: &BlockType) -> (Listed, Listed) {
    match ty {
        BlockType::Empty => (Listed::Nothing, Listed::Nothing),
        BlockType::One(kind) => (Listed::Nothing, Listed::One(*kind)),
        BlockType::Index(x) => of_type(lists, *x),
    }
}

// What a branch to the label carries, where there is such a label. The innermost is the last.
fn label(labels: &Vec<Listed>, k: u32) -> Listed {
    let k = k as usize;
    if k < labels.len() {
        labels[labels.len() - 1 - k]
    } else {
        Listed::Nothing
    }
}

impl Uses {
    // The list is used so many times more.
    fn add(&mut self, list: Listed, times: usize) {
        match list {
            Listed::Nothing | Listed::One(_) => (),
            Listed::Takes(x) => more(&mut self.takes, x, times),
            Listed::Gives(x) => more(&mut self.gives, x, times),
        }
    }

    // Both lists are used once more.
    fn add_both(&mut self, lists: (Listed, Listed)) {
        self.add(lists.0, 1);
        self.add(lists.1, 1);
    }

    // A sequence of this type, whose label carries this list.
    fn opens(&mut self, ty: (Listed, Listed), carried: Listed) -> Result<(), AllocError> {
        self.add_both(ty);
        self.labels.push(carried)?;
        Ok(())
    }

    // A branch to the label.
    fn branches(&mut self, k: u32, times: usize) {
        let list = label(&self.labels, k);
        self.add(list, times);
    }

    // A `br_table`: what its last label carries is compared with what the operands are, and with what each of the others
    // carries.
    fn chooses(&mut self, chosen: &[u32], last: u32) {
        for k in chosen {
            self.branches(*k, 1);
        }
        self.branches(last, chosen.len().saturating_add(1));
    }

    /// An instruction of the body, which may open a sequence. For each function `funcs` has the number of its type.
    pub fn instruction(
        &mut self,
        lists: &Lists,
        funcs: &[u32],
        i: &Instr,
    ) -> Result<(), AllocError> {
        match i {
            Instr::Block { ty, .. } => {
                let ty = of_block(lists, ty);
                self.opens(ty, ty.1)?;
            }
            Instr::Loop { ty, .. } => {
                let ty = of_block(lists, ty);
                self.opens(ty, ty.0)?;
            }
            Instr::If { ty, .. } => {
                let ty = of_block(lists, ty);
                self.opens(ty, ty.1)?;
            }
            Instr::Br(k) | Instr::BrIf(k) => self.branches(*k, 1),
            Instr::BrTable { labels, last } => self.chooses(labels.as_slice(), *last),
            Instr::Return => self.add(self.results, 1),
            Instr::Call(x) => {
                if let Some(ty) = funcs.get(*x as usize).copied() {
                    self.add_both(of_type(lists, ty));
                }
            }
            Instr::CallIndirect { ty, .. } => self.add_both(of_type(lists, *ty)),
            _ => (),
        }
        Ok(())
    }

    /// The end of a sequence.
    pub fn end(&mut self) {
        self.labels.pop();
    }

    /// The body of a function of this type begins.
    pub fn begin(&mut self, lists: &Lists, ty: u32) -> Result<(), AllocError> {
        self.results = lists.gives(ty);
        self.add(self.results, 1);
        self.labels.clear();
        self.labels.push(self.results)?;
        Ok(())
    }

    /// Whether anything is counted: where no list is long nothing is.
    pub fn counts(&self) -> bool {
        !self.takes.is_empty()
    }

    /// Whether the list is used often.
    pub fn often(&self, list: Listed) -> bool {
        let uses = match list {
            Listed::Nothing | Listed::One(_) => None,
            Listed::Takes(x) => self.takes.get(x as usize),
            Listed::Gives(x) => self.gives.get(x as usize),
        };
        match uses {
            None => false,
            Some(n) => SELDOM < *n,
        }
    }
}

// Whether any list is long.
fn any_long(types: &[FuncType]) -> bool {
    types
        .iter()
        .any(|t| LONG <= t.params.len() || LONG <= t.results.len())
}

impl Uses {
    /// No use so far, of the lists of these function types.
    pub fn new(alloc: Global, types: &[FuncType]) -> Result<Uses, AllocError> {
        let mut uses = Uses {
            takes: Vec::new(alloc),
            gives: Vec::new(alloc),
            labels: Vec::new(alloc),
            results: Listed::Nothing,
        };
        if any_long(types) {
            uses.takes.resize(types.len(), 0)?;
            uses.gives.resize(types.len(), 0)?;
        }
        Ok(uses)
    }
}
