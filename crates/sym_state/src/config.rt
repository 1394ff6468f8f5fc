// Where the run of a path is.
ghost use Rattle.std.specs.Prelude.{◌≡◌, IfOk};

use bv_terms::{TermId, Word};
use cow_pages::Pages;
use std::alloc::{AllocError, Global};
use wasm_ast::{Cause, List};
use wasm_machine::machine::Machine;
use wasm_machine::next::Question;

/// The configuration of a run over the words of a graph. (Execution, Runtime Structure)
#[derive(Drop)]
pub struct Config {
    /// What is executed. A run that has ended has none left.
    pub execution: Option<Execution>,
    /// What is known of where the run stands.
    pub standing: Standing,
}

/// What is executed: the frames with their labels, the operands, the globals, the tables and the segments; and the memory.
#[derive(Drop)]
pub struct Execution {
    pub machine: Machine<Word>,
    /// The cells of the memory: one below 256 is that byte, any other the term of that number, of 8 bits.
    pub memory: Pages,
}

/// Where a run stands.
#[derive(Drop)]
pub enum Standing {
    /// It goes on.
    Goes,
    /// It stands at a question of a term, without an answer.
    Asks(Question, TermId),
    /// It stood at a question of a term, whose answer is noted and not yet carried out.
    Answered(Question, TermId, u64),
    /// It has ended.
    Ends(End),
}

/// How the run of a path ends.
#[derive(Drop)]
pub enum End {
    /// With these results, the first one first.
    Returns(List<Given>),
    /// By a trap.
    Traps(Cause),
    /// By a failed `assert`.
    Fails,
    /// An instruction is next, and all units are spent.
    Bound,
    /// A call made frame 1,025.
    Deep,
    /// By an `assume` of the number 0, which no input meets.
    Void,
}

/// A result of a run: an integer, as a word of the state's graph, or a reference.
#[derive(Clone, Copy)]
pub enum Given {
    I32(Word),
    I64(Word),
    /// Of type funcref: null, or to the function of this index. Imports are counted.
    Func(Option<u32>),
    /// The null of type externref.
    Extern,
}

// The same results.
fn copy_results(alloc: Global, results: &[Given]) -> Result<List<Given>, AllocError>
    ensures { IfOk result (λ list. list ≡ results.now) }
{
    let mut copied = Vec::new(alloc);
    copied.extend_from_slice(results)?;
    Ok(List::new(copied))
}

impl End {
    /// An equal end.
    pub fn copy(&self, alloc: Global) -> Result<End, AllocError>
        ensures { IfOk result (λ end. end ≡ self.now) }
    {
        match self {
            End::Returns(results) => {
                let results = copy_results(alloc, results.as_slice())?;
                Ok(End::Returns(results))
            }
            End::Traps(cause) => Ok(End::Traps(*cause)),
            End::Fails => Ok(End::Fails),
            End::Bound => Ok(End::Bound),
            End::Deep => Ok(End::Deep),
            End::Void => Ok(End::Void),
        }
    }
}

impl Standing {
    fn copy(&self, alloc: Global) -> Result<Standing, AllocError>
        ensures { IfOk result (λ standing. standing ≡ self.now) }
    {
        match self {
            Standing::Goes => Ok(Standing::Goes),
            Standing::Asks(q, t) => Ok(Standing::Asks(*q, *t)),
            Standing::Answered(q, t, answer) => Ok(Standing::Answered(*q, *t, *answer)),
            Standing::Ends(end) => {
                let end = end.copy(alloc)?;
                Ok(Standing::Ends(end))
            }
        }
    }
}

impl Execution {
    fn copy(&self, alloc: Global) -> Result<Execution, AllocError>
        ensures { IfOk result (λ execution. execution ≡ self.now) }
    {
        let machine = self.machine.copy(alloc)?;
        let memory = self.memory.fork()?;
        Ok(Execution { machine, memory })
    }
}

impl Config {
    /// An equal configuration. The memory's cells are shared until one of both is written.
    pub fn copy(&self, alloc: Global) -> Result<Config, AllocError>
        ensures { IfOk result (λ config. config ≡ self.now) }
    {
        let standing = self.standing.copy(alloc)?;
        match &self.execution {
            None => Ok(Config {
                execution: None,
                standing,
            }),
            Some(execution) => {
                let execution = execution.copy(alloc)?;
                Ok(Config {
                    execution: Some(execution),
                    standing,
                })
            }
        }
    }
}
