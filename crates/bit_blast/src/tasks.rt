// What is still to be done on a walk through terms.
ghost use Rattle.std.specs.Prelude.{◌≡◌, ◌++◌, ◌∷◌, [], OnOk, MatchOption};
ghost use Rattle.bit_blast.specs.code.Tasks.{visits, operands_of};

use bv_terms::{Form, TermId, Word};
use std::alloc::{AllocError, Global};
use std::marker::Model;

/// One thing that is to be done.
#[derive(Clone, Copy)]
pub enum Task {
    /// The terms below this one are put, and then it.
    Visit(TermId),
    /// The term alone is put.
    Put(TermId),
}

/// What is still to be done. Contracts see it as a list, whose first task is the next.
#[derive(Drop)]
pub struct Tasks {
    tasks: Vec<Task>,
}

impl Model for Tasks {
    ghost use Rattle.std.specs.Prelude.{List, reverse};
    ghost use Rattle.bit_blast.specs.declared.tasks.Task.{Task as OneTask};

    ghost Value = { List OneTask };

    ghost view = { λ t. reverse t.tasks.items };
}

impl Tasks {
    ghost use Rattle.bit_blast.specs.declared.tasks.Task.TheVariants.{Visit};

    pub fn new(alloc: Global) -> Tasks
        ensures { result ≡ [] }
    {
        Tasks {
            tasks: Vec::new(alloc),
        }
    }

    /// Puts a task in front.
    pub fn push(&mut self, task: Task) -> Result<(), AllocError>
        ensures { OnOk result (self.new ≡ task ∷ self.old) }
    {
        self.tasks.push(task)?;
        Ok(())
    }

    /// Takes the next task.
    pub fn pop(&mut self) -> Option<Task>
        ensures { MatchOption result ((self.old ≡ []) × (self.new ≡ [])) (λ task. self.old ≡ task ∷ self.new) }
    {
        self.tasks.pop()
    }

    /// The word is to be visited next, where it is a term.
    fn visit(&mut self, word: Word) -> Result<(), AllocError>
        ensures { OnOk result (self.new ≡ visits (word ∷ []) ++ self.old) }
    {
        match word {
            Word::Num(_) => Ok(()),
            Word::Term(t) => self.push(Task::Visit(t)),
        }
    }

    /// Words are to be visited next, from left to right.
    fn visit_all(&mut self, words: &[Word]) -> Result<(), AllocError>
        ensures { OnOk result (self.new ≡ visits words.now ++ self.old) }
    {
        let mut left = words.len();
        while left > 0 {
            left -= 1;
            self.visit(words[left])?;
        }
        Ok(())
    }

    /// The operands of a form are to be visited next, from left to right.
    pub fn visit_operands(&mut self, form: &Form) -> Result<(), AllocError>
        ensures { OnOk result (self.new ≡ visits (operands_of form.now) ++ self.old) }
    {
        match form {
            Form::Symbol { .. } => Ok(()),
            Form::Un { op: _, a } => self.visit(*a),
            Form::Bin { op: _, a, b } => self.visit_all(&[*a, *b]),
            Form::Choose { wide: _, c, a, b } => self.visit_all(&[*c, *a, *b]),
            Form::Byte { a, i: _ } => self.visit(*a),
            Form::Join { wide: _, bytes } => self.visit_all(bytes.as_slice()),
        }
    }
}
