// What one step says.
use crate::values::Value;
use wasm_ast::Cause;

/// What is asked of a word.
#[derive(Clone, Copy)]
pub enum Question {
    /// Whether it isn't 0.
    Test,
    /// Which number it is.
    Pick,
    /// Whether it isn't 0, as an assumption.
    Assume,
}

/// How a run ends.
#[derive(Drop)]
pub enum End<W: Copy> {
    /// With these results, the first one first.
    Returns(Vec<Value<W>>),
    /// By a trap.
    Traps(Cause),
    /// By a failed `assert`.
    Fails,
    /// By a failed `assume`.
    Assumes,
    /// Where the standard has no rule. Valid modules never come to it.
    Stuck,
}

/// What a step does.
#[derive(Drop)]
pub enum Next<W: Copy> {
    /// It goes on.
    Goes,
    /// It goes on with a new symbol as its next operand, an i64 where true, else an i32. Whoever runs the machine pushes it.
    Draws(bool),
    /// It asks a question of a word. The machine stands where it stood; whoever runs it notes the answer.
    Asks(Question, W),
    /// It ends.
    Ends(End<W>),
}
