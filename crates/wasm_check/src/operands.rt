// The types of operands (Validation, Instructions: Operand Types).
use wasm_ast::ValType;

/// The type of an operand (Validation, Instructions: Operand Types).
#[derive(Clone, Copy, PartialEq, Eq, Debug)]
pub enum Operand {
    /// A value type.
    Of(ValType),
    /// The type that the standard writes as ⊥, which matches every type. Only operands of code that isn't reached have it.
    Bottom,
}
