// The law of constant expressions.
ghost use Rattle.std.specs.Prelude.{◌≡◌, [], ℕ, List, Some};
ghost use Rattle.wasm_ast.specs.declared.instructions.Instr.{Instr};
ghost use Rattle.wasm_ast.specs.declared.modules.Module.{Module};
ghost use Rattle.wasm_rules.specs.Words.{numbers};
ghost use Rattle.wasm_reduction.specs.Combinators.{holding};
ghost use Rattle.wasm_reduction.specs.Configurations.{Config, Goes, Value};
ghost use Rattle.wasm_reduction.specs.Instantiation.{constant};
ghost use Rattle.wasm_reduction.specs.Steps.{act};

/// What evaluates a constant expression is its instructions: where a constant instruction makes new operands of the operands,
/// so does the step of that instruction in a configuration whose globals have the same values, which asks nothing and changes
/// nothing else.
pub fn constants_are_instructions()
    ensures { (m : Module) (c : Config ℕ) (i : Instr) (vs ws : List (Value ℕ)) → constant c.store.globals i vs ≡ Some ws → act numbers m c vs [] i ≡ Goes (holding c ws) }
{}
