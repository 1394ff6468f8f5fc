// What follows of the definitions alone.
ghost use Rattle.std.specs.Prelude.{◌≡◌, ◌⊎◌};
ghost use Rattle.wasm_ast.specs.Shape.{HasShape};
ghost use Rattle.wasm_ast.specs.declared.modules.Module.{Module};
ghost use Rattle.wasm_check.specs.declared.why.Why.{Why as Fault};
ghost use Rattle.wasm_check.specs.Faults.{FirstFault};
ghost use Rattle.wasm_check.specs.Modules.{IsValid};

/// Law: two first faults of one module are equal.
pub fn first_faults_are_one()
    ensures { (m : Module) (f g : Fault) → FirstFault m f → FirstFault m g → f ≡ g }
{}

/// Law: a well-formed module is valid or has a first fault, and no module both.
pub fn modules_are_valid_or_at_fault()
    ensures either { (m : Module) → HasShape m → IsValid m ⊎ ((f : Fault) × FirstFault m f) }
    ensures never_both { (m : Module) (f : Fault) → IsValid m → ¬ FirstFault m f }
{}
