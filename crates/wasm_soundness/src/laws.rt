// Laws of steps and of runs.
ghost use Rattle.std.specs.Prelude.{◌≡◌, ◌≢◌, ℕ, Bool, List, [], map};
ghost use Rattle.wasm_ast.specs.declared.types.ValType.{ValType};
ghost use Rattle.wasm_ast.specs.declared.modules.Module.{Module};
ghost use Rattle.wasm_ast.specs.declared.runs.Value.{Value};
ghost use Rattle.wasm_ast.specs.declared.runs.Outcome.TheVariants.{Returns};
ghost use Rattle.wasm_image.specs.Entries.{type_of};
ghost use Rattle.wasm_reduction.specs.Configurations.{Config, Stuck, Ends};
ghost use Rattle.wasm_reduction.specs.Steps.{step, answered};
ghost use Rattle.wasm_reduction.specs.Instantiation.{first_config};
ghost use Rattle.wasm_reduction.specs.Runs.{Trace, Ended, Over, Reply, runs, Run, IsRun};
ghost use Rattle.wasm_soundness.specs.Configurations.{ConfigFits, NextFits, StartFits};
ghost use Rattle.wasm_soundness.specs.Laws.{CanBeRun, Fit, HasOneRun, HasOneScript};
ghost use Rattle.wasm_soundness.specs.Examples.{sum_module};

use wasm_rules::Algebra;

/// Preservation and progress, over any kind of words: a run of a valid and ready module with fitting arguments starts with a
/// configuration that keeps to the types, or instantiation traps. A step of such a configuration leads to such a
/// configuration, whatever word a symbol has, or ends, and where it returns its results have the types of the function's. So
/// it is never stuck. An answer leaves the configuration such a one.
pub fn steps_keep_types<A: Algebra>()
    ensures first { (m : Module) (entry : ℕ) (args : List Value) → CanBeRun m → (h : Fit m entry args) → StartFits m h.types.type.results (first_config A.kind m entry args) }
    ensures steps { (m : Module) (final : List ValType) (c : Config A.Means) → CanBeRun m → ConfigFits m final c → NextFits m final (step A.kind m c) }
    ensures answers { (m : Module) (final : List ValType) (c : Config A.Means) (n : ℕ) → ConfigFits m final c → ConfigFits m final (answered c n) }
    ensures unstuck { (m : Module) (final : List ValType) (c : Config A.Means) → CanBeRun m → ConfigFits m final c → step A.kind m c ≢ Ends Stuck }
{}

/// No run of a valid and ready module with fitting arguments is ever stuck, over any kind of words, whatever the words of
/// symbols are, whoever answers, and whatever the bound on steps is.
pub fn runs_are_never_stuck<A: Algebra>()
    ensures { (m : Module) (entry : ℕ) (args : List Value) (draw : ℕ → Bool → A.Means) (reply : Reply A.Means) (steps n : ℕ) → CanBeRun m → Fit m entry args → (trace : Trace) → runs A.kind draw reply m entry args steps n ≢ Over (Ended Stuck) trace }
{}

/// A valid and ready module has exactly one bounded run for each function, arguments that fit it, input and bound on steps.
/// Where it returns, its values have the types of the function's results. So it has exactly one script, too.
pub fn bounded_runs_are_one()
    ensures one { (m : Module) (entry : ℕ) (args : List Value) (input : List ℕ) (steps : ℕ) → CanBeRun m → Fit m entry args → HasOneRun m entry args input steps }
    ensures types { (m : Module) (entry : ℕ) (args : List Value) (input : List ℕ) (steps : ℕ) (run : Run) (values : List Value) → CanBeRun m → (h : Fit m entry args) → IsRun m entry args input steps run → run.outcome ≡ Returns values → map type_of values ≡ h.types.type.results }
    ensures script { (m : Module) (entry : ℕ) (args : List Value) (input : List ℕ) (steps : ℕ) → CanBeRun m → Fit m entry args → HasOneScript m entry args input steps }
{}

/// The laws speak of something: this module can be run, and its function takes no arguments.
pub fn some_module_can_be_run()
    ensures can { CanBeRun sum_module }
    ensures fit { Fit sum_module 0 [] }
{}
