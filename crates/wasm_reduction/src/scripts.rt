// Laws of scripts: bounded runs as plain data, question after question.
ghost use Rattle.std.specs.Prelude.{◌≡◌, ◌≢◌, ℕ, All, List};
ghost use Rattle.wasm_ast.specs.declared.modules.Module.{Module};
ghost use Rattle.wasm_ast.specs.declared.runs.Draw.{Draw};
ghost use Rattle.wasm_ast.specs.declared.runs.Outcome.{Outcome};
ghost use Rattle.wasm_ast.specs.declared.runs.Outcome.TheVariants.{Assumes as AssumeFailed};
ghost use Rattle.wasm_ast.specs.declared.runs.Value.{Value};
ghost use Rattle.wasm_rules.specs.Words.{numbers, taken};
ghost use Rattle.wasm_check.specs.Modules.{IsValid};
ghost use Rattle.wasm_image.specs.Ready.{IsReady};
ghost use Rattle.wasm_reduction.specs.Configurations.{Question, Assume};
ghost use Rattle.wasm_reduction.specs.Widths.{HasNumbers, ArgumentFits};
ghost use Rattle.wasm_reduction.specs.Runs.{Trace, Going, Halt, Stands, On, Over, by_list, runs, Run, runs_at, IsRun};
ghost use Rattle.wasm_reduction.specs.RunImages.{BeginsWith};
ghost use Rattle.wasm_reduction.specs.Scripts.{Script, Finished, Asked, drawn, answers_in, told, IsFirst, ComesTo, IsScript, After, Past, Alike, SameFirst, as_input, StandsAt, SamePlace};

/// Each bounded run has a script, and one only, which tells its outcome, its draws and its answers. Each script of a module,
/// arguments, an input and a bound on steps tells the bounded run.
pub fn bounded_runs_have_scripts()
    ensures scripts { (m : Module) (entry : ℕ) (args : List Value) (input : List ℕ) (steps : ℕ) (run : Run) → IsRun m entry args input steps run → (s : Script) × IsScript m entry args input steps s × (told s ≡ run) }
    ensures one { (m : Module) (entry : ℕ) (args : List Value) (input : List ℕ) (steps : ℕ) (first second : Script) → IsScript m entry args input steps first → IsScript m entry args input steps second → first ≡ second }
    ensures runs { (m : Module) (entry : ℕ) (args : List Value) (input : List ℕ) (steps : ℕ) (s : Script) → IsScript m entry args input steps s → IsRun m entry args input steps (told s) }
{}

/// A script begins with a list of answers exactly where these are the first of its answers. The run at its input that has these
/// answers, and no more, then comes to the first thing that is left of the script; and whatever it comes to is that: so the
/// next question after these answers, its number and what was drawn by then are determined.
pub fn runs_follow_scripts()
    ensures begins { (s : Script) (answers : List ℕ) → BeginsWith (answers_in s) answers → (left : Script) × After answers s left }
    ensures answers { (s left : Script) (answers : List ℕ) → After answers s left → BeginsWith (answers_in s) answers }
    ensures comes { (m : Module) (entry : ℕ) (args : List Value) (input : List ℕ) (steps : ℕ) (s left : Script) (answers : List ℕ) → IsScript m entry args input steps s → After answers s left → ComesTo m entry args input steps answers left }
    ensures first { (m : Module) (entry : ℕ) (args : List Value) (input : List ℕ) (steps : ℕ) (s left : Script) (answers : List ℕ) (n : ℕ) (halt : Halt ℕ) (trace : Trace) → IsScript m entry args input steps s → After answers s left → runs numbers (taken input) (by_list answers) m entry args steps n ≡ Over halt trace → IsFirst input halt trace left }
    ensures past { (s left : Script) (answers : List ℕ) → Past answers s left → After answers s left }
{}

/// Where a run that has some answers, and no more, comes to a question, it stands at one place: a configuration that is
/// determined, as are the question and its number. Where the answers are the first of its script, the bounded run is there
/// after as many turns.
pub fn questions_have_places()
    ensures place { (m : Module) (entry : ℕ) (args : List Value) (input : List ℕ) (steps : ℕ) (answers : List ℕ) (n : ℕ) (q : Question) (v : ℕ) (trace : Trace) → runs numbers (taken input) (by_list answers) m entry args steps n ≡ Over (Stands q v) trace → (at : Going ℕ) × StandsAt m entry args input steps answers q v at × (at.trace ≡ trace) × (at.trace.answers ≡ answers) }
    ensures one { (m : Module) (entry : ℕ) (args : List Value) (input : List ℕ) (steps : ℕ) (answers : List ℕ) (q p : Question) (v w : ℕ) (here there : Going ℕ) → StandsAt m entry args input steps answers q v here → StandsAt m entry args input steps answers p w there → (q ≡ p) × (v ≡ w) × (here ≡ there) }
    ensures bounded { (m : Module) (entry : ℕ) (args : List Value) (input : List ℕ) (steps : ℕ) (s left : Script) (answers : List ℕ) (q : Question) (v : ℕ) (at : Going ℕ) → IsScript m entry args input steps s → After answers s left → (place : StandsAt m entry args input steps answers q v at) → runs_at m entry args input steps place.turns ≡ On at }
{}

/// Of a valid and ready module, two inputs whose runs have the same first answers do alike after them: they ask the same kind
/// of question, or end alike, after as many draws of the same widths; and where they ask, they stand at the same place, so at
/// the same instruction.
pub fn runs_answered_alike_are_alike()
    ensures alike { (m : Module) (entry : ℕ) (args : List Value) (steps : ℕ) → HasNumbers m → IsValid m → IsReady m → All ArgumentFits args → (first second : List ℕ) (s t left other : Script) (answers : List ℕ) → IsScript m entry args first steps s → IsScript m entry args second steps t → After answers s left → After answers t other → Alike left other }
    ensures places { (m : Module) (entry : ℕ) (args : List Value) (steps : ℕ) → HasNumbers m → IsValid m → IsReady m → All ArgumentFits args → (first second answers : List ℕ) (q p : Question) (v w : ℕ) (here there : Going ℕ) → StandsAt m entry args first steps answers q v here → StandsAt m entry args second steps answers p w there → (q ≡ p) × SamePlace here there }
{}

/// What a run has drawn up to a question or its end, read as an input, leads by the same answers to the same question of the
/// same number, or to the same end, after the same draws.
pub fn draws_lead_to_the_same()
    ensures after { (m : Module) (entry : ℕ) (args : List Value) (input : List ℕ) (steps : ℕ) (s left t : Script) (answers : List ℕ) → IsScript m entry args input steps s → After answers s left → IsScript m entry args (as_input (drawn left)) steps t → (other : Script) × After answers t other × SameFirst left other }
    ensures past { (m : Module) (entry : ℕ) (args : List Value) (input : List ℕ) (steps : ℕ) (s left t : Script) (answers : List ℕ) → IsScript m entry args input steps s → Past answers s left → IsScript m entry args (as_input (drawn left)) steps t → (other : Script) × Past answers t other × SameFirst left other }
{}

/// After an assume of 0 a run ends at once, by a failed assumption; and it ends so after nothing else.
pub fn failed_assumptions_end_runs()
    ensures failed { (m : Module) (entry : ℕ) (args : List Value) (input : List ℕ) (steps : ℕ) (s rest : Script) (answers : List ℕ) (draws : List Draw) → IsScript m entry args input steps s → After answers s (Asked Assume 0 draws rest) → rest ≡ Finished AssumeFailed draws }
    ensures kept { (m : Module) (entry : ℕ) (args : List Value) (input : List ℕ) (steps : ℕ) (s : Script) (answers : List ℕ) (outcome : Outcome) (draws : List Draw) → IsScript m entry args input steps s → Past answers s (Finished outcome draws) → outcome ≢ AssumeFailed }
{}
