// Laws of functions and of bounded runs.
ghost use Rattle.std.specs.Prelude.{◌≡◌, ℕ, ◌+◌, ◌*◌, ◌^◌, ◌≤◌, ◌++◌, All, Bool, List, length, Ok, Some, option_and_then, slice_get};
ghost use Rattle.wasm_ast.specs.Shape.{HasShape};
ghost use Rattle.wasm_ast.specs.declared.types.BlockType.{BlockType};
ghost use Rattle.wasm_ast.specs.declared.types.FuncType.{FuncType};
ghost use Rattle.wasm_ast.specs.declared.modules.Func.{Func};
ghost use Rattle.wasm_ast.specs.declared.modules.Module.{Module};
ghost use Rattle.wasm_ast.specs.declared.runs.Value.{Value};
ghost use Rattle.wasm_rules.specs.Words.{Gives, bits_where, numbers, blanks, taken};
ghost use Rattle.wasm_check.specs.Contexts.{block_type as context_block_type, context_of};
ghost use Rattle.wasm_check.specs.Modules.{IsValid};
ghost use Rattle.wasm_image.specs.declared.hosts.Host.{Host};
ghost use Rattle.wasm_image.specs.Functions.{function_type, imported_functions};
ghost use Rattle.wasm_image.specs.Hosts.{IsHostFunction};
ghost use Rattle.wasm_image.specs.Ready.{IsReady};
ghost use Rattle.wasm_reduction.specs.Configurations.{Config, Question};
ghost use Rattle.wasm_reduction.specs.Functions.{functions, type_of, block_type};
ghost use Rattle.wasm_reduction.specs.Instantiation.{first_config};
ghost use Rattle.wasm_reduction.specs.Steps.{step, answered, with_symbol};
ghost use Rattle.wasm_reduction.specs.Images.{config_image, next_image, blank};
ghost use Rattle.wasm_reduction.specs.Maps.{IsWide, KeepsOperations};
ghost use Rattle.wasm_reduction.specs.Widths.{HasNumbers, ArgumentFits, HasWidths, NextHasWidths};
ghost use Rattle.wasm_reduction.specs.Runs.{Trace, Going, Stands, Turned, Over, by_list, follows, runs, Run, runs_at, IsRun};
ghost use Rattle.wasm_reduction.specs.RunImages.{going_image, turned_image, trace_of, IsAnswered, BeginsWith, AsksNext, KeepsSymbols};
ghost use Rattle.wasm_reduction.specs.Laws.{RunsHost, RunsCode, ComesToAnEnd};

use wasm_rules::Words;

/// The functions of a module by their indices are those that images and validation count: the imported ones, of which each
/// that is a host function runs it, and then those with code. Each has the type that an image gives it. What a block takes
/// and gives is what its validation in the body of any function says.
pub fn functions_are_those_of_images()
    ensures hosts { (m : Module) (f : ℕ) (h : Host) → IsHostFunction m f h → RunsHost m f h }
    ensures code { (m : Module) (k : ℕ) (f : Func) → slice_get m.funcs k ≡ Some f → RunsCode m (length (imported_functions m) + k) f }
    ensures types { (m : Module) (f : ℕ) → option_and_then (type_of m) (slice_get (functions m) f) ≡ function_type m f }
    ensures blocks { (m : Module) (f : Func) (type : FuncType) (ty : BlockType) → context_block_type (context_of m f type) ty ≡ block_type m ty }
{}

/// Each bounded run comes to an end, whatever the module, the arguments, the input and the bound on steps, and what it gives
/// is determined.
pub fn bounded_runs_end()
    ensures ends { (m : Module) (entry : ℕ) (args : List Value) (input : List ℕ) (steps : ℕ) → ComesToAnEnd m entry args input steps }
    ensures one { (m : Module) (entry : ℕ) (args : List Value) (input : List ℕ) (steps : ℕ) (first second : Run) → IsRun m entry args input steps first → IsRun m entry args input steps second → first ≡ second }
{}

/// A bounded run of a well-formed module with a step bound of at least 1 has at most 2^32 answers for each step.
pub fn bounded_runs_ask_little()
    ensures { (m : Module) (entry : ℕ) (args : List Value) (input : List ℕ) (steps : ℕ) (run : Run) → HasShape m → 1 ≤ steps → IsRun m entry args input steps run → length run.answers ≤ 2 ^ 32 * steps }
{}

/// A step commutes with each map from one kind of words to another that keeps the operations: a step of a configuration whose
/// words have their widths, under the map, is the step of its image. So with the map from terms to their values at an input.
pub fn steps_keep_maps<V: Words, W: Words>()
    ensures { (given : V.Given) → Gives V.kind (V.Has given) → (h : V.Means → W.Means) → KeepsOperations (V.Has given) V.kind W.kind h → (m : Module) (c : Config V.Means) → IsWide (V.Has given) c → step W.kind m (config_image h c) ≡ next_image h (step V.kind m c) }
{}

/// The map to words that mean nothing keeps the operations, from any kind of words.
pub fn words_can_be_forgotten<V: Words>()
    ensures { (given : V.Given) → KeepsOperations (V.Has given) V.kind blanks blank }
{}

/// Each step keeps the widths of all words: of a configuration that has them, with sizes within bounds, each step asks about a
/// word of 32 bits, ends with words of their widths, or leads to such a configuration; so do an answer and a symbol of its
/// width. Such a configuration's words have the widths that a step computes with. That of a valid and ready module at the
/// start of a run is one. No step needs a valid module for this.
pub fn steps_keep_widths<W: Words>()
    ensures steps { (given : W.Given) → Gives W.kind (W.Has given) → (m : Module) (c : Config W.Means) → HasNumbers m → HasWidths (W.Has given) c → NextHasWidths (W.Has given) (step W.kind m c) }
    ensures answers { (given : W.Given) (c : Config W.Means) (n : ℕ) → HasWidths (W.Has given) c → HasWidths (W.Has given) (answered c n) }
    ensures symbols { (given : W.Given) (c : Config W.Means) (wide : Bool) (w : W.Means) → HasWidths (W.Has given) c → W.Has given (bits_where wide) w → HasWidths (W.Has given) (with_symbol c wide w) }
    ensures wide { (given : W.Given) (c : Config W.Means) → HasWidths (W.Has given) c → IsWide (W.Has given) c }
    ensures first { (given : W.Given) → Gives W.kind (W.Has given) → (m : Module) (entry : ℕ) (args : List Value) (c : Config W.Means) → HasNumbers m → IsValid m → IsReady m → All ArgumentFits args → first_config W.kind m entry args ≡ Ok c → HasWidths (W.Has given) c }
{}

/// A run commutes with each map from one kind of words to another that keeps the operations, for so many turns and any list of
/// answers: under the map, a run over the one kind is the run over the other with the same answers, whose symbols are the words
/// that the map makes of the words of symbols. Where one stands at a question, so does the other.
pub fn runs_keep_maps<V: Words, W: Words>()
    ensures turns { (given : V.Given) → Gives V.kind (V.Has given) → (h : V.Means → W.Means) → KeepsOperations (V.Has given) V.kind W.kind h → (draw : ℕ → Bool → V.Means) (drawn : ℕ → Bool → W.Means) → KeepsSymbols (V.Has given) h draw drawn → (answers : List ℕ) (m : Module) (steps n : ℕ) (g : Going V.Means) → HasNumbers m → HasWidths (V.Has given) g.config → follows W.kind drawn (by_list answers) m steps n (going_image h g) ≡ turned_image h (follows V.kind draw (by_list answers) m steps n g) }
    ensures runs { (given : V.Given) → Gives V.kind (V.Has given) → (h : V.Means → W.Means) → KeepsOperations (V.Has given) V.kind W.kind h → (draw : ℕ → Bool → V.Means) (drawn : ℕ → Bool → W.Means) → KeepsSymbols (V.Has given) h draw drawn → (answers : List ℕ) (m : Module) (entry : ℕ) (args : List Value) (steps n : ℕ) → HasNumbers m → IsValid m → IsReady m → All ArgumentFits args → runs W.kind drawn (by_list answers) m entry args steps n ≡ turned_image h (runs V.kind draw (by_list answers) m entry args steps n) }
{}

/// While a run that is answered by a list doesn't stand at a question, more answers after those of the list change nothing.
pub fn longer_lists_agree<W: Words>()
    ensures { (draw : ℕ → Bool → W.Means) (m : Module) (entry : ℕ) (args : List Value) (steps n : ℕ) (answers more : List ℕ) (x : Turned W.Means) → IsAnswered x → runs W.kind draw (by_list answers) m entry args steps n ≡ x → runs W.kind draw (by_list (answers ++ more)) m entry args steps n ≡ x }
{}

/// A bounded run is the run that is answered by the list of its answers: after so many turns it is where the run is that is
/// answered by any list that begins with its answers by then. Where a run at the same input is answered by a list with which
/// the bounded run's answers begin: while that run goes on, and where it ends, the bounded run does the same; where it stands
/// at a question, the bounded run asks that question after the same answers, and its next answer is that of the word's number.
pub fn bounded_runs_are_listed()
    ensures so_far { (m : Module) (entry : ℕ) (args : List Value) (input : List ℕ) (steps n k : ℕ) (answers : List ℕ) → n ≤ k → BeginsWith answers (trace_of (runs_at m entry args input steps k)).answers → runs numbers (taken input) (by_list answers) m entry args steps n ≡ runs_at m entry args input steps n }
    ensures there { (m : Module) (entry : ℕ) (args : List Value) (input : List ℕ) (steps n : ℕ) (answers : List ℕ) (run : Run) (x : Turned ℕ) → IsAnswered x → IsRun m entry args input steps run → BeginsWith run.answers answers → runs numbers (taken input) (by_list answers) m entry args steps n ≡ x → runs_at m entry args input steps n ≡ x }
    ensures asks { (m : Module) (entry : ℕ) (args : List Value) (input : List ℕ) (steps n : ℕ) (answers : List ℕ) (run : Run) (q : Question) (w : ℕ) (trace : Trace) → IsRun m entry args input steps run → BeginsWith run.answers answers → runs numbers (taken input) (by_list answers) m entry args steps n ≡ Over (Stands q w) trace → AsksNext m entry args input steps answers run q w }
{}
