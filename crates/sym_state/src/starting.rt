// How a path begins.
ghost use Rattle.std.specs.Prelude.{◌≡◌, ◌≢◌, ℕ, ◌≤◌, All, IfOk, None, Result as Outcome, map};
ghost use Rattle.std.specs.Arc.{arc_value};
ghost use Rattle.wasm_ast.specs.declared.modules.Module.{Module as OneModule};
ghost use Rattle.bv_terms.specs.Terms.{Term};
ghost use Rattle.bv_terms.specs.Making.{terms};
ghost use Rattle.bv_terms.specs.Graphs.{Holds, TermGraph, term_of};
ghost use Rattle.wasm_reduction.specs.Configurations.{Config as OneConfig, End as OneEnd};
ghost use Rattle.wasm_reduction.specs.Instantiation.{first_config as first_of};
ghost use Rattle.wasm_reduction.specs.Runs.{started_by};
ghost use Rattle.wasm_start.specs.Starts.{BeginsAs, IsInOrder, stop_of};
ghost use Rattle.wasm_start.specs.declared.allocation.Stop.TheVariants.{Stuck};
ghost use Rattle.wasm_start.specs.declared.start.Begun.TheVariants.{Ends as BegunEnds};
ghost use Rattle.sym_state.specs.declared.config.Standing.TheVariants.{Ends};
ghost use Rattle.wasm_image.specs.Entries.{AreArguments};
ghost use Rattle.wasm_image.specs.Ready.{IsReady};
ghost use Rattle.wasm_soundness.specs.Laws.{NamesFunction};
ghost use Rattle.sym_state.specs.Nodes.{CanExplore, Invocation, Node, most_steps, root};
ghost use Rattle.sym_state.specs.States.{Ended, IsAt, Least};
ghost use Rattle.sym_state.specs.Fields.{IsStandingAt, StandingHeld, StandsFor, path_of, stage_in, words_of_cells};
ghost use Rattle.sym_state.specs.code.Begins.{IsHeldAtFirst};

use crate::cells::Cells;
use crate::config::{Config, End, Execution, Standing};
use crate::path_state::PathState;
use bv_terms::{Graph, Word};
use cow_pages::Pages;
use std::alloc::{AllocError, Global};
use std::sync::Arc;
use wasm_ast::{List, Value};
use wasm_image::Image;
use wasm_reduction::ranges::{arguments_fit, module_has_numbers};
use wasm_soundness::laws::runs_are_never_stuck;
use wasm_start::Stop;
use wasm_start::start::{Begun, memory_pages, start as begin};

/// The state of all inputs, before the first turn of a run of the function `entry`, by its index, imports counted, with these
/// arguments. It stands for the root, whatever the bound on steps is. The only error is that memory ran out.
/// (Execution, Modules: Instantiation and Invocation)
pub fn start(
    alloc: Global,
    i: Arc<Image>,
    entry: u32,
    args: &[Value],
) -> Result<PathState, AllocError>
    requires ready { IsReady (arc_value i) }
    requires fit { AreArguments (arc_value i) entry args.now }
    requires refer { All (NamesFunction (arc_value i)) args.now }
    ensures stands { IfOk result (λ s. (steps : ℕ) → 1 ≤ steps → steps ≤ most_steps → StandsFor (root (record { «module» = arc_value i; entry = entry; args = args.now; steps = steps })) s) }
    ensures least { IfOk result (λ s. (steps : ℕ) → 1 ≤ steps → steps ≤ most_steps → Least (root (record { «module» = arc_value i; entry = entry; args = args.now; steps = steps })) (path_of s)) }
{
    can_be_explored(&i, entry, args);
    let mut graph = Graph::new(alloc)?;
    let config = first_config(alloc, &mut graph, &i, entry, args)?;
    Ok(PathState {
        alloc,
        image: i,
        config,
        graph,
        conds: List::new(Vec::new(alloc)),
        draws: List::new(Vec::new(alloc)),
        least: List::new(Vec::new(alloc)),
        choices: List::new(Vec::new(alloc)),
        asks: 0,
        units: 0,
        broken: false,
    })
}

// A function with arguments that fit it can be explored, whatever the bound on steps is.
fn can_be_explored(image: &Image, entry: u32, args: &[Value])
    requires ready { IsReady image.now }
    requires fit { AreArguments image.now entry args.now }
    requires refer { All (NamesFunction image.now) args.now }
    ensures { (steps : ℕ) → 1 ≤ steps → steps ≤ most_steps → CanExplore (record { «module» = image.now; entry = entry; args = args.now; steps = steps }) }
{
    module_has_numbers(image.module());
    arguments_fit(args);
}

// Where the run begins.
fn first_config(
    alloc: Global,
    graph: &mut Graph,
    image: &Image,
    entry: u32,
    args: &[Value],
) -> Result<Config, AllocError>
    requires ready { IsReady image.now }
    requires fit { AreArguments image.now entry args.now }
    requires refer { All (NamesFunction image.now) args.now }
    ensures stage { IfOk result (λ config. IsAt (stage_in image.now graph.new config.execution config.standing) (started_by (first_of terms image.now entry args.now))) }
    ensures held { IfOk result (λ config. IsHeldAtFirst graph.new config) }
    ensures standing { IfOk result (λ config. (n : Node) (turns : ℕ) → IsStandingAt n turns graph.new config.standing) }
{
    runs_are_never_stuck::<Graph>();
    can_be_explored(image, entry, args);
    let m = image.module();
    let mut memory = Cells::new(alloc, memory_pages(m))?;
    let begun = begin(alloc, graph, &mut memory, m, entry, args)?;
    Ok(begun_config(begun, memory.pages))
}

// The configuration in which a run has begun.
fn begun_config(begun: Begun<Word>, memory: Pages) -> Config
    requires { begun ≢ BegunEnds Stuck }
    ensures stage { (m : OneModule) (g : TermGraph) (first : Outcome (OneConfig Term) (OneEnd Term)) → BeginsAs (term_of g) m (map (term_of g) (words_of_cells memory)) first begun → IsAt (stage_in m g result.execution result.standing) (started_by first) }
    ensures held { (g : TermGraph) → IsInOrder Holds g begun → All (Holds g) (words_of_cells memory) → IsHeldAtFirst g result }
    ensures standing { (n : Node) (turns : ℕ) (g : TermGraph) → IsStandingAt n turns g result.standing }
{
    match begun {
        Begun::Goes(machine) => Config {
            execution: Some(Execution { machine, memory }),
            standing: Standing::Goes,
        },
        Begun::Ends(stop) => Config {
            execution: None,
            standing: Standing::Ends(stopped(stop)),
        },
    }
}

// The end where the module isn't instantiated.
fn stopped(stop: Stop) -> End
    requires { stop ≢ Stuck }
    ensures stage { (m : OneModule) (g : TermGraph) → stage_in m g None (Ends result) ≡ Ended (stop_of stop) }
    ensures held { (g : TermGraph) → StandingHeld g (Ends result) }
    ensures standing { (n : Node) (turns : ℕ) (g : TermGraph) → IsStandingAt n turns g (Ends result) }
{
    match stop {
        Stop::Traps(cause) => End::Traps(cause),
        Stop::Stuck => unreachable!(),
    }
}
