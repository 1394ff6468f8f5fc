// The bounded run.
ghost use Rattle.std.specs.Prelude.{◌≡◌, ◌≢◌, IfOk, Some};
ghost use Rattle.wasm_reduction.specs.Runs.{outcome_of_end};
ghost use Rattle.wasm_start.specs.Starts.{stop_of};
ghost use Rattle.wasm_start.specs.declared.allocation.Stop.TheVariants.{Stuck};
ghost use Rattle.wasm_run.specs.Bounded.{CanRun, RunGives};

use crate::bytes::Bytes;
use crate::turns::{Request, go};
use std::alloc::{AllocError, Global};
use wasm_ast::{List, Outcome, Ran, Value};
use wasm_image::Image;
use wasm_reduction::ranges::{arguments_fit, module_has_numbers};
use wasm_rules::Numbers;
use wasm_soundness::laws::runs_are_never_stuck;
use wasm_start::Stop;
use wasm_start::start::{Begun, memory_pages, start};

/// The bounded run of the function `entry`, by its index, imports counted: instantiation, the start function where there is
/// one, and the call of `entry` with these arguments, in at most `steps` units, from 1 to 10,000,000, and 1,024 frames. The
/// k-th symbol takes the k-th number of the input, or 0 past its end, and one of 32 bits takes it modulo 2^32. The only
/// error is that memory ran out. (Execution, Modules: Instantiation and Invocation)
pub fn run(
    alloc: Global,
    image: &Image,
    entry: u32,
    args: &[Value],
    input: &[u64],
    steps: u64,
) -> Result<Ran, AllocError>
    requires { CanRun image.now entry args.now steps }
    ensures { IfOk result (λ ran. RunGives image.now entry args.now input.now steps ran) }
{
    runs_are_never_stuck::<Numbers>();
    module_has_numbers(image.module());
    arguments_fit(args);
    let request = Request {
        image,
        entry,
        args,
        input,
        steps,
    };
    let mut numbers = Numbers;
    let mut memory = Bytes::new(alloc, memory_pages(image.module()))?;
    match start(
        alloc,
        &mut numbers,
        &mut memory,
        image.module(),
        entry,
        args,
    )? {
        Begun::Goes(mut s) => {
            let ran = go(alloc, &request, &mut numbers, &mut s, &mut memory)?;
            Ok(ran)
        }
        Begun::Ends(stop) => {
            Ok(Ran {
                outcome: stopped(stop),
                draws: List::new(Vec::new(alloc)),
            })
        }
    }
}

// The outcome where the module isn't instantiated.
fn stopped(stop: Stop) -> Outcome
    requires { stop ≢ Stuck }
    ensures { outcome_of_end (stop_of stop) ≡ Some result }
{
    match stop {
        Stop::Traps(cause) => Outcome::Traps(cause),
        Stop::Stuck => unreachable!(),
    }
}
