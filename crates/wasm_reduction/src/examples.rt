// Runs of small modules, computed by the definitions.
ghost use Rattle.wasm_reduction.specs.Examples.{NumericExamples, ParametricExamples, ControlExamples, FrameExamples, TableExamples, MemoryExamples, InstantiationExamples, HostExamples};
ghost use Rattle.wasm_reduction.specs.ScriptExamples.{ScriptExamples};

/// What the definitions of the reduction give of small modules, one group of instructions after another, is what the
/// standard says of them.
pub fn reduction_examples()
    ensures numeric { NumericExamples }
    ensures parametric { ParametricExamples }
    ensures control { ControlExamples }
    ensures frames { FrameExamples }
    ensures tables { TableExamples }
    ensures memory { MemoryExamples }
    ensures instantiation { InstantiationExamples }
    ensures hosts { HostExamples }
    ensures scripts { ScriptExamples }
{}
