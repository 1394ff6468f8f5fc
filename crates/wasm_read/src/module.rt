// Reading a module.
ghost use Rattle.std.specs.Prelude.{◌≡◌, ◌⊎◌, IfOk, IfErr, IfSome, IsErrAnd, Some, Ok, Err};
ghost use Rattle.wasm_ast.specs.Shape.{HasShape};
ghost use Rattle.wasm_ast.specs.declared.modules.Module.{Module as OneModule};
ghost use Rattle.wasm_binary.specs.Faults.{Fault};
ghost use Rattle.wasm_binary.specs.Modules.{IsBinary, BinaryFault};
ghost use Rattle.wasm_read.specs.Refusals.{fault_of};
ghost use Rattle.wasm_read.specs.Stripped.{stripped};

use crate::bad::ReadBad;
use crate::reading::read_whole;
use std::alloc::Global;
use wasm_ast::Module;

/// The module of the profile that the bytes as a whole spell, or the first trouble of bytes that spell none. Without a
/// trouble it refuses only where memory runs out. (Binary Format: Modules)
pub fn read_module(alloc: Global, bytes: &[u8]) -> Result<Module, ReadBad>
    // What is read is spelled, and what is spelled is read.
    ensures spelled { IfOk result (λ m. IsBinary m bytes.now) }
    ensures only { (m : OneModule) → IsBinary m bytes.now → (result ≡ Ok m) ⊎ (result ≡ Err ReadBad.NoMemory) }

    // What a refusal tells is the first trouble, and the first trouble is told.
    ensures trouble { IfErr result (λ bad. IfSome (fault_of bad) (BinaryFault bytes.now)) }
    ensures first { (fault : Fault) → BinaryFault bytes.now fault
        → IsErrAnd result (λ bad. (fault_of bad ≡ Some fault) ⊎ (bad ≡ ReadBad.NoMemory)) }

    ensures shape { IfOk result HasShape }
{
    read_whole(alloc, bytes, true)
}

/// The module of the profile that the bytes as a whole spell, without its custom sections, or the first trouble of bytes that
/// spell none. Custom sections are read and passed over: they take no memory. Without a trouble it refuses only where memory
/// runs out. (Binary Format: Modules)
pub fn read_stripped(alloc: Global, bytes: &[u8]) -> Result<Module, ReadBad>
    // What is read is spelled, and what is spelled is read, but for custom sections.
    ensures spelled { IfOk result (λ told. (m : OneModule) × IsBinary m bytes.now × (told ≡ stripped m)) }
    ensures only { (m : OneModule) → IsBinary m bytes.now
        → (result ≡ Ok (stripped m)) ⊎ (result ≡ Err ReadBad.NoMemory) }

    // What a refusal tells is the first trouble, and the first trouble is told.
    ensures trouble { IfErr result (λ bad. IfSome (fault_of bad) (BinaryFault bytes.now)) }
    ensures first { (fault : Fault) → BinaryFault bytes.now fault
        → IsErrAnd result (λ bad. (fault_of bad ≡ Some fault) ⊎ (bad ≡ ReadBad.NoMemory)) }

    ensures shape { IfOk result HasShape }
{
    read_whole(alloc, bytes, false)
}
