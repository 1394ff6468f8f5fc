// What follows of the grammar alone.
ghost use Rattle.std.specs.Prelude.{◌≡◌, ◌⊎◌, ◌^◌, ◌<◌, ℕ, List, [], All, length};
ghost use Rattle.wasm_ast.specs.Shape.{HasShape};
ghost use Rattle.wasm_ast.specs.declared.modules.Module.{Module as OneModule};
ghost use Rattle.wasm_binary.specs.Faults.{Fault, cut, leb, outside};
ghost use Rattle.wasm_binary.specs.Modules.{IsBinary, BinaryFault};
ghost use Rattle.wasm_binary.specs.Sum.{sum_module, sum_bytes, cut_bytes, unused_bits_bytes, outside_bytes};

/// Law: bytes spell at most one module, or they have at most one first trouble, and never both.
pub fn binary_is_unique()
    ensures module { (bytes : List ℕ) (m n : OneModule) → IsBinary m bytes → IsBinary n bytes → m ≡ n }
    ensures fault { (bytes : List ℕ) (a b : Fault) → BinaryFault bytes a → BinaryFault bytes b → a ≡ b }
    ensures never_both { (bytes : List ℕ) (m : OneModule) (fault : Fault) → IsBinary m bytes → BinaryFault bytes fault → ⊥ }
{}

/// Law: bytes spell a module, or they have a first trouble.
pub fn binary_is_decided()
    ensures { (bytes : List ℕ) → ((m : OneModule) × IsBinary m bytes) ⊎ ((fault : Fault) × BinaryFault bytes fault) }
{}

/// Law: a module that bytes spell is well-formed, without its custom sections, and with them where there are fewer than 2^32 of
/// them: no field of a module counts these.
pub fn binary_has_shape()
    ensures stripped { (bytes : List ℕ) (m : OneModule) → All (λ b. b < 2 ^ 8) bytes → IsBinary m bytes → HasShape (record m { customs = [] }) }
    ensures whole { (bytes : List ℕ) (m : OneModule) → All (λ b. b < 2 ^ 8) bytes → IsBinary m bytes → length m.customs < 2 ^ 32 → HasShape m }
{}

/// Examples: a module of 37 bytes, and three first troubles of bytes that differ from them.
pub fn binary_examples()
    ensures sum { IsBinary sum_module sum_bytes }
    ensures cut_short { BinaryFault cut_bytes (cut 36) }
    ensures unused_bits { BinaryFault unused_bits_bytes (leb 32) }
    ensures floating_point { BinaryFault outside_bytes (outside 31) }
{}
