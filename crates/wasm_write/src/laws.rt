// What follows of the definition of the shortest spelling alone.
ghost use Rattle.std.specs.Prelude.{◌≡◌, ◌^◌, ◌<◌, ℕ, List, None, All, length};
ghost use Rattle.wasm_ast.specs.declared.modules.Module.{Module as OneModule};
ghost use Rattle.wasm_ast.specs.Shape.{HasShape};
ghost use Rattle.wasm_binary.specs.Modules.{IsBinary};
ghost use Rattle.wasm_write.specs.Modules.{shortest, sections, first_long};
ghost use Rattle.wasm_ast.specs.Ranges.{IsInRange};
ghost use Rattle.wasm_binary.specs.Sum.{sum_module, sum_bytes};
ghost use Rattle.wasm_write.specs.Examples.{empty_module, empty_bytes, zero_module, zero_bytes, produced_module, produced_bytes};

use wasm_ast::Module;
use wasm_ast::ranges::is_in_range;

/// Law: the shortest spelling of a module is a spelling of it, where no section is too long. So reading it gives the module. And
/// what is written of a module that any bytes spell, and then read, is written to the same bytes again.
pub fn shortest_is_binary()
    ensures spelled { (m : OneModule) → HasShape m → IsInRange m → first_long (sections m) ≡ None
        → IsBinary m (shortest m) }
    ensures read { (m n : OneModule) → HasShape m → IsInRange m → first_long (sections m) ≡ None
        → IsBinary n (shortest m) → n ≡ m }
    ensures again { (m n : OneModule) (bytes written : List ℕ) → All (λ b. b < 2 ^ 8) bytes → IsBinary m bytes
        → length m.customs < 2 ^ 32 → IsInRange m → first_long (sections m) ≡ None
        → written ≡ shortest m → IsBinary n written → shortest n ≡ written }
{}

/// Law: the same of each module that a program holds, whose types say that it is in range.
pub fn shortest_spells(m: &Module)
    requires shape { HasShape m.now }
    requires short { first_long (sections m.now) ≡ None }
    ensures { IsBinary m.now (shortest m.now) }
{
    is_in_range(m);
}

/// Examples: the empty module, two modules of 37 bytes, and one of them with a custom section.
pub fn shortest_examples()
    ensures empty { shortest empty_module ≡ empty_bytes }
    ensures sum { shortest sum_module ≡ sum_bytes }
    ensures zero { shortest zero_module ≡ zero_bytes }
    ensures custom { shortest produced_module ≡ produced_bytes }
{}
