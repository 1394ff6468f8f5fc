// What follows of the definitions alone.
ghost use Rattle.std.specs.Prelude.{◌≡◌, ℕ, ◌<◌, List, length};
ghost use Rattle.wasm_ast.specs.declared.modules.Module.{Module as OneModule};
ghost use Rattle.wasm_check.specs.Modules.{IsValid};
ghost use Rattle.wasm_image.specs.declared.hosts.Host.{Host as OneHost};
ghost use Rattle.wasm_image.specs.declared.sizes.Large.{Large as OneSize};
ghost use Rattle.wasm_image.specs.Entries.{IsExported};
ghost use Rattle.wasm_image.specs.Functions.{imported_functions};
ghost use Rattle.wasm_image.specs.Hosts.{IsHostFunction, AreLinked, IsFirstUnlinked};
ghost use Rattle.wasm_image.specs.Ready.{IsReady};
ghost use Rattle.wasm_image.specs.Sizes.{IsTooLarge};

/// Law: a function is one host function at most. Where all imports are host functions, each imported function is one.
pub fn hosts_are_unique()
    ensures one { (m : OneModule) (f : ℕ) (g h : OneHost) → IsHostFunction m f g → IsHostFunction m f h → g ≡ h }
    ensures each { (m : OneModule) (f : ℕ) → AreLinked m → f < length (imported_functions m) → (h : OneHost) × IsHostFunction m f h }
{}

/// Law: a module with an import that is no host function, or with a size that is too large, is not ready.
pub fn refused_is_unready()
    ensures unlinked { (m : OneModule) (k : ℕ) → IsFirstUnlinked m k → ¬ IsReady m }
    ensures large { (m : OneModule) (size : OneSize) → IsTooLarge m size → ¬ IsReady m }
{}

/// Law: in a valid module one function at most is exported by a name.
pub fn exports_are_unique()
    ensures { (m : OneModule) (name : List ℕ) (f g : ℕ) → IsValid m → IsExported m name f → IsExported m name g → f ≡ g }
{}
