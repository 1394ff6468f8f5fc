// The host functions: what a module that is run may import.
ghost use Rattle.std.specs.Prelude.{◌≡◌, ◌↔◌, ◌∷◌, [], IsTrue, MatchOption, None, Some};
ghost use Rattle.wasm_image.specs.Hosts.{host_name, host_type as host_type_of, import_type as import_type_of, IsHost, IsLinked};

use wasm_ast::{FuncType, Import, ImportKind, Module, ValType};

/// A host function, of the module `symbolic`.
#[derive(Clone, Copy, Debug, PartialEq, Eq)]
pub enum Host {
    /// `i32_symbol: [] -> [i32]`: an unknown number of 32 bits.
    SymbolI32,
    /// `i64_symbol: [] -> [i64]`: an unknown number of 64 bits.
    SymbolI64,
    /// `assume: [i32] -> []`: runs in which the operand is 0 aren't of interest.
    Assume,
    /// `assert: [i32] -> []`: the run fails where the operand is 0.
    Assert,
}

// The host function of this name.
fn host_named(name: &str) -> Option<Host>
    ensures { MatchOption result ((h : Host) → ¬ (name.now ≡ host_name h)) (λ h. name.now ≡ host_name h) }
{
    match name {
        "i32_symbol" => Some(Host::SymbolI32),
        "i64_symbol" => Some(Host::SymbolI64),
        "assume" => Some(Host::Assume),
        "assert" => Some(Host::Assert),
        _ => None,
    }
}

// Whether the types are this one.
fn is_only(types: &[ValType], kind: ValType) -> bool
    ensures { IsTrue result ↔ (types.now ≡ kind ∷ []) }
{
    match types {
        [only] => *only == kind,
        _ => false,
    }
}

// Whether the type is that of the host function.
fn is_host_type(ty: &FuncType, host: Host) -> bool
    ensures { IsTrue result ↔ (ty.now ≡ host_type_of host) }
{
    let params = ty.params.as_slice();
    let results = ty.results.as_slice();
    match host {
        Host::SymbolI32 => params.is_empty() && is_only(results, ValType::I32),
        Host::SymbolI64 => params.is_empty() && is_only(results, ValType::I64),
        Host::Assume => is_only(params, ValType::I32) && results.is_empty(),
        Host::Assert => is_only(params, ValType::I32) && results.is_empty(),
    }
}

// The type of an imported function.
fn import_type<'a>(m: &'a Module, import: &Import) -> Option<&'a FuncType>
    ensures { MatchOption result (import_type_of m.now import.now ≡ None) (λ t. import_type_of m.now import.now ≡ Some t.now) }
{
    match import.kind {
        ImportKind::Func(ty) => m.types.as_slice().get(ty as usize),
        _ => None,
    }
}

/// Which host function the import is: one whose module, name and type it has.
pub fn host_of(m: &Module, import: &Import) -> Option<Host>
    ensures { MatchOption result (¬ IsLinked m.now import.now) (IsHost m.now import.now) }
{
    if import.module.as_slice() != "symbolic" {
        return None;
    }
    let Some(ty) = import_type(m, import) else {
        return None;
    };
    let Some(host) = host_named(import.name.as_slice()) else {
        return None;
    };
    if is_host_type(ty, host) {
        Some(host)
    } else {
        None
    }
}
