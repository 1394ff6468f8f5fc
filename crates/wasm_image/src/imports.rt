// Imports that a run can't have.
ghost use Rattle.std.specs.Prelude.{◌^◌, ◌<◌, MatchOption, length};
ghost use Rattle.wasm_image.specs.Hosts.{AreLinked, IsFirstUnlinked};

use crate::hosts::host_of;
use crate::images::Image;
use wasm_ast::Module;

// The first import that is no host function.
fn first_unlinked(m: &Module) -> Option<u32>
    requires { length m.now.imports < 2 ^ 32 }
    ensures { MatchOption result (AreLinked m.now) (IsFirstUnlinked m.now) }
{
    for k in 0..m.imports.len() {
        let import = m.imports.get(k);
        if host_of(m, import).is_none() {
            return Some(k as u32);
        }
    }
    None
}

/// The number of the first import that is no host function: one that is no function, or whose module, name or type is
/// another. Imports are counted from 0. Where there is none, the image is linked. It takes no memory.
pub fn unlinked(i: &Image) -> Option<u32>
    ensures { MatchOption result (AreLinked i.now) (IsFirstUnlinked i.now) }
{
    first_unlinked(i.module())
}
