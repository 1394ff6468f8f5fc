// What is known of a module's names and types once all are there.
ghost use Rattle.std.specs.Prelude.{◌≡◌, Some, IfOk, OnOk, option_copied, slice_get};
ghost use Rattle.wasm_text.specs.Uses.{type_index as index_of_type};
ghost use Rattle.wasm_text.specs.Resolved.{use_type as type_of_use, use_block as block_of_use};
ghost use Rattle.wasm_text.specs.NameTroubles.{use_troubles, differs_at};
ghost use Rattle.wat_resolve.specs.code.Noting.{noted};

use crate::ids::Ids;
use crate::noting::note;
use crate::types::{Types, agrees, bare, short};
use std::alloc::{AllocError, Global};
use std::marker::Model;
use wasm_ast::BlockType;
use wasm_text::{TextBad, Use};

/// The identifiers of a module's parts, its types and its uses of types.
#[derive(Drop)]
pub(crate) struct Scope<'a> {
    pub(crate) uses: &'a [Use],
    pub(crate) all: Types,
    pub(crate) types: Ids<'a>,
    pub(crate) funcs: Ids<'a>,
    pub(crate) tables: Ids<'a>,
    pub(crate) memories: Ids<'a>,
    pub(crate) globals: Ids<'a>,
    pub(crate) elems: Ids<'a>,
    pub(crate) segments: Ids<'a>,
    // none: a label that is still an identifier is that of no open block
    pub(crate) labels: Ids<'a>,
}

impl<'a> Model for Scope<'a> {
    ghost use Rattle.std.specs.Prelude.{◌≡◌, []};
    ghost use Rattle.wasm_text.specs.Resolved.{Scope as Known};

    ghost Value = { Known };

    ghost view = { λ s. record {
      types = record { text = s.labels.text; ids = s.types.ids; all = s.all };
      uses = s.uses.now;
      names = record { types = s.types.ids; funcs = s.funcs.ids; tables = s.tables.ids; memories = s.memories.ids; globals = s.globals.ids; elems = s.elems.ids; segments = s.segments.ids };
      locals = [];
    } };

    ghost invariant = { λ s. (s.types.text ≡ s.labels.text) × (s.funcs.text ≡ s.labels.text) × (s.tables.text ≡ s.labels.text) × (s.memories.text ≡ s.labels.text)
        × (s.globals.text ≡ s.labels.text) × (s.elems.text ≡ s.labels.text) × (s.segments.text ≡ s.labels.text) × (s.labels.ids ≡ []) };
}

impl<'a> Scope<'a> {
    /// The use of this number.
    pub(crate) fn at(&self, k: u32) -> Option<&'a Use>
        ensures { option_copied result ≡ slice_get self.now.uses k }
    {
        self.uses.get(k as usize)
    }

    // The number of the type of a use, or 0 where there is no such type.
    fn type_index(&self, alloc: Global, u: &Use) -> Result<u32, AllocError>
        ensures { IfOk result (λ n. n ≡ index_of_type self.now.types u.now) }
    {
        let at = match u.ty {
            None => self.all.find_written(alloc, u)?,
            Some(x) => self.types.find(x),
        };
        match at {
            None => Ok(0),
            Some(n) => Ok(n),
        }
    }

    /// The number of the type of the use of this number.
    pub(crate) fn use_type(&self, alloc: Global, k: u32) -> Result<u32, AllocError>
        ensures { IfOk result (λ n. n ≡ type_of_use self.now k) }
    {
        match self.at(k) {
            None => Ok(0),
            Some(u) => self.type_index(alloc, u),
        }
    }

    /// The block type of the use of this number.
    pub(crate) fn use_block(&self, alloc: Global, k: u32) -> Result<BlockType, AllocError>
        ensures { IfOk result (λ ty. ty ≡ block_of_use self.now k) }
    {
        let u = match self.at(k) {
            None => return Ok(BlockType::Empty),
            Some(u) => u,
        };
        if u.ty.is_none() && short(u) {
            return Ok(match u.results.as_slice().first() {
                None => BlockType::Empty,
                Some(kind) => BlockType::One(*kind),
            });
        }
        let n = self.type_index(alloc, u)?;
        Ok(BlockType::Index(n))
    }

    /// Notes what a use is at fault with.
    pub(crate) fn check_use(
        &self,
        alloc: Global,
        u: &Use,
        found: &mut Option<TextBad>,
    ) -> Result<(), AllocError>
        ensures { OnOk result (found.new ≡ noted (use_troubles self.now.types u.now) found.old) }
    {
        let x = match u.ty {
            None => return Ok(()),
            Some(x) => x,
        };
        self.types.number(x, found);
        match self.types.find(x) {
            None => Ok(()),
            Some(n) => self.check_written(alloc, u, n, found),
        }
    }

    // Notes whether what a use writes, where it writes anything, differs from the type of this number.
    fn check_written(
        &self,
        alloc: Global,
        u: &Use,
        n: u32,
        found: &mut Option<TextBad>,
    ) -> Result<(), AllocError>
        ensures { OnOk result (found.new ≡ noted (differs_at self.now.types u.now (Some n)) found.old) }
    {
        if bare(u) {
            return Ok(());
        }
        let right = match self.all.get(n) {
            None => false,
            Some(ty) => agrees(alloc, u, ty)?,
        };
        if !right {
            note(found, TextBad::Use { at: u.at as u64 });
        }
        Ok(())
    }
}
