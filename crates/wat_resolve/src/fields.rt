// The fields of a module.
ghost use Rattle.std.specs.Prelude.{◌≡◌, List as Items, IfOk, OnOk, Option as Maybe};
ghost use Rattle.wasm_text.specs.declared.named.Id.{Id as OneId};
ghost use Rattle.wasm_text.specs.Resolved.{mode_of};
ghost use Rattle.wasm_text.specs.NameTroubles.{mode_troubles};
ghost use Rattle.wat_resolve.specs.code.Noting.{noted};

use crate::each::{Entry, resolve_all};
use crate::groups::groups;
use crate::ids::Ids;
use crate::inside::{Inside, params_and_locals};
use std::alloc::{AllocError, Global};
use wasm_ast::{Elem, Export, Func, GlobalDef, Import, ImportKind, Mode, Segment};
use wasm_text::{
    TextBad, WrittenData, WrittenElem, WrittenExport, WrittenFunc, WrittenGlobal, WrittenImport,
    WrittenKind, WrittenMode,
};

impl Entry for WrittenKind {
    ghost use Rattle.wasm_text.specs.Resolved.{kind_of};
    ghost use Rattle.wasm_text.specs.NameTroubles.{import_troubles};

    type Made = ImportKind;

    ghost meaning = { kind_of };

    ghost faults = { import_troubles };

    fn resolve(
        &self,
        alloc: Global,
        inside: &Inside,
        found: &mut Option<TextBad>,
    ) -> Result<ImportKind, AllocError> {
        match *self {
            WrittenKind::Func(k) => {
                // Its params may have names, which mean nothing, but none may be there twice.
                params_and_locals(alloc, inside.scope, k, &[], found)?;
                let ty = inside.scope.use_type(alloc, k)?;
                Ok(ImportKind::Func(ty))
            }
            WrittenKind::Table(ty) => Ok(ImportKind::Table(ty)),
            WrittenKind::Memory(limits) => Ok(ImportKind::Memory(limits)),
            WrittenKind::Global(ty) => Ok(ImportKind::Global(ty)),
        }
    }
}

impl Entry for WrittenImport {
    ghost use Rattle.wasm_text.specs.Resolved.{import_from};
    ghost use Rattle.wasm_text.specs.NameTroubles.{import_troubles};

    type Made = Import;

    ghost meaning = { import_from };

    ghost faults = { λ s i. import_troubles s i.kind };

    fn resolve(
        &self,
        alloc: Global,
        inside: &Inside,
        found: &mut Option<TextBad>,
    ) -> Result<Import, AllocError> {
        let kind = self.kind.resolve(alloc, inside, found)?;
        let module = self.module.copy()?;
        let name = self.name.copy()?;
        Ok(Import { module, name, kind })
    }
}

#[tactic(auto, using(crate::proofs::NotingLaws::noted_append))]
impl Entry for WrittenFunc {
    ghost use Rattle.wasm_text.specs.Resolved.{func_of};
    ghost use Rattle.wasm_text.specs.NameTroubles.{func_troubles};

    type Made = Func;

    ghost meaning = { func_of };

    ghost faults = { func_troubles };

    fn resolve(
        &self,
        alloc: Global,
        inside: &Inside,
        found: &mut Option<TextBad>,
    ) -> Result<Func, AllocError> {
        let own = Inside::function(alloc, inside.scope, self, found)?;
        let body = self.body.resolve(alloc, &own, found)?;
        let ty = inside.scope.use_type(alloc, self.ty)?;
        let locals = groups(alloc, self.locals.as_slice())?;
        Ok(Func { ty, locals, body })
    }
}

impl Entry for WrittenGlobal {
    ghost use Rattle.wasm_text.specs.Resolved.{global_of};
    ghost use Rattle.wasm_text.specs.NameTroubles.{expr_troubles};

    type Made = GlobalDef;

    ghost meaning = { global_of };

    ghost faults = { λ s g. expr_troubles s g.init };

    fn resolve(
        &self,
        alloc: Global,
        inside: &Inside,
        found: &mut Option<TextBad>,
    ) -> Result<GlobalDef, AllocError> {
        let init = self.init.resolve(alloc, inside, found)?;
        Ok(GlobalDef { ty: self.ty, init })
    }
}

impl Entry for WrittenExport {
    ghost use Rattle.wasm_text.specs.Resolved.{export_of};
    ghost use Rattle.wasm_text.specs.NameTroubles.{export_troubles};

    type Made = Export;

    ghost meaning = { export_of };

    ghost faults = { export_troubles };

    fn resolve(
        &self,
        _alloc: Global,
        inside: &Inside,
        found: &mut Option<TextBad>,
    ) -> Result<Export, AllocError> {
        let index = inside.ids_in(self.space).number(self.index, found);
        let name = self.name.copy()?;
        Ok(Export {
            name,
            space: self.space,
            index,
        })
    }
}

#[tactic(auto, using(crate::proofs::NotingLaws::noted_append))]
fn resolve_mode(
    alloc: Global,
    mode: &WrittenMode,
    inside: &Inside,
    ids: &Ids,
    found: &mut Option<TextBad>,
) -> Result<Mode, AllocError>
    requires { ids.now.text ≡ inside.now.types.text }
    ensures made { IfOk result (λ m. m ≡ mode_of inside.now ids.now.ids mode.now) }
    ensures found { OnOk result (found.new ≡ noted (mode_troubles inside.now ids.now.ids mode.now) found.old) }
{
    match mode {
        WrittenMode::Passive => Ok(Mode::Passive),
        WrittenMode::Declared => Ok(Mode::Declared),
        WrittenMode::Active { index, offset } => {
            let index = ids.number(*index, found);
            let offset = offset.resolve(alloc, inside, found)?;
            Ok(Mode::Active { index, offset })
        }
    }
}

#[tactic(auto, using(crate::proofs::NotingLaws::noted_append))]
impl Entry for WrittenElem {
    ghost use Rattle.wasm_text.specs.Resolved.{elem_of};
    ghost use Rattle.wasm_text.specs.NameTroubles.{elem_troubles};

    type Made = Elem;

    ghost meaning = { elem_of };

    ghost faults = { elem_troubles };

    fn resolve(
        &self,
        alloc: Global,
        inside: &Inside,
        found: &mut Option<TextBad>,
    ) -> Result<Elem, AllocError> {
        let items = resolve_all(alloc, self.items.as_slice(), inside, found)?;
        let scope = inside.scope;
        let mode = resolve_mode(alloc, &self.mode, inside, &scope.tables, found)?;
        Ok(Elem {
            kind: self.kind,
            items,
            mode,
        })
    }
}

impl Entry for WrittenData {
    ghost use Rattle.wasm_text.specs.Resolved.{segment_of};
    ghost use Rattle.wasm_text.specs.NameTroubles.{mode_troubles};

    type Made = Segment;

    ghost meaning = { segment_of };

    ghost faults = { λ s d. mode_troubles s s.names.memories d.mode };

    fn resolve(
        &self,
        alloc: Global,
        inside: &Inside,
        found: &mut Option<TextBad>,
    ) -> Result<Segment, AllocError> {
        let bytes = self.bytes.copy()?;
        let scope = inside.scope;
        let mode = resolve_mode(alloc, &self.mode, inside, &scope.memories, found)?;
        Ok(Segment { bytes, mode })
    }
}
