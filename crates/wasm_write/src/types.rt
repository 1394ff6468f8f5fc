// Types (Binary Format, Types; block types: Instructions, Control Instructions).
ghost use Rattle.std.specs.Prelude.{◌≡◌, ◌++◌, OnOk};
ghost use Rattle.wasm_write.specs.Types.{type_byte as byte_of_type, sizes_bytes, block_type_bytes};

use crate::values::{Put, put_vec};
use owi_base::leb::signed::put_s;
use owi_base::leb::unsigned::put_u;
use std::alloc::{AllocError, Global};
use wasm_ast::{BlockType, FuncType, GlobalType, Limits, TableType, ValType};

pub(crate) fn type_byte(kind: ValType) -> u8
    ensures { result ≡ byte_of_type kind }
{
    match kind {
        ValType::I32 => 0x7F,
        ValType::I64 => 0x7E,
        ValType::FuncRef => 0x70,
        ValType::ExternRef => 0x6F,
    }
}

impl Put for ValType {
    ghost use Rattle.wasm_write.specs.Types.{val_type_bytes};

    ghost Shape = { λ kind. Unit {0} };

    ghost bytes_of = { val_type_bytes };

    fn put(&self, _alloc: Global, out: &mut Vec<u8>) -> Result<(), AllocError> {
        out.push(type_byte(*self))?;
        Ok(())
    }
}

impl Put for FuncType {
    ghost use Rattle.wasm_write.specs.Types.{func_type_bytes};

    ghost Shape = { λ ty. Unit {0} };

    ghost bytes_of = { func_type_bytes };

    fn put(&self, alloc: Global, out: &mut Vec<u8>) -> Result<(), AllocError> {
        out.push(0x60)?;
        put_vec(alloc, out, &self.params)?;
        put_vec(alloc, out, &self.results)
    }
}

fn put_sizes(out: &mut Vec<u8>, min: u32, max: Option<u32>) -> Result<(), AllocError>
    ensures { OnOk result (out.new.items ≡ out.old.items ++ sizes_bytes min max) }
{
    match max {
        None => {
            out.push(0x00)?;
            put_u(out, u64::from(min))
        }
        Some(max) => {
            out.push(0x01)?;
            put_u(out, u64::from(min))?;
            put_u(out, u64::from(max))
        }
    }
}

impl Put for Limits {
    ghost use Rattle.wasm_write.specs.Types.{limits_bytes};

    ghost Shape = { λ size. Unit {0} };

    ghost bytes_of = { limits_bytes };

    fn put(&self, _alloc: Global, out: &mut Vec<u8>) -> Result<(), AllocError> {
        put_sizes(out, self.min, self.max)
    }
}

impl Put for TableType {
    ghost use Rattle.wasm_write.specs.Types.{table_type_bytes};

    ghost Shape = { λ ty. Unit {0} };

    ghost bytes_of = { table_type_bytes };

    fn put(&self, alloc: Global, out: &mut Vec<u8>) -> Result<(), AllocError> {
        out.push(type_byte(self.kind))?;
        self.limits.put(alloc, out)
    }
}

impl Put for GlobalType {
    ghost use Rattle.wasm_write.specs.Types.{global_type_bytes};

    ghost Shape = { λ ty. Unit {0} };

    ghost bytes_of = { global_type_bytes };

    fn put(&self, _alloc: Global, out: &mut Vec<u8>) -> Result<(), AllocError> {
        out.push(type_byte(self.kind))?;
        if self.mutable {
            out.push(0x01)?;
        } else {
            out.push(0x00)?;
        }
        Ok(())
    }
}

pub(crate) fn put_block_type(out: &mut Vec<u8>, ty: BlockType) -> Result<(), AllocError>
    ensures { OnOk result (out.new.items ≡ out.old.items ++ block_type_bytes ty) }
{
    match ty {
        BlockType::Empty => {
            out.push(0x40)?;
            Ok(())
        }
        BlockType::One(kind) => {
            out.push(type_byte(kind))?;
            Ok(())
        }
        BlockType::Index(index) => put_s(out, i64::from(index)),
    }
}
