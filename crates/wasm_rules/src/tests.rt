// Words that are plain numbers.
ghost use Rattle.std.specs.Mem.{FitsInMemory};

use crate::{Algebra, Numbers, load_word, store_bytes};
use std::alloc::AllocError;
use std::test::Fail;

#[tactic(auto, unfolding(crate::specs::Accesses::load_of, crate::specs::Accesses::store_of))]
#[test]
fn loads_and_stores(rt: HostRuntime) -> Result<(), Fail> {
    // i32.load8_s of 0x80, and i64.store16
    assert_eq!(rt; load_word(&mut Numbers, 0x2C, &[0x80])?, 0xFFFF_FF80);
    let mut out = [0; 2];
    store_bytes(&mut Numbers, 0x3D, 0x0403_0201_807F_FF80, &mut out)?;
    assert_eq!(rt; out, [0x80, 0xFF]);
    Ok(())
}

// Each call once, of an algebra of any kind.
#[tactic(auto, unfolding(int_ops::specs::Operators::operator_of))]
fn each_call<A: Algebra>(words: &mut A) -> Result<Option<u64>, AllocError>
    requires { FitsInMemory A.Word.row }
{
    let n = words.constant(0x3412);
    let byte = words.byte(n, 1)?;
    let high = words.join(false, &[byte])?;
    let is_zero = words.un(0x45, high)?;
    let sum = words.bin(0x6A, high, n)?;
    let choice = words.choose(false, is_zero, n, sum)?;
    Ok(words.number(choice))
}

#[test]
fn calls(rt: HostRuntime) -> Result<(), Fail> {
    // 0x34 + 0x3412, since the byte is not 0.
    assert_eq!(rt; each_call(&mut Numbers)?, Some(0x3446));
    Ok(())
}
