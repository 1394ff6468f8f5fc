// Verdicts on modules that are written in words, one module a line.
//
// A line has parts between semicolons: `type i32 i64 -> i32`, `import env f func 0`, `func 0 local i32 2 : nop`,
// `table funcref 1 2`, `memory 1`, `global mut i32 : i32.const`, `export f func 0`, `start 0`,
// `elem funcref active 0 : i32.const , ref.func 0`, `data passive`. The part `full` stands for a module with something in each
// index space. In a body a constant is 0 where no number follows, and a block's type is `_`, a value type or a number. Each
// line is answered by the verdict and the line; lines that begin with `#` and empty ones are written as they are.
//
// A line that begins with `image f i32 i64 ;` is answered by what the image of its module says: whether all imports are
// host functions, the first size that is too large, how many functions there are, which host function the first one is, and
// the entry by this name for arguments of these types. `lists i32 , i64 i32 ; ends 1 2 0 1 ; alike 0 1 1` has lists of types,
// and asks whether the first 2 types of list 1 end with the first 1 of list 0, and whether lists 0 and 1 begin with the same
// 1 type.
#![tactic(auto)]

mod exprs;
mod images;
mod ops;
mod parts;
mod suffixes;
mod verdicts;

use std::io;
use suffixes::answers_of;
use verdicts::verdict_of;

fn main(rt: HostRuntime) -> io::Result<()> {
    for line in rt.lines(rt.alloc()) {
        let line = line?;
        let text = line.as_str();
        if text.is_empty() || text.starts_with("#") {
            println!(rt; "{text}")?;
        } else if text.starts_with("lists") {
            let answers = answers_of(rt.alloc(), text)?;
            println!(rt; "{answers}: {text}")?;
        } else {
            let verdict = verdict_of(rt.alloc(), text)?;
            println!(rt; "{verdict}: {text}")?;
        }
    }
    Ok(())
}
