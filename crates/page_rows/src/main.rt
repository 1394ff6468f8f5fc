// Lists of cells that are made and changed by lines.
//
// `new N` begins with a list of N cells. `set AT CELL`, `grow N`, `fill AT COUNT CELL`, `copy TO FROM COUNT` and
// `write AT CELL ..` change the list, and are answered by `done`, or by `refused` where a place lies past the end; then nothing is
// changed. `fork` puts an equal list aside in place of the one there, and `other` exchanges both. `len` asks for the number of
// cells, `get AT` for one, `part AT COUNT` for some of them, `all` for all.
//
// Each line is answered by the answer and the line; lines that begin with `#` and empty ones are written as they are.
#![tactic(auto)]

mod lines;

use cow_pages::Pages;
use lines::answer;
use std::{io, mem};

fn main(rt: HostRuntime) -> io::Result<()> {
    let mut pages = Pages::new(rt.alloc(), 0)?;
    let mut other = Pages::new(rt.alloc(), 0)?;
    for line in rt.lines(rt.alloc()) {
        let line = line?;
        let text = line.as_str();
        if text.is_empty() || text.starts_with("#") {
            println!(rt; "{text}")?;
        } else if text == "fork" {
            other = pages.fork()?;
            println!(rt; "done: {text}")?;
        } else if text == "other" {
            mem::swap(&mut pages, &mut other);
            println!(rt; "done: {text}")?;
        } else {
            let answer = answer(rt.alloc(), &mut pages, text)?;
            println!(rt; "{answer}: {text}")?;
        }
    }
    Ok(())
}
