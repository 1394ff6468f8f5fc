// The memory of a run over terms.
ghost use Rattle.std.specs.Prelude.{◌≡◌, ℕ, ◌+◌, ◌*◌, ◌<◌, ◌≤◌, ◌^◌, ◌++◌, All, IfOk, OnOk, OnErr, Some, length, map, replicate};
ghost use Rattle.wasm_reduction.specs.Combinators.{written};
ghost use Rattle.wasm_reduction.specs.Memories.{page_bytes};
ghost use Rattle.sym_state.specs.Fields.{cell_word, words_of_cells};
ghost use Rattle.sym_state.specs.code.Cells.{IsCellWord, bytes_fit as bytes_fit_cells};

use bv_terms::{Graph, Word};
use cow_pages::Pages;
use std::alloc::{AllocError, Global};
use std::marker::Model;
use wasm_machine::memory::Memory;

/// How many cells a page has.
const PAGE: u64 = 65_536;

/// The cells of a memory as words: a cell below 256 is that byte, any other the term of that number.
#[derive(Drop)]
pub struct Cells {
    pub pages: Pages,
}

impl Model for Cells {
    ghost use Rattle.std.specs.Prelude.{ℕ, List};

    ghost Value = { List ℕ };

    ghost view = { λ m. m.pages };
}

impl Cells {
    /// So many pages, each of 65,536 bytes of 0.
    pub fn new(alloc: Global, pages: u64) -> Result<Cells, AllocError>
        ensures { IfOk result (λ m. words_of_cells m ≡ replicate (pages * page_bytes) (cell_word 0)) }
    {
        let mut cells = Cells {
            pages: Pages::new(alloc, 0)?,
        };
        cells.grow(pages)?;
        Ok(cells)
    }
}

// The word of a cell.
fn word_of(cell: u64) -> Word
    ensures { result ≡ cell_word cell }
{
    if cell < 256 {
        Word::Num(cell)
    } else {
        Word::Term(cell)
    }
}

// The cell of a word.
fn cell_of(w: Word) -> u64
    requires { IsCellWord w }
    ensures { cell_word result ≡ w }
{
    match w {
        Word::Num(n) => n,
        Word::Term(t) => t,
    }
}

// Words are written, from a place on.
fn write_words(pages: &mut Pages, at: u64, words: &[Word]) -> Result<(), AllocError>
    requires within { at + length words.now ≤ length pages.old }
    requires fit { All IsCellWord words.now }
    ensures { OnOk result (words_of_cells pages.new ≡ written at words.now (words_of_cells pages.old)) }
{
    // As the length is a u64, so is each place below it.
    let _ = pages.len();
    for i in 0..words.len() {
        pages.set(at + i as u64, cell_of(words[i]))?;
    }
    Ok(())
}

// Plain bytes are written, from a place on.
fn write_bytes(pages: &mut Pages, at: u64, bytes: &[u8]) -> Result<(), AllocError>
    requires { at + length bytes.now ≤ length pages.old }
    ensures { OnOk result (words_of_cells pages.new ≡ written at (map cell_word bytes.now) (words_of_cells pages.old)) }
{
    let _ = pages.len();
    for i in 0..bytes.len() {
        pages.set(at + i as u64, u64::from(bytes[i]))?;
    }
    Ok(())
}

impl Memory<Graph> for Cells {
    ghost use Rattle.std.proofs.Common.{rules};

    ghost cells = { words_of_cells };

    ghost fits = { IsCellWord };

    ghost plain = { cell_word };

    ghost bytes_fit = { bytes_fit_cells };

    ghost plain_is = { Prim.search rules };

    ghost word_size = { Prim.search rules };

    fn length(&self) -> u64 {
        self.pages.len()
    }

    fn get(&self, at: u64) -> Word {
        word_of(self.pages.get(at))
    }

    fn set(&mut self, at: u64, w: Word) -> Result<(), AllocError> {
        self.pages.set(at, cell_of(w))?;
        Ok(())
    }

    fn grow(&mut self, pages: u64) -> Result<(), AllocError> {
        let Some(cells) = pages.checked_mul(PAGE) else {
            return Err(AllocError);
        };
        self.pages.grow(cells)?;
        Ok(())
    }

    fn fill(&mut self, at: u64, count: u64, w: Word) -> Result<(), AllocError> {
        self.pages.fill(at, count, cell_of(w))?;
        Ok(())
    }

    fn copy(&mut self, to: u64, from: u64, count: u64) -> Result<(), AllocError> {
        self.pages.copy(to, from, count)?;
        Ok(())
    }

    fn write(&mut self, at: u64, words: &[Word]) -> Result<(), AllocError> {
        write_words(&mut self.pages, at, words)?;
        Ok(())
    }

    fn write_bytes(&mut self, at: u64, bytes: &[u8]) -> Result<(), AllocError> {
        write_bytes(&mut self.pages, at, bytes)?;
        Ok(())
    }
}
