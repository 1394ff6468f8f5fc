// The lines of terms.
ghost use Rattle.std.specs.Prelude.{◌≡◌, ◌∷◌, ◌++◌, OnOk, string_bytes, codes, map, flat_map};
ghost use Rattle.path_report.specs.Report.{line, list_text, operand_text, op_text, term_text, term_lines, shown_text};

use crate::values::put_list;
use fork_tree::{Line, LineOp, Operand, Terms};
use std::alloc::AllocError;
use wat_print::opcode_word;

/// Appends a line `term` for each line, numbered from 1, and the line `result`. After a refusal a part of them may have been
/// appended.
pub fn put_terms(out: &mut String, terms: &Terms) -> Result<(), AllocError>
    ensures { OnOk result (string_bytes out.new ≡ string_bytes out.old
        ++ term_lines 1 terms.now.lines ++ line (codes "result " ++ list_text (map shown_text terms.now.results))) }
{
    put_lines(out, terms.lines.as_slice())?;
    out.push_str("result ")?;
    put_list(out, terms.results.as_slice())?;
    out.push('\n')?;
    Ok(())
}

fn put_lines(out: &mut String, lines: &[Line]) -> Result<(), AllocError>
    ensures { OnOk result (string_bytes out.new ≡ string_bytes out.old ++ term_lines 1 lines.now) }
{
    for i in 0..lines.len() {
        put_term(out, i + 1, &lines[i])?;
    }
    Ok(())
}

fn put_term(out: &mut String, number: usize, term: &Line) -> Result<(), AllocError>
    ensures { OnOk result (string_bytes out.new ≡ string_bytes out.old ++ term_text number term.now) }
{
    write!(out, "term {number} ")?;
    put_op(out, &term.op)?;
    put_args(out, term.args.as_slice())?;
    out.push('\n')?;
    Ok(())
}

fn put_op(out: &mut String, op: &LineOp) -> Result<(), AllocError>
    ensures { OnOk result (string_bytes out.new ≡ string_bytes out.old ++ op_text op.now) }
{
    match *op {
        LineOp::Op(op) => out.push_str(opcode_word(op)),
        LineOp::Choose => out.push_str("choose"),
        LineOp::Byte(i) => write!(out, "byte{i}"),
        LineOp::Join(true) => out.push_str("join64"),
        LineOp::Join(false) => out.push_str("join32"),
    }
}

fn put_args(out: &mut String, args: &[Operand]) -> Result<(), AllocError>
    ensures { OnOk result (string_bytes out.new ≡ string_bytes out.old ++ flat_map (λ arg. 32 ∷ operand_text arg) args.now) }
{
    for arg in args {
        out.push(' ')?;
        put_operand(out, arg)?;
    }
    Ok(())
}

/// Appends an operand: a number, `s` and the number of a symbol, or `t` and the number of a line.
pub fn put_operand(out: &mut String, operand: &Operand) -> Result<(), AllocError>
    ensures { OnOk result (string_bytes out.new ≡ string_bytes out.old ++ operand_text operand.now) }
{
    match *operand {
        Operand::Number(n) => write!(out, "{n}"),
        Operand::Symbol(k) => write!(out, "s{k}"),
        Operand::Line(k) => write!(out, "t{k}"),
    }
}
