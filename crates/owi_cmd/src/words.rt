// The words of a command.
ghost use Rattle.std.specs.Prelude.{◌≡◌, ◌≢◌, ◌↔◌, ◌∷◌, ◌++◌, [], ℕ, List as Items, IsTrue, IfOk, IfSome, IfNone, MatchOption, codes, map};
ghost use Rattle.wasm_ast.specs.declared.runs.Value.{Value as OneValue};
ghost use Rattle.owi_cmd.specs.Words.{IsNumber, IsInput, IsOption, IsOptionOf, AreOptions, AreRunOptions, Begins, SpellsExplore, SpellsRun, Spells};
ghost use Rattle.owi_cmd.specs.declared.report.Bounds.{Bounds as OneBounds};
ghost use Rattle.owi_cmd.specs.declared.words.Command.{Command as OneCommand};
ghost use Rattle.owi_cmd.specs.declared.words.RunOptions.{RunOptions as OneRunOptions};

mod arguments;
mod numbers;

use crate::report::Bounds;
use arguments::read_arguments;
use numbers::{input_of, number};
use std::alloc::{AllocError, Global};
use wasm_ast::{List, Text, Value};

const MOST_STEPS: u64 = 10_000_000;

const USUAL_STEPS: u64 = 1_000_000;

const MOST_FORKS: u64 = 64;

const USUAL_FORKS: u64 = 16;

const MOST_CONFLICTS: u64 = 1_000_000;

const USUAL_CONFLICTS: u64 = 100_000;

/// How far a run goes, and which numbers its symbols take.
#[derive(Drop)]
pub struct RunOptions {
    /// The most units that the run may spend, from 1 to 10,000,000.
    pub steps: u64,
    /// The k-th symbol takes the k-th number, or 0 past the end.
    pub input: List<u64>,
}

/// What the program is asked to do.
#[derive(Drop)]
pub enum Command {
    /// Explore the function that is exported by this name, with these arguments.
    Explore {
        name: Text,
        args: List<Value>,
        bounds: Bounds,
    },
    /// Run it once.
    Run {
        name: Text,
        args: List<Value>,
        options: RunOptions,
    },
    /// Write the module in the binary form, spelled shortest.
    ConvertBinary,
    /// Say whether the module is valid.
    Validate,
}

/// The command that the words after the program's name spell, or None where they spell none.
pub fn read_words(alloc: Global, words: &[&str]) -> Result<Option<Command>, AllocError>
    ensures spelled { IfOk result (λ answer. IfSome answer (λ command. Spells (map (λ w. w.now) words.now) command)) }
    ensures none { IfOk result (λ answer. IfNone answer ((command : OneCommand) → ¬ Spells (map (λ w. w.now) words.now) command)) }
{
    if is_validate(words) {
        return Ok(Some(Command::Validate));
    }
    if is_convert(words) {
        return Ok(Some(Command::ConvertBinary));
    }
    match read_run(alloc, words)? {
        Some(command) => Ok(Some(command)),
        None => Ok(read_explore(alloc, words)?),
    }
}

// The command `run` that the words spell.
fn read_run(alloc: Global, words: &[&str]) -> Result<Option<Command>, AllocError>
    ensures spelled { IfOk result (λ answer. IfSome answer (λ command. Spells (map (λ w. w.now) words.now) command)) }
    ensures none { IfOk result (λ answer. IfNone answer ((name : Items ℕ) (args : Items OneValue) (options : OneRunOptions)
        → ¬ SpellsRun (map (λ w. w.now) words.now) name args options)) }
{
    let Some((name, rest)) = valued(words, "run") else {
        return Ok(None);
    };
    let (args, others) = read_arguments(alloc, rest)?;
    let Some(options) = read_run_options(alloc, others)? else {
        return Ok(None);
    };
    let name = Text::new(String::from_str(alloc, name)?);
    Ok(Some(Command::Run {
        name,
        args,
        options,
    }))
}

// The command `explore` that the words spell.
fn read_explore(alloc: Global, words: &[&str]) -> Result<Option<Command>, AllocError>
    ensures spelled { IfOk result (λ answer. IfSome answer (λ command. Spells (map (λ w. w.now) words.now) command)) }
    ensures none { IfOk result (λ answer. IfNone answer ((name : Items ℕ) (args : Items OneValue) (bounds : OneBounds)
        → ¬ SpellsExplore (map (λ w. w.now) words.now) name args bounds)) }
{
    let Some((name, rest)) = valued(words, "explore") else {
        return Ok(None);
    };
    let (args, options) = read_arguments(alloc, rest)?;
    let Some(bounds) = read_options(options) else {
        return Ok(None);
    };
    let name = Text::new(String::from_str(alloc, name)?);
    Ok(Some(Command::Explore { name, args, bounds }))
}

// Whether the only word is `validate`.
fn is_validate(words: &[&str]) -> bool
    ensures { IsTrue result ↔ (map (λ w. w.now) words.now ≡ codes "validate" ∷ []) }
{
    begins(words, "validate") && words.len() == 1
}

// Whether the words are `convert binary`.
fn is_convert(words: &[&str]) -> bool
    ensures { IsTrue result ↔ (map (λ w. w.now) words.now ≡ codes "convert" ∷ codes "binary" ∷ []) }
{
    let Some((second, rest)) = valued(words, "convert") else {
        return false;
    };
    second == "binary" && rest.is_empty()
}

// The bounds that the options give.
fn read_options(words: &[&str]) -> Option<Bounds>
    ensures { MatchOption result ((b : OneBounds) → ¬ AreOptions (map (λ w. w.now) words.now) b) (λ b. AreOptions (map (λ w. w.now) words.now) b) }
{
    let Some((steps, rest)) = option(words, "--steps", 1, MOST_STEPS, USUAL_STEPS) else {
        return None;
    };
    let Some((forks, rest)) = option(rest, "--forks", 0, MOST_FORKS, USUAL_FORKS) else {
        return None;
    };
    let Some((conflicts, rest)) = option(rest, "--conflicts", 1, MOST_CONFLICTS, USUAL_CONFLICTS)
    else {
        return None;
    };
    if !rest.is_empty() {
        return None;
    }
    Some(Bounds {
        steps,
        forks,
        conflicts,
    })
}

// The bound on steps and the input that the options give.
fn read_run_options(alloc: Global, words: &[&str]) -> Result<Option<RunOptions>, AllocError>
    ensures { IfOk result (λ read. MatchOption read
        ((o : OneRunOptions) → ¬ AreRunOptions (map (λ w. w.now) words.now) o) (λ o. AreRunOptions (map (λ w. w.now) words.now) o)) }
{
    let Some((steps, rest)) = option(words, "--steps", 1, MOST_STEPS, USUAL_STEPS) else {
        return Ok(None);
    };
    let Some((input, rest)) = input_option(alloc, rest)? else {
        return Ok(None);
    };
    if !rest.is_empty() {
        return Ok(None);
    }
    Ok(Some(RunOptions { steps, input }))
}

// The numbers of `--input` with which the words begin, or none where they don't, and the words after them.
fn input_option<'w, 's>(
    alloc: Global,
    words: &'w [&'s str],
) -> Result<Option<(List<u64>, &'w [&'s str])>, AllocError>
    ensures given { IfOk result (λ read. IfSome read (λ x. (own : Items (Items ℕ)) × IsOptionOf (codes "--input") IsInput [] own x.0
        × (map (λ w. w.now) words.now ≡ own ++ map (λ w. w.now) x.1.now)
        × (own ≡ [] → ¬ Begins (codes "--input") (map (λ w. w.now) words.now)))) }
    ensures none { IfOk result (λ read. IfNone read (Begins (codes "--input") (map (λ w. w.now) words.now)
        × ((text : Items ℕ) (rest : Items (Items ℕ)) (numbers : Items ℕ) → map (λ w. w.now) words.now ≡ codes "--input" ∷ text ∷ rest → ¬ IsInput text numbers))) }
{
    if !begins(words, "--input") {
        return Ok(Some((List::new(Vec::new(alloc)), words)));
    }
    let Some((text, rest)) = valued(words, "--input") else {
        return Ok(None);
    };
    let Some(input) = input_of(alloc, text)? else {
        return Ok(None);
    };
    Ok(Some((input, rest)))
}

// The number of an option with which the words begin, or the usual one where they don't, and the words after it.
fn option<'w, 's>(
    words: &'w [&'s str],
    name: &str,
    least: u64,
    most: u64,
    usual: u64,
) -> Option<(u64, &'w [&'s str])>
    ensures given { IfSome result (λ x. (own : Items (Items ℕ)) × IsOption name.now least most usual own x.0
        × (map (λ w. w.now) words.now ≡ own ++ map (λ w. w.now) x.1.now)
        × (own ≡ [] → ¬ Begins name.now (map (λ w. w.now) words.now))) }
    ensures none { IfNone result (Begins name.now (map (λ w. w.now) words.now)
        × ((text : Items ℕ) (rest : Items (Items ℕ)) (n : ℕ) → map (λ w. w.now) words.now ≡ name.now ∷ text ∷ rest → ¬ IsNumber least most text n)) }
{
    if !begins(words, name) {
        return Some((usual, words));
    }
    let Some((text, rest)) = valued(words, name) else {
        return None;
    };
    let Some(n) = number(text, least, most) else {
        return None;
    };
    Some((n, rest))
}

// Whether the words begin with this one.
fn begins(words: &[&str], name: &str) -> bool
    ensures { IsTrue result ↔ Begins name.now (map (λ w. w.now) words.now) }
{
    match words {
        [first, ..] => *first == name,
        [] => false,
    }
}

// The word after this one, with which the words begin, and the words after both.
fn valued<'w, 's>(words: &'w [&'s str], name: &str) -> Option<(&'s str, &'w [&'s str])>
    ensures { MatchOption result
        ((value : Items ℕ) (rest : Items (Items ℕ)) → map (λ w. w.now) words.now ≢ name.now ∷ value ∷ rest)
        (λ found. map (λ w. w.now) words.now ≡ name.now ∷ found.0.now ∷ map (λ w. w.now) found.1.now) }
{
    match words {
        [first, value, rest @ ..] => {
            if *first == name {
                Some((*value, rest))
            } else {
                None
            }
        }
        _ => None,
    }
}
