// The state of a path.
ghost use Rattle.std.specs.Prelude.{◌≡◌, ◌++◌, [], ◌∷◌, IfOk, IfErr, OnOk, OnErr, true, false};

use crate::config::Config;
use bv_terms::{Cond, Graph};
use std::alloc::Global;
use std::marker::Model;
use std::sync::Arc;
use wasm_ast::List;
use wasm_image::Image;

/// The state of a path: a run of a module's function that stands for all inputs which take the same path. It is seen as its fields.
#[derive(Drop)]
pub struct PathState {
    pub(crate) alloc: Global,
    /// The module that is run.
    pub image: Arc<Image>,
    /// Where the run is.
    pub config: Config,
    /// The terms that the configuration's words and the conditions name.
    pub graph: Graph,
    /// The conditions that an input has to meet to take the path.
    pub conds: List<Cond>,
    /// The symbols that were drawn, of 64 bits where true, else of 32.
    pub draws: List<bool>,
    /// An input that takes the path; the least one, where all lists given were least.
    pub least: List<u64>,
    /// The sides of the questions at which the path left others, 0 or 1 each.
    pub choices: List<u8>,
    /// How many questions were asked and answered, those of numbers too.
    pub asks: u64,
    /// How many units were spent.
    pub units: u64,
    /// Whether a call was refused for want of memory.
    pub broken: bool,
}

impl Model for PathState {
    ghost use Rattle.std.specs.Arc.{arc_value};
    ghost use Rattle.sym_state.specs.Fields.{Fields};

    ghost Value = { Fields };

    ghost view = { λ s. record {
      «module» = arc_value s.image;
      config = s.config;
      graph = s.graph;
      conds = s.conds;
      draws = s.draws;
      least = s.least;
      choices = s.choices;
      asks = s.asks;
      units = s.units;
      broken = s.broken;
    } };
}
