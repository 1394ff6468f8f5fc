// Each law is called once.
use crate::constants::constants_are_instructions;
use crate::examples::reduction_examples;
use crate::laws::{
    bounded_runs_are_listed, bounded_runs_ask_little, bounded_runs_end,
    functions_are_those_of_images, longer_lists_agree, runs_keep_maps, steps_keep_maps,
    steps_keep_widths, words_can_be_forgotten,
};
use crate::ranges::arguments_fit;
use crate::scripts::{
    bounded_runs_have_scripts, draws_lead_to_the_same, failed_assumptions_end_runs,
    questions_have_places, runs_answered_alike_are_alike, runs_follow_scripts,
};
use wasm_ast::Value;
use wasm_rules::{Blanks, Numbers, WordsOf};

#[test]
fn laws_take_nothing_and_give_nothing() {
    constants_are_instructions();
    reduction_examples();
    functions_are_those_of_images();
    bounded_runs_end();
    bounded_runs_ask_little();
    steps_keep_maps::<WordsOf<Numbers>, Numbers>();
    steps_keep_widths::<WordsOf<Numbers>>();
    runs_keep_maps::<Numbers, Blanks>();
    words_can_be_forgotten::<Numbers>();
    longer_lists_agree::<Blanks>();
    bounded_runs_are_listed();
    bounded_runs_have_scripts();
    runs_follow_scripts();
    questions_have_places();
    runs_answered_alike_are_alike();
    draws_lead_to_the_same();
    failed_assumptions_end_runs();
}

#[test]
fn arguments_are_read() {
    arguments_fit(&[Value::I32(4_294_967_295), Value::Extern]);
}
