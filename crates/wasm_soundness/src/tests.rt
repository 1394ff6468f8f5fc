// Each law is called once.
use crate::laws::{
    bounded_runs_are_one, runs_are_never_stuck, some_module_can_be_run, steps_keep_types,
};
use wasm_rules::Numbers;

#[test]
fn laws_take_nothing_and_give_nothing() {
    steps_keep_types::<Numbers>();
    runs_are_never_stuck::<Numbers>();
    bounded_runs_are_one();
    some_module_can_be_run();
}
