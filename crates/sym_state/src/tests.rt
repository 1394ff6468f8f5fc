// Each law is called once.
use crate::examples::nodes_have_their_members;
use crate::laws::{
    answers_lead_on, conditions_say_who_is_a_member, least_inputs_are_least, roots_are_exact,
    runs_over_terms_stand_for_all, sides_stand_for_their_nodes, terms_are_over_the_draws,
    values_keep_operations,
};

#[test]
fn laws_take_nothing_and_give_nothing() {
    roots_are_exact();
    conditions_say_who_is_a_member();
    values_keep_operations();
    runs_over_terms_stand_for_all();
    sides_stand_for_their_nodes();
    answers_lead_on();
    terms_are_over_the_draws();
    least_inputs_are_least();
    nodes_have_their_members();
}
