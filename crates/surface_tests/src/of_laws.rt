//! The laws of the crates.

use explorer::Space;

/// Of `progress`, and of those below it.
pub fn cite_the_laws() {
    rmecore::laws::every_process_can_enter();
    redomail::laws::tasks_are_safe();
    redomail::laws::entries_stand();
    judge::laws::legal_histories_are_plain();
    judge::laws::core_runs_are_legal();
    rmeworld::laws::every_execution_is_sound();
    rmeworld::laws::histories_are_legal();
    rmeworld::laws::process_states_are_own();
    rmeworld::laws::executions_grow();
    rmeworld::laws::every_process_can_enter();
    rmeworld::image::laws::images_have_starts();
    progress::laws::work_is_bounded();
    progress::laws::waiting_is_bounded();
    progress::laws::waiting_in_a_world_is_bounded();
    progress::laws::waiting_of_threads_is_bounded();
    progress::laws::one_entry_while_in_line();
    progress::laws::one_entry_while_in_doorway();
    progress::laws::doorway_exit_and_recovery_are_wait_free();
    progress::laws::numbers_are_not_spent();
    progress::laws::a_full_piece_can_follow();
}

pub fn cite_the_laws_of_runs<S: Space>() {
    robust::laws::every_run_is_sound();
    explorer::laws::answers_are_one::<S>();
}
