//! The law of jobs that are frozen and resumed.

// A law answers nothing: that it holds is its contract.
#[test]
fn resuming_is_stated() {
    gba_resume_laws::laws::frozen_jobs_go_on_as_run();
}
