//! Jobs from bytes to bytes: a plan's text and an input's text to the text of the rows.
#![tactic(auto)]

mod cuts;
mod layout;
mod leg;
mod parallel;
mod reading;
mod run;
mod show;
mod simulate;
mod start;
mod whole;

pub use cuts::{CutQuestion, job_cuts};
pub use job_texts::{
    JobFault, MOST_BYTES, fault_line, job_group, read_all, read_cut, read_cuts, status_of,
};
pub use layout::job_layout;
pub use leg::{LegOut, job_leg, job_leg_asked, start_of};
pub use parallel::job_run_parallel;
pub use run::job_run;
pub use show::job_show;
pub use simulate::job_simulate;
pub use start::job_start;
pub use thread_runner::{Gate, OpenGate};
pub use window_state::HashKeys;
