//! Laws of the tables of a page that is being rendered: what each call keeps of its tasks, claims, segments and
//! boundaries. Each function does nothing: it has its laws as its contract.
#![tactic(auto)]

mod claims;
mod counts;
mod numbers;
mod segments;
mod shell;
mod waits;

pub use claims::laws_of_claim_numbers;
pub use counts::laws_of_task_counts;
pub use numbers::laws_of_numbers;
pub use segments::laws_of_served_segments;
pub use shell::laws_of_shells;
pub use waits::laws_of_waiting_tasks;
