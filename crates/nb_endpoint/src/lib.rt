//! A job of the program: what is asked for, read and checked before a store is touched, what is
//! done for it at a desk, and how that ends.
#![tactic(auto)]

mod chore;
mod ended;
mod finish;
mod job;
mod lent;
mod lines;
mod printing;
mod sampling;
mod script;
mod setting;
mod sources;
mod status;
mod top;
mod work;

pub use chore::{Chore, chore_of};
pub use ended::{Ended, perform};
pub use finish::{end, of_start};
pub use job::{Job, prepare};
pub use lent::Lent;
pub use nb_sample::sample_line;
pub use printing::{Worked, print};
pub use sampling::sample_run;
pub use status::{Input, Mistake, Status};
pub use top::run_alone;
pub use work::{Task, serve};
