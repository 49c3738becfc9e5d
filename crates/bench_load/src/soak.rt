// Soaks: eight threads make calls of all kinds on one small cache, at moments that go forward and back, and what is found is compared with what may be found.
mod call;
mod caller;
mod constants;
mod draws;
pub mod errors;
mod looks;
mod made;
mod moments;
pub mod report;
mod seen;
mod size;
pub mod soaked;
pub mod stamp;
mod tally;
mod threads;

pub use threads::soak;
