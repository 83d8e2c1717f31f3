// Boards: jobs in the course of being grouped, with steps that are tried, kept or taken back.
#![tactic(auto)]

mod board;
mod booking;
mod cells;
mod loading;
mod playing;
mod reading;
mod refusals;
mod remains;
mod state;
mod steps;
mod trial;

pub use board::Board;
pub use loading::check;
pub use playing::{Played, RefusedStep, play};
pub use refusals::{LoadRefusal, RemainingRefusal, StepRefusal};
pub use trial::Trial;
