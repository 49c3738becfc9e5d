// Plays: lists of calls on a cache, each list made by a thread of its own, or one list by the thread that reads the lines.
mod alone;
mod constants;
pub mod error;
mod hasher;
mod moments;
pub mod player;
pub mod request;
mod settings;
mod side;
mod thread;
