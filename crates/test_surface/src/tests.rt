//! A story for each of the nine crates, mostly on the small pit.
mod book;
mod cli;
mod model;
mod num;
mod plan;
mod run;
mod share;
mod text;
mod tiny;
mod tx;
