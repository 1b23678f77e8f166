//! The judge's book: what is kept of each thread's records, by which a further record is judged and taken in constant time.
#![tactic(auto)]

mod book;
mod fitting;
mod pages;
mod questions;
mod tables;
mod taking;
mod threads;
mod verdicts;
mod views;

pub use book::Book;
