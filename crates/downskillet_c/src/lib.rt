// The library as C, Fortran and Rust call it: an export for each call, over tables and arrays that the caller lends.
// Every export answers 0, or the number of a refusal. A refused one writes nothing, but that a structure call refused by
// 16 leaves the tables analysed. include/downskillet.h says the rest.
#![tactic(auto)]

mod analysing;
mod answers;
mod judging;
mod pairs;
mod refusals;
mod sizes;
mod structure;
