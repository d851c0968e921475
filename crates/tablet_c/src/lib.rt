// The library for the tablet as C links it: every public function of the crate tablet, under its
// name and with its clauses (host/include/tablet.h). Each calls tablet's and does nothing more.
#![tactic(auto)]

mod boards;
mod books;
mod fits;
mod frames;
mod lens;
mod looks;
mod matrices;
mod pages;
mod pictures;
mod rectangles;
mod whole;
