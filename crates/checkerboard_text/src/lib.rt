// What the program `most_patches` answers: from a size as text to its checkerboard as text. Nothing
// here reads or prints.
#![tactic(auto)]

pub mod internal; // internal.rt: the whole of it
mod print; // print.rt: the text of a mask
mod read; // read.rt: the size of a text
