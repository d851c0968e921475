// What the program `patches` answers: from a mask as text to its patch list as text. Nothing here
// reads or prints.
#![tactic(auto)]

pub mod internal; // internal.rt: the whole of it
mod read; // read.rt: the mask of a text
mod print; // print.rt: the text of a patch list
