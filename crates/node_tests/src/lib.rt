//! Tests of a node and of its parts, step by step, in the words of `step_text`: what the driver of reads and writes does with a disk, what
//! commands do, what one node does on its inputs, and that copies of inputs and outputs are what they are copies of.
//!
//! They stand on `step_text`, and not in it, so that it is proved once.
#![tactic(auto)]

#[cfg(test)]
mod act_words;
#[cfg(test)]
mod commands;
#[cfg(test)]
mod copies;
#[cfg(test)]
mod disk_requests;
#[cfg(test)]
mod fault_texts;
#[cfg(test)]
mod one_node;
#[cfg(test)]
mod trial;
