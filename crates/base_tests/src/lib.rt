//! Tests of the crates below a node's parts. Of `object_id`: ids and policies by their layout, words, entries of the log. Of
//! `strip_coding`: strips and parts. Of `sheep_proto` and `inode`: headers and inodes. Of `epoch_log`: what logs take and tell. Of
//! `object_store`: what stores of rows give by the trait alone, and lists of ids. Of `vdi_directory`: the decisions on the entries of logs
//! and which disks are dead then. And the longest inode and a long queue. The values were worked out by hand, or by a program that was
//! written apart from this one.
//!
//! A crate with tests is proved twice, once as a library and once more with them. These tests use public calls alone, so they stand
//! here, above the crates that they test: the proofs of those are done once, and here only those of the test functions.
#![tactic(auto)]

#[cfg(test)]
mod directories;
#[cfg(test)]
mod directory_rows;
#[cfg(test)]
mod entries;
#[cfg(test)]
mod far_bounds;
#[cfg(test)]
mod headers;
#[cfg(test)]
mod id_lists;
#[cfg(test)]
mod ids;
#[cfg(test)]
mod inodes;
#[cfg(test)]
mod large_directories;
#[cfg(test)]
mod log_words;
#[cfg(test)]
mod logs;
#[cfg(test)]
mod object_parts;
#[cfg(test)]
mod plain_rows;
#[cfg(test)]
mod plain_words;
#[cfg(test)]
mod strips;
