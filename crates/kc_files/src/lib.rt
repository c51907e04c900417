//! Files that are replaced whole, or stay as they are.
//!
//! A [`Folder`](folder::Folder) begins a part of a file, which stands beside it and is a sink. When all is written the part is put in the
//! place of the file; where that fails or a write has failed, the part is taken away, and the file is as it was. So whoever reads the file
//! finds the old bytes or all of the new ones.
//!
//! [`MemFolder`](mem_folder::MemFolder) has one file in memory, whose bytes it tells, and refuses what it is told to refuse.
//! [`StdFolder`](std_folder::StdFolder) works on the files of a runtime: it tells no bytes, and what the operating system does is trusted.
//! The crate stands on `kc_io`.
#![tactic(auto)]

pub mod fault;
pub mod folder;
pub mod mem_folder;
pub mod std_folder;
