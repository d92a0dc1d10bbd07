//! The outside world as the programs meet it: where bytes come from and go to, connections, doors,
//! folders and disks. Each is a trait with a meaning, which an implementation may tell or keep to itself,
//! and a count of its faults; beside the trait stand a form in memory and the adapters over the
//! system.
#![tactic(auto)]

mod appending;
mod bytes_source;
mod call_plan;
mod dir_folder;
mod disk;
mod disk_bytes;
mod disk_call;
mod doors;
mod endpoints;
mod entries;
mod failures;
mod file_disk;
mod file_logs;
mod finding;
mod folders;
mod links;
mod mem_disk;
mod mem_door;
mod mem_folder;
mod mem_link;
mod schedules;
mod sinks;
mod sources;
mod std_sink;
mod stores;
mod supplies;
mod tearing;
mod vec_sink;
mod whole_files;

pub use bytes_source::BytesSource;
pub use dir_folder::DirFolder;
pub use disk::Disk;
pub use doors::Door;
pub use endpoints::Endpoint;
pub use failures::{Failed, OutOfMemory};
pub use file_disk::FileDisk;
pub use folders::{Folder, FolderFault};
pub use links::Link;
pub use mem_disk::MemDisk;
pub use mem_door::MemDoor;
pub use mem_folder::MemFolder;
pub use mem_link::MemLink;
pub use sinks::{Sink, put_all};
pub use sources::Source;
pub use std_sink::StdSink;
pub use vec_sink::VecSink;
pub use whole_files::{ReadWhole, read_whole};
