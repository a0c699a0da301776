//! The program `plistconv` on any files, input and output: its commands, their results and exit
//! statuses. Also exports all that the library offers: sources and sinks, loading and converting,
//! canonical files, refusals.
#![tactic(auto)]

pub mod answers;
mod arguments;
mod commands;
mod created_file;
mod entry;
mod executing;
pub mod file_disk;
mod filtering;
mod help;
pub mod host_disk;
pub mod opens;
mod printing;
mod random_keys;
mod request;
mod verdicts;

pub use arguments::read_words;
pub use entry::{run, run_on, run_to_end};
pub use file_disk::FileDisk;
pub use host_disk::HostDisk;
pub use plist_devices::{
    DeviceFault, ListSink, ListSource, ReaderSource, Sink, Source, Stream, WriterSink, put_all,
};
pub use plist_forms::{
    Fault, Form, MAX_INPUT, PairFault, Status, canonicalise, convert, laws, line, load, read_any,
    same_files,
};
pub use request::Request;
