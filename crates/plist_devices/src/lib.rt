//! Devices that give and take bytes: the traits [`Source`] and [`Sink`], with implementations over
//! memory and over the standard library's readers and writers.
#![tactic(auto)]

pub mod devices;
mod faults;
pub mod growing_sink;
pub mod list_sink;
pub mod list_source;
pub mod putting;
pub mod reader_source;
pub mod sinks;
pub mod sources;
pub mod stream;
pub mod writer_sink;

pub use devices::{ReadDevice, WriteDevice};
pub use faults::DeviceFault;
pub use growing_sink::GrowingSink;
pub use list_sink::ListSink;
pub use list_source::ListSource;
pub use putting::put_all;
pub use reader_source::ReaderSource;
pub use sinks::Sink;
pub use sources::Source;
pub use stream::Stream;
pub use writer_sink::WriterSink;
