//! Reading a stream frame by frame, writing one, and a stream filtered from end to end.
#![tactic(auto)]

mod data;
pub mod device;
pub mod fault;
mod filter;
mod frame_line;
pub mod laws;
mod line;
mod lookahead;
mod overlapped;
mod passing;
mod put;
pub mod reader;
mod wanted;
pub mod writer;

pub use device::{OverRead, OverWrite, Sink, Source};
pub use fault::{FilterFault, ReadFault, WriteFault};
pub use filter::{filter_between, filter_bytes, filter_stream, resized_header, shown_header};
pub use overlapped::{LEAST_OVERLAPPED, filter_overlapped};
pub use put::put_all;
pub use reader::StreamReader;
pub use wanted::Wanted;
pub use writer::StreamWriter;
