//! Names, ids and hashes, the reader of fixed fields, and what gives and takes bytes.
#![tactic(auto)]

mod decimal;
mod field_reader;
mod file_hasher;
mod hash;
mod in_memory;
mod job_id;
mod label;
mod list;
mod listed;
mod mem_sink;
mod mem_source;
mod memory;
mod package_id;
mod place;
mod server_name;
mod short_text;
mod sink;
mod source;
mod text;
mod version;

pub use decimal::write_decimal;
pub use field_reader::FieldReader;
pub use file_hasher::FileHasher;
pub use hash::Hash;
pub use in_memory::{MemSink, MemSource};
pub use job_id::JobId;
pub use label::Label;
pub use list::List;
pub use listed::is_among;
pub use memory::Memory;
pub use package_id::PackageId;
pub use place::Place;
pub use server_name::ServerName;
pub use short_text::ShortText;
pub use sink::{Sink, SinkFault};
pub use source::{Source, SourceFault};
pub use text::{write_text, write_two};
pub use version::Version;
