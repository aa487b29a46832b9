//! A disk, by what reads give and what a stop may leave.
#![tactic(auto)]

mod calls;
mod crash;
mod crash_test;
mod disk;
mod hashing;
mod host;
mod host_disk;
mod host_listing;
mod host_names;
mod laws;
mod mem_disk;
mod memory;
mod memory_calls;
mod places;
mod read_ahead;
mod slots;
mod walk;

pub use crash_test::{CrashFault, at_each_crash};
pub use disk::{Disk, DiskFault};
pub use hashing::hash_file;
pub use host_disk::HostDisk;
pub use laws::{
    a_disk_as_it_reads_is_left, a_place_above_is_nearer_to_the_end,
    a_sync_leaves_what_a_read_gives, a_synced_place_is_what_reads_give,
    an_untouched_byte_is_durable, an_untouched_place_is_durable, files_have_one_listing,
    what_is_durable_is_left,
};
pub use memory::MemDisk;
pub use walk::{Form, next_of_form};
