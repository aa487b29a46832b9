//! What the words of the command line say.
use cm_base::{JobId, List, PackageId, ServerName, Version};

/// What the words of the command line say.
#[derive(Drop)]
pub enum Line {
    /// Makes a library, or the records, in each of these bays that has nothing, or in all where none is named.
    Init {
        names: List<ServerName>,
    },
    /// Adds the folder as version 1 of a package that was never opened.
    Add {
        package: PackageId,
    },
    /// Adds the folder as the version behind the greatest one that was opened of a package.
    Update {
        package: PackageId,
    },
    /// Gives up an unfinished job of a bay.
    Drop {
        bay: ServerName,
        job: JobId,
    },
    /// Lists the versions and unfinished jobs of a bay.
    List {
        bay: ServerName,
    },
    /// Reads the stored files of a version of a bay again.
    Validate {
        bay: ServerName,
        package: PackageId,
        version: Version,
    },
    /// Lists what a purge of a bay would remove.
    WhatIf {
        bay: ServerName,
    },
    /// Removes what no version and no unfinished job of a bay needs.
    Purge {
        bay: ServerName,
    },
    /// Replaces the topology by what the input says.
    Topology,
}
