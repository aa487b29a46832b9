//! The laws of stored files and of those that are being written.
ghost use Rattle.std.specs.Prelude.{◌≡◌, ◌≢◌, List, ℕ, length, Some};
ghost use Rattle.hex.specs.Hex.{IsBytes};
ghost use Rattle.cm_disk.specs.Disk.{File, Files, put};
ghost use Rattle.cm_filelib.specs.declared.writing.Writing.{Writing as writing_value};
ghost use Rattle.cm_filelib.specs.Places.{file_place, hash_named};
ghost use Rattle.cm_filelib.specs.Writings.{place_of, IsWriting};

/// The place of a file names its hash, and no other place does.
pub fn a_place_names_its_hash()
    ensures named { (hash : List ℕ) → IsBytes hash → length hash ≡ 32 → hash_named (file_place hash) ≡ Some hash }
    ensures only { (place hash : List ℕ) → hash_named place ≡ Some hash → place ≡ file_place hash }
{}

/// A file that is being written stays so as long as reads of its place give the same, whatever is done at other places.
pub fn a_writing_stays()
    ensures same { (writing : writing_value) (before after : Files) → after (place_of writing) ≡ before (place_of writing) → IsWriting before writing → IsWriting after writing }
    ensures elsewhere { (writing : writing_value) (files : Files) (place : List ℕ) (file : File) → place ≢ place_of writing → IsWriting files writing → IsWriting (put files place file) writing }
{}
