//! What follows from the definitions of images, for those who build on a disk.
ghost use Rattle.std.specs.Prelude.{◌≡◌, [], ◌∷◌, ◌++◌, ◌<◌, ◌≤◌, List, ℕ, length, false, true, Some, is_some};
ghost use Rattle.hex.specs.Hex.{IsBytes};
ghost use Rattle.cm_disk.specs.Disk.{File, Files, byte_at, IsImage, Only, is_above};
ghost use Rattle.cm_disk.specs.Images.{Stand, IsLeft, at_rest, is_touched};
ghost use Rattle.cm_disk.specs.declared.calls.Call.{Call};
ghost use Rattle.cm_disk.specs.declared.calls.Work.TheVariants.{Sync};
ghost use Rattle.cm_disk.specs.Ranks.{ahead};
ghost use Rattle.cm_disk.specs.Stands.{files_after, left_after};
ghost use Rattle.cm_disk.specs.Walks.{AreListed};

/// After a successful sync each image has what a read gives.
pub fn a_synced_place_is_what_reads_give()
    ensures { (read file : File) → IsLeft (at_rest read) file → file ≡ read }
{}

/// An untouched place has its durable content in each image.
pub fn an_untouched_place_is_durable()
    ensures { (s : Stand) (file : File) → s.touched ≡ [] → s.removed ≡ false → IsLeft s file → file ≡ s.durable }
{}

/// A durable byte outside the touched ranges stands in each image where the file is there.
pub fn an_untouched_byte_is_durable()
    ensures { (s : Stand) (file : File) (i byte : ℕ) → is_some file ≡ true → is_touched s.touched i ≡ false → byte_at s.durable i ≡ Some byte → IsLeft s file → byte_at file i ≡ Some byte }
{}

/// What is durable is one of the images.
pub fn what_is_durable_is_left()
    ensures { (s : Stand) → IsLeft s s.durable }
{}

/// A disk as it reads is one of its images, whatever was done on it.
pub fn a_disk_as_it_reads_is_left()
    ensures { (calls : List Call) → IsImage (left_after calls) (files_after calls) }
{}

/// Whatever was done on a disk, once a sync of a place succeeds a stop leaves there what a read gave before it.
pub fn a_sync_leaves_what_a_read_gives()
    ensures { (calls : List Call) (place : List ℕ) → Only (files_after calls place) (left_after (calls ++ record { place = place; work = Sync; done = true } ∷ []) place) }
{}

/// Two listings of the same files are equal.
pub fn files_have_one_listing()
    ensures { (files : Files) (one two : List (List ℕ)) → AreListed files one → AreListed files two → one ≡ two }
{}

/// A place above another is nearer to the end of a walk.
pub fn a_place_above_is_nearer_to_the_end()
    ensures { (at place : List ℕ) → IsBytes at → length at ≤ 120 → length place ≤ 120 → is_above (Some at) place ≡ true → ahead (Some place) < ahead (Some at) }
{}
