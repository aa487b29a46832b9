//! The laws of stored manifests.
ghost use Rattle.std.specs.Prelude.{◌≡◌, List, ℕ, length, Some, Ok, true};
ghost use Rattle.sha2.specs.Sha256.{sha256};
ghost use Rattle.cm_base.specs.declared.hash.Hash.{Hash as hash_value};
ghost use Rattle.cm_tree.specs.declared.entry.Entry.{Entry as entry_value};
ghost use Rattle.cm_tree.specs.Manifests.{IsManifest, spelling};
ghost use Rattle.cm_datalib.specs.Loads.{loaded};
ghost use Rattle.cm_datalib.specs.Places.{manifest_place, is_version, version_named};

/// The place of a manifest names its version, and no other place does.
pub fn a_place_names_its_version()
    ensures named { (id : List ℕ) (version : ℕ) → is_version id version ≡ true → version_named (manifest_place id version) ≡ Some (id, version) }
    ensures only { (place id : List ℕ) (version : ℕ) → version_named place ≡ Some (id, version) → place ≡ manifest_place id version }
{}

/// What was stored is loaded, by the size and the SHA-256 of its spelling.
pub fn what_is_stored_is_loaded()
    ensures { (manifest : List entry_value) (hash : hash_value) → IsManifest manifest → hash.0 ≡ sha256 (spelling manifest) → loaded hash (length (spelling manifest)) (Some (spelling manifest)) ≡ Ok manifest }
{}
