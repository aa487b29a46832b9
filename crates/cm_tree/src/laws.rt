//! The laws of a manifest's bytes.
ghost use Rattle.std.specs.Prelude.{◌≡◌, ℕ, ◌<◌, ◌++◌, ◌↔◌, List, Ok, slice_index};
ghost use Rattle.cm_tree.specs.declared.entry.Entry.{Entry};
ghost use Rattle.cm_tree.specs.Manifests.{IsManifest, Spells, spelling};
ghost use Rattle.cm_tree.specs.Reading.{read_manifest};

/// No spelling of a manifest begins that of another, so each has one, and each is that of one manifest.
pub fn one_spelling()
    ensures { (a b : List Entry) (x y : List ℕ) → IsManifest a → IsManifest b → spelling a ++ x ≡ spelling b ++ y → (a ≡ b) × (x ≡ y) }
{}

/// What was written is read again.
pub fn round_trip()
    ensures { (entries : List Entry) → IsManifest entries → read_manifest (spelling entries) ≡ Ok entries }
{}

/// Bytes are read exactly where they spell a manifest.
pub fn exactly_the_grammar()
    ensures { (bytes : List ℕ) (entries : List Entry) → ((i : ℕ) → slice_index bytes i < 256) → (read_manifest bytes ≡ Ok entries) ↔ Spells bytes entries }
{}
