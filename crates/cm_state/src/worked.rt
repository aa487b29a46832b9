//! A worked example of the definitions, against bytes that another program computed.
ghost use Rattle.std.specs.Prelude.{◌≡◌, ◌∷◌, [], None, Some, length, codes, drop};
ghost use Rattle.cm_filelib.specs.Places.{file_place};
ghost use Rattle.cm_datalib.specs.Places.{manifest_place};
ghost use Rattle.cm_state.specs.Worked.{hash_of_abc, three_entries, three_manifest, three_opened, three_done, spelled_log, three_log};
ghost use Rattle.cm_pkglib.specs.Changes.{spelled, read_change};
ghost use Rattle.cm_tree.specs.Manifests.{spelling};
ghost use Rattle.cm_log.specs.declared.shelf.Shelf.TheVariants.{PkgLib};
ghost use Rattle.cm_log.specs.declared.shelf.Side.TheVariants.{First};
ghost use Rattle.cm_log.specs.Shelves.{log_place};
ghost use Rattle.cm_state.specs.State.{empty};
ghost use Rattle.cm_state.specs.Look.{Missing, Opened, Unreadable, look};
ghost use Rattle.cm_state.specs.SmallLogs.{with_log, log_of, three_dropped, three_removed, once_opened};

/// The manifest of three small files has these 140 bytes, and the log of a new library to which they were added these 91;
/// the records are read again, and one that is a byte short, or of no kind, is not.
pub fn three_files()
    ensures manifest { spelling three_entries ≡ three_manifest }
    ensures manifest_length { length three_manifest ≡ 140 }
    ensures log { spelled_log ≡ three_log }
    ensures log_length { length three_log ≡ 91 }
    ensures done { read_change (spelled three_done) ≡ Some three_done }
    ensures opened { read_change (spelled three_opened) ≡ Some three_opened }
    ensures short { read_change (2 ∷ 1 ∷ []) ≡ None }
    ensures no_kind { read_change (0 ∷ drop 1 (spelled three_done)) ≡ None }
    ensures place { manifest_place (codes "PS100001") 1 ≡ codes "DataLib/PS100001.1" }
    ensures file { file_place hash_of_abc ≡ codes "FileLib/ba7816bf8f01cfea414140de5dae2223b00361a396177a9cb410ff61f20015ad" }
{}

/// What small logs are as a library: none where `ready` is absent; bytes behind a closed gate mean nothing; a record that is cut,
/// off the grammar or refused is named by its place; a manifest that is absent by its own.
pub fn small_logs()
    ensures none { look (λ place. None) ≡ Missing }
    ensures fresh { look (with_log (log_of [] (0 ∷ []))) ≡ Opened empty }
    ensures behind { look (with_log (log_of [] (2 ∷ 1 ∷ 9 ∷ []))) ≡ Opened empty }
    ensures refused { look (with_log (log_of (spelled three_done ∷ []) (0 ∷ []))) ≡ Unreadable (log_place PkgLib First) 10 }
    ensures off_grammar { look (with_log (log_of ((5 ∷ []) ∷ []) (0 ∷ []))) ≡ Unreadable (log_place PkgLib First) 10 }
    ensures cut { look (with_log (log_of (spelled three_opened ∷ []) [])) ≡ Unreadable (log_place PkgLib First) 76 }
    ensures no_manifest { look (with_log (log_of (spelled three_opened ∷ []) (0 ∷ []))) ≡ Unreadable (manifest_place (codes "PS100001") 1) 0 }
    ensures dropped { look (with_log (log_of (spelled three_opened ∷ spelled three_dropped ∷ []) (0 ∷ []))) ≡ Opened once_opened }
    ensures removed { look (with_log (log_of (spelled three_opened ∷ spelled three_done ∷ spelled three_removed ∷ []) (0 ∷ []))) ≡ Opened once_opened }
    ensures removed_twice { look (with_log (log_of (spelled three_opened ∷ spelled three_done ∷ spelled three_removed ∷ spelled three_removed ∷ []) (0 ∷ []))) ≡ Unreadable (log_place PkgLib First) 108 }
{}
