//! The definitions on a worked site, and on small logs.
ghost use Rattle.std.specs.Prelude.{◌≡◌, ◌^◌, ◌-◌, ◌∷◌, [], None, Some, true, false, codes, length, map};
ghost use Rattle.cm_log.specs.declared.shelf.Shelf.TheVariants.{Site};
ghost use Rattle.cm_log.specs.declared.shelf.Side.TheVariants.{First};
ghost use Rattle.cm_log.specs.Logs.{shelved};
ghost use Rattle.cm_log.specs.Shelves.{log_place};
ghost use Rattle.cm_notes.specs.declared.note.Note.TheVariants as note;
ghost use Rattle.cm_notes.specs.declared.to.To.TheVariants as to;
ghost use Rattle.cm_notes.specs.Notes.{spelled};
ghost use Rattle.cm_textlib.specs.Places.{topology_place};
ghost use Rattle.cm_register.specs.declared.target.TargetState.TheVariants as state;
ghost use Rattle.cm_register.specs.AfterNote.{after_note, tried};
ghost use Rattle.cm_register.specs.Look.{Missing, Opened, Unreadable, look};
ghost use Rattle.cm_register.specs.Records.{first_state, no_records, peer_state};
ghost use Rattle.cm_register.specs.Texts.{names_text};
ghost use Rattle.cm_register.specs.Worked.{all_have_it, app, both_versions, cached_row, deleted, france, hash_of, joined_with_target, log_of, lone_row, members_backwards, of_number, peers_told, sent_after_failure, target, wider, with_log, with_peers, without_group};

/// What each record changes, and what it leaves.
#[tactic(auto, unfolding(crate::specs::AfterNote::after_note, crate::specs::AfterNote::after_topology))]
pub fn records_change()
    ensures lone { lone_row.targets ≡ [] }
    ensures sent_stays { lone_row.sent ≡ record { id = app; version = 1; to = to.Point (codes "dp1") } ∷ [] }
    ensures gone { after_note (note.Gone (codes "dp1") app 1) None lone_row ≡ lone_row }
    ensures again { sent_after_failure.targets ≡ target (codes "dp2") (state.Due 9 0) 2 ∷ [] }
    ensures joined { joined_with_target.targets ≡ target (codes "dp1") (state.Due 5 0) 2 ∷ target (codes "dp2") (state.Due 5 0) 1 ∷ target (codes "dp4") (state.Due 5 0) 3 ∷ [] }
    ensures by_name { members_backwards.targets ≡ target (codes "dp1") (state.Due 5 0) 1 ∷ target (codes "dp4") (state.Due 5 0) 2 ∷ [] }
    ensures numbers { map (λ row. row.number) (after_note (note.Topology 2 0 (hash_of 0) 5) (Some wider) both_versions).targets ≡ 1 ∷ 3 ∷ 5 ∷ 6 ∷ 2 ∷ 4 ∷ [] }
    ensures minute { map (λ row. row.state) (after_note (note.Topology 2 0 (hash_of 0) 5) (Some wider) both_versions).targets ≡ state.Installed ∷ state.Installed ∷ state.Due 5 0 ∷ state.Due 5 0 ∷ state.Installed ∷ state.Installed ∷ [] }
    ensures greatest { (after_note (note.Topology 3 0 (hash_of 0) 0) (Some france) members_backwards).number ≡ 5 }
    ensures last { (after_note (note.Topology 4294967295 0 (hash_of 0) 0) (Some france) members_backwards).number ≡ 4294967295 }
    ensures no_group { (after_note (note.Topology 6 0 (hash_of 0) 0) (Some without_group) members_backwards).sent ≡ [] }
    ensures deleted { after_note (note.Deleted app 2) None (after_note (note.Deleted app 1) None all_have_it) ≡ record all_have_it { sent = []; peers = (codes "pc7", first_state) ∷ (codes "pc8", first_state) ∷ (codes "pc9", first_state) ∷ [] } }
{}

/// What records that name nothing there change, and the last try.
#[tactic(auto, unfolding(crate::specs::AfterNote::after_note, crate::specs::AfterNote::after_topology))]
pub fn odd_records()
    ensures nothing { after_note (note.Installed (codes "dp2") app 9) None all_have_it ≡ all_have_it }
    ensures version { after_note (note.Gone (codes "dp2") app 9) None all_have_it ≡ all_have_it }
    ensures absent { after_note (note.Sent app 2 (to.Point (codes "dp9")) 5) None all_have_it ≡ all_have_it }
    ensures group { after_note (note.Sent app 2 (to.Group (codes "dp1")) 5) None all_have_it ≡ all_have_it }
    ensures installed { after_note (note.Tried (codes "dp1") app 1 99) None all_have_it ≡ all_have_it }
    ensures again { after_note (note.Cached (codes "pc9") app 1 (hash_of 7)) None all_have_it ≡ all_have_it }
    ensures peer { after_note (note.PeerState (codes "pc0") true 1 1 1) None all_have_it ≡ all_have_it }
    ensures stays { (after_note (note.Sent app 1 (to.Point (codes "dp1")) 5) None (after_note (note.Leaving (codes "dp1") app 1) None lone_row)).targets ≡ target (codes "dp1") (state.Due 5 0) 2 ∷ [] }
    ensures failed { tried (2 ^ 64 - 1) (state.Due 7 99) ≡ state.Failed }
    ensures still { tried 8 (state.Due 7 255) ≡ state.Due 8 255 }
{}

/// The states of peers that stay, leave, come and come back.
#[tactic(auto, unfolding(crate::specs::AfterNote::after_note, crate::specs::AfterNote::after_topology))]
pub fn peers_change()
    ensures told { peer_state (codes "pc9") peers_told.peers ≡ Some (record { low_battery = true; load = 81; queue = 2; used = 3; cached = cached_row 1 7 ∷ [] }) }
    ensures other { peer_state (codes "pc8") peers_told.peers ≡ Some first_state }
    ensures cached { peer_state (codes "pc9") (after_note (note.Cached (codes "pc9") app 2 (hash_of 8)) None peers_told).peers ≡ Some (record { low_battery = true; load = 81; queue = 2; used = 3; cached = cached_row 1 7 ∷ cached_row 2 8 ∷ [] }) }
    ensures replaced { (after_note (note.Topology 2 0 (hash_of 0) 5) (Some (with_peers (codes "pc9" ∷ codes "pc1" ∷ []))) peers_told).peers
        ≡ (codes "pc9", record { low_battery = true; load = 81; queue = 2; used = 3; cached = cached_row 1 7 ∷ [] }) ∷ (codes "pc1", first_state) ∷ [] }
    ensures back { peer_state (codes "pc7") (after_note (note.Topology 3 0 (hash_of 0) 5) (Some france) (after_note (note.Topology 2 0 (hash_of 0) 5) (Some (with_peers (codes "pc9" ∷ []))) peers_told)).peers ≡ Some first_state }
{}

/// What small logs are as records: none where `ready` is absent; bytes behind a closed gate mean nothing; a record that is cut, off the
/// grammar or of another kind is named by its place, a text that is absent by its own; of two faults the first is told.
pub fn small_logs()
    ensures none { look (λ place. None) ≡ Missing }
    ensures fresh { look (with_log (log_of [] (0 ∷ []))) ≡ Opened no_records }
    ensures behind { look (with_log (log_of [] (2 ∷ 1 ∷ 9 ∷ []))) ≡ Opened no_records }
    ensures cut { look (with_log (log_of [] (1 ∷ 13 ∷ 0 ∷ []))) ≡ Unreadable (log_place Site First) 13 }
    ensures off_grammar { look (with_log (log_of ((10 ∷ []) ∷ []) (0 ∷ []))) ≡ Unreadable (log_place Site First) 10 }
    ensures kind { look (with_log (log_of (spelled deleted ∷ []) (0 ∷ []))) ≡ Unreadable (log_place Site First) 10 }
    ensures no_text { look (with_log (log_of (spelled (of_number 3) ∷ []) (0 ∷ []))) ≡ Unreadable (topology_place 3) 0 }
    ensures text_first { look (with_log (log_of (spelled (of_number 3) ∷ spelled deleted ∷ []) (1 ∷ []))) ≡ Unreadable (topology_place 3) 0 }
    ensures kind_first { look (with_log (log_of (spelled deleted ∷ spelled (of_number 3) ∷ []) (1 ∷ []))) ≡ Unreadable (log_place Site First) 10 }
    ensures named { names_text 3 (shelved Site (with_log (log_of (spelled deleted ∷ spelled (of_number 3) ∷ []) (0 ∷ [])))) ≡ true }
    ensures unnamed { names_text 4 (shelved Site (with_log (log_of (spelled deleted ∷ spelled (of_number 3) ∷ []) (0 ∷ [])))) ≡ false }
{}
