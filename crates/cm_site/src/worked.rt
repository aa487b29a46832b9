//! The definitions on a worked site of four bays.
ghost use Rattle.std.specs.Prelude.{◌≡◌, ◌⊎◌, ◌<◌, ◌≤◌, ◌^◌, ◌-◌, ◌∷◌, [], ℕ, List, None, Some, Ok, Err, true, false, codes, length};
ghost use Rattle.sha2.specs.Sha256.{sha256};
ghost use Rattle.cm_check.specs.declared.finding.FindingKind.TheVariants as kind;
ghost use Rattle.cm_notes.specs.declared.note.Note.TheVariants as note;
ghost use Rattle.cm_register.specs.declared.target.TargetState.TheVariants as state;
ghost use Rattle.cm_register.specs.Kept.{under_alone};
ghost use Rattle.cm_register.specs.Look.{Missing as NoRecords, Opened as OpenedRecords, Unreadable as UnreadableRecords};
ghost use Rattle.cm_register.specs.Records.{Records, no_records};
ghost use Rattle.cm_register.specs.Worked.{app, hash_of, target};
ghost use Rattle.cm_state.specs.Changes.{Begun, Finished, Dropped as JobDropped};
ghost use Rattle.cm_state.specs.Look.{Missing, Opened, Unreadable};
ghost use Rattle.cm_state.specs.State.{empty, held_of};
ghost use Rattle.cm_topo.specs.declared.fault.TopoFault.TheVariants as fault;
ghost use Rattle.cm_topo.specs.declared.topology.Topology.{Topology as a_topology};
ghost use Rattle.cm_site.specs.Contents.{OfLibrary, OfRecords, Made, InLibrary, InRecords, records_bay, site};
ghost use Rattle.cm_site.specs.Machine.{changing, refused, replied, step_add, step_drop, step_init, step_list, step_purge, step_topology, step_update, step_validate, step_what_if, told};
ghost use Rattle.cm_site.specs.Opening.{NoBayFor, NoLibrary, NotReadable, closed_in, without_bay};
ghost use Rattle.cm_site.specs.Refusals.{in_use, records_under, too_many_rows, topology_refusals};
ghost use Rattle.cm_site.specs.Runs.{after, is_purged};
ghost use Rattle.cm_site.specs.Worked.{at_first, at_second, at_site, backwards, both_aimed, both_members, first, four, from_text, full, given, held, in_library, kept_at, library_part, new_world, nothing_there, records_part, refused_as, second, sent_to_group, start, step_of, told_of, topology_with, with_gate, with_last, with_records, with_third, without, without_first};
ghost use Rattle.cm_site.specs.Worlds.{Kept, World, at, own};
ghost use Rattle.cm_site.specs.declared.reply.Refusal.TheVariants as refusal;
ghost use Rattle.cm_site.specs.declared.reply.Reply.TheVariants as reply;

/// The first bay in order that is not open is told, before any point without a bay; of these the first in the topology's order. A command
/// of a site that is not opened changes nothing.
pub fn bays_are_opened_in_order()
    ensures open { closed_in new_world ≡ None }
    ensures missing_first { closed_in (four (Opened empty) (OpenedRecords no_records) Missing (Unreadable (codes "x") 7)) ≡ Some (NoLibrary first) }
    ensures unreadable_first { closed_in (four (Opened empty) (OpenedRecords no_records) (Unreadable (codes "x") 7) Missing) ≡ Some (NotReadable first (codes "x") 7) }
    ensures site_first { closed_in (four (Unreadable (codes "x") 7) NoRecords Missing Missing) ≡ Some (NotReadable site (codes "x") 7) }
    ensures records_second { closed_in (four (Opened empty) NoRecords Missing Missing) ≡ Some (NoLibrary records_bay) }
    ensures records_unreadable { closed_in (four (Opened empty) (UnreadableRecords (codes "y") 3) Missing Missing) ≡ Some (NotReadable records_bay (codes "y") 3) }
    ensures every_point { closed_in (with_records (told_of backwards)) ≡ None }
    ensures no_bay { closed_in (without first (without second (with_records (told_of backwards)))) ≡ Some (NoBayFor second) }
    ensures one_bay { closed_in (without first (with_records (told_of backwards))) ≡ Some (NoBayFor first) }
    ensures bays_before { closed_in (without second (four (Opened empty) (OpenedRecords (told_of backwards)) Missing Missing)) ≡ Some (NoLibrary first) }
    ensures no_records { closed_in (without records_bay (without first new_world)) ≡ None }
    ensures listed { step_list first given nothing_there ≡ replied (reply.NoLibrary site) }
    ensures told { step_topology given (four (Opened empty) (UnreadableRecords (codes "y") 3) Missing Missing) ≡ replied (reply.Unreadable records_bay (codes "y") 3) }
    ensures dropped { step_drop first 1 given (without second (with_records (told_of backwards))) ≡ replied (reply.NoBayFor second) }
{}

/// What `init` makes, bay by bay in their order, and what it leaves and does not count.
pub fn bays_are_made()
    ensures all { (step_init [] nothing_there).reply ≡ reply.Made 4 }
    ensures in_order { (step_init [] nothing_there).changes ≡ at site Made ∷ at records_bay Made ∷ at first Made ∷ at second Made ∷ [] }
    ensures again { step_init [] new_world ≡ replied (reply.Made 0) }
    ensures named { (step_init (second ∷ records_bay ∷ []) nothing_there).changes ≡ at records_bay Made ∷ at second Made ∷ [] }
    ensures twice { (step_init (first ∷ first ∷ []) nothing_there).reply ≡ reply.Made 1 }
    ensures there { step_init (first ∷ []) (four Missing NoRecords (Opened at_first) Missing) ≡ replied (reply.Made 0) }
    ensures unreadable { (step_init [] (four (Opened at_site) (UnreadableRecords (codes "y") 3) (Unreadable (codes "x") 7) Missing)).changes ≡ at second Made ∷ [] }
    ensures no_bay { step_init (first ∷ codes "dp9" ∷ codes "dp8" ∷ []) nothing_there ≡ replied (reply.Refused (refusal.NoBay (codes "dp9"))) }
    ensures not_opened { (step_init (first ∷ []) nothing_there).opens ≡ false }
    ensures two_made { after 2 (step_init [] nothing_there) (records_part NoRecords) ≡ OfRecords (OpenedRecords no_records) }
    ensures third_not { after 2 (step_init [] nothing_there) (library_part first Missing) ≡ OfLibrary Missing }
    ensures third_made { after 3 (step_init [] nothing_there) (library_part first Missing) ≡ OfLibrary (Opened empty) }
    ensures others { after 1 (step_init (first ∷ []) nothing_there) (library_part second Missing) ≡ OfLibrary Missing }
{}

/// A command goes to the library of the bay that it names; a bay that is absent, or is the records, is refused before all else.
pub fn libraries_are_found()
    ensures site { step_list site given start ≡ told (reply.Versions (record { «package» = app; version = 1; entries = 1; bytes = 3; hash = hash_of 0 } ∷ []) []) }
    ensures point { step_list first given start ≡ told (reply.Versions [] (record { job = 1; «package» = app; version = 1; entries = 1; bytes = 3; hash = hash_of 0 } ∷ [])) }
    ensures listed_nowhere { step_list (codes "dp9") given start ≡ refused (refusal.NoBay (codes "dp9")) }
    ensures listed_records { step_list records_bay given start ≡ refused (refusal.NoBay records_bay) }
    ensures dropped_nowhere { step_drop (codes "dp9") 7 given start ≡ refused (refusal.NoBay (codes "dp9")) }
    ensures dropped_records { step_drop records_bay 1 given start ≡ refused (refusal.NoBay records_bay) }
    ensures validated_nowhere { step_validate (codes "dp9") app 9 given start ≡ refused (refusal.NoBay (codes "dp9")) }
    ensures validated_records { step_validate records_bay app 1 given start ≡ refused (refusal.NoBay records_bay) }
    ensures asked_nowhere { step_what_if (codes "dp9") given start ≡ refused (refusal.NoBay (codes "dp9")) }
    ensures purged_records { step_purge records_bay given start ≡ refused (refusal.NoBay records_bay) }
    ensures valid { step_validate site app 1 given start ≡ told (reply.Findings 1 (record { path = codes "sitek"; kind = kind.Missing } ∷ [])) }
    ensures valid_there { step_validate second app 1 given start ≡ told (reply.Findings 1 (record { path = codes "dp2k"; kind = kind.Missing } ∷ [])) }
    ensures unfinished { step_validate first app 1 given start ≡ refused refusal.NoVersion }
    ensures no_job { step_drop site 1 given start ≡ refused refusal.NoJob }
    ensures other_job { step_drop first 3 given start ≡ refused refusal.NoJob }
{}

/// What a command changes in the library of one bay, and that the others stay.
pub fn libraries_change()
    ensures dropped { step_drop first 1 given start ≡ changing (in_library first (JobDropped 1) ∷ []) reply.Dropped }
    ensures at_point { after 1 (step_drop first 1 given start) (library_part first (Opened at_first)) ≡ OfLibrary (Opened (record at_first { jobs = [] })) }
    ensures before { after 0 (step_drop first 1 given start) (library_part first (Opened at_first)) ≡ OfLibrary (Opened at_first) }
    ensures not_at_site { after 1 (step_drop first 1 given start) (library_part site (Opened at_first)) ≡ OfLibrary (Opened at_first) }
    ensures added { step_add (codes "PS100002") given start ≡ changing (in_library site (Begun 2 (codes "PS100002") 1 []) ∷ in_library site (Finished 2) ∷ []) (reply.Added (codes "PS100002") 1 0 0) }
    ensures begun { after 1 (step_add (codes "PS100002") given start) (library_part site (Opened at_site)) ≡ OfLibrary (Opened (record { versions = held 1 ∷ []; jobs = (2, held_of (codes "PS100002") 1 []) ∷ []; next = 3; lasts = (app, 1) ∷ (codes "PS100002", 1) ∷ [] })) }
    ensures finished { after 2 (step_add (codes "PS100002") given start) (library_part site (Opened at_site)) ≡ OfLibrary (Opened (record { versions = held 1 ∷ held_of (codes "PS100002") 1 [] ∷ []; jobs = []; next = 3; lasts = (app, 1) ∷ (codes "PS100002", 1) ∷ [] })) }
    ensures only_at_site { after 2 (step_add (codes "PS100002") given start) (library_part second (Opened at_second)) ≡ OfLibrary (Opened at_second) }
    ensures there { step_add app given start ≡ refused (refusal.PackageThere 1) }
    ensures updated { (step_update app given (with_last 7)).reply ≡ reply.Added app 8 0 0 }
    ensures last { (step_update app given (with_last 4294967294)).reply ≡ reply.Added app 4294967295 0 0 }
    ensures spent { step_update app given (with_last 4294967295) ≡ refused refusal.VersionsSpent }
    ensures never { step_update (codes "PS1000FF") given start ≡ refused refusal.NoPackage }
    ensures room { (step_add (codes "PS100002") given (with_gate site (2 ^ 40 - 1048576) start)).reply ≡ reply.Added (codes "PS100002") 1 0 0 }
    ensures no_room { step_add (codes "PS100002") given (with_gate site (2 ^ 40 - 1048575) start) ≡ refused refusal.Spent }
    ensures other_room { (step_add (codes "PS100002") given (with_gate first full start)).reply ≡ reply.Added (codes "PS100002") 1 0 0 }
    ensures asked { step_what_if first given start ≡ record (told (reply.Loose given.loose)) { asks = Some first } }
    ensures purged { step_purge first given start ≡ record (told (reply.Purged 0 2)) { purges = Some first; asks = Some first } }
    ensures purged_there { is_purged (step_purge first given start) first ≡ true }
    ensures not_purged { is_purged (step_purge first given start) site ≡ false }
{}

/// The changes of one bay among those of several, in their order.
pub fn changes_are_of_their_bays()
    ensures point { own first (in_library site (Finished 1) ∷ in_library first (JobDropped 1) ∷ in_library site (JobDropped 2) ∷ []) ≡ InLibrary (JobDropped 1) ∷ [] }
    ensures in_order { own site (in_library site (Finished 1) ∷ in_library first (JobDropped 1) ∷ in_library site (JobDropped 2) ∷ []) ≡ InLibrary (Finished 1) ∷ InLibrary (JobDropped 2) ∷ [] }
    ensures none { own second (in_library site (Finished 1) ∷ in_library first (JobDropped 1) ∷ []) ≡ [] }
{}

/// Why a topology is refused: each cause alone, and each last number that is allowed.
#[tactic(auto, unfolding(cm_register::specs::AfterNote::after_topology))]
pub fn topologies_are_refused()
    ensures taken { refused_as 4194304 (Ok backwards) (kept_at (2 ^ 40 - 134217728) (under_alone (Some backwards) 4294967294)) ≡ None }
    ensures long { refused_as 4194305 (Ok backwards) (kept_at 10 no_records) ≡ Some refusal.InputTooLong }
    ensures text { refused_as 9 (Err fault.NotToml) (kept_at 10 no_records) ≡ Some refusal.NotToml }
    ensures shape { refused_as 9 (Err (fault.WrongShape 2 3)) (kept_at 10 no_records) ≡ Some (refusal.WrongShape 2 3) }
    ensures rule { refused_as 9 (Err (fault.Rule 4 1 0)) (kept_at 10 no_records) ≡ Some (refusal.TopologyRule 4 1 0) }
    ensures bay { refused_as 9 (Ok with_third) (kept_at 10 no_records) ≡ Some (refusal.NoBay (codes "dp9")) }
    ensures no_library { refused_as 9 (Ok (topology_with (records_bay ∷ []) [])) (kept_at 10 no_records) ≡ Some (refusal.NoBay records_bay) }
    ensures in_use { refused_as 9 (Ok without_first) (kept_at 10 sent_to_group) ≡ Some (refusal.PointInUse first) }
    ensures by_name { refused_as 9 (Ok (topology_with [] [])) (kept_at 10 both_aimed) ≡ Some (refusal.PointInUse first) }
    ensures number { refused_as 9 (Ok backwards) (kept_at 10 (under_alone (Some backwards) 4294967295)) ≡ Some refusal.Spent }
    ensures room { refused_as 9 (Ok backwards) (kept_at (2 ^ 40 - 134217727) no_records) ≡ Some refusal.Spent }
{}

/// Of two causes that hold the earlier one is told.
pub fn topologies_are_refused_in_order()
    ensures long_text { refused_as 4194305 (Err fault.NotToml) (kept_at full sent_to_group) ≡ Some refusal.InputTooLong }
    ensures long_rule { refused_as 4194305 (Err (fault.Rule 4 1 0)) (kept_at full sent_to_group) ≡ Some refusal.InputTooLong }
    ensures long_bay { refused_as 4194305 (Ok with_third) (kept_at full sent_to_group) ≡ Some refusal.InputTooLong }
    ensures long_in_use { refused_as 4194305 (Ok without_first) (kept_at full sent_to_group) ≡ Some refusal.InputTooLong }
    ensures text_in_use { refused_as 9 (Err fault.NotToml) (kept_at full sent_to_group) ≡ Some refusal.NotToml }
    ensures shape_in_use { refused_as 9 (Err (fault.WrongShape 0 0)) (kept_at full sent_to_group) ≡ Some (refusal.WrongShape 0 0) }
    ensures rule_in_use { refused_as 9 (Err (fault.Rule 4 1 0)) (kept_at full sent_to_group) ≡ Some (refusal.TopologyRule 4 1 0) }
    ensures bay_in_use { refused_as 9 (Ok with_third) (kept_at full sent_to_group) ≡ Some (refusal.NoBay (codes "dp9")) }
    ensures bay_spent { refused_as 9 (Ok with_third) (kept_at 10 (under_alone (Some backwards) 4294967295)) ≡ Some (refusal.NoBay (codes "dp9")) }
    ensures in_use_spent { refused_as 9 (Ok without_first) (kept_at full sent_to_group) ≡ Some (refusal.PointInUse first) }
{}

/// The same where targets or sent rows are too many.
pub fn rows_are_counted_in_order()
    ensures targets { (records : Records) → 400000 < length records.targets → too_many_rows records ≡ Some refusal.TooManyTargets }
    ensures sent { (records : Records) → 400000 < length records.sent → too_many_rows records ≡ Some refusal.TooManyTargets }
    ensures few { (records : Records) → length records.targets ≤ 400000 → length records.sent ≤ 400000 → too_many_rows records ≡ None }
    ensures bay_before { (topology : a_topology) (kept : Kept) (world : World) (name : List ℕ) → without_bay topology.points world ≡ Some name
        → topology_refusals 9 (Ok topology) kept world ≡ Some (refusal.NoBay name) }
    ensures in_use_before { (topology : a_topology) (kept : Kept) (world : World) (name : List ℕ) → without_bay topology.points world ≡ None → in_use topology.points kept.records ≡ Some name
        → topology_refusals 9 (Ok topology) kept world ≡ Some (refusal.PointInUse name) }
    ensures rows { (topology : a_topology) (kept : Kept) (world : World) → without_bay topology.points world ≡ None → in_use topology.points kept.records ≡ None
        → 400000 < length (records_under (Ok topology) kept.records).targets → topology_refusals 9 (Ok topology) kept world ≡ Some refusal.TooManyTargets }
{}

/// What a topology changes and answers: the records alone, with how many targets its points that join a group get.
#[tactic(auto, unfolding(cm_register::specs::AfterNote::after_note, cm_register::specs::AfterNote::after_topology))]
pub fn a_topology_is_taken()
    ensures first { step_of (codes "some text") (Ok backwards) no_records ≡
        changing (at records_bay (InRecords (note.Topology 1 9 (record { 0 = sha256 (codes "some text") }) 5, Some backwards)) ∷ []) (reply.Topology 4 3 2 3 0) }
    ensures joined { step_of (codes "some text") (Ok both_members) sent_to_group ≡
        changing (at records_bay (InRecords (note.Topology 2 9 (record { 0 = sha256 (codes "some text") }) 5, Some both_members)) ∷ []) (reply.Topology 4 3 2 3 1) }
    ensures refused { step_of (codes "some text") (Err fault.NotToml) no_records ≡ refused refusal.NotToml }
    ensures in_records { after 1 (step_of (codes "some text") (Ok backwards) no_records) (records_part (OpenedRecords no_records)) ≡ OfRecords (OpenedRecords (told_of backwards)) }
    ensures not_at_site { after 1 (step_of (codes "some text") (Ok backwards) no_records) (library_part site (Opened at_site)) ≡ OfLibrary (Opened at_site) }
    ensures no_bay { step_topology (from_text (codes "no topology")) (without records_bay start) ≡ refused (refusal.NoBay records_bay) }
    ensures not_read { step_topology given (without records_bay start) ≡ refused (refusal.NoBay records_bay) }
    ensures failed { step_topology given start ≡ told reply.Source }
{}
