//! What holds of the definitions themselves.
ghost use Rattle.std.specs.Prelude.{◌≡◌, ◌≤◌, ℕ, List, Some, AllPairs, IsSome, map, true};
ghost use Rattle.std.specs.List.{IsDistinct, zip};
ghost use Rattle.std.specs.Str.{bytes_eq};
ghost use Rattle.std.specs.declared.cmp.Ordering.{Ordering};
ghost use Rattle.std.specs.List.Sorted.{IsPermutation};
ghost use Rattle.cm_groups.specs.declared.group.Group.{Group};
ghost use Rattle.cm_peer.specs.declared.peer.Peer.{Peer};
ghost use Rattle.cm_peer.specs.declared.peer.PeerState.{PeerState};
ghost use Rattle.cm_peer.specs.declared.sources.SourceRow.{SourceRow};
ghost use Rattle.cm_points.specs.declared.point.Point.{Point};
ghost use Rattle.cm_points.specs.Installs.{AreSameRows, InstalledRow};
ghost use Rattle.cm_locate.specs.declared.ask.Ask.{Ask};
ghost use Rattle.cm_locate.specs.Answers.{IsAnswer, peer_row, point_row, row_cmp, source_of_peer, source_of_point};
ghost use Rattle.cm_locate.specs.Eligible.{current_of, is_eligible_point, is_in};
ghost use Rattle.cm_locate.specs.Ranks.{Source, kind_of_rank, prefers_points, rank_of};

use cm_groups::minutes_take_no_group_away;

/// A question has one answer, in whatever order the points and the peers, each with its state, are listed.
pub fn one_answer()
    ensures { (groups : List Group) (points other_points : List Point) (peers other_peers : List Peer) (states other_states : List PeerState) (installed : List InstalledRow) (ask : Ask) (rows others : List SourceRow)
        → IsPermutation points other_points → IsPermutation (zip peers states) (zip other_peers other_states)
        → IsAnswer groups points peers states installed ask rows → IsAnswer groups other_points other_peers other_states installed ask others → rows ≡ others }
{}

/// Nor do rows of what is installed that say the same change it: an answer by what was built of rows is one by these rows.
pub fn installed_rows_in_any_order()
    ensures { (groups : List Group) (points : List Point) (peers : List Peer) (states : List PeerState) (given built : List InstalledRow) (ask : Ask) (rows : List SourceRow)
        → AreSameRows given built → IsAnswer groups points peers states built ask rows → IsAnswer groups points peers states given ask rows }
{}

/// Where no two points and no two peers have one name, the rows of an answer rise strictly: each source stands once.
pub fn each_source_stands_once()
    ensures { (groups : List Group) (points : List Point) (peers : List Peer) (states : List PeerState) (installed : List InstalledRow) (ask : Ask) (rows : List SourceRow)
        → IsDistinct bytes_eq (map (λ point. point.name) points) → IsDistinct bytes_eq (map (λ pair. pair.0.name) (zip peers states))
        → IsAnswer groups points peers states installed ask rows → AllPairs (λ row other. row_cmp row other ≡ Ordering.Less) rows }
{}

/// Points and peers never share a rank: the rank tells which of both a source is.
pub fn kinds_share_no_rank()
    ensures { (groups : List Group) (ask : Ask) (source : Source) (rank : ℕ) → rank_of groups ask source ≡ Some rank → source.kind ≡ kind_of_rank (prefers_points groups ask) rank }
{}

/// Each eligible source has a rank.
pub fn eligible_sources_have_ranks()
    ensures points { (groups : List Group) (installed : List InstalledRow) (ask : Ask) (point : Point) → is_eligible_point groups installed ask point ≡ true → IsSome (rank_of groups ask (source_of_point point)) }
    ensures peers { (groups : List Group) (ask : Ask) (peer : Peer) → IsSome (rank_of groups ask (source_of_peer peer)) }
{}

/// A point that may serve a client may still do so when minutes have passed.
pub fn minutes_take_no_point_away()
    ensures { (groups : List Group) (installed : List InstalledRow) (ask : Ask) (later : ℕ) (point : Point) → ask.elapsed ≤ later
        → is_eligible_point groups installed ask point ≡ true → is_eligible_point groups installed (record ask { elapsed = later }) point ≡ true }
{
    minutes_take_no_group_away();
}

/// What current groups give does not depend on the minutes: their points and all peers have the same rows before and after.
pub fn sources_of_current_groups_stay()
    ensures points { (groups : List Group) (installed : List InstalledRow) (ask : Ask) (later : ℕ) (point : Point) → is_in groups point.name (current_of groups ask) ≡ true
        → point_row groups installed (record ask { elapsed = later }) point ≡ point_row groups installed ask point }
    ensures peers { (groups : List Group) (ask : Ask) (later : ℕ) (peer : Peer) (state : PeerState) → peer_row groups (record ask { elapsed = later }) (peer, state) ≡ peer_row groups ask (peer, state) }
{}
