// Whether some part of the free requests contains no conflict and has a request of each drop. A drop is what a listed relaxation leaves out.
ghost use Rattle.std.specs.Prelude.{◌≡◌, ◌≢◌, ◌≤◌, true, false, length, count_ones, MatchOption};
ghost use Rattle.std.specs.List.{count_by};
ghost use Rattle.sets.specs.Members.{none, added_from, minus};
ghost use Rattle.sets.specs.Requests.{names, Part};
ghost use Rattle.sets.specs.Sets.{bits_of};
ghost use Rattle.listing.specs.Settling.{lacking_of, IsShortest, Settled, SettledWhere};

use crate::lines::MOST_LINES;
use arrayvec::ArrayVec;
use sets::Set;

// A list of conflicts, or of drops: at most one for each line of a listing.
pub type Sets = ArrayVec<Set, MOST_LINES>;

// Keeps those of the sets that do not have the request.
fn lacking(sets: &[Set], request: u32, rest: &mut Sets)
    requires { length sets.now ≤ MOST_LINES }
    ensures { rest.new.items ≡ lacking_of request sets.now }
{
    rest.clear();
    for set in sets {
        if !set.contains(request) {
            rest.push(*set);
        }
    }
}

// The set that has the fewest of the free requests, cut to them.
fn shortest(sets: &[Set], free: Set) -> Option<Set>
    ensures { MatchOption result (length sets.now ≡ 0) (λ s. IsShortest (bits_of free) sets.now (bits_of s)) }
{
    let mut best: Option<Set> = None;
    for set in sets {
        let cut = set.common(free);
        best = match best {
            Some(other) if other.len() <= cut.len() => Some(other),
            _ => Some(cut),
        };
    }
    best
}

// How many of the sets have the request. It adds nought or one: a branch would be mispredicted half of the time.
fn count(sets: &[Set], request: u32) -> usize
    ensures { result ≡ count_by (λ s. names (bits_of s) request) sets.now }
{
    let mut times = 0;
    for set in sets {
        times += usize::from(set.contains(request));
    }
    times
}

// The request of a set that stands in the most conflicts and drops.
fn commonest(of: Set, conflicts: &[Set], drops: &[Set]) -> u32
    requires some { bits_of of ≢ none }
    requires few_conflicts { length conflicts.now ≤ MOST_LINES }
    requires few_drops { length drops.now ≤ MOST_LINES }
    ensures { names (bits_of of) result ≡ true }
{
    let mut rest = of;
    let mut best = 0;
    let mut most = 0;
    while let Some(request) = rest.first() {
        rest = less_one(rest, request);
        let times = count(conflicts, request) + count(drops, request);
        if best == 0 || times > most {
            best = request;
            most = times;
        }
    }
    best
}

// A set without one request.
fn less_one(set: Set, request: u32) -> Set
    ensures { bits_of result ≡ minus (bits_of set) (added_from 1 none request) }
{
    set.minus(Set::empty().with(request))
}

// Something that settles the question; none only where nothing that has the request does.
#[cycle(settle)]
fn with(
    free: Set,
    request: u32,
    conflicts: &[Set],
    drops: &[Set],
    levels: &mut [Sets],
) -> Option<Set>
    requires request { names (bits_of free) request ≡ true }
    requires few_conflicts { length conflicts.now ≤ MOST_LINES }
    requires few_drops { length drops.now ≤ MOST_LINES }
    requires room { count_ones (bits_of free) ≤ length levels.old }
    ensures { SettledWhere request true (bits_of free) conflicts.now drops.now result }
{
    let Some((level, deeper)) = levels.split_first_mut() else {
        unreachable!()
    };
    lacking(drops, request, level);
    let found = settle(less_one(free, request), conflicts, level.as_slice(), deeper)?;
    Some(found.with(request))
}

// The same; none only where nothing that lacks the request does.
#[cycle(settle)]
fn without(
    free: Set,
    request: u32,
    conflicts: &[Set],
    drops: &[Set],
    levels: &mut [Sets],
) -> Option<Set>
    requires request { names (bits_of free) request ≡ true }
    requires few_conflicts { length conflicts.now ≤ MOST_LINES }
    requires few_drops { length drops.now ≤ MOST_LINES }
    requires room { count_ones (bits_of free) ≤ length levels.old }
    ensures { SettledWhere request false (bits_of free) conflicts.now drops.now result }
{
    let Some((level, deeper)) = levels.split_first_mut() else {
        unreachable!()
    };
    lacking(conflicts, request, level);
    settle(less_one(free, request), level.as_slice(), drops, deeper)
}

// Some part of the free requests that contains none of the conflicts, cut to them, and has a request of each drop; none where there is none.
#[cycle(settle)]
pub(crate) fn settle(
    free: Set,
    conflicts: &[Set],
    drops: &[Set],
    levels: &mut [Sets],
) -> Option<Set>
    requires few_conflicts { length conflicts.now ≤ MOST_LINES }
    requires few_drops { length drops.now ≤ MOST_LINES }
    requires room { count_ones (bits_of free) ≤ length levels.old }
    ensures { Settled (bits_of free) conflicts.now drops.now result }
{
    match (shortest(conflicts, free), shortest(drops, free)) {
        (None, None) => Some(free),
        (Some(conflict), None) => {
            if conflict.is_empty() {
                None
            } else {
                Some(Set::empty())
            }
        }
        (None, Some(drop)) => { if drop.is_empty() { None } else { Some(free) } }
        (Some(conflict), Some(drop)) => {
            if conflict.is_empty() || drop.is_empty() {
                None
            } else {
                branch(free, conflict, drop, conflicts, drops, levels)
            }
        }
    }
}

// The same by a request of the shorter of the two: first with it, where that is a drop, and first without it, where it is a conflict.
#[cycle(settle)]
fn branch(
    free: Set,
    conflict: Set,
    drop: Set,
    conflicts: &[Set],
    drops: &[Set],
    levels: &mut [Sets],
) -> Option<Set>
    requires conflict { Part (bits_of conflict) (bits_of free) × (bits_of conflict ≢ none) }
    requires drop { Part (bits_of drop) (bits_of free) × (bits_of drop ≢ none) }
    requires few_conflicts { length conflicts.now ≤ MOST_LINES }
    requires few_drops { length drops.now ≤ MOST_LINES }
    requires room { count_ones (bits_of free) ≤ length levels.old }
    ensures { Settled (bits_of free) conflicts.now drops.now result }
{
    if drop.len() <= conflict.len() {
        let request = commonest(drop, conflicts, drops);
        match with(free, request, conflicts, drops, levels) {
            Some(found) => Some(found),
            None => without(free, request, conflicts, drops, levels),
        }
    } else {
        let request = commonest(conflict, conflicts, drops);
        match without(free, request, conflicts, drops, levels) {
            Some(found) => Some(found),
            None => with(free, request, conflicts, drops, levels),
        }
    }
}
