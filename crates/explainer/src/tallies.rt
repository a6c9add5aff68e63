// What the lines of a listing add up to.
ghost use Rattle.std.specs.Prelude.{◌≡◌, ◌≤◌, length};
ghost use Rattle.sets.specs.Members.{size};
ghost use Rattle.sets.specs.Sets.{bits_of};
ghost use Rattle.listing.specs.Bill.{depth as defined_depth, conflicts as all_conflicts, relaxations as all_relaxations, sizes as all_sizes, bound as defined_bound};

use listing::{Line, MOST_LINES};
use sets::Set;

// How many conflicts there are.
pub(crate) fn conflicts(lines: &[Line]) -> usize
    ensures { result ≡ all_conflicts lines.now }
{
    lines
        .iter()
        .filter(|line| matches!(line, Line::Conflict(_)))
        .count()
}

// How many relaxations.
pub(crate) fn relaxations(lines: &[Line]) -> usize
    ensures { result ≡ all_relaxations lines.now }
{
    lines
        .iter()
        .filter(|line| matches!(line, Line::Relaxation(_)))
        .count()
}

// How many requests a set has.
fn requests(set: Set) -> usize
    ensures { result ≡ size (bits_of set) }
{
    set.len() as usize
}

// The sizes of the conflicts, added up.
pub(crate) fn sizes(lines: &[Line]) -> usize
    requires { length lines.now ≤ MOST_LINES }
    ensures { result ≡ all_sizes lines.now }
{
    let mut total = 0;
    for line in lines {
        if let Line::Conflict(conflict) = line {
            total += requests(*conflict);
        }
    }
    total
}

// How many times in a row a set of so many requests is halved until each part has one at most.
fn depth(width: u32) -> usize
    ensures { result ≡ defined_depth width }
{
    match width {
        0..=1 => 0,
        2 => 1,
        3..=4 => 2,
        5..=8 => 3,
        9..=16 => 4,
        _ => 5,
    }
}

// The bound on the checks: one for the empty set, one for the seed of each line, and for each
// request of a conflict two at each depth.
pub(crate) fn bound(width: u32, lines: &[Line]) -> usize
    requires { length lines.now ≤ MOST_LINES }
    ensures { result ≡ defined_bound width lines.now }
{
    1 + relaxations(lines) + conflicts(lines) + 2 * depth(width) * sizes(lines)
}
