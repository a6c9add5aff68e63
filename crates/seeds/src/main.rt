// Prints seeds of some families of verdicts: with the minimal conflicts listed, the first two
// seeds, and the last of up to 512 lines.
#![tactic(auto)]

mod family;
mod listed;
mod shown;
#[cfg(test)]
mod tests;
#[cfg(test)]
mod trial;

use family::{FAMILIES, Family, WIDTH};
use listed::{Listed, Without};
use listing::{Line, MOST_LINES, Room, Search};
use sets::Set;
use shown::Shown;
use std::time::{Duration, Instant};
use std::{env, io};

// The search of a family with its minimal conflicts alone listed.
fn given(rt: &HostRuntime, family: Family) -> io::Result<Search> {
    let mut search = Search::new(Room::new(rt.alloc())?, WIDTH);
    for conflict in family.conflicts(rt.alloc())?.iter() {
        let _ = search.list(Line::Conflict(*conflict));
    }
    Ok(search)
}

// The next seed, listed as a relaxation where there is room.
fn next(search: &mut Search) -> Option<Set> {
    let set = search.seed()?;
    search.list(Line::Relaxation(set)).ok()?;
    Some(set)
}

fn show(rt: &HostRuntime, family: Family) -> io::Result<()> {
    let mut search = given(rt, family)?;
    let name = family.name();
    println!(rt; "family={name}")?;
    let mut last = None;
    for count in 0..=MOST_LINES {
        let Some(set) = next(&mut search) else {
            break;
        };
        if count < 2 {
            println!(rt; "seed={}", Shown { set })?;
        }
        last = Some((count + 1, set));
    }
    if let Some((seeds, set)) = last {
        println!(rt; "last={}\nseeds={seeds}", Shown { set })?;
    }
    Ok(())
}

// The family of that name.
fn named(name: &str) -> Option<Family> {
    FAMILIES.into_iter().find(|family| family.name() == name)
}

// Lists a family by the seed and by halving alone, to the end or to 512 lines, and says how long
// the longest line took.
fn measure(rt: &HostRuntime, family: Family) -> io::Result<()> {
    let conflicts = family.conflicts(rt.alloc())?;
    let verdict = Without {
        conflicts: conflicts.as_slice(),
    };
    let mut made = Listed::new(rt.alloc(), WIDTH)?;
    let _ = made.check(&verdict, Set::empty());
    let mut longest = Duration::ZERO;
    for _ in 0..=MOST_LINES {
        let start = Instant::now(rt)?;
        let more = made.go_on(rt.alloc(), &verdict)?;
        longest = longest.max(start.elapsed(rt)?);
        if !more {
            break;
        }
    }
    let name = family.name();
    let lines = made.search.lines().len();
    let checks = made.checks;
    let longest = longest.as_micros();
    println!(rt; "family={name}\nlines={lines}\nchecks={checks}\nlongest={longest}")?;
    Ok(())
}

// With the name of a family as argument, that one is measured; otherwise all are shown.
fn main(rt: HostRuntime) -> io::Result<()> {
    if let Some(name) = env::args(&rt)?.nth(1) {
        if let Some(family) = named(name.as_str()) {
            return measure(&rt, family);
        }
    }
    for family in FAMILIES {
        show(&rt, family)?;
    }
    Ok(())
}
