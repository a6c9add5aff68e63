// Verdicts that are hard on a search, each by its minimal conflicts.
use sets::Set;
use std::alloc::{AllocError, Global};

#[derive(Clone, Copy, PartialEq, Eq, Debug)]
pub enum Family {
    // Fourteen free requests, and then nine pairs that exclude each other.
    PairsLast,
    // Nine pairs, and then the free ones.
    PairsFirst,
    // Pairs of the first and the last, the second and the last but one, and so on, with the free ones between.
    Nested,
    // Seventeen free requests, and then five triples that cannot be met together.
    Triples,
    // Eleven free requests, and then three planes of seven points, whose seven lines of three points cannot be met.
    Planes,
    // The last request excludes each of the first thirteen, with seven pairs between.
    Star,
    // Four rings of eight, each of which cannot be met whole.
    Rings,
    // The first 28 requests each exclude one of the last four, and those exclude each other.
    Pool,
}

pub const FAMILIES: [Family; 8] = [
    Family::PairsLast,
    Family::PairsFirst,
    Family::Nested,
    Family::Triples,
    Family::Planes,
    Family::Star,
    Family::Rings,
    Family::Pool,
];

// Each family has 32 requests.
pub const WIDTH: u32 = 32;

fn two(first: u32, second: u32) -> Set {
    Set::empty().with(first).with(second)
}

fn three(first: u32, second: u32, third: u32) -> Set {
    two(first, second).with(third)
}

// So many pairs of neighbours, from a request on.
fn pairs(sets: &mut Vec<Set>, first: u8, count: u8) -> Result<(), AllocError> {
    for i in 0..count {
        let low = u32::from(first) + 2 * u32::from(i);
        sets.push(two(low, low + 1))?;
    }
    Ok(())
}

fn nested(sets: &mut Vec<Set>) -> Result<(), AllocError> {
    for i in 1..=9 {
        sets.push(two(i, 33 - i))?;
    }
    Ok(())
}

fn triples(sets: &mut Vec<Set>) -> Result<(), AllocError> {
    for i in 0..5 {
        sets.push(three(18 + 3 * i, 19 + 3 * i, 20 + 3 * i))?;
    }
    Ok(())
}

// A plane of seven points from a request on: its lines have three points each.
fn plane(sets: &mut Vec<Set>, first: u8) -> Result<(), AllocError> {
    let first = u32::from(first);
    for i in 0..7 {
        sets.push(three(first + i, first + (i + 1) % 7, first + (i + 3) % 7))?;
    }
    Ok(())
}

fn star(sets: &mut Vec<Set>) -> Result<(), AllocError> {
    for i in 1..=13 {
        sets.push(two(i, 32))?;
    }
    pairs(sets, 14, 7)
}

fn rings(sets: &mut Vec<Set>) -> Result<(), AllocError> {
    for bits in [0xff, 0xff00, 0xff_0000, 0xff00_0000] {
        sets.push(Set::new(bits))?;
    }
    Ok(())
}

fn pool(sets: &mut Vec<Set>) -> Result<(), AllocError> {
    for (first, second) in [(29, 30), (29, 31), (29, 32), (30, 31), (30, 32), (31, 32)] {
        sets.push(two(first, second))?;
    }
    for i in 1..=28 {
        sets.push(two(i, 29 + i % 4))?;
    }
    Ok(())
}

impl Family {
    pub fn name(self) -> &'static str {
        match self {
            Family::PairsLast => "pairs-last",
            Family::PairsFirst => "pairs-first",
            Family::Nested => "nested",
            Family::Triples => "triples",
            Family::Planes => "planes",
            Family::Star => "star",
            Family::Rings => "rings",
            Family::Pool => "pool",
        }
    }

    // The minimal conflicts.
    pub fn conflicts(self, heap: Global) -> Result<Vec<Set>, AllocError> {
        let mut sets = Vec::new(heap);
        match self {
            Family::PairsLast => pairs(&mut sets, 15, 9)?,
            Family::PairsFirst => pairs(&mut sets, 1, 9)?,
            Family::Nested => nested(&mut sets)?,
            Family::Triples => triples(&mut sets)?,
            Family::Planes => {
                plane(&mut sets, 12)?;
                plane(&mut sets, 19)?;
                plane(&mut sets, 26)?;
            }
            Family::Star => star(&mut sets)?,
            Family::Rings => rings(&mut sets)?,
            Family::Pool => pool(&mut sets)?,
        }
        Ok(sets)
    }
}
