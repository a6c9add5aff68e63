// Sets of small numbers, each held as one number: a set of numbers from FIRST on has i if the bit worth 2^(i - FIRST) is set, and there are 32 bits.
#![tactic(auto)]

ghost use Rattle.std.specs.Prelude.{◌≡◌, ◌==◌, bit_and, bit_or, count_ones, min};
ghost use Rattle.sets.specs.Instances.{Instances};
ghost use Rattle.sets.specs.Members.{has_from, added_from, lower, minus, none};
ghost use Rattle.sets.specs.Requests.{widest, within, part, everyone, IsFirst};
ghost use Rattle.sets.specs.SetLaws.{SetLaws};

use std::fmt;

// A set of numbers from FIRST up to FIRST + 31.
#[derive(Clone, Copy, PartialEq, Eq, Default)]
pub struct Members<const FIRST: u32> {
    bits: u32,
}

// A set of options or of faces, 0 to 31.
pub type Mask = Members<0>;

// A set of requests, 1 to 32: request r is the bit worth 2^(r-1).
pub type Set = Members<1>;

// By the name of the instance, `Mask` or `Set`: a derived one would print one name for both.
impl<const FIRST: u32> fmt::Debug for Members<FIRST> {
    fn fmt<W: fmt::Write>(&self, f: &mut fmt::Formatter<W>) -> fmt::Result {
        let name = match FIRST {
            0 => "Mask",
            1 => "Set",
            _ => "Members",
        };
        f.debug_struct(name).field("bits", &self.bits).finish()
    }
}

impl<const FIRST: u32> Members<FIRST> {
    // Not a `From`: a number turns into a set only where the code says which.
    #[inline]
    pub fn new(bits: u32) -> Members<FIRST>
        ensures { result.bits ≡ bits }
    {
        Members { bits }
    }

    // The number that holds the set. Not an `Into`, for the same reason.
    #[inline]
    pub fn bits(self) -> u32
        ensures { result ≡ self.entry.bits }
    {
        let Members { bits } = self;
        bits
    }

    #[inline]
    pub fn empty() -> Members<FIRST>
        ensures { result.bits ≡ none }
    {
        Members { bits: 0 }
    }

    // Whether `i` is a member; a number below the first or past the last is none.
    #[inline]
    pub fn contains(self, i: u32) -> bool
        ensures { result ≡ has_from FIRST self.entry.bits i }
    {
        FIRST <= i && i - FIRST < 32 && (self.bits >> (i - FIRST)) % 2 == 1
    }

    // The set with `i` added; a number below the first or past the last is not taken in.
    #[inline]
    pub fn with(self, i: u32) -> Members<FIRST>
        ensures { result.bits ≡ added_from FIRST self.entry.bits i }
    {
        if FIRST <= i && i - FIRST < 32 {
            Members {
                bits: self.bits | (1 << (i - FIRST)),
            }
        } else {
            self
        }
    }

    // How many members there are.
    #[inline]
    pub fn len(self) -> u32
        ensures { result ≡ count_ones self.entry.bits }
    {
        self.bits.count_ones()
    }

    // Whether all members are in the other set too.
    #[inline]
    pub fn is_part_of(self, other: Members<FIRST>) -> bool
        ensures { result ≡ part self.entry.bits other.entry.bits }
    {
        self.bits & other.bits == self.bits
    }

    // The members of either set.
    #[inline]
    pub fn union(self, other: Members<FIRST>) -> Members<FIRST>
        ensures { result.bits ≡ bit_or self.entry.bits other.entry.bits }
    {
        Members {
            bits: self.bits | other.bits,
        }
    }

    // The members of both sets.
    #[inline]
    pub fn common(self, other: Members<FIRST>) -> Members<FIRST>
        ensures { result.bits ≡ bit_and self.entry.bits other.entry.bits }
    {
        Members {
            bits: self.bits & other.bits,
        }
    }

    // The members that the other set does not have.
    #[inline]
    pub fn minus(self, other: Members<FIRST>) -> Members<FIRST>
        ensures { result.bits ≡ minus self.entry.bits other.entry.bits }
    {
        Members {
            bits: self.bits - (self.bits & other.bits),
        }
    }

    // Whether there is no member.
    #[inline]
    pub fn is_empty(self) -> bool
        ensures { result ≡ (self.entry.bits == none) }
    {
        self.bits == 0
    }

    // The first half of the members by number, rounded down: the low bits up to where half of the members are counted.
    pub fn lower_half(self) -> Members<FIRST>
        ensures { result.bits ≡ lower self.entry.bits }
    {
        let half = self.len() / 2;
        let mut count = 0;
        for k in 0_u32..32 {
            if count == half {
                return Members {
                    bits: self.bits & ((1 << k) - 1),
                };
            }
            count += (self.bits >> k) % 2;
        }
        self
    }
}

impl Members<1> {
    // All requests up to the width, which is cut at 32.
    #[inline]
    pub fn all(width: u32) -> Set
        ensures { result.bits ≡ everyone (min width widest) }
    {
        if width < 32 {
            Members {
                bits: (1 << width) - 1,
            }
        } else {
            Members { bits: u32::MAX }
        }
    }

    // The first request, if there is one.
    #[inline]
    pub fn first(self) -> Option<u32>
        ensures { IsFirst self.bits result }
    {
        if self.bits == 0 {
            return None;
        }
        Some(self.bits.trailing_zeros() + 1)
    }

    // Whether no request is above the width.
    #[inline]
    pub fn is_within(self, width: u32) -> bool
        ensures { result ≡ within width self.bits }
    {
        width >= 32 || self.bits < 1 << width
    }
}

// A mask and a set of requests say of a number what they should, as a theorem: see specs/Instances.antt.
pub fn instances_hold()
    ensures { Instances }
{}

// The laws of sets that all else rests on, as a theorem: see specs/SetLaws.antt.
pub fn set_laws_hold()
    ensures { SetLaws }
{}
