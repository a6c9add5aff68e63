// The rules of a ticket, as the reader leaves them.
#![tactic(auto)]

ghost use Rattle.std.specs.Prelude.{◌≡◌, ◌≤◌, min};
ghost use Rattle.rules.specs.Blank.{blank};
ghost use Rattle.rules.specs.Made.{options_rule, gap_rule, faces_rule};
ghost use Rattle.rules.specs.Force.{head_valid, body_valid, in_force};
ghost use Rattle.rules.specs.ForceLaws.{ForceLaws};
ghost use Rattle.sets.specs.Masks.{number_of};
ghost use Rattle.sets.specs.Members.{size as count_of_members};
ghost use Rattle.sets.specs.Requests.{widest};
ghost use Rattle.sets.specs.Sets.{bits_of};
ghost use Rattle.rules.specs.Kinds.{kind_of, of_kind};

use oracle::WIDEST;
use sets::{Mask, Set};

// Options and faces are counted from 0, and so are marks.
pub const LAST_OPTION: u32 = 31;

pub const LAST_FACE: u32 = 31;

pub const LAST_MARK: u32 = 15;

// How far from nought the width of a gap may lie.
pub const WIDEST_GAP: u32 = 10_000;

// The most options or faces of one rule.
pub const MOST_MEMBERS: u32 = 8;

// Options, 0 to 31, of which a choice has each on or off.
#[derive(Clone, Copy, PartialEq, Eq, Debug)]
pub struct OptionSet {
    pub members: Mask,
}

// Faces, 0 to 31, each of which a choice puts to the front or the back. A type apart from `OptionSet`, so that neither is taken for the other.
#[derive(Clone, Copy, PartialEq, Eq, Debug)]
pub struct FaceSet {
    pub members: Mask,
}

#[derive(Clone, Copy, PartialEq, Eq, Debug)]
pub enum Kind {
    Options,
    Gaps,
    Faces,
}

// What a rule of each kind says.
#[derive(Clone, Copy, PartialEq, Eq, Debug)]
pub enum Body {
    // If all of the options are on, the head is on; without a head, not all of them may be on.
    Options {
        head: Option<u32>,
        options: OptionSet,
    },
    // Mark a minus mark b is at most w, in tenths of a millimetre.
    Gap {
        a: u32,
        b: u32,
        w: i32,
    },
    // The faces that lie at the back are odd in number, or even.
    Faces {
        odd: bool,
        faces: FaceSet,
    },
}

// `len` in the word of the definitions.
fn size(members: Mask) -> u32
    ensures { result ≡ count_of_members (number_of members) }
{
    members.len()
}

fn head_is_valid(head: Option<u32>) -> bool
    ensures { result ≡ head_valid head }
{
    head.is_none_or(|option| option <= LAST_OPTION)
}

impl Body {
    // What kind of rule says this.
    fn kind(self) -> Kind
        ensures { result ≡ kind_of self }
    {
        match self {
            Body::Options { .. } => Kind::Options,
            Body::Gap { .. } => Kind::Gaps,
            Body::Faces { .. } => Kind::Faces,
        }
    }

    // Whether some rule line can say this.
    fn is_valid(self) -> bool
        ensures { result ≡ body_valid self }
    {
        match self {
            Body::Options { head, options } => {
                head_is_valid(head) && size(options.members) <= MOST_MEMBERS
            }
            Body::Gap { a, b, w } => a <= LAST_MARK
                && b <= LAST_MARK
                && w.unsigned_abs() <= WIDEST_GAP,
            Body::Faces { odd: _, faces } => { (1..=MOST_MEMBERS).contains(&size(faces.members)) }
        }
    }
}

// A rule of the house, owner 0, or of the request that owns it. A blank one has no body and owner 0.
// The owner is the number that the ticket has, 0 for the house too: an `Option` would have to be turned into it and back.
#[derive(Clone, Copy, PartialEq, Eq, Debug)]
pub struct Rule {
    pub owner: u32,
    pub body: Option<Body>,
}

impl Rule {
    pub fn blank() -> Rule
        ensures { result ≡ blank }
    {
        Rule {
            owner: 0,
            body: None,
        }
    }

    // If all of the options are on, the head is on; without a head, not all of them may be on.
    pub fn options(owner: u32, head: Option<u32>, members: Mask) -> Rule
        ensures { result ≡ options_rule owner head members }
    {
        let options = OptionSet { members };
        Rule {
            owner,
            body: Some(Body::Options { head, options }),
        }
    }

    // Mark a minus mark b is at most w.
    pub fn gap(owner: u32, a: u32, b: u32, w: i32) -> Rule
        ensures { result ≡ gap_rule owner a b w }
    {
        Rule {
            owner,
            body: Some(Body::Gap { a, b, w }),
        }
    }

    // The faces that lie at the back are odd in number, or even.
    pub fn faces(owner: u32, odd: bool, members: Mask) -> Rule
        ensures { result ≡ faces_rule owner odd members }
    {
        let faces = FaceSet { members };
        Rule {
            owner,
            body: Some(Body::Faces { odd, faces }),
        }
    }

    // Whether this is a rule of that kind; a blank one is of none.
    pub fn is_of(&self, kind: Kind) -> bool
        ensures { result ≡ of_kind kind self.now }
    {
        self.body.is_some_and(|body| body.kind() == kind)
    }

    // What this rule says for a set of requests: the house's rules say it for every set, a request's where it is in the set.
    // A record that no rule line can say counts as blank, which says nothing.
    pub fn in_force(&self, set: Set) -> Option<Body>
        ensures { result ≡ in_force (bits_of set) self.now }
    {
        if self.owner > WIDEST || self.owner != 0 && !set.contains(self.owner) {
            return None;
        }
        self.body.filter(|body| body.is_valid())
    }
}

// A list of rules that is lent to an oracle, and how many requests there are.
#[derive(Drop)]
pub struct RuleList<'a> {
    rules: &'a [Rule],
    width: u32,
    ghost narrow: { width ≤ widest },
}

impl<'a> RuleList<'a> {
    // The width is cut at 32.
    pub fn new(rules: &'a [Rule], width: u32) -> RuleList<'a>
        ensures { (result.rules.now ≡ rules.now) × (result.width ≡ min width widest) }
    {
        RuleList {
            rules,
            width: width.min(WIDEST),
        }
    }

    // The list, as it was lent.
    pub fn rules(&self) -> &'a [Rule]
        ensures { result.now ≡ self.now.rules.now }
    {
        self.rules
    }

    // How many requests there are, 32 at most.
    pub fn width(&self) -> u32
        ensures { result ≡ self.now.width }
    {
        self.width
    }
}

// The laws of the rules in force and of being fit, as a theorem: see specs/ForceLaws.antt.
pub fn force_laws_hold()
    ensures { ForceLaws }
{}
