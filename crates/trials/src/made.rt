// Rules whose options and faces are the places at which a number has the bit 1.
use rules::Rule;
use sets::Mask;

pub fn options(owner: u32, head: Option<u32>, bits: u32) -> Rule {
    Rule::options(owner, head, Mask::new(bits))
}

pub fn faces(owner: u32, odd: bool, bits: u32) -> Rule {
    Rule::faces(owner, odd, Mask::new(bits))
}
