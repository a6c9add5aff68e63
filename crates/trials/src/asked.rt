// The oracles over rules, by the kind of rule that they heed.
use crate::played::{Told, ask};
use crate::search::Heeded;
use faces::Faces;
use gaps::Gaps;
use options::Options;
use rules::Kind;

impl Heeded<'_> {
    // What the oracle of that kind says of a set. Each arm makes an oracle of another type, so the switch stays: a closure over `&mut dyn Oracle` was tried, and the borrow checker does not cover it yet.
    pub fn told(self, bits: u32) -> Told {
        match self.kind {
            Kind::Options => ask(&mut Options::new(self.rules, self.width), bits),
            Kind::Gaps => ask(&mut Gaps::new(self.rules, self.width), bits),
            Kind::Faces => ask(&mut Faces::new(self.rules, self.width), bits),
        }
    }
}
