// Faces told by sums of free faces, with what each rule says put in.
// A sum is one number, taken modulo 2: place 0 says whether 1 is added, and place p + 1 whether face p is.
ghost use Rattle.std.specs.Prelude.{◌≡◌, ◌<◌, Some, map};
ghost use Rattle.rules.specs.Substitution.{faces as face_count, bit_of, free, total, put_in, entered, constants, more_faces};
ghost use Rattle.sets.specs.Masks.{number_of};
ghost use Rattle.sets.specs.Sets.{bits_of};
ghost use Rattle.faces.specs.Steps.{sums_after};
ghost use Rattle.faces.specs.Verdict.{Found};

use rules::{Body, FaceSet, Kind, LAST_FACE, Rule};
use sets::{Mask, Set};

// How many faces there are.
const FACES: usize = LAST_FACE as usize + 1;

// What the sum of a face is with another put in for this place.
fn put_in(place: u32, sum: u64, face: u64) -> u64
    requires { place < 64 }
    ensures { result ≡ put_in place sum face }
{
    if (face >> place) % 2 == 1 {
        face ^ sum
    } else {
        face
    }
}

// The sum of each face. A table, since a check asks for no memory.
#[derive(Drop)]
struct Sums {
    of: [u64; FACES],
}

impl Sums {
    // Each face is itself.
    fn new() -> Sums
        ensures { result.of ≡ free face_count }
    {
        let mut of = [0; FACES];
        for (p, sum) in of.iter_mut().enumerate() {
            *sum = 2 << p;
        }
        Sums { of }
    }

    // The faces of a rule and its bit, added up.
    fn total(&self, odd: bool, faces: Mask) -> u64
        ensures { result ≡ total self.now.of (number_of faces) (bit_of odd) }
    {
        let mut sum = u64::from(odd);
        let mut rest = faces.bits();
        while rest != 0 {
            sum ^= self.of[rest.trailing_zeros() as usize];
            rest &= rest - 1;
        }
        sum
    }

    // Puts a sum in for this place everywhere. Kept out of the loop over the rules, where the table would be moved to registers and back at some forty instructions more for each rule.
    #[inline(never)]
    fn put_in_all(&mut self, place: u32, sum: u64)
        requires { place < 64 }
        ensures { self.new.of ≡ map (put_in place sum) self.old.of }
    {
        for face in &mut self.of {
            *face = put_in(place, sum, *face);
        }
    }

    // One more rule of faces, which says this; none where no choice is left. What is of another
    // letter changes nothing.
    fn enter(&mut self, body: Body) -> Option<()>
        ensures sums { sums_after result self.new ≡ entered (Some self.old.of) body }
        ensures narrow { more_faces body ≡ 0 }
    {
        let Body::Faces { odd, faces } = body else {
            return Some(());
        };
        let sum = self.total(odd, faces.members);
        if sum < 2 {
            return (sum == 0).then_some(());
        }
        self.put_in_all((sum / 2).trailing_zeros() + 1, sum);
        Some(())
    }

    // The faces at the back where no free face is.
    fn constants(&self) -> u32
        ensures { result ≡ constants self.now.of }
    {
        let mut back = 0;
        for p in (0..FACES).rev() {
            back = back * 2 + (self.of[p] % 2) as u32;
        }
        back
    }
}

// The faces to put at the back, or none.
pub fn back(rules: &[Rule], set: Set) -> Option<FaceSet>
    ensures { Found rules.now (bits_of set) result }
{
    let mut sums = Sums::new();
    for rule in rules {
        if !rule.is_of(Kind::Faces) {
            continue;
        }
        let Some(body) = rule.in_force(set) else {
            continue;
        };
        sums.enter(body)?;
    }
    Some(FaceSet {
        members: Mask::new(sums.constants()),
    })
}
