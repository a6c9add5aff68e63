// What sets print for a programmer: `Debug` has no clause, so a test holds it.
use rules::OptionSet;
use sets::{Mask, Set};
use std::alloc::AllocError;

// A mask and a set say which they are, alone and in what holds them.
#[test]
fn sets_say_which(rt: HostRuntime) -> Result<(), AllocError> {
    let members = Mask::new(5);
    let mask = format!(in rt.alloc(); "{members:?}")?;
    assert_eq!(rt; mask.as_str(), "Mask { bits: 5 }");
    let requests = Set::new(6);
    let set = format!(in rt.alloc(); "{requests:?}")?;
    assert_eq!(rt; set.as_str(), "Set { bits: 6 }");
    let options = OptionSet { members };
    let within = format!(in rt.alloc(); "{options:?}")?;
    assert_eq!(rt; within.as_str(), "OptionSet { members: Mask { bits: 5 } }");
    Ok(())
}
