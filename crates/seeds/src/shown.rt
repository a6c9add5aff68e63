// A set as it is printed: its requests, rising, with commas, or `-` where there is none.
use sets::Set;
use std::fmt;

#[derive(Clone, Copy)]
pub struct Shown {
    pub set: Set,
}

impl fmt::Display for Shown {
    fn fmt<W: fmt::Write>(&self, f: &mut fmt::Formatter<W>) -> fmt::Result {
        if self.set.is_empty() {
            return write!(f, "-");
        }
        let mut first = true;
        for request in 1..=32 {
            if self.set.contains(request) {
                if !first {
                    write!(f, ",")?;
                }
                write!(f, "{request}")?;
                first = false;
            }
        }
        Ok(())
    }
}
