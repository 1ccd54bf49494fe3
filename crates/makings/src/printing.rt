// Lists as a line prints them.
use std::{fmt, io};

pub fn unreadable(rt: &impl Print) -> io::Result<()> {
    print!(rt; " cannot be read")
}

// The numbers in brackets, with a space in front of each but the first.
#[derive(Clone, Copy)]
pub struct Bracketed<'a>(pub &'a [u32]);

impl fmt::Display for Bracketed<'_> {
    fn fmt<W: fmt::Write>(&self, f: &mut fmt::Formatter<W>) -> fmt::Result {
        write!(f, "[")?;
        for (i, number) in self.0.iter().enumerate() {
            if 0 < i {
                write!(f, " ")?;
            }
            write!(f, "{number}")?;
        }
        write!(f, "]")
    }
}
