use super::refusal::Refusal;
use std::error::Error;
use std::fmt;

// The refusal's number, and the block, the clone and the layer that it names.
impl fmt::Display for Refusal {
    fn fmt<W: fmt::Write>(&self, f: &mut fmt::Formatter<W>) -> fmt::Result {
        write!(f, "refused {}", self.number())?;
        if let Some(block) = self.block() {
            write!(f, " block {block}")?;
        }
        if let Some(clone) = self.clone_number() {
            write!(f, " clone {clone}")?;
        }
        if let Some(layer) = self.layer() {
            write!(f, " {layer}")?;
        }
        Ok(())
    }
}

impl Error for Refusal {}
