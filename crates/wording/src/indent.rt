// What stands in front of a line of a tree.
ghost use Rattle.std.specs.Prelude.{Some};
ghost use Rattle.wording.specs.Shown.{blanks};

use std::fmt;

/// Two blanks for each level.
#[derive(Clone, Copy)]
pub struct Indent {
    pub level: usize,
}

impl fmt::Display for Indent {
    ghost output = { λ i. Some (blanks i.level) };

    fn fmt<W: fmt::Write>(&self, f: &mut fmt::Formatter<W>) -> fmt::Result {
        // A loop: each write may fail.
        for _ in 0..self.level {
            f.write_str("  ")?;
        }
        Ok(())
    }
}
