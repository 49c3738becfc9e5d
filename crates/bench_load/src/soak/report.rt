//! What a soak tells.
use crate::soak::constants::CALLERS;
use crate::soak::looks::Looks;
use crate::soak::tally::Tally;
use std::fmt;

/// A soak, with what its callers met with and what is left of the cache in the end. Its text has a line for each number, and a last one that says
/// whether all is as it must be.
#[derive(Clone, Copy, Debug, PartialEq, Eq)]
pub struct Report {
    pub calls: u64,
    pub seed: u64,
    pub tally: Tally,
    pub looks: Looks,
}

impl Report {
    ghost use Rattle.std.specs.Prelude.{IsTrue};
    ghost use Rattle.bench_load.specs.Sound.{IsSound};

    /// Returns `true` if all calls were made, nothing was wrong, and what is left is what is counted.
    pub fn is_sound(&self) -> bool
        ensures { IsTrue result → IsSound self.now }
    {
        self.tally.made.total() == self.calls && self.tally.has_no_fault() && self.looks.are_right()
    }

    /// Returns `true` if it is sound, no call was refused, and one call of a hundred has found a value.
    pub fn is_served(&self) -> bool {
        self.is_sound() && self.tally.refusals == 0 && self.calls / 100 <= self.tally.hits
    }

    /// The last line of its text.
    pub fn verdict(&self) -> &'static str {
        if self.is_sound() {
            "sound"
        } else {
            "NOT SOUND"
        }
    }
}

impl fmt::Display for Report {
    fn fmt<W: fmt::Write>(&self, f: &mut fmt::Formatter<W>) -> fmt::Result {
        let Report { calls, seed, .. } = *self;
        writeln!(f, "{calls} calls by {CALLERS} threads, seed {seed}")?;
        push_rows(f, &self.tally.made.rows())?;
        push_rows(f, &self.tally.rows())?;
        push_looks(f, &self.looks)?;
        f.write_str(self.verdict())
    }
}

/// A line for each number with its name.
fn push_rows<W: fmt::Write>(
    f: &mut fmt::Formatter<W>,
    rows: &[(&'static str, u64)],
) -> fmt::Result {
    for &(name, number) in rows {
        writeln!(f, "{name}: {number}")?;
    }
    Ok(())
}

/// A line for each look.
fn push_looks<W: fmt::Write>(f: &mut fmt::Formatter<W>, looks: &Looks) -> fmt::Result {
    let Looks {
        joined,
        expired,
        filled,
        emptied,
    } = *looks;
    writeln!(f, "in the end: {joined}")?;
    writeln!(f, "when all is expired: {expired}")?;
    writeln!(f, "filled: {filled}")?;
    writeln!(f, "emptied: {emptied}")
}
