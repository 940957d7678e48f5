// A sheet that passed the check.
ghost use Rattle.std.specs.Prelude.{◌≡◌};
ghost use Rattle.sheet.specs.Accepted.{WellFormed};

use super::Header;

// A sheet that passed the check: its words, its edge table where it lies, and its header.
#[derive(Clone, Copy)]
pub struct Sheet<'a> {
    pub words: &'a [u32],
    pub edges: &'a [u32],
    pub header: Header,
    pub ghost formed: { WellFormed words.now edges.now header },
}
