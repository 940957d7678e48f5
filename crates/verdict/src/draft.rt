// A sheet whose rows are still to be checked.
ghost use Rattle.std.specs.Prelude.{length};
ghost use Rattle.sheet.specs.Accepted.{HeaderFits, EdgeRoom};

use sheet::Header;

// Words whose header fits them, so that their rows can be read: the words, their edge table where it lies, and their header.
#[derive(Clone, Copy)]
pub struct Draft<'a> {
    pub words: &'a [u32],
    pub edges: &'a [u32],
    pub header: Header,
    pub ghost fits: { HeaderFits header (length words.now) },
    pub ghost room: { EdgeRoom header edges.now },
}
