// The rows of two tables that have the next key.
ghost use Rattle.std.specs.Prelude.{◌≡◌};
ghost use Rattle.combine.specs.Meets.{first_met, second_met};

// A row of the first table, of the second, or one of each.
#[derive(Clone, Copy)]
pub enum Meeting {
    First(usize),
    Second(usize),
    Both(usize, usize),
}

impl Meeting {
    // The first table's row, where it has one.
    pub(crate) fn first(self) -> Option<usize>
        ensures { result ≡ first_met self }
    {
        match self {
            Meeting::First(i) | Meeting::Both(i, _) => Some(i),
            Meeting::Second(_) => None,
        }
    }

    // The second table's row, where it has one.
    pub(crate) fn second(self) -> Option<usize>
        ensures { result ≡ second_met self }
    {
        match self {
            Meeting::Second(j) | Meeting::Both(_, j) => Some(j),
            Meeting::First(_) => None,
        }
    }
}
