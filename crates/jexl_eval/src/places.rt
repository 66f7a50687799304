// Where parts of trees are kept.
ghost use Rattle.std.specs.Prelude.{◌≡◌};
ghost use Rattle.jexl_eval.specs.Places.{place, below, after};

/// Where parts of a list of trees are kept. It takes no memory where none is.
#[derive(Drop)]
pub(crate) enum Places {
    /// No part is kept.
    Nowhere,
    /// The place of the first tree if it is kept itself, the places below it, and those of the trees
    /// after it.
    From(Option<usize>, Box<Places>, Box<Places>),
}

impl Places {
    /// The place of the first tree, if it is kept. It takes no memory.
    pub(crate) fn place(&self) -> Option<usize>
        ensures { result ≡ place self.now }
    {
        match self {
            Places::Nowhere => None,
            Places::From(place, _, _) => *place,
        }
    }

    /// The places of the trees below the first one. It takes no memory.
    pub(crate) fn below(&self) -> &Places
        ensures { result.now ≡ below self.now }
    {
        match self {
            Places::Nowhere => self,
            Places::From(_, below, _) => below,
        }
    }

    /// The places of the trees after the first one. It takes no memory.
    pub(crate) fn after(&self) -> &Places
        ensures { result.now ≡ after self.now }
    {
        match self {
            Places::Nowhere => self,
            Places::From(_, _, after) => after,
        }
    }
}
