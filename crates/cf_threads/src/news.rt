//! News for threads that rest.

/// That something has changed for threads that rest. It can't be let go, but by telling them.
pub struct News {
    told: (),
}

impl News {
    /// That something has changed.
    pub fn new() -> News {
        News { told: () }
    }

    /// It is told.
    pub(crate) fn told(self) {
        let News { told: _ } = self;
    }
}
