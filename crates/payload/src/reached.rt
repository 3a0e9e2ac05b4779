// How far a payload was read, by its check or by the overlay.
ghost use Rattle.std.specs.Prelude.{◌≡◌, ◌≤◌};
ghost use Rattle.payload.specs.Reach.{farthest};
ghost use Rattle.payload.specs.Positions.{before};

// The place of the payload's next entry, and the place in the page after the last position, so that no sum is signed.
// Without the payload: each function that moves it on would have to promise that the payload is the same.
#[derive(Clone, Copy)]
pub(crate) struct Reached {
    pub(crate) place: usize,
    pub(crate) next: usize,
    ghost few: { next ≤ farthest },
}

impl Reached {
    pub(crate) fn new(place: usize, next: usize) -> Self
        requires { next ≤ farthest }
        ensures place { result.place ≡ place }
        ensures next { result.next ≡ next }
    {
        Reached { place, next }
    }

    // The last position: -1 before the first.
    pub(crate) fn last(self) -> i32
        ensures { result ≡ before self.next }
    {
        (self.next as i32) - 1
    }
}
