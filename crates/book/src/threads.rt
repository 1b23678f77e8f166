//! The threads that a book has pages for.

ghost use Rattle.std.specs.Prelude.{◌≡◌, ℕ, ◌<◌, ◌≤◌, Bool, is_some, IfSome, nat_le, nat_lt};
ghost use Rattle.model.specs.Places.{any_below};

/// How many threads there are, which is at most eight.
#[derive(Clone, Copy)]
pub(crate) struct ThreadCount {
    pub(crate) count: u8,
    ghost at_most_eight: { count ≤ 8 },
}

/// One of the eight threads.
#[derive(Clone, Copy, PartialEq, Eq)]
pub(crate) struct Thread {
    pub(crate) index: u8,
    ghost below_eight: { index < 8 },
}

impl ThreadCount {
    /// So many threads, if there is a page for each.
    pub(crate) fn new(count: u8) -> Option<ThreadCount>
        ensures variant { is_some result ≡ nat_le count 8 }
        ensures value { IfSome result (λ threads. threads.count ≡ count) }
    {
        if count <= 8 {
            Some(ThreadCount { count })
        } else {
            None
        }
    }

    /// The thread with this index, if it is one of these.
    pub(crate) fn thread(self, index: u8) -> Option<Thread>
        ensures variant { is_some result ≡ nat_lt index self.count }
        ensures value { IfSome result (λ thread. thread.index ≡ index) }
    {
        if index < self.count {
            Some(Thread { index })
        } else {
            None
        }
    }

    /// Some thread of these is such.
    pub(crate) fn any<F: Fn(Thread) -> bool>(self, is_such: F) -> bool
        requires { F.IsAlwaysCallable is_such }
        ensures { (p : ℕ → Bool) → ((thread : _) (answer : Bool) → F.post is_such thread answer → answer ≡ p thread.index) → result ≡ any_below self.count p }
    {
        // A loop, since the proof of `any` over the range does not close where its closure calls another.
        for index in 0..self.count {
            if is_such(Thread { index }) {
                return true;
            }
        }
        false
    }
}
