//! Bells, by which the ends of a lane sleep and wake each other.

use std::sync::Wait;
use std::sync::atomic::{AtomicBool, Ordering};
use std::thread::Parker;
use std::time::Duration;

/// What one end of a lane sleeps by, until the other end wakes it.
///
/// Only waiting depends on it. Nobody is woken who doesn't listen, and a sleep ends by itself, too.
#[derive(Drop)]
pub struct Bell {
    listens: AtomicBool,
    parker: Parker,
}

impl Bell {
    /// Returns a bell to which nobody listens.
    pub fn new() -> Bell {
        Bell {
            listens: AtomicBool::new(false),
            parker: Parker::new(),
        }
    }

    /// Says that this end listens. A call of `wake` from then on ends its next sleep, so what it waits for is to be looked at once
    /// more before that.
    pub fn listen(&self) {
        self.listens.store(true, Ordering::SeqCst);
    }

    /// Sleeps until the other end calls `wake`, or for a time, whichever is shorter.
    pub fn sleep<R: Wait>(&self, rt: &R, most: Duration) {
        self.listen();
        self.parker.park_timeout(rt, most);
        self.listens.store(false, Ordering::SeqCst);
    }

    /// Wakes the other end if it listens.
    // Mostly nobody listens, so the rest stands apart.
    #[inline(always)]
    pub fn wake(&self) {
        if self.listens.load(Ordering::SeqCst) {
            self.end_sleep();
        }
    }

    /// Ends the sleep of the other end.
    #[inline(never)]
    fn end_sleep(&self) {
        self.listens.store(false, Ordering::SeqCst);
        self.parker.unpark();
    }
}

/// The bells of a lane's two ends.
#[derive(Drop)]
pub(crate) struct Bells {
    pub(crate) sender: Bell,
    pub(crate) receiver: Bell,
}

impl Bells {
    /// Returns bells to which nobody listens.
    pub(crate) fn new() -> Bells {
        Bells {
            sender: Bell::new(),
            receiver: Bell::new(),
        }
    }
}
