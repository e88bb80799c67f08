use l2_check::Gate;
use std::sync::atomic::{AtomicBool, Ordering};

/// How often a goal looks for the other before it gives up.
const MOST_LOOKS: u64 = 100_000_000;

/// A gate at which the first goal and the third wait for one another.
#[derive(Drop)]
pub struct Meeting {
    first: AtomicBool,
    third: AtomicBool,
    gave_up: AtomicBool,
}

impl Meeting {
    pub fn new() -> Meeting {
        Meeting {
            first: AtomicBool::new(false),
            third: AtomicBool::new(false),
            gave_up: AtomicBool::new(false),
        }
    }

    /// Whether one of the two went on alone.
    pub fn gave_up(&self) -> bool {
        self.gave_up.load(Ordering::SeqCst)
    }

    /// Raises the one flag, and waits for the other.
    fn meet(&self, mine: &AtomicBool, other: &AtomicBool) {
        mine.store(true, Ordering::SeqCst);
        for _ in 0..MOST_LOOKS {
            if other.load(Ordering::SeqCst) {
                return;
            }
        }
        self.gave_up.store(true, Ordering::SeqCst);
    }
}

impl Gate for Meeting {
    fn pass(&self, goal: u64) {
        if goal == 1 {
            self.meet(&self.first, &self.third);
        } else if goal == 3 {
            self.meet(&self.third, &self.first);
        }
    }
}
