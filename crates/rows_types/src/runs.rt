//! Numbers one space apart, of which many alike are written once.

use cm_rows::Line;

/// Beyond so many that are alike, they are written once, behind how many there are.
const MAX_ALIKE: usize = 8;

/// The numbers that were added last, which are alike, and wait to be written.
#[derive(Drop)]
pub struct Runs {
    is_begun: bool,
    last: usize,
    count: usize,
}

impl Runs {
    pub fn new() -> Runs {
        Runs {
            is_begun: false,
            last: 0,
            count: 0,
        }
    }

    pub fn add(&mut self, number: usize, line: &mut Line) {
        if self.last != number {
            self.end_run(line);
        }
        self.last = number;
        self.count = self.count.saturating_add(1);
    }

    /// Writes the numbers that wait.
    pub fn end_run(&mut self, line: &mut Line) {
        let count = self.count;
        self.count = 0;
        if count > MAX_ALIKE {
            self.write(count, line);
            return;
        }
        for _ in 0..count {
            self.write(1, line);
        }
    }

    fn write(&mut self, times: usize, line: &mut Line) {
        if self.is_begun {
            line.put(" ");
        }
        self.is_begun = true;
        if times > 1 {
            line.show(times);
            line.put("*");
        }
        line.show(self.last);
    }
}
