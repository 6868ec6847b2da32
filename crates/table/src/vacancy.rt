//! Where the next entry goes.
use links::Link;

/// A cell to take, and what the table's `used` and `free` are once it is taken.
#[derive(Clone, Copy)]
pub struct Vacancy {
    pub place: usize,
    pub used: usize,
    pub rest: Link,
}
