use crate::Answer;

// What a register access leaves of what it needed, and the answer.
#[derive(Clone, Copy)]
pub struct Accessed<T> {
    pub next: T,
    pub answer: Answer,
}
