//! The two ends of a link, and what both are made over.
use crate::lock::Lock;
use arithmetic::Arithmetic;
use code::Code;

/// What an end is made over: the code over an arithmetic, a stream of masks and a line code.
// Clauses over parts name the members of these: those of a trait for that would have to be named in each as well, at more length.
// Made in place by each end: a function that answers it was tried, moves the code's tables once more, and made an end a quarter
// slower to make.
#[derive(Drop)]
pub(crate) struct Parts<A: Arithmetic, S, L> {
    pub(crate) code: Code<A>,
    pub(crate) stream: S,
    pub(crate) line_code: L,
}

/// The end that sends.
#[derive(Drop)]
pub struct Sender<A: Arithmetic, S, L> {
    pub(crate) parts: Parts<A, S, L>,
}

/// The end that receives. Its stream is that of the far end's role.
#[derive(Drop)]
pub struct Receiver<A: Arithmetic, S, L> {
    pub(crate) parts: Parts<A, S, L>,
    pub(crate) lock: Lock,
}
