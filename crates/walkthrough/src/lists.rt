//! Lists, printed.
use std::fmt::Display;
use std::io;

/// Prints each item after a space, and ends the line.
pub(crate) fn print_each<T: Display>(rt: &HostRuntime, items: &[T]) -> io::Result<()> {
    for item in items {
        print!(rt; " {item}")?;
    }
    println!(rt; "")
}
