//! The pairs of the line codes and of the layers.
use codec::{Exchanged, LineCode, Ordered, Ring, Turned};
use std::io;

fn print_pairs<L: LineCode>(rt: &HostRuntime, name: &str, code: &L) -> io::Result<()> {
    print!(rt; "  {name}:")?;
    // The number is the word itself, and no index.
    for word in 0..8u8 {
        let (first, second) = code.write(word);
        print!(rt; " ({first}, {second})")?;
    }
    println!(rt; "")
}

/// The pairs of both line codes, and of the layers over them.
pub(crate) fn line_codes(rt: &HostRuntime) -> io::Result<()> {
    println!(rt; "The pairs of the words 0 to 7:")?;
    print_pairs(rt, "ordered", &Ordered)?;
    print_pairs(rt, "ring", &Ring)?;
    print_pairs(rt, "ring turned", &Turned(Ring))?;
    print_pairs(rt, "ordered exchanged", &Exchanged(Ordered))?;
    print_pairs(rt, "ring turned and exchanged", &Exchanged(Turned(Ring)))
}
