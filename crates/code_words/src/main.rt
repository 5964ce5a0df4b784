//! Completes and repairs the words that it reads: a line is `complete` or `repair` and the symbols of a word, c449 first.
//! Words are completed by one arithmetic and repaired by another.
#![tactic(auto)]

use arithmetic::{Shifting, Tabled};
use code::{Code, CodeFault};
use refusal::{Fault, Refusal};
use std::alloc::Global;
use std::io::{self, BufRead, BufReader};

/// The symbols of a line after its first word.
fn symbols(heap: Global, line: &str) -> anyhow::Result<Vec<u16>> {
    let mut word = Vec::new(heap);
    for text in line.split_whitespace().skip(1) {
        word.push(text.parse::<u16>()?)?;
    }
    Ok(word)
}

// By its parts and no Display: the stored output has them bare, and what a Refusal prints has words between them.
fn show_refusal(rt: &HostRuntime, fault: CodeFault) -> io::Result<()> {
    let Refusal {
        number,
        layer,
        place,
    } = fault.refusal();
    println!(rt; "refused {number} {layer} {place}")
}

// As other programs print their lists: a crate for them all would hold these three lines.
fn show_word(rt: &HostRuntime, word: &[u16]) -> io::Result<()> {
    print!(rt; "word")?;
    for symbol in word {
        print!(rt; " {symbol}")?;
    }
    println!(rt; "")
}

fn answer(
    rt: &HostRuntime,
    completing: &Code<Shifting>,
    repairing: &Code<Tabled>,
    line: &str,
) -> anyhow::Result<()> {
    let mut word = symbols(rt.alloc(), line)?;
    // The first word says which; an enum would be made and matched in these two lines alone.
    if line.starts_with("complete") {
        match completing.complete(&mut word) {
            Ok(()) => println!(rt; "completed")?,
            Err(fault) => show_refusal(rt, fault)?,
        }
    } else {
        match repairing.repair(&mut word) {
            Ok(changed) => println!(rt; "changed {changed}")?,
            Err(fault) => show_refusal(rt, fault)?,
        }
    }
    show_word(rt, &word)?;
    Ok(())
}

fn main(rt: HostRuntime) -> anyhow::Result<()> {
    let completing = Code::new(Shifting);
    let repairing = Code::new(Tabled);
    for line in BufReader::new(rt.alloc(), rt.stdin())?.lines(rt.alloc()) {
        answer(&rt, &completing, &repairing, &line?)?;
    }
    Ok(())
}
