//! A word completed, damaged and repaired.
use arithmetic::Tabled;
use code::Code;
use refusal::{Fault, Refusal};
use std::{array, io};

/// Changes as many symbols, every nineteenth from the eighth on.
// A line's `damage` goes by groups; a test of codec damages lines otherwise.
fn damage(word: &mut [u16; 450], count: usize) {
    for symbol in word.iter_mut().skip(7).step_by(19).take(count) {
        *symbol = (*symbol % 512) ^ 1;
    }
}

/// Some message, before its check symbols.
// Numbers, as the calls over lists take them. A test of codec has it too, and would have to export it for one program.
fn message() -> [u16; 450] {
    array::from_fn(|i| if i < 406 { (7 * i % 512) as u16 } else { 0 })
}

/// Completes a word, damages 22 and 23 of its symbols, and repairs it.
pub(crate) fn damaged_words(rt: &HostRuntime) -> anyhow::Result<()> {
    println!(rt; "A word of the code:")?;
    let code = Code::new(Tabled);
    let mut sent = message();
    code.complete(&mut sent)?;
    println!(rt;
        "completed: the last symbols are {} {} {}",
        sent[447], sent[448], sent[449]
    )?;
    for count in [22, 23] {
        let mut received = sent;
        damage(&mut received, count);
        let before = received;
        match code.repair(&mut received) {
            Ok(changed) => {
                print!(rt; "{count} damaged: {changed} symbols repaired, at")?;
                for (place, (was, is)) in before.iter().zip(received.iter()).enumerate() {
                    if was != is {
                        print!(rt; " {place}")?;
                    }
                }
                println!(rt; "; as sent: {}", received == sent)?;
            }
            // By its parts: what a Refusal prints names the layer too.
            Err(fault) => {
                let Refusal { number, place, .. } = fault.refusal();
                println!(rt;
                    "{count} damaged: refused with {number} at {place}, left as received: {}",
                    received == before
                )?;
            }
        }
    }
    Ok(())
}
