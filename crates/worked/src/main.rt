//! Worked values that are no theorem: the start of a line, a silent line received, and what the bench prints.
#![tactic(auto)]

use arithmetic::Tabled;
use bench::standard_bench;
use codec::{Receiver, Receiving, Ring, Role, Scrambler, Seed, Sender, Sending};
use refusal::Fault;
use std::io;

/// The stream of a master at state 1.
// As in bench and in the walkthrough: a public function for it in the crate `lines` would be longer than this line.
fn master() -> Scrambler {
    Scrambler::from_seed(Role::Master, Seed::ONE)
}

/// The first twelve line symbols of zero octets with the management symbol 0.
fn start_of_zeros(rt: &HostRuntime) -> anyhow::Result<()> {
    let mut sender = Sender::new(Tabled, master(), Ring);
    let mut line = [0i8; 2700];
    sender.send(&[0; 450], 0, &mut line)?;
    print!(rt; "sent")?;
    // As code_words prints its words: a crate for both would hold these three lines.
    for symbol in line.iter().take(12) {
        print!(rt; " {symbol}")?;
    }
    println!(rt; "")?;
    Ok(())
}

/// A line of zeros received.
// The number alone of a refusal, as the stored output has it.
fn zeros_received(rt: &HostRuntime) -> io::Result<()> {
    let mut receiver = Receiver::new(Tabled, master(), Ring);
    match receiver.receive(&[0; 2700], &mut [0; 450], &mut [0; 22]) {
        Ok(report) => println!(rt; "accepted {}", report.symbol),
        Err(fault) => println!(rt; "{}", fault.refusal().number),
    }
}

/// Three bench records: zeros sent with symbol 0, place 0 of the line set to 1, the line received.
fn bench_lines(rt: &HostRuntime) -> anyhow::Result<()> {
    // As in a test of bench, which compares what is printed here: bench would have to export them for this program.
    let mut records = [0u8; 917];
    records[..4].copy_from_slice(&[0x86, 0x03, 1, 0]);
    records[906..].copy_from_slice(&[3, 0, 2, 0, 0, 0, 2, 0, 0, 3, 0]);
    let mut out = String::new(rt.alloc());
    let taken = standard_bench().run(&records, &mut out)?;
    print!(rt; "{out}")?;
    println!(rt; "{taken} octets")?;
    Ok(())
}

fn main(rt: HostRuntime) -> anyhow::Result<()> {
    start_of_zeros(&rt)?;
    zeros_received(&rt)?;
    bench_lines(&rt)
}
