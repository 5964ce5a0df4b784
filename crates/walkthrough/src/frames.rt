//! Frames carried from characters to the line and back.
use crate::agreeing::exchange_of_two_kinds;
use crate::lists::print_each;
use arithmetic::Tabled;
use codec::{
    Character, Control, EndFault, Outcome, Receiver, Receiving, Report, Request, Ring, Role,
    Scrambler, Seed, Sender, Sending, Turn,
};
use refusal::Fault;
use std::{array, io};

/// The management symbol of the frames here.
const SYMBOL: u16 = 300;

/// A packet between idles: data with an error mark in it, and low power at the end. A send takes them as numbers.
fn characters() -> [u16; 450] {
    array::from_fn(|k| {
        u16::from(match k {
            20..419 => Character::Data((7 * k % 256) as u8),
            419 => Character::Control(Control::Error),
            440.. => Character::Control(Control::LowPower),
            _ => Character::Control(Control::Ready),
        })
    })
}

/// The stream of a master at state 1.
// As in bench and in `worked`: a public function for it in the crate `lines` would be longer than this line.
pub(crate) fn master() -> Scrambler {
    Scrambler::from_seed(Role::Master, Seed::ONE)
}

/// The line frame of these characters, as such a master sends it.
fn line_frame() -> Result<[i8; 2700], EndFault> {
    let mut line = [0i8; 2700];
    Sender::new(Tabled, master(), Ring).send(&characters(), SYMBOL, &mut line)?;
    Ok(line)
}

/// Damages as many groups, every twentieth from the fourth on: one symbol of each is another one.
// A word's `damage` goes by symbols; a test of codec damages lines otherwise.
fn damage(line: &mut [i8; 2700], groups: usize) {
    let damaged = line.chunks_exact_mut(6).skip(3).step_by(20).take(groups);
    // Another place in each group, by its number: a zip with (0..6).cycle() would count the same.
    for (i, group) in damaged.enumerate() {
        let symbol = &mut group[i % 6];
        *symbol = if *symbol == 0 { 1 } else { 0 };
    }
}

/// Prints what a receive answers.
// No Display: how a report reads here is this program's own, and the type is the codec's, so it would need a wrapper.
fn print_outcome(rt: &HostRuntime, answer: Result<Report, EndFault>) -> io::Result<()> {
    match answer {
        Ok(report) => println!(rt;
            "  accepted: symbol {}, {} places, invalid set {}",
            report.symbol, report.places, report.invalid
        ),
        Err(fault) => println!(rt; "  {}", fault.refusal()),
    }
}

/// A frame sent, 22 of its groups damaged, received and repaired.
pub(crate) fn damaged_frame(rt: &HostRuntime) -> anyhow::Result<()> {
    println!(rt; "A frame of 450 characters on the line, with 22 groups damaged:")?;
    let mut receiver = Receiver::new(Tabled, master(), Ring);
    let mut line = line_frame()?;
    damage(&mut line, 22);
    let mut received = [0u16; 450];
    let mut places = [0u16; 22];
    let answer = receiver.receive(&line, &mut received, &mut places);
    print_outcome(rt, answer)?;
    print!(rt; "  repaired groups")?;
    print_each(rt, &places)?;
    println!(rt; "  the characters came back: {}", received == characters())?;
    Ok(())
}

/// Bad frames until lock is lost.
// Receiver and buffers as in `damaged_frame`: a struct for them would be longer than these lines.
pub(crate) fn lost_lock(rt: &HostRuntime) -> io::Result<()> {
    println!(rt; "Bad frames, lines of zeros:")?;
    let mut receiver = Receiver::new(Tabled, master(), Ring);
    let line = [0i8; 2700];
    let mut received = [0u16; 450];
    let mut places = [0u16; 22];
    // The number is printed, and no index. Of the frames between nothing is told: each is beyond repair, as the first is.
    for n in 1..42usize {
        let answer = receiver.receive(&line, &mut received, &mut places);
        if n == 1 || n >= 40 {
            println!(rt; "  bad frame {n}:")?;
            print_outcome(rt, answer)?;
        }
    }
    Ok(())
}

// Accepted and refused are printed as an answer is; an outcome has two cases more. No Display, as at `print_outcome`.
fn print_turn(rt: &HostRuntime, turn: &Turn) -> io::Result<()> {
    match turn.outcome {
        Outcome::Unanswered => println!(rt; "  not asked"),
        Outcome::Done => println!(rt; "  done"),
        Outcome::Accepted { report } => print_outcome(rt, Ok(report)),
        Outcome::Refused { fault } => print_outcome(rt, Err(fault)),
    }
}

/// A call whose turn has not come.
fn asked(request: Request) -> Turn {
    Turn {
        request,
        outcome: Outcome::Unanswered,
    }
}

/// A list of calls on two ends whose arithmetics are of different kinds.
pub(crate) fn a_list_of_calls(rt: &HostRuntime) -> anyhow::Result<()> {
    println!(rt; "A list of calls, the sender over shifting and the receiver over tables:")?;
    let heap = rt.alloc();
    let mut line = line_frame()?;
    damage(&mut line, 5);
    let mut turns = vec![in heap;
        asked(Request::Send {
            characters: characters().to_vec(heap)?,
            symbol: SYMBOL,
            line: vec![in heap; 0i8; 2700]?
        }),
        asked(Request::Receive {
            line: line.to_vec(heap)?,
            characters: vec![in heap; 0u16; 450]?,
            places: vec![in heap; 0u16; 22]?
        }),
        asked(Request::SenderRest {
            line: vec![in heap; 0i8; 2699]?
        }),
        asked(Request::ReceiverRest),
    ]?;
    exchange_of_two_kinds(&mut turns);
    for turn in turns.iter() {
        print_turn(rt, turn)?;
    }
    Ok(())
}
