//! Masks of both roles, and the pairs of each line code.
use crate::layers::{Exchanged, Turned};
use crate::line_code::LineCode;
use crate::making::MakingFault;
use crate::ordered::Ordered;
use crate::ring::Ring;
use crate::role::Role;
use crate::scrambler::Scrambler;
use crate::seed::Seed;
use crate::stream::{Silent, Stream};
use crate::symbol::{NoSymbol, Symbol};
use std::fmt::Debug;
use std::test::Fail;

// The pairs of each code and layer, written out by hand: worked out from one another they would test nothing but that.
const ORDERED: [(i8, i8); 8] = [
    (-1, -1),
    (-1, 0),
    (-1, 1),
    (0, -1),
    (0, 1),
    (1, -1),
    (1, 0),
    (1, 1),
];

const RING: [(i8, i8); 8] = [
    (-1, -1),
    (-1, 0),
    (0, 1),
    (-1, 1),
    (0, -1),
    (1, -1),
    (1, 1),
    (1, 0),
];

const RING_TURNED: [(i8, i8); 8] = [
    (1, 1),
    (1, 0),
    (0, -1),
    (1, -1),
    (0, 1),
    (-1, 1),
    (-1, -1),
    (-1, 0),
];

const ORDERED_EXCHANGED: [(i8, i8); 8] = [
    (-1, -1),
    (0, -1),
    (1, -1),
    (-1, 0),
    (1, 0),
    (-1, 1),
    (0, 1),
    (1, 1),
];

const RING_TURNED_AND_EXCHANGED: [(i8, i8); 8] = [
    (1, 1),
    (0, 1),
    (-1, 0),
    (-1, 1),
    (1, 0),
    (1, -1),
    (-1, -1),
    (0, -1),
];

const MASTER_FROM_1: [u16; 6] = [273, 200, 100, 186, 281, 175];

const SLAVE_FROM_1: [u16; 6] = [1, 68, 16, 72, 290, 1];

const MASTER_FROM_32767: [u16; 6] = [481, 368, 71, 300, 17, 309];

const SLAVE_FROM_10922: [u16; 6] = [0, 40, 160, 133, 321, 341];

// Fails a test where an answer is not the one that is wanted.
fn check_eq<T: PartialEq + Debug + Drop>(answer: T, wanted: T) -> Result<(), Fail> {
    if answer != wanted {
        return Err(Fail::new(format_args!("{answer:?} in place of {wanted:?}")));
    }
    Ok(())
}

// Every word writes its pair and is read from it; what no word writes is read as none.
fn writes<L: LineCode>(code: &L, pairs: &[(i8, i8); 8]) -> Result<(), Fail> {
    // The place is the word. Tried as a zip with 0..8, of which no bound for `word + 8` is known.
    for (place, pair) in pairs.iter().enumerate() {
        let word = place as u8;
        check_eq(code.write(word), *pair)?;
        check_eq(code.write(word + 8), *pair)?;
        check_eq(code.read(pair.0, pair.1), Some(word))?;
    }
    check_eq(code.read(0, 0), None)?;
    check_eq(code.read(2, 1), None)?;
    check_eq(code.read(0, -2), None)?;
    check_eq(code.read(-128, -128), None)?;
    check_eq(code.read(127, 1), None)
}

#[test]
fn both_codes_write_their_pairs() -> Result<(), Fail> {
    writes(&Ordered, &ORDERED)?;
    writes(&Ring, &RING)
}

#[test]
fn layers_stack() -> Result<(), Fail> {
    writes(&Turned(Ring), &RING_TURNED)?;
    writes(&Exchanged(Ordered), &ORDERED_EXCHANGED)?;
    writes(&Exchanged(Turned(Ring)), &RING_TURNED_AND_EXCHANGED)?;
    writes(&Turned(Turned(Ordered)), &ORDERED)
}

fn starts<S: Stream>(stream: &mut S, masks: &[u16; 6]) -> Result<(), Fail> {
    for mask in masks {
        check_eq(stream.next(), *mask)?;
    }
    Ok(())
}

#[test]
fn both_roles_give_their_masks() -> Result<(), Fail> {
    starts(&mut Scrambler::new(Role::Master, 1)?, &MASTER_FROM_1)?;
    starts(&mut Scrambler::new(Role::Slave, 1)?, &SLAVE_FROM_1)?;
    starts(
        &mut Scrambler::new(Role::Master, 32767)?,
        &MASTER_FROM_32767,
    )?;
    starts(&mut Scrambler::new(Role::Slave, 10922)?, &SLAVE_FROM_10922)?;
    let from_one = &mut Scrambler::from_seed(Role::Master, Seed::ONE);
    starts(from_one, &MASTER_FROM_1)?;
    starts(&mut Silent, &[0; 6])
}

#[test]
fn only_states_are_seeds(rt: HostRuntime) {
    for seed in [0, 32768, 65535] {
        let fault = Scrambler::new(Role::Master, seed).err();
        assert_eq!(rt; fault, Some(MakingFault::Seed));
    }
}

#[test]
fn symbols_and_faults_print(rt: HostRuntime) -> Result<(), Fail> {
    let symbols = [
        (Symbol::MINUS, "-1"),
        (Symbol::ZERO, "0"),
        (Symbol::PLUS, "1"),
    ];
    for (symbol, wanted) in symbols {
        let printed = format!(in rt.alloc(); "{symbol}")?;
        assert_eq!(rt; printed.as_str(), wanted);
    }
    let printed = format!(in rt.alloc(); "{}; {}", NoSymbol(2), MakingFault::Seed)?;
    assert_eq!(rt;
        printed.as_str(),
        "2 is no line symbol; a seed of 0 or of more than fifteen bits"
    );
    Ok(())
}
