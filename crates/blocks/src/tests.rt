//! Worked values. Characters are numbers here, as the calls that are tried take them.
use crate::{BlockFault, Character, Control, NoCharacter, read_block, write_block};
use std::test::Fail;

/// The block of ten characters, and the ten that are read from it.
fn there_and_back(characters: &[u16; 10]) -> Result<([u8; 11], [u16; 10]), BlockFault> {
    let mut block = [0u8; 11];
    write_block(characters, &mut block)?;
    let mut back = [0u16; 10];
    read_block(&block, &mut back)?;
    Ok((block, back))
}

#[test]
fn ten_ready(rt: HostRuntime) -> Result<(), Fail> {
    let (block, back) = there_and_back(&[258; 10])?;
    assert_eq!(rt; block, [1, 80, 81, 82, 83, 84, 85, 86, 87, 88, 73]);
    assert_eq!(rt; back, [258; 10]);
    Ok(())
}

#[test]
fn nine_and_an_error(rt: HostRuntime) -> Result<(), Fail> {
    let tail = [1, 2, 3, 4, 5, 6, 7, 8, 9, 257];
    let (block, back) = there_and_back(&tail)?;
    assert_eq!(rt; block, [1, 41, 64, 96, 128, 160, 192, 224, 0, 33, 129]);
    assert_eq!(rt; back, tail);
    Ok(())
}

fn refusal(first: u8, second: u8) -> Result<(), BlockFault> {
    let mut back = [0u16; 10];
    read_block(&[1, first, second, 0, 0, 0, 0, 0, 0, 0, 0], &mut back)
}

#[test]
fn invalid_fields(rt: HostRuntime) {
    assert_eq!(rt;
        refusal(25, 0),
        Err(BlockFault::InvalidPointer { octet: 0 })
    );
    assert_eq!(rt;
        refusal(10, 0),
        Err(BlockFault::InvalidPointer { octet: 0 })
    );
    assert_eq!(rt;
        refusal(16, 0),
        Err(BlockFault::InvalidPointer { octet: 1 })
    );
    assert_eq!(rt; refusal(192, 0), Err(BlockFault::ReservedCode { octet: 0 }));
}

#[test]
fn lengths_and_characters(rt: HostRuntime) {
    let mut block = [7u8; 11];
    let mut short = [7u8; 10];
    assert_eq!(rt;
        write_block(&[0; 9], &mut short),
        Err(BlockFault::InputLength)
    );
    assert_eq!(rt;
        write_block(&[0; 10], &mut short),
        Err(BlockFault::OutputLength)
    );
    assert_eq!(rt;
        write_block(&[0, 1, 2, 259, 4, 5, 260, 7, 8, 9], &mut block),
        Err(BlockFault::NoCharacter { place: 3 })
    );
    assert_eq!(rt; block, [7; 11]);
    let mut back = [7u16; 10];
    assert_eq!(rt;
        read_block(&[2, 0, 0, 0, 0, 0, 0, 0, 0, 0, 0], &mut back),
        Err(BlockFault::InvalidPointer { octet: 0 })
    );
    assert_eq!(rt; back, [7; 10]);
}

#[test]
fn numbers_and_characters(rt: HostRuntime) {
    assert_eq!(rt; Character::try_from(255u16), Ok(Character::Data(255)));
    assert_eq!(rt;
        Character::try_from(261u16),
        Ok(Character::Control(Control::LowPower))
    );
    assert_eq!(rt; Character::try_from(259u16), Err(NoCharacter(259)));
    assert_eq!(rt; u16::from(Character::Control(Control::Ready)), 258u16);
}
