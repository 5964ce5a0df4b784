//! Frames worked out by hand. Characters are numbers here, as callers' buffers have them.
use crate::checks::check_frame;
use crate::frame::read_frame;
use blocks::BlockFault;
use code::Word;
use std::test::Fail;

/// The word of 450 characters and a management symbol.
fn word(characters: &[u16; 450], symbol: u16) -> Result<Word, Fail> {
    Ok(check_frame(characters, symbol)?.word())
}

#[test]
fn zeros_stay_zeros(rt: HostRuntime) -> Result<(), Fail> {
    assert_eq!(rt; word(&[0; 450], 0)?.symbols, [0; 450]);
    Ok(())
}

#[test]
fn header_and_octets_share_symbols(rt: HostRuntime) -> Result<(), Fail> {
    let mut characters = [0u16; 450];
    characters[9] = 257;
    characters[449] = 255;
    let Word { symbols } = word(&characters, 511)?;
    assert_eq!(rt; symbols[0], 19);
    assert_eq!(rt; symbols[1], 0);
    assert_eq!(rt; symbols[404], 510);
    assert_eq!(rt; symbols[405], 511);
    Ok(())
}

#[test]
fn mixed_frame_comes_back(rt: HostRuntime) -> Result<(), Fail> {
    let mut sent = [213u16; 450];
    sent[3] = 258;
    sent[12] = 7;
    sent[19] = 257;
    sent[20] = 261;
    sent[449] = 256;
    let word = word(&sent, 300)?;
    let mut back = [0u16; 450];
    let report = read_frame(&word, &mut back);
    assert_eq!(rt; back, sent);
    assert_eq!(rt; report.invalid, 0);
    assert!(rt; report.fault.is_none());
    Ok(())
}

#[test]
fn invalid_blocks_are_errors(rt: HostRuntime) -> Result<(), Fail> {
    let mut symbols = [0u16; 450];
    symbols[63] = 51;
    symbols[396] = 21;
    let word = Word::try_from(symbols.as_slice())?;
    let mut back = [0u16; 450];
    let report = read_frame(&word, &mut back);
    assert_eq!(rt; (back[69], back[80], back[439]), (0, 0, 0));
    assert_eq!(rt; (back[70], back[79]), (257, 257));
    assert_eq!(rt; (back[440], back[449]), (257, 257));
    assert_eq!(rt; report.invalid, 17592186044544);
    let first = report.fault.ok_or("no fault")?;
    assert_eq!(rt; first.block, 7);
    assert_eq!(rt; first.fault, BlockFault::InvalidPointer { octet: 0 });
    Ok(())
}
