//! A packet's tail in a block, and blocks that encode nothing.
use crate::lists::print_each;
use codec::{Character, Control, read_block, write_block};
use refusal::Fault;
use std::io;

fn print_block(rt: &HostRuntime, block: &[u8; 11]) -> io::Result<()> {
    print!(rt; "  header {}, payload", block[0])?;
    print_each(rt, &block[1..])
}

fn print_characters(rt: &HostRuntime, characters: &[u16; 10]) -> io::Result<()> {
    print!(rt; "  characters")?;
    print_each(rt, characters)
}

/// Reads a block, and prints its characters or why it is refused.
fn print_read(rt: &HostRuntime, block: &[u8; 11]) -> io::Result<()> {
    let mut characters = [0u16; 10];
    match read_block(block, &mut characters) {
        Ok(()) => print_characters(rt, &characters),
        Err(fault) => println!(rt; "  {}", fault.refusal()),
    }
}

/// A packet's last nine octets and an error mark, which falls in octet 9: written, and read back.
pub(crate) fn packet_tail(rt: &HostRuntime) -> anyhow::Result<()> {
    println!(rt; "A packet's tail with an error mark as its lone control, in octet 9:")?;
    // Numbers, as the calls take them and as they are printed.
    let mark = u16::from(Character::Control(Control::Error));
    let tail = [0xde, 0xad, 0xbe, 0xef, 0x10, 0x20, 0x30, 0x40, 0x50, mark];
    print_characters(rt, &tail)?;
    let mut block = [0u8; 11];
    write_block(&tail, &mut block)?;
    print_block(rt, &block)?;
    println!(rt; "read back:")?;
    print_read(rt, &block)?;
    Ok(())
}

/// One block of each kind that encodes no characters, with its refusal.
pub(crate) fn invalid_blocks(rt: &HostRuntime) -> io::Result<()> {
    println!(rt; "Blocks that encode no ten characters:")?;
    let invalid = [
        ("a header octet above 1", [2, 0, 0, 0, 0, 0, 0, 0, 0, 0, 0]),
        (
            "a position past the end",
            [1, 10, 0, 0, 0, 0, 0, 0, 0, 0, 0],
        ),
        (
            "another control after octet 9",
            [1, 25, 0, 0, 0, 0, 0, 0, 0, 0, 0],
        ),
        (
            "a position already passed",
            [1, 16, 0, 0, 0, 0, 0, 0, 0, 0, 0],
        ),
        (
            "a reserved control code",
            [1, 192, 0, 0, 0, 0, 0, 0, 0, 0, 0],
        ),
    ];
    for (name, block) in invalid.iter() {
        println!(rt; "{name}:")?;
        print_block(rt, block)?;
        print_read(rt, block)?;
    }
    Ok(())
}
