//! Carries all 1,024 layouts of data and control through a block and back, and counts those that return.
#![tactic(auto)]

use codec::{Character, Control, read_block, write_block};
use std::{array, io};

const CONTROLS: [Control; 4] = [
    Control::NotReady,
    Control::Error,
    Control::Ready,
    Control::LowPower,
];

/// The numbers of ten characters with a control at each place whose bit is set in the layout, the first place at weight 1.
fn characters_of(layout: u16) -> [u16; 10] {
    array::from_fn(|k| {
        u16::from(if layout >> k & 1 == 0 {
            Character::Data(((layout / 4 + 25 * k as u16) % 256) as u8)
        } else {
            Character::Control(CONTROLS[(usize::from(layout) + k) % 4])
        })
    })
}

/// Whether ten characters come back from the block that they make.
// Over numbers: what is tried are the calls that callers with numbers make. A refusal counts as not returned, so no error is told.
// A test of blocks does the like: blocks would have to export it for one program.
fn returns(characters: &[u16; 10]) -> bool {
    let mut block = [0; 11];
    let mut back = [0; 10];
    write_block(characters, &mut block).is_ok()
        && read_block(&block, &mut back).is_ok()
        && back == *characters
}

fn main(rt: HostRuntime) -> io::Result<()> {
    // Counted by hand, since a line is printed for each that doesn't come back.
    let mut returned = 0u32;
    // The number is the layout itself, and no index.
    for layout in 0u16..1024 {
        if returns(&characters_of(layout)) {
            returned = returned.saturating_add(1);
        } else {
            println!(rt; "layout {layout} did not come back")?;
        }
    }
    println!(rt; "{returned} of 1024 layouts came back")
}
