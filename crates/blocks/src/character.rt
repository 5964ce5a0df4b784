//! Characters: an octet of data, or one of four controls.
ghost use Rattle.std.specs.Prelude.{◌≡◌, ℕ, map, MatchOption, MatchResult};
ghost use Rattle.blocks.specs.Characters.{Characters, FirstNoCharacter};
ghost use Rattle.blocks.specs.Numbers.{code_of, number_of, ControlOf, CharacterOf, NamesNoCharacter};

use crate::faults::BlockFault;
use std::error::Error;
use std::fmt;

/// A control, with its three-bit code.
#[derive(Clone, Copy, PartialEq, Eq, Debug)]
pub enum Control {
    /// Idle, and the partner is not ready.
    NotReady = 0,
    Error = 1,
    /// Idle, and the partner is ready.
    Ready = 2,
    LowPower = 5,
}

/// What one octet of a block stands for.
#[derive(Clone, Copy, PartialEq, Eq, Debug)]
pub enum Character {
    Data(u8),
    Control(Control),
}

/// A code that no control has.
#[derive(Clone, Copy, PartialEq, Eq, Debug)]
pub struct NoControl(pub u8);

/// A number that stands for no character.
#[derive(Clone, Copy, PartialEq, Eq, Debug)]
pub struct NoCharacter(pub u16);

impl Control {
    /// The three-bit code.
    // A method and no From: its name says which of a control's two numbers it is.
    pub fn code(self) -> u8
        ensures three_bit_code { result ≡ code_of self }
    {
        self as u8
    }
}

impl TryFrom<u8> for Control {
    type Error = NoControl;

    ghost try_from_gives = { ControlOf };

    fn try_from(code: u8) -> Result<Self, NoControl> {
        match code {
            0 => Ok(Control::NotReady),
            1 => Ok(Control::Error),
            2 => Ok(Control::Ready),
            5 => Ok(Control::LowPower),
            _ => Err(NoControl(code)),
        }
    }
}

impl TryFrom<u16> for Character {
    type Error = NoCharacter;

    ghost try_from_gives = { CharacterOf };

    fn try_from(number: u16) -> Result<Self, NoCharacter> {
        // Each number written out: by Control::try_from the 256 would be taken off, and one error turned into the other.
        match number {
            0..=255 => Ok(Character::Data(number as u8)),
            256 => Ok(Character::Control(Control::NotReady)),
            257 => Ok(Character::Control(Control::Error)),
            258 => Ok(Character::Control(Control::Ready)),
            261 => Ok(Character::Control(Control::LowPower)),
            _ => Err(NoCharacter(number)),
        }
    }
}

impl From<Character> for u16 {
    ghost from_gives = { λ c n. n ≡ number_of c };

    fn from(c: Character) -> u16 {
        match c {
            Character::Data(octet) => u16::from(octet),
            Character::Control(control) => 256 + u16::from(control.code()),
        }
    }
}

/// The characters that numbers stand for, or the place of the first that stands for none.
// A function: between two arrays no TryFrom can be written here.
pub fn parse<const N: usize>(numbers: &[u16; N]) -> Result<[Character; N], BlockFault>
    ensures their_characters_or_first_place { MatchResult result
        (λ characters. (map number_of characters ≡ numbers.now) × Characters numbers.now)
        (λ fault. NamesNoCharacter numbers.now fault) }
{
    let mut characters = [Character::Data(0); N];
    // By number: `place` is what the fault names. `array::try_from_fn` would count it as well, doesn't promise that the fault it
    // answers is the first, and asks for a bound on N.
    for (place, number) in numbers.iter().enumerate() {
        characters[place] = Character::try_from(*number).map_err(|_| BlockFault::NoCharacter {
            place,
        })?;
    }
    Ok(characters)
}

/// The place of the first number that is no character.
// Over numbers: it answers for callers which of theirs would be refused. The first number that is no line symbol, or too large for a
// code, is told likewise in codec and code: one function for all would need a trait for what each clause says. A place for the caller,
// so no error of a Result.
pub fn first_no_character(numbers: &[u16]) -> Option<usize>
    ensures first_place_of_no_character { MatchOption result (Characters numbers.now) (λ place. FirstNoCharacter numbers.now place) }
{
    numbers
        .iter()
        .position(|number| Character::try_from(*number).is_err())
}

impl fmt::Display for Control {
    ghost use Rattle.std.specs.Prelude.{Some};
    ghost use Rattle.blocks.specs.Texts.{control_text};

    ghost output = { λ control. Some (control_text control) };

    fn fmt<W: fmt::Write>(&self, f: &mut fmt::Formatter<W>) -> fmt::Result {
        f.write_str(match self {
            Control::NotReady => "idle, not ready",
            Control::Error => "error",
            Control::Ready => "idle, ready",
            Control::LowPower => "low power",
        })
    }
}

impl fmt::Display for Character {
    ghost use Rattle.std.specs.Prelude.{Some};
    ghost use Rattle.blocks.specs.Texts.{character_text};

    ghost output = { λ c. Some (character_text c) };

    fn fmt<W: fmt::Write>(&self, f: &mut fmt::Formatter<W>) -> fmt::Result {
        match self {
            Character::Data(octet) => write!(f, "{octet}"),
            Character::Control(control) => write!(f, "{control}"),
        }
    }
}

// By hand: `thiserror` would print the same, without a contract for what is printed.
impl fmt::Display for NoControl {
    ghost use Rattle.std.specs.Prelude.{Some, codes, decimal, ◌++◌};

    ghost output = { λ e. Some (codes "no control has the code " ++ decimal e.0) };

    fn fmt<W: fmt::Write>(&self, f: &mut fmt::Formatter<W>) -> fmt::Result {
        write!(f, "no control has the code {}", self.0)
    }
}

impl fmt::Display for NoCharacter {
    ghost use Rattle.std.specs.Prelude.{Some, codes, decimal, ◌++◌};

    ghost output = { λ e. Some (decimal e.0 ++ codes " stands for no character") };

    fn fmt<W: fmt::Write>(&self, f: &mut fmt::Formatter<W>) -> fmt::Result {
        write!(f, "{} stands for no character", self.0)
    }
}

impl Error for NoControl {}

impl Error for NoCharacter {}
