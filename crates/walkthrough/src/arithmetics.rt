//! The two arithmetics, side by side.
use arithmetic::{Arithmetic, Shifting, Tabled, WorkedValues, arithmetics_agree, worked_values};
use std::io;

/// A few products by both.
pub(crate) fn products(rt: &HostRuntime) -> io::Result<()> {
    println!(rt; "Products, by tables and by shifting:")?;
    let factors = [
        (2u16, 256u16),
        (17, 32),
        (300, 400),
        (511, 511),
        (2, 264),
        (514, 1280),
        (0, 123),
    ];
    for (a, b) in factors {
        let tabled = Tabled.product(a, b);
        let shifting = Shifting.product(a, b);
        let agree = arithmetics_agree(&Tabled, &Shifting, a, b);
        println!(rt; "  {a} times {b} is {tabled} and {shifting}, all answers agree: {agree}")?;
    }
    Ok(())
}

/// The worked values.
pub(crate) fn examples(rt: &HostRuntime) -> io::Result<()> {
    let WorkedValues {
        ninth_power,
        fourteenth_power,
        inverse_of_two,
    } = worked_values();
    println!(rt;
        "Powers of alpha: the 9th is {ninth_power}, the 14th is {fourteenth_power}; the inverse of 2 is {inverse_of_two}"
    )
}
