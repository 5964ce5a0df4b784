//! Values that can be worked out by hand, by both arithmetics.
use super::*;

/// The powers 9 and 14 of α, and the inverse of 2.
fn products_and_an_inverse<A: Arithmetic>(a: &A) -> [u16; 3] {
    [a.product(256, 2), a.product(272, 2), a.inverse(2)]
}

fn answers_to_large_arguments<A: Arithmetic>(a: &A) -> [u16; 3] {
    [a.sum(517, 3), a.product(1280, 514), a.inverse(65026)]
}

fn inverses_of_zero<A: Arithmetic>(a: &A) -> [u16; 2] {
    [a.inverse(0), a.inverse(512)]
}

#[test]
fn products_and_inverses(rt: HostRuntime) {
    let answers = [
        products_and_an_inverse(&Tabled),
        products_and_an_inverse(&Shifting),
    ];
    assert_eq!(rt; answers, [[17, 49, 264]; 2]);
}

#[test]
fn arguments_above_511(rt: HostRuntime) {
    let answers = [
        answers_to_large_arguments(&Tabled),
        answers_to_large_arguments(&Shifting),
    ];
    assert_eq!(rt; answers, [[6, 17, 264]; 2]);
}

#[test]
fn inverse_of_zero(rt: HostRuntime) {
    let answers = [inverses_of_zero(&Tabled), inverses_of_zero(&Shifting)];
    assert_eq!(rt; answers, [[0, 0]; 2]);
}
