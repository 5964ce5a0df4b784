//! Worked lines.
use crate::standard_bench;
use std::test::Fail;

/// A frame of zeros goes out, its first line symbol is turned into 1, and receiving it repairs that one group.
#[test]
fn one_hit_is_repaired(rt: HostRuntime) -> Result<(), Fail> {
    // The records of the program `worked`, which prints what is compared here: bench would have to export them for one program.
    let mut octets = [0u8; 917];
    octets[..4].copy_from_slice(&[134, 3, 1, 0]);
    octets[906..].copy_from_slice(&[3, 0, 2, 0, 0, 0, 2, 0, 0, 3, 0]);
    let mut bench = standard_bench();
    let mut out = String::new(rt.alloc());
    assert_eq!(rt; bench.run(&octets, &mut out)?, 917);
    assert_eq!(rt; out.as_str(), "1 0\n2 0\n3 0 0 1 0\n");
    Ok(())
}

/// A line of zeros, and after forty of them no lock.
#[test]
fn zeros_are_beyond_repair(rt: HostRuntime) -> Result<(), Fail> {
    let mut bench = standard_bench();
    let mut out = String::new(rt.alloc());
    // Forty times the same: a count, and no index.
    for _ in 0..40u8 {
        out.clear();
        assert_eq!(rt; bench.run(&[0, 0, 3, 0], &mut out)?, 4);
        assert_eq!(rt; out.as_str(), "3 7\n");
    }
    out.clear();
    assert_eq!(rt; bench.run(&[0, 0, 3, 0, 0, 0, 4, 0], &mut out)?, 8);
    assert_eq!(rt; out.as_str(), "3 2\n4 2\n");
    Ok(())
}

/// Records that are none, and a file that ends inside one.
#[test]
fn bad_and_cut_records(rt: HostRuntime) -> Result<(), Fail> {
    let mut bench = standard_bench();
    let mut out = String::new(rt.alloc());
    let octets = [1, 0, 5, 0, 9, 3, 0, 2, 0, 140, 10, 0, 2, 0, 3, 0, 7];
    assert_eq!(rt; bench.run(&octets, &mut out)?, 12);
    bench.end(&[2, 0, 3, 0, 7], &mut out)?;
    bench.end(&[0, 0, 3], &mut out)?;
    bench.end(&[], &mut out)?;
    assert_eq!(rt; out.as_str(), "5 11\n2 11\n3 11\n0 12\n0 12\n");
    Ok(())
}
