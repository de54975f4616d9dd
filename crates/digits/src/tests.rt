// The edges of the domains, zeros, powers, and halves at every precision.
use crate::showing::{NumberFault, bare, rounded};
use crate::spelling::whole;
use std::test::Fail;

#[test]
fn edges(rt: HostRuntime) -> Result<(), Fail> {
    assert_eq!(rt; bare(1099511627776.0)?.text(), b"1099511600000".as_slice());
    assert_eq!(rt;
        rounded(-1099511627776.0, 0)?.text(),
        b"-1099511627776".as_slice()
    );
    assert_eq!(rt;
        bare(1099511758848.0).err(),
        Some(NumberFault::OutsideDomain)
    );
    assert_eq!(rt;
        rounded(-1099511758848.0, 8).err(),
        Some(NumberFault::OutsideDomain)
    );
    assert_eq!(rt; bare(1e-8)?.text(), b"0.00000001".as_slice());
    assert_eq!(rt; bare(9.999999e-9).err(), Some(NumberFault::OutsideDomain));
    assert_eq!(rt; rounded(9.999999e-9, 8)?.text(), b"0.00000001".as_slice());
    assert_eq!(rt;
        rounded(1.0, 9).err(),
        Some(NumberFault::PrecisionAboveEight)
    );
    Ok(())
}

#[test]
fn not_finite(rt: HostRuntime) {
    let zero = 0.0;
    assert_eq!(rt; bare(1.0 / zero).err(), Some(NumberFault::OutsideDomain));
    assert_eq!(rt; bare(zero / zero).err(), Some(NumberFault::OutsideDomain));
    assert_eq!(rt;
        rounded(-1.0 / zero, 0).err(),
        Some(NumberFault::OutsideDomain)
    );
    assert_eq!(rt;
        rounded(zero / zero, 0).err(),
        Some(NumberFault::OutsideDomain)
    );
}

#[test]
fn zeros(rt: HostRuntime) -> Result<(), Fail> {
    assert_eq!(rt; bare(0.0)?.text(), b"0".as_slice());
    assert_eq!(rt; bare(-0.0)?.text(), b"-0".as_slice());
    assert_eq!(rt; rounded(-0.0, 4)?.text(), b"0".as_slice());
    assert_eq!(rt; rounded(-0.25, 0)?.text(), b"-0".as_slice());
    assert_eq!(rt; rounded(5.6e-45, 8)?.text(), b"0".as_slice());
    assert_eq!(rt; rounded(-5.6e-45, 8)?.text(), b"-0".as_slice());
    Ok(())
}

#[test]
fn powers_of_two(rt: HostRuntime) -> Result<(), Fail> {
    assert_eq!(rt; bare(1.0)?.text(), b"1".as_slice());
    assert_eq!(rt; bare(0.125)?.text(), b"0.125".as_slice());
    assert_eq!(rt; bare(-0.0009765625)?.text(), b"-0.0009765625".as_slice());
    assert_eq!(rt; bare(16777216.0)?.text(), b"16777216".as_slice());
    assert_eq!(rt; bare(2147483648.0)?.text(), b"2147483600".as_slice());
    assert_eq!(rt; rounded(2147483648.0, 3)?.text(), b"2147483648".as_slice());
    Ok(())
}

#[test]
fn powers_of_ten(rt: HostRuntime) -> Result<(), Fail> {
    assert_eq!(rt; bare(0.1)?.text(), b"0.1".as_slice());
    assert_eq!(rt; bare(0.000001)?.text(), b"0.000001".as_slice());
    assert_eq!(rt; bare(1000000000.0)?.text(), b"1000000000".as_slice());
    assert_eq!(rt; bare(-1e12)?.text(), b"-1000000000000".as_slice());
    assert_eq!(rt; rounded(1e12, 1)?.text(), b"999999995904".as_slice());
    Ok(())
}

#[test]
fn halves_at_low_precisions(rt: HostRuntime) -> Result<(), Fail> {
    assert_eq!(rt; rounded(0.5, 0)?.text(), b"1".as_slice());
    assert_eq!(rt; rounded(-2.5, 0)?.text(), b"-3".as_slice());
    assert_eq!(rt; rounded(0.25, 1)?.text(), b"0.3".as_slice());
    assert_eq!(rt; rounded(0.125, 2)?.text(), b"0.13".as_slice());
    assert_eq!(rt; rounded(0.0625, 3)?.text(), b"0.063".as_slice());
    assert_eq!(rt; rounded(0.03125, 4)?.text(), b"0.0313".as_slice());
    Ok(())
}

#[test]
fn halves_at_high_precisions(rt: HostRuntime) -> Result<(), Fail> {
    assert_eq!(rt; rounded(0.015625, 5)?.text(), b"0.01563".as_slice());
    assert_eq!(rt; rounded(0.0078125, 6)?.text(), b"0.007813".as_slice());
    assert_eq!(rt; rounded(0.00390625, 7)?.text(), b"0.0039063".as_slice());
    assert_eq!(rt; rounded(0.001953125, 8)?.text(), b"0.00195313".as_slice());
    assert_eq!(rt; rounded(2097152.25, 8)?.text(), b"2097152.3".as_slice());
    Ok(())
}

#[test]
fn whole_numbers(rt: HostRuntime) {
    assert_eq!(rt; whole(0).text(), b"0".as_slice());
    assert_eq!(rt; whole(400).text(), b"400".as_slice());
    assert_eq!(rt; whole(65535).text(), b"65535".as_slice());
    assert_eq!(rt;
        whole(18446744073709551615).text(),
        b"18446744073709551615".as_slice()
    );
}
