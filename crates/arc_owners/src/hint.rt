//! A hint to the compiler.
ghost use Rattle.std.specs.Prelude.{IsTrue};

/// A value of two cases.
enum Case {
    First,
    Second,
}

/// Tells the compiler that this holds, so that it makes no test of what is excluded. `unreachable!`
/// leaves the test and a trap.
///
/// # Safety
///
/// It holds.
#[inline(always)]
pub unsafe fn assert_unchecked(holds: bool)
    requires { IsTrue holds }
{
    if holds {
        return;
    }
    // There is no third case: the compiler knows that the `match` isn't reached with this number.
    let number: u8 = 2;
    let at = &raw const number;
    match unsafe { (at as *const Case).read() } {
        Case::First => unreachable!(),
        Case::Second => unreachable!(),
    }
}
