//! Items with a zero.
ghost use Rattle.std.specs.Prelude.{◌≡◌, pos};

/// Items with a zero: the whole numbers.
pub trait ZeroItem: Copy {
    /// Zero.
    ghost zero_item: { Self };

    /// Zero.
    fn zero() -> Self
        ensures { result ≡ zero_item };
}

impl ZeroItem for u8 {
    ghost zero_item = { 0 };

    fn zero() -> u8 {
        0
    }
}

impl ZeroItem for u16 {
    ghost zero_item = { 0 };

    fn zero() -> u16 {
        0
    }
}

impl ZeroItem for u32 {
    ghost zero_item = { 0 };

    fn zero() -> u32 {
        0
    }
}

impl ZeroItem for u64 {
    ghost zero_item = { 0 };

    fn zero() -> u64 {
        0
    }
}

impl ZeroItem for u128 {
    ghost zero_item = { 0 };

    fn zero() -> u128 {
        0
    }
}

impl ZeroItem for usize {
    ghost zero_item = { 0 };

    fn zero() -> usize {
        0
    }
}

impl ZeroItem for i8 {
    ghost zero_item = { pos 0 };

    fn zero() -> i8 {
        0
    }
}

impl ZeroItem for i16 {
    ghost zero_item = { pos 0 };

    fn zero() -> i16 {
        0
    }
}

impl ZeroItem for i32 {
    ghost zero_item = { pos 0 };

    fn zero() -> i32 {
        0
    }
}

impl ZeroItem for i64 {
    ghost zero_item = { pos 0 };

    fn zero() -> i64 {
        0
    }
}

impl ZeroItem for i128 {
    ghost zero_item = { pos 0 };

    fn zero() -> i128 {
        0
    }
}

impl ZeroItem for isize {
    ghost zero_item = { pos 0 };

    fn zero() -> isize {
        0
    }
}
