//! Whole numbers as items of a table: they have a zero, and bytes small windows.
use super::{HasSmall, HasZero, NoSmall, TableItem};

impl TableItem for u8 {
    type Zero = HasZero;

    type Small = HasSmall;
}

impl TableItem for u16 {
    type Zero = HasZero;

    type Small = NoSmall;
}

impl TableItem for u32 {
    type Zero = HasZero;

    type Small = NoSmall;
}

impl TableItem for u64 {
    type Zero = HasZero;

    type Small = NoSmall;
}

impl TableItem for u128 {
    type Zero = HasZero;

    type Small = NoSmall;
}

impl TableItem for usize {
    type Zero = HasZero;

    type Small = NoSmall;
}

impl TableItem for i8 {
    type Zero = HasZero;

    type Small = NoSmall;
}

impl TableItem for i16 {
    type Zero = HasZero;

    type Small = NoSmall;
}

impl TableItem for i32 {
    type Zero = HasZero;

    type Small = NoSmall;
}

impl TableItem for i64 {
    type Zero = HasZero;

    type Small = NoSmall;
}

impl TableItem for i128 {
    type Zero = HasZero;

    type Small = NoSmall;
}

impl TableItem for isize {
    type Zero = HasZero;

    type Small = NoSmall;
}
