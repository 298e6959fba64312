//! How many bytes a window may have in itself.
ghost use Rattle.std.specs.Prelude.{◌≡◌};
ghost use Rattle.arc_block.specs.Inline.{inline_limit};

/// The most bytes that a window has in itself, under every layout.
#[inline(always)]
pub fn inline_limit() -> usize
    ensures { result ≡ inline_limit }
{
    30
}
