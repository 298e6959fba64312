//! The layouts under which the program's windows are held.
ghost use Rattle.std.specs.Prelude.{◌≡◌, refl};
ghost use Rattle.arc_block.specs.LayoutFacts.{layout_facts};
ghost use Rattle.arc_script.specs.Script.{byte_setting, script_setting};
ghost use Rattle.arc_script.specs.declared.layout.ScriptLayout.{ScriptLayout as Named};
ghost use Rattle.arc_script.specs.declared.layout.ScriptLayout.TheVariants as under;

use arc_block::layout::{BoxedSliceLayout, DefaultLayout, Layout, LayoutMut, RawLayout, VecLayout};

/// The layouts under which a script may be run.
#[derive(Clone, Copy, Debug, PartialEq, Eq)]
pub enum ScriptLayout {
    /// `ArcLayout<true, true>`.
    Arc,
    /// `BoxedSliceLayout`.
    Boxed,
    /// `VecLayout`.
    Vec,
    /// `RawLayout`.
    Raw,
}

/// A layout under which a script may be run, by its name.
pub trait NamedLayout: Layout
where
    Self::Writable: LayoutMut,
{
    /// Its name.
    ghost named: { Named };

    /// A script's tables under the layout are run with the setting of its name.
    ghost run_so: { byte_setting (layout_facts Self.Layout) Self.Writable.ANY
        Self.clone_wants ≡ script_setting Self.named };
}

impl NamedLayout for DefaultLayout {
    ghost named = { under.Arc };

    ghost run_so = { refl };
}

impl NamedLayout for BoxedSliceLayout {
    ghost named = { under.Boxed };

    ghost run_so = { refl };
}

impl NamedLayout for VecLayout {
    ghost named = { under.Vec };

    ghost run_so = { refl };
}

impl NamedLayout for RawLayout {
    ghost named = { under.Raw };

    ghost run_so = { refl };
}
