//! How the lanes look, by day and by night.

ghost use Rattle.std.specs.Prelude.{◌≡◌};

pub(crate) const LANE_STYLE: &[u8] = b"<style>.v{fill-opacity:.35;stroke:#5b84b1}
.u{fill:none;stroke:#9aa5b1}.l{stroke-dasharray:4 3}
@media(prefers-color-scheme:dark){.v{stroke:#6f9fd8}.u{stroke:#52606d}}</style>
";

/// The style of the lanes.
pub(crate) fn lane_style() -> &'static [u8]
    ensures value { result.now ≡ LANE_STYLE.now }
{
    LANE_STYLE
}
