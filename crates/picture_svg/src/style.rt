//! How a picture looks, by day and by night.

ghost use Rattle.std.specs.Prelude.{◌≡◌};

// The style of a picture, and the hatchings.
pub(crate) const STYLE: &[u8] = b"<style>text{font:12px monospace;fill:#1f2933}
.z,.h{fill:#fff}.h{fill-opacity:0}.n,.k,.d,.s{text-anchor:middle}.n,.a{font-weight:bold}.k{fill:#52606d}
.g{stroke:#9aa5b1}.b{fill:#e9f1fb;stroke:#5b84b1}.t{fill:#c3d9f3}.c{fill:#fff;stroke:#5b84b1}
.w{fill:#d5efd9;stroke:#3f8f52}.f{fill:url(#q);stroke:#c62f3b}.x{fill:url(#p);stroke:#c62f3b}
.m{stroke:#b35c00;stroke-dasharray:5 4}.s{font:bold 20px monospace;fill:#b35c00}
.r{stroke:#c62f3b;stroke-width:3}.y{fill:url(#p);fill-opacity:.5}.e{font-weight:bold;fill:#c62f3b}
.o{fill:#eba0a6}.i{stroke:#c62f3b;stroke-width:2;stroke-opacity:.45}.j{stroke:#c62f3b;stroke-opacity:.35}
@media(prefers-color-scheme:dark){text{fill:#e4e7eb}.z{fill:#12181f}.k{fill:#9aa5b1}.g{stroke:#52606d}
.b{fill:#1c2b3d;stroke:#6f9fd8}.t{fill:#29476b}.c{fill:#12181f;stroke:#6f9fd8}.w{fill:#1d3d26;stroke:#5fb574}
.s{fill:#f0a04b}.m{stroke:#f0a04b}.e{fill:#ff8a8f}.o{fill:#8f434d}.i,.j{stroke:#ffb3b8}}
</style>
<defs><pattern id='p' width='8' height='8' patternUnits='userSpaceOnUse'><rect class='o' width='8' height='8'/>
<path class='i' d='M-2 2L2 -2M0 8L8 0M6 10L10 6'/></pattern>
<pattern id='q' width='12' height='12' patternUnits='userSpaceOnUse'><rect class='o' width='12' height='12'/>
<path class='j' d='M-2 2L2 -2M0 12L12 0M10 14L14 10'/></pattern></defs>
";

/// The style of a picture, and the hatchings.
pub(crate) fn style() -> &'static [u8]
    ensures value { result.now ≡ STYLE.now }
{
    STYLE
}

pub(crate) const SEEN_STYLE: &[u8] = b"<style>.q{fill:#5b84b1;fill-opacity:.16}</style>
";

/// The style of what hosts saw.
pub(crate) fn seen_style() -> &'static [u8]
    ensures value { result.now ≡ SEEN_STYLE.now }
{
    SEEN_STYLE
}

pub(crate) const BARS: &[u8] =
    b"A bar is an entry, from its publish to its reap; in it its ticket, from its fetch to its post.";

pub(crate) const MARKS: &[u8] =
    b"* is where a unit takes effect. Hatched red: a Compare that differs, and commands that failed.";

/// What bars are.
pub(crate) fn bars_note() -> &'static [u8]
    ensures value { result.now ≡ BARS.now }
{
    BARS
}

/// What marks and hatchings are.
pub(crate) fn marks_note() -> &'static [u8]
    ensures value { result.now ≡ MARKS.now }
{
    MARKS
}
