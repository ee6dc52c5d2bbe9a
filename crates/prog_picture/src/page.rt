//! What stands around the marks: the page, its styles, the numbers of the frames, and the colours.
ghost use Rattle.std.specs.Prelude.{◌≤◌, OnOk};
ghost use Rattle.prog_picture.specs.Bars.{AddsNoBar};
ghost use Rattle.prog_picture.specs.Views.{IsView};

use crate::view::View;
use std::alloc::AllocError;
use std::fmt::Write;

/// How many words have a colour of their own. The last colour is that of all others.
pub const COLOURS: usize = 8;

/// The styles of marks and texts, and the colours of words, which show on a light page and on a dark one.
const STYLES: &str = r#"<style>
.q{fill:#fff}
text{font:13px system-ui,sans-serif;fill:#1d232b}
.t{font-size:16px;font-weight:600}.b{font-size:15px;font-weight:700;fill:#c3211f}
.s{font-size:12px;fill:#5a6572}.n{font-size:11px;text-anchor:middle;fill:#10151b}
.a{font-size:11px;text-anchor:middle;fill:#5a6572}
.g{stroke:#5a6572;stroke-opacity:.25;fill:none}.h{stroke:#5a6572;stroke-opacity:.55;fill:none}
.l{stroke:#5a6572;stroke-opacity:.6;fill:none}.w{stroke:#d62728;stroke-width:1.4;fill:none}
.n{paint-order:stroke;stroke:#fff;stroke-opacity:.7;stroke-width:3}
.m{fill:#d62728;fill-opacity:.13}.k{stroke:#d62728;stroke-width:2.5;fill:none}
.r{fill:#d62728}.z{font-size:12px;text-anchor:middle;text-decoration:line-through;fill:#d62728}
.f{fill:#e2622c}.o{fill:none;stroke:#7a8592;stroke-dasharray:3 2}
.y{fill:#fff;fill-opacity:.62}
.u,.v{fill:#8fd19e;stroke:#2e8b4a}.v{stroke-width:3}.x{fill:#f2b8b5;stroke:#d62728}.e{fill:#c9d1da;stroke:#7a8592}
@media (prefers-color-scheme:dark){.q{fill:#14181d}text{fill:#e8ecf0}.b{fill:#ff8078}
.s,.a{fill:#a9b4c0}.n{fill:#fff;stroke:#14181d}.g,.h,.l{stroke:#a9b4c0}.w,.k{stroke:#ff5a52}.r,.z{fill:#ff5a52}
.m{fill:#ff5a52;fill-opacity:.2}.o{stroke:#a9b4c0}.y{fill:#14181d;fill-opacity:.55}
.u,.v{fill:#2e6b40;stroke:#6fce86}.x{fill:#6e2a28;stroke:#ff5a52}.e{fill:#3a444f;stroke:#a9b4c0}}
.c0{fill:#a3adb8}.p0{fill:url(#p0)}
.c1{fill:#4a8fdc}.p1{fill:url(#p1)}
.c2{fill:#37a76b}.p2{fill:url(#p2)}
.c3{fill:#e3a72f}.p3{fill:url(#p3)}
.c4{fill:#9b72d6}.p4{fill:url(#p4)}
.c5{fill:#35b3c6}.p5{fill:url(#p5)}
.c6{fill:#c9824f}.p6{fill:url(#p6)}
.c7{fill:#8a9a3c}.p7{fill:url(#p7)}
</style>
"#;

/// Writes the beginning of the page, which is this wide and tall, with its styles.
pub fn push_head(out: &mut String, width: u32, height: u32) -> Result<(), AllocError>
    ensures { OnOk result (AddsNoBar out.old out.new) }
{
    write!(
        out,
        "<svg xmlns=\"http://www.w3.org/2000/svg\" width=\"{width}\" height=\"{height}\""
    )?;
    writeln!(
        out,
        " viewBox=\"0 0 {width} {height}\" shape-rendering=\"crispEdges\">"
    )?;
    out.push_str(STYLES)?;
    out.push_str("<defs>\n")?;
    for colour in 0..COLOURS {
        push_hatching(out, colour)?;
    }
    writeln!(
        out,
        "</defs><path class=\"q\" d=\"M0 0h{width}v{height}h-{width}z\"/>"
    )
}

/// Writes the pattern of a predicted word.
fn push_hatching(out: &mut String, colour: usize) -> Result<(), AllocError>
    ensures { OnOk result (AddsNoBar out.old out.new) }
{
    write!(out, "<pattern id=\"p{colour}\" width=\"6\" height=\"6\"")?;
    out.push_str(" patternUnits=\"userSpaceOnUse\" patternTransform=\"rotate(45)\">")?;
    write!(out, "<path class=\"c{colour}\" d=\"M0 0h6v6h-6z\"/>")?;
    out.push_str("<path class=\"y\" d=\"M0 0h3v6h-3z\"/></pattern>\n")
}

/// Writes the numbers of frames, and a line at each that is numbered.
pub fn push_axis(out: &mut String, view: &View, top: u32, bottom: u32) -> Result<(), AllocError>
    requires view { IsView view.now }
    requires top { 6 ≤ top }
    ensures { OnOk result (AddsNoBar out.old out.new) }
{
    let every = spacing(view.step);
    for frame in view.from..view.to {
        if frame % every == 0 {
            push_tick(out, frame, view.x_of(frame), top, bottom)?;
        }
    }
    Ok(())
}

/// Writes a frame's number, and the line below it.
fn push_tick(out: &mut String, frame: u32, x: u32, top: u32, bottom: u32) -> Result<(), AllocError>
    requires { 6 ≤ top }
    ensures { OnOk result (AddsNoBar out.old out.new) }
{
    let y = top - 6;
    writeln!(out, "<path class=\"g\" d=\"M{x} {top}V{bottom}\"/>")?;
    writeln!(out, "<text class=\"a\" x=\"{x}\" y=\"{y}\">{frame}</text>")
}

/// Each how many frames one is numbered.
fn spacing(step: u32) -> u32
    ensures { 1 ≤ result }
{
    if step >= 30 {
        1
    } else if step >= 12 {
        5
    } else if step >= 5 {
        10
    } else {
        50
    }
}

/// Writes which word has which colour.
pub fn push_colours(out: &mut String, palette: &[u32], y: u32) -> Result<(), AllocError>
    ensures { OnOk result (AddsNoBar out.old out.new) }
{
    write!(
        out,
        "<g transform=\"translate(12 {y})\"><text class=\"s\" y=\"12\">words</text>"
    )?;
    let mut x = 48u32;
    for (colour, word) in palette.iter().enumerate() {
        write!(out, "<path class=\"c{colour}\" d=\"M{x} 0h24v14h-24z\"/>")?;
        x = x.saturating_add(30);
        write!(out, "<text class=\"s\" x=\"{x}\" y=\"12\">{word}</text>")?;
        x = x.saturating_add(90);
    }
    out.push_str("</g>\n")
}
