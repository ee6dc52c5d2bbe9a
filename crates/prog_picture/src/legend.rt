//! What the marks of a picture mean.
ghost use Rattle.std.specs.Prelude.{OnOk};
ghost use Rattle.prog_picture.specs.Bars.{AddsNoBar, LacksBars};

use std::alloc::AllocError;
use std::fmt::Write;

/// How tall the legend is.
pub const LEGEND_HEIGHT: u32 = 66;

const KNOWN: &str = r#"<path class="c1" d="M0 0h24v14h-24z"/>"#;

const RIGHT: &str = r#"<path class="p1" d="M0 0h24v14h-24z"/>"#;

const WRONG: &str =
    r#"<path class="p1" d="M0 0h24v14h-24z"/><path class="r" d="M0 12h24v3h-24z"/><text class="n" x="12" y="11">3</text><text class="z" x="12" y="-3">0</text>"#;

const UNHEARD: &str = r#"<path class="p1" opacity=".45" d="M0 0h24v14h-24z"/>"#;

const CAME: &str = r#"<path class="w" d="M0 0L24 14"/>"#;

const RERUN: &str = r#"<path class="f" d="M0 3h24v9h-24z"/>"#;

const GGPO: &str = r#"<path class="o" d="M0 3h24v9h-24z"/>"#;

/// What the legend says of words, and of bars.
const OF_WORDS: &str =
    "A word is the one that came. If another had been predicted, that one stands above it, struck out, and the \
    word has a red foot. A pale word hasn't come: it is as predicted.";

const OF_BARS: &str =
    "A bar goes back over the frames that a rollback ran again. Its row has no meaning: there are eight, so \
    that bars don't cover each other.";

/// Writes what the marks mean.
pub fn push_legend(out: &mut String, y: u32) -> Result<(), AllocError>
    ensures { OnOk result (AddsNoBar out.old out.new) }
{
    push_meaning(out, 12, y, KNOWN, "known in time")?;
    push_meaning(out, 140, y, RIGHT, "predicted, rightly")?;
    push_meaning(out, 305, y, WRONG, "predicted, wrongly")?;
    push_meaning(out, 470, y, UNHEARD, "hasn't come")?;
    push_meaning(out, 595, y, CAME, "when it came")?;
    push_meaning(out, 725, y, RERUN, "frames run again")?;
    push_meaning(out, 880, y, GGPO, "the same without guesses")?;
    push_note(out, y.saturating_add(34), OF_WORDS)?;
    push_note(out, y.saturating_add(52), OF_BARS)
}

/// Writes a mark, and what it means.
fn push_meaning(
    out: &mut String,
    x: u32,
    y: u32,
    mark: &str,
    meaning: &str,
) -> Result<(), AllocError>
    requires mark { LacksBars mark.now }
    requires meaning { LacksBars meaning.now }
    ensures { OnOk result (AddsNoBar out.old out.new) }
{
    write!(out, "<g transform=\"translate({x} {y})\">{mark}")?;
    writeln!(
        out,
        "<text class=\"s\" x=\"30\" y=\"12\">{meaning}</text></g>"
    )
}

/// Writes a line.
fn push_note(out: &mut String, y: u32, note: &str) -> Result<(), AllocError>
    requires { LacksBars note.now }
    ensures { OnOk result (AddsNoBar out.old out.new) }
{
    writeln!(out, "<text class=\"s\" x=\"12\" y=\"{y}\">{note}</text>")
}
