//! The parts of the SVG drawing above and below its rows. All sizes are in pixels.

ghost use Rattle.std.specs.Prelude.{◌≡◌, ◌≤◌, ◌-◌, ◌++◌, OnOk};
ghost use Rattle.diagram.specs.Pictures.{end_picture, head_picture, key, key_name, keys, last_picture, lifeline_name, lifeline_top, lifeline_tops, line_looks, mailbox_if, mailbox_top, measured, paper, text_looks, top_picture, viewed};

use crate::columns::put_last;
use crate::drawing::End;
use crate::lifelines::{class_of, put_group, put_group_end, put_lifeline, x_of};
use crate::page_parts::{put_around, put_text};
use crate::phase::LifelinePhase;
use std::alloc::AllocError;

/// Writes the size of the picture.
#[tactic(auto, unfolding(crate::specs::Pictures::measured))]
fn put_measures(out: &mut Vec<u8>, wide: u64, high: u64) -> Result<(), AllocError>
    ensures { OnOk result (out.new.items ≡ out.old.items ++ measured wide high) }
{
    put_around(
        out,
        b"<svg xmlns='http://www.w3.org/2000/svg' width='",
        wide,
        b"' height='",
    )?;
    put_around(out, b"", high, b"'")
}

/// Writes the view box of the picture.
#[tactic(auto, unfolding(crate::specs::Pictures::viewed))]
fn put_view(out: &mut Vec<u8>, wide: u64, high: u64) -> Result<(), AllocError>
    ensures { OnOk result (out.new.items ≡ out.old.items ++ viewed wide high) }
{
    put_around(out, b" viewBox='0 0 ", wide, b" ")?;
    put_around(out, b"", high, b"'>\n")
}

/// Writes the styles of texts and lifelines.
#[tactic(auto, unfolding(crate::specs::Pictures::text_looks))]
fn put_text_looks(out: &mut Vec<u8>) -> Result<(), AllocError>
    ensures { OnOk result (out.new.items ≡ out.old.items ++ text_looks) }
{
    put_text(
        out,
        b"<title>a run of the lock, time downward</title><style>text{font:12px monospace;fill:#000}.p{font-weight:bold}circle{stroke:#fff}",
    )?;
    put_text(
        out,
        b".rest{fill:#fff;stroke:#777}.doorway{fill:#f0e442;stroke:#555}.waiting{fill:#e69f00;stroke:#555}.section{fill:#0072b2;stroke:#0072b2}",
    )
}

/// Writes the styles of the other marks.
#[tactic(auto, unfolding(crate::specs::Pictures::line_looks))]
fn put_line_looks(out: &mut Vec<u8>) -> Result<(), AllocError>
    ensures { OnOk result (out.new.items ≡ out.old.items ++ line_looks) }
{
    put_text(
        out,
        b".dead{fill:url(#gone);stroke:#fff;stroke-width:2}.crash{fill:none;stroke:#000;stroke-width:2.5}.mailbox{stroke:#555;stroke-width:3}",
    )?;
    put_text(
        out,
        b".join{stroke:#555;stroke-dasharray:2}.against{fill:none;stroke:#d55e00;stroke-width:2}</style>\n",
    )
}

/// Writes the pattern of a dead process's lifeline, and a white background.
#[tactic(auto, unfolding(crate::specs::Pictures::paper))]
fn put_paper(out: &mut Vec<u8>) -> Result<(), AllocError>
    ensures { OnOk result (out.new.items ≡ out.old.items ++ paper) }
{
    put_text(
        out,
        b"<defs><pattern id='gone' width='8' height='6' x='-4' patternUnits='userSpaceOnUse'><rect width='8' height='6' fill='#fff'/>",
    )?;
    put_text(
        out,
        b"<rect x='3' width='2' height='2'/></pattern></defs><rect width='100%' height='100%' fill='#fff'/>\n",
    )
}

/// Writes the name of a colour in the key.
#[tactic(auto, unfolding(crate::specs::Pictures::key_name))]
fn put_key_name(out: &mut Vec<u8>, phase: LifelinePhase) -> Result<(), AllocError>
    ensures { OnOk result (out.new.items ≡ out.old.items ++ key_name phase) }
{
    put_text(out, b"<text x='10' y='12'>")?;
    put_text(out, class_of(phase))?;
    put_text(out, b"</text>")
}

/// Writes what a colour means.
#[tactic(auto, unfolding(crate::specs::Pictures::key))]
fn put_key(out: &mut Vec<u8>, x: u64, phase: LifelinePhase) -> Result<(), AllocError>
    ensures { OnOk result (out.new.items ≡ out.old.items ++ key x phase) }
{
    put_group(out, x, 30)?;
    put_lifeline(out, phase, 14)?;
    put_key_name(out, phase)?;
    put_group_end(out)
}

/// Writes what the colours, the cross and the ring mean.
#[tactic(auto, unfolding(crate::specs::Pictures::keys))]
fn put_keys(out: &mut Vec<u8>) -> Result<(), AllocError>
    ensures { OnOk result (out.new.items ≡ out.old.items ++ keys) }
{
    put_key(out, 24, LifelinePhase::Rest)?;
    put_key(out, 84, LifelinePhase::Doorway)?;
    put_key(out, 168, LifelinePhase::Waiting)?;
    put_key(out, 252, LifelinePhase::Section)?;
    put_key(out, 336, LifelinePhase::Dead)?;
    put_text(
        out,
        b"<path class='crash' d='M394 32l10 10m0 -10l-10 10'/><text x='412' y='42'>crash</text>",
    )?;
    put_text(
        out,
        b"<circle class='against' cx='470' cy='37' r='6'/><text x='482' y='42'>against</text>\n",
    )
}

/// Writes the name of a process above its lifeline.
#[tactic(auto, unfolding(crate::specs::Pictures::lifeline_name))]
fn put_name(out: &mut Vec<u8>, p: u64) -> Result<(), AllocError>
    ensures { OnOk result (out.new.items ≡ out.old.items ++ lifeline_name p) }
{
    put_around(
        out,
        b"<title>process ",
        p,
        b"</title><text class='p' text-anchor='middle' y='-8'>",
    )?;
    put_around(out, b"", p, b"</text>")
}

/// Writes the top of a lifeline.
#[tactic(auto, unfolding(crate::specs::Pictures::lifeline_top))]
fn put_top_of(out: &mut Vec<u8>, p: u64, phase: LifelinePhase, long: u64) -> Result<(), AllocError>
    ensures { OnOk result (out.new.items ≡ out.old.items ++ lifeline_top p phase long) }
{
    put_group(out, x_of(p), 80)?;
    put_name(out, p)?;
    put_lifeline(out, phase, long)?;
    put_group_end(out)
}

/// Writes the tops of the lifelines of all processes.
fn put_tops(out: &mut Vec<u8>, long: u64, phases: &[LifelinePhase]) -> Result<(), AllocError>
    ensures { OnOk result (out.new.items ≡ out.old.items ++ lifeline_tops long 0 phases.now) }
{
    let mut p = 0;
    for phase in phases {
        put_top_of(out, p, *phase, long)?;
        p += 1;
    }
    Ok(())
}

/// Writes the lifeline of the mailbox.
#[tactic(auto, unfolding(crate::specs::Pictures::mailbox_top))]
fn put_mailbox(out: &mut Vec<u8>, x: u64, long: u64) -> Result<(), AllocError>
    ensures { OnOk result (out.new.items ≡ out.old.items ++ mailbox_top x long) }
{
    put_group(out, x, 80)?;
    put_around(
        out,
        b"<title>mailbox</title><text class='p' text-anchor='middle' y='-8'>mailbox</text><path class='mailbox' d='M0 0V",
        long,
        b"'/>",
    )?;
    put_group_end(out)
}

/// Writes the head of the file, and the key.
#[tactic(auto, unfolding(crate::specs::Pictures::head_picture))]
fn put_head(out: &mut Vec<u8>, wide: u64, high: u64) -> Result<(), AllocError>
    ensures { OnOk result (out.new.items ≡ out.old.items ++ head_picture wide high) }
{
    put_measures(out, wide, high)?;
    put_view(out, wide, high)?;
    put_text_looks(out)?;
    put_line_looks(out)?;
    put_paper(out)?;
    put_keys(out)
}

/// Writes the lifeline of the mailbox, where there is one.
fn put_mailbox_if(out: &mut Vec<u8>, mailbox: bool, x: u64, long: u64) -> Result<(), AllocError>
    ensures { OnOk result (out.new.items ≡ out.old.items ++ mailbox_if mailbox x long) }
{
    if mailbox {
        put_mailbox(out, x, long)
    } else {
        Ok(())
    }
}

/// Writes the part above the rows, for this many processes, whose lifelines end at the bottom.
pub fn put_top(
    out: &mut Vec<u8>,
    mailbox: bool,
    procs: u64,
    bottom: u64,
    phases: &[LifelinePhase],
) -> Result<(), AllocError>
    ensures { OnOk result (out.new.items ≡ out.old.items ++ top_picture mailbox procs bottom phases.now) }
{
    let long = bottom.saturating_sub(80);
    put_head(out, x_of(procs) + 300, bottom.saturating_add(40))?;
    put_mailbox_if(out, mailbox, x_of(procs), long)?;
    put_tops(out, long, phases)
}

/// Writes how the run ends, at this height, and the end of the file.
fn put_last_line(out: &mut Vec<u8>, y: u64, end: &End) -> Result<(), AllocError>
    ensures { OnOk result (out.new.items ≡ out.old.items ++ last_picture y end.now) }
{
    put_around(out, b"<text x='20' y='", y, b"'>")?;
    put_last(out, end)?;
    put_text(out, b"</text></svg>\n")
}

/// Writes how the run ends, and the end of the file.
pub fn put_end(out: &mut Vec<u8>, bottom: u64, end: &End) -> Result<(), AllocError>
    ensures { OnOk result (out.new.items ≡ out.old.items ++ end_picture bottom end.now) }
{
    put_last_line(out, bottom.saturating_add(24), end)
}
