// The verdict that was found, as a file, and what the judge tells of it.
ghost use Rattle.verdict_file.specs.Files.{impossible};
ghost use Rattle.verdict_file.specs.Writing.{allowed_by};
ghost use Rattle.judge.specs.Issuing.{verdict_found, Issuable, Issued};

use crate::Judged;
use fields::Refusal;
use scratch::SORTED;
use verdict_file::{write_allowed, write_impossible};
use weighing::Weighed;

// Writes the file that says impossible and tells of it.
fn issue_impossible(out: &mut [u8], offset: usize, event: u8) -> Result<Judged, Refusal>
    ensures { Issued (impossible event) out.old offset out.new result }
{
    let length = write_impossible(out, offset, event)?;
    Ok(Judged::Impossible(event, length))
}

// Writes the file that says allowed, with these steps, and tells of it.
fn issue_allowed(out: &mut [u8], offset: usize, steps: &[u64]) -> Result<Judged, Refusal>
    ensures { Issued (allowed_by steps.now)
        out.old offset out.new result }
{
    let length = write_allowed(out, offset, steps)?;
    Ok(Judged::Allowed(steps.len(), length))
}

// Writes the file of the verdict that was found, and tells of it.
pub(crate) fn issue(
    found: Weighed,
    out: &mut [u8],
    offset: usize,
    w: &[u64],
) -> Result<Judged, Refusal>
    requires { Issuable found w.now }
    ensures { Issued (verdict_found found w.now) out.old offset out.new result }
{
    match found {
        Weighed::Allowed(steps) => issue_allowed(out, offset, &w[SORTED..SORTED + steps]),
        Weighed::Impossible(event) => issue_impossible(out, offset, event as u8),
    }
}
